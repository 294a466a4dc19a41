// The laws of one rank and the stop word.
ghost use Rattle.std.specs.Prelude.{◌≤◌, ℕ, Bool};
ghost use Rattle.message_laws.specs.Behaviour.{Behaviour, IsLawful};
ghost use Rattle.message_laws.specs.System.{Standing, stepped, stop_after};
ghost use Rattle.message_laws.specs.Facts.{RankOk, StopOk, HeardOk};

/// A rank that steps stays as it must, whether it finds its message or not.
pub fn rank_stays_right()
    ensures { (b : Behaviour) → IsLawful b → (r : ℕ) (s : Standing) (found : Bool) (stop : ℕ) → RankOk b r s → StopOk b stop → RankOk b r (stepped b r s found stop) }
{}

/// The stop word stays as it must.
pub fn stop_stays_right()
    ensures { (b : Behaviour) → IsLawful b → (r : ℕ) (s : Standing) (stop : ℕ) → StopOk b stop → StopOk b (stop_after b r s stop) }
{}

/// The stop word never rises.
pub fn stop_falls()
    ensures { (b : Behaviour) (r : ℕ) (s : Standing) (stop : ℕ) → stop_after b r s stop ≤ stop }
{}

/// A rank that faults has told its steps, to the stop word or to a number that the stop word isn't above; what it loaded for a take may be another number.
pub fn told_when_faulted()
    ensures { (b : Behaviour) (r : ℕ) (s : Standing) (found : Bool) (loaded heard : ℕ) → HeardOk b r s heard → HeardOk b r (stepped b r s found loaded) (stop_after b r s heard) }
{}

/// What was told stays told when the stop word falls.
pub fn told_stays_told()
    ensures { (b : Behaviour) (r : ℕ) (s : Standing) (stop later : ℕ) → HeardOk b r s stop → later ≤ stop → HeardOk b r s later }
{}
