// What follows from the definitions of a rank's steps.
ghost use Rattle.std.specs.Prelude.{◌≡◌, ◌≢◌};
ghost use Rattle.exec_code.specs.Instructions.{FlatJob};
ghost use Rattle.rank_acts.specs.Memories.{Memory, Running};
ghost use Rattle.rank_acts.specs.Acts.{Rests, act};
ghost use Rattle.rank_acts.specs.Standings.{StandsAt};

/// Only a rank that runs does anything.
pub fn acts_need_running()
    ensures { (j : FlatJob) (m : Memory) → m.status ≢ Running → act j m ≡ Rests }
{}
