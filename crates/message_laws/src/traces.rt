// What a sound trace gives.
ghost use Rattle.std.specs.Prelude.{◌≡◌, ◌≢◌, ◌<◌, ◌≤◌, ◌*◌, ℕ, None, length};
ghost use Rattle.message_laws.specs.Behaviour.{IsLawful};
ghost use Rattle.message_laws.specs.System.{most_weight};
ghost use Rattle.message_laws.specs.Traces.{Trace, IsSound, behaviour_of};

/// The behaviour of the ranks along a sound trace keeps all that the laws of every order of steps need.
pub fn sound_traces_are_lawful()
    ensures { (t : Trace) → IsSound t → IsLawful (behaviour_of t) }
{}

/// So often at most do the steps of the ranks change the state.
pub fn weight_is_bounded()
    ensures { (t : Trace) → IsSound t → (most : ℕ) → ((c r : ℕ) → c < t.count → r < t.ranks → length (t.actions c r) ≤ most) → most_weight (behaviour_of t) ≤ t.ranks * (most * t.count) }
{}

/// There are sound traces, also with a fault of one rank alone.
pub fn sound_traces_exist()
    ensures { (t : Trace) × IsSound t × (t.noted 0 ≢ None) × (0 < most_weight (behaviour_of t)) }
{}
