// The laws of whole states.
ghost use Rattle.std.specs.Prelude.{◌≡◌, ◌≢◌, ◌<◌, ◌≤◌, ◌+◌, ◌⊎◌, ℕ, suc, List, None};
ghost use Rattle.fd_prog.specs.declared.run.Outcome.{Outcome as RunOutcome};
ghost use Rattle.message_laws.specs.Behaviour.{Behaviour, IsLawful};
ghost use Rattle.message_laws.specs.Boxes.{box_of};
ghost use Rattle.message_laws.specs.System.{Running, Standing, Answer, Waited, answer_of, State, first_state, places_of, Waits, Leads, Can, Pick, IsInterleaving, reached, IsComplete, event_of, swept, weight, most_weight, changes, Moves};
ghost use Rattle.message_laws.specs.Facts.{Facts};
ghost use Rattle.message_laws.specs.Follows.{Boxes, Follows, AreBoxesOf, state_behind};
ghost use Rattle.message_laws.specs.Outcomes.{IsFirstFault, IsRight, IsEmptied};

/// The first state has the facts.
pub fn first_state_has_facts()
    ensures { (b : Behaviour) → Facts b first_state }
{}

/// Every state has a step of each rank.
pub fn states_have_steps()
    ensures { (b : Behaviour) (s : State) (r : ℕ) → Leads b s r (event_of b s r) }
{}

/// Each step keeps the facts.
pub fn steps_keep_facts()
    ensures { (b : Behaviour) → IsLawful b → (s : State) (r : ℕ) (next : State) → r < b.ranks → Facts b s → Can b s r next → Facts b next }
{}

/// A step leaves the state as it is, or raises its weight by one.
pub fn steps_raise_weight()
    ensures { (b : Behaviour) (s : State) (r : ℕ) (next : State) → r < b.ranks → Can b s r next → (next ≡ s) ⊎ (weight b next ≡ suc (weight b s)) }
{}

/// Along an interleaving the state changes only so often.
pub fn changes_are_bounded()
    ensures { (b : Behaviour) → IsLawful b → (s : State) → Facts b s → (picks : List Pick) → IsInterleaving b s picks → changes b s picks + weight b s ≤ most_weight b }
{}

/// While a rank runs, the step of some rank changes the state.
pub fn some_rank_moves()
    ensures { (b : Behaviour) → IsLawful b → (s : State) → Facts b s → IsComplete b s ⊎ Moves b s }
{}

/// Where a rank waits, another runs.
pub fn another_rank_runs()
    ensures { (b : Behaviour) → IsLawful b → (s : State) → Facts b s → (r : ℕ) → r < b.ranks → Waits b s r → (q : ℕ) × (q < b.ranks) × (q ≢ r) × ((s.at q).status ≡ Running) }
{}

/// A whole sweep changes a state that isn't complete.
pub fn sweeps_raise_weight()
    ensures { (b : Behaviour) → IsLawful b → (s : State) → Facts b s → IsComplete b s ⊎ (weight b s < weight b (swept b s b.ranks)) }
{}

/// Every interleaving keeps the facts, goes on while a rank runs, and ends with the first fault of the trace and the lines before it.
pub fn interleavings_are_right()
    ensures { (b : Behaviour) → IsLawful b → 0 < b.ranks → (s : State) → Facts b s → (picks : List Pick) → IsInterleaving b s picks → (o : RunOutcome) → IsFirstFault b o → IsRight b (reached s picks) o }
{}

/// Where the trace notes no fault, each box of a complete state lists all messages, and all were taken.
pub fn good_end_empties_boxes()
    ensures { (b : Behaviour) → IsLawful b → (s : State) → Facts b s → IsComplete b s → ((c : ℕ) → b.noted c ≡ None) → (q r : ℕ) → q < b.ranks → r < b.ranks → IsEmptied b q r (box_of b q r (places_of s q) (places_of s r)) }
{}

/// What follows the contract of one step leads to a next state.
pub fn followed_steps_lead()
    ensures { (b : Behaviour) → IsLawful b → (s : State) (r : ℕ) (new : Standing) (boxes after : Boxes) (left : ℕ) → r < b.ranks → AreBoxesOf b s boxes → Follows b r (s.at r) new boxes after s.stop left → Leads b s r (state_behind s r new left) }
{}

/// It leaves the boxes of that state.
pub fn followed_steps_leave_boxes()
    ensures { (b : Behaviour) → IsLawful b → (s : State) (r : ℕ) (new : Standing) (boxes after : Boxes) (left : ℕ) → r < b.ranks → Facts b s → AreBoxesOf b s boxes → Follows b r (s.at r) new boxes after s.stop left → AreBoxesOf b (state_behind s r new left) after }
{}

/// A step that answers Waited is of a rank that waits.
pub fn waited_ranks_wait()
    ensures { (b : Behaviour) (s : State) (r : ℕ) → answer_of b s r ≡ Waited → Waits b s r }
{}
