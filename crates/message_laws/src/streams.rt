// The law of messages, for Send and Recv.
ghost use Rattle.std.specs.Prelude.{◌≡◌, ◌<◌, ◌≤◌, ◌*◌, ℕ, None, Some, length};
ghost use Rattle.message_laws.specs.Behaviour.{Take};
ghost use Rattle.message_laws.specs.Traces.{Trace, nth, IsSent, got_before, sent_before};
ghost use Rattle.message_laws.specs.Protocol.{Event, Exchange, HasExchange, IsMatched, message_steps};

/// Where each Recv follows a Send of its item, each take has its message: the one of the same number among those of its tag, which
/// was posted at an earlier configuration, or at the same one in the sender's first half.
pub fn takes_have_messages()
    ensures { (t : Trace) (x : Exchange) → HasExchange t x → IsMatched t x → (c r k q tag : ℕ) → c < t.count → r < t.ranks → nth (t.actions c r) k ≡ Some (Take q tag) → (q < t.ranks) × IsSent t q r tag c k }
{}

/// Where no fault is noted, all messages are taken.
pub fn messages_are_taken()
    ensures { (t : Trace) (x : Exchange) → HasExchange t x → IsMatched t x → ((c : ℕ) → t.noted c ≡ None) → (q r tag : ℕ) → q < t.ranks → r < t.ranks → got_before t q r tag t.count ≡ sent_before t q r tag t.count }
{}

/// A rank has at most three message steps for each rank at one configuration.
pub fn message_steps_are_few()
    ensures { (x : Exchange) (n c q : ℕ) (e : Event) → length (message_steps x n c e q) ≤ 3 * n }
{}
