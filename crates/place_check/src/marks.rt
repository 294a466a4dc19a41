// What happens to an item, kept in one mark for each condition.
ghost use Rattle.std.specs.Prelude.{◌≡◌, Some};
ghost use Rattle.fd_prog.specs.Paths.{happening_of};
ghost use Rattle.place_check.specs.Marks as marks;
ghost use Rattle.place_check.specs.Marks.{onward, after, if_so, arrival, departure};

use crate::verdict::Condition;
use fd_base::ItemNo;
use fd_prog::Event;

/// What happens to an item at a node.
#[derive(Clone, Copy)]
pub struct Doings {
    pub sent_in: bool,
    pub received_in: bool,
    pub taken: bool,
    pub hoisted: bool,
    pub stolen: bool,
    pub sent_out: bool,
    pub received_out: bool,
}

/// A node where nothing happens to it.
pub const QUIET: Doings = Doings {
    sent_in: false,
    received_in: false,
    taken: false,
    hoisted: false,
    stolen: false,
    sent_out: false,
    received_out: false,
};

/// The mark says that a send is open.
fn balanced(event: Event, mark: bool) -> Option<bool>
    ensures { result ≡ marks.moved Condition.Balanced (happening_of event) mark }
{
    match event {
        Event::Send(_) => unless(mark, true),
        Event::Recv(_) => unless(!mark, false),
        Event::Take(_) => Some(mark),
        Event::Hoist(_) => Some(mark),
        Event::Steal(_) => unless(mark, false),
    }
}

/// The mark says that the item has come and wasn't stolen since.
fn covered(event: Event, mark: bool) -> Option<bool>
    ensures { result ≡ marks.moved Condition.Covered (happening_of event) mark }
{
    match event {
        Event::Send(_) => Some(mark),
        Event::Recv(_) => Some(true),
        Event::Take(_) => unless(!mark, true),
        Event::Hoist(_) => Some(mark),
        Event::Steal(_) => Some(false),
    }
}

/// The mark says that a send wasn't used yet.
fn used(event: Event, mark: bool) -> Option<bool>
    ensures { result ≡ marks.moved Condition.Used (happening_of event) mark }
{
    match event {
        Event::Send(_) => Some(true),
        Event::Recv(_) => Some(mark),
        Event::Take(_) => Some(false),
        Event::Hoist(_) => Some(false),
        Event::Steal(_) => unless(mark, mark),
    }
}

/// This mark, unless the condition is broken.
fn unless(broken: bool, mark: bool) -> Option<bool>
    ensures { result ≡ marks.unless broken mark }
{
    if broken { None } else { Some(mark) }
}

/// The mark after an event that comes or not.
fn when(condition: Condition, so: bool, event: Event, mark: Option<bool>) -> Option<bool>
    ensures { result ≡ onward mark (after condition (if_so so (happening_of event))) }
{
    let before = mark?;
    if !so {
        return Some(before);
    }
    match condition {
        Condition::Balanced => balanced(event, before),
        Condition::Covered => covered(event, before),
        Condition::Used => used(event, before),
    }
}

/// The mark, unless the path ends here and may not.
pub fn ended(condition: Condition, at_end: bool, mark: Option<bool>) -> Option<bool>
    ensures { result ≡ marks.ended condition at_end mark }
{
    let before = mark?;
    match condition {
        Condition::Covered => Some(before),
        Condition::Balanced => unless(at_end && before, before),
        Condition::Used => unless(at_end && before, before),
    }
}

/// The mark after what happens at the `in` of a node and at it.
pub fn arrived(condition: Condition, item: ItemNo, here: Doings, mark: bool) -> Option<bool>
    ensures { result ≡ after condition (arrival here) mark }
{
    let sent = when(condition, here.sent_in, Event::Send(item), Some(mark));
    let received = when(condition, here.received_in, Event::Recv(item), sent);
    let taken = when(condition, here.taken, Event::Take(item), received);
    let hoisted = when(condition, here.hoisted, Event::Hoist(item), taken);
    when(condition, here.stolen, Event::Steal(item), hoisted)
}

/// The mark after what happens at the `out` of a node.
pub fn left(condition: Condition, item: ItemNo, here: Doings, mark: bool) -> Option<bool>
    ensures { result ≡ after condition (departure here) mark }
{
    let sent = when(condition, here.sent_out, Event::Send(item), Some(mark));
    when(condition, here.received_out, Event::Recv(item), sent)
}
