// The box.
ghost use Rattle.std.specs.Prelude.{◌≡◌, ◌+◌, ◌^◌, ◌<◌, ◌≤◌, ◌++◌, ◌∷◌, max, [], length, option_map, IfNone, IfOk, IfErr};
ghost use Rattle.mailbox_book.specs.Boxes.{count_waiting, counts_of, first_of, fresh, headers_of, message, most_tags, tag_number, without_first};

use crate::counting::{Counts, count};
use crate::message::{Header, Message, MsgKind, PostRefused, Tag};
use crate::pool::Pool;
use fd_base::Memory;
use std::alloc::Global;
use std::marker::Model;

/// A queue for each kind of each item from 0 to 512.
const TAGS: u32 = 1026;

/// The messages from one rank to another, with the headers of all that were ever posted. Of each tag the last ones wait, as many as
/// are in its queue.
#[derive(Drop)]
pub struct Mailbox {
    headers: Vec<Header>,
    pool: Pool,
}

impl Model for Mailbox {
    ghost use Rattle.mailbox_book.specs.Boxes.{Box as Kept, box_code};

    ghost Value = { Kept };

    ghost coded = { box_code };

    ghost use Rattle.mailbox_book.specs.Marks.{IsKept, entries_of, queue_at};

    ghost view = { λ m. record { entries = entries_of (queue_at m.pool.queues) m.headers.items; slots = m.pool.slots } };

    ghost invariant = { λ m. IsKept m.pool.queues m.headers.items };
}

/// The number of a tag, which is that of its queue.
fn number_of(tag: Tag) -> u32
    requires { tag.item.0 ≤ 512 }
    ensures number { result ≡ tag_number tag }
    ensures below { result < most_tags }
{
    let kind = match tag.kind {
        MsgKind::Request => 0,
        MsgKind::Reply => 1,
    };
    2 * u32::from(tag.item.0) + kind
}

impl Mailbox {
    /// A box to which nothing was posted.
    pub fn new(alloc: Global) -> Result<Mailbox, Memory>
        ensures { IfOk result (λ b. b ≡ record { entries = []; slots = 0 }) }
    {
        let pool = Pool::new(alloc, TAGS)?;
        Ok(Mailbox {
            headers: Vec::new(alloc),
            pool,
        })
    }

    /// Puts a message into the box. After want of memory the box is as before, and the message is handed back.
    pub fn post(&mut self, m: Message) -> Result<(), PostRefused>
        requires item { m.tag.item.0 ≤ 512 }
        requires numbers { length m.numbers < 2 ^ 32 }
        ensures posted { IfOk result (λ done. self.new.entries ≡ self.old.entries ++ fresh (tag_number m.tag) m.numbers ∷ []) }
        ensures slots { IfOk result (λ done. self.new.slots ≡ max self.old.slots (count_waiting self.old.entries + 1)) }
        ensures kept { IfErr result (λ refused. self.new ≡ self.old) }
        ensures back { IfErr result (λ refused. refused.message ≡ m) }
    {
        let tag = m.tag;
        let header = Header {
            tag,
            count: m.numbers.len() as u32,
        };
        if self.headers.push(header).is_err() {
            return Err(PostRefused { message: m });
        }
        let numbers = m.numbers;
        match self.pool.put(number_of(tag), numbers) {
            Ok(()) => Ok(()),
            Err(numbers) => {
                self.headers.pop();
                Err(PostRefused {
                    message: Message { tag, numbers },
                })
            }
        }
    }

    /// Takes the earliest message of a tag out of the box; None exactly where no message of it waits.
    pub fn take(&mut self, tag: Tag) -> Option<Message>
        requires { tag.item.0 ≤ 512 }
        ensures message { result ≡ option_map (message tag) (first_of (tag_number tag) self.old.entries) }
        ensures rest { self.new ≡ record { entries = without_first (tag_number tag) self.old.entries; slots = self.old.slots } }
        ensures none { IfNone result (self.new ≡ self.old) }
    {
        match self.pool.take(number_of(tag)) {
            None => None,
            Some(numbers) => Some(Message { tag, numbers }),
        }
    }

    /// How many messages of each kind were ever posted, and how many values the Replies carried.
    pub fn counts(&self) -> Counts
        ensures { result ≡ counts_of (headers_of self.now.entries) }
    {
        count(self.headers.as_slice())
    }

    /// How many slots there are: the most messages that ever waited at one time.
    pub fn slots(&self) -> u32
        ensures { result ≡ self.now.slots }
    {
        self.pool.slots()
    }

    /// The headers of all messages ever posted, in order.
    pub fn headers(&self) -> &[Header]
        ensures { result.now ≡ headers_of self.now.entries }
    {
        self.headers.as_slice()
    }
}
