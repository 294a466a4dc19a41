//! A box of messages from one rank to another: first in, first out for each tag, with the headers of all that were ever posted.
#![tactic(auto)]

mod counting;
mod laws;
mod mailbox;
mod message;
mod pool;
#[cfg(test)]
mod rows;

pub use counting::Counts;
pub use laws::{
    boxes_are_queues, headers_are_kept, tags_are_apart, taken_at_most_once, takes_get_the_earliest,
};
pub use mailbox::Mailbox;
pub use message::{Header, Message, MsgKind, PostRefused, Tag};
