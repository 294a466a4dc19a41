// Messages and their headers.
use fd_base::{ItemNo, NumList};

/// Which of the two messages of an item.
#[derive(Clone, Copy)]
pub enum MsgKind {
    /// The elements that a rank needs.
    Request,
    /// The values of elements.
    Reply,
}

/// What a message is about. Items are numbered from 1, and 0 is none of them.
#[derive(Clone, Copy)]
pub struct Tag {
    pub item: ItemNo,
    pub kind: MsgKind,
}

/// A message, with the numbers that it carries.
#[derive(Drop)]
pub struct Message {
    pub tag: Tag,
    pub numbers: NumList,
}

/// What is kept of a message for good: its tag, and how many numbers it carried.
#[derive(Clone, Copy)]
pub struct Header {
    pub tag: Tag,
    pub count: u32,
}

/// There was no memory for a message, which is handed back.
#[derive(Drop)]
pub struct PostRefused {
    pub message: Message,
}
