// A worked row of a box, and one message after another in one slot.
use crate::{Mailbox, Message, MsgKind, Tag};
use fd_base::{ItemNo, Memory, NumList};
use std::alloc::Global;
use std::process::Abort;
use std::test::Fail;

/// A call of a box: the post of a number other than 0, or a take, which has 0.
type Call = (MsgKind, u16, i64);

/// What a call gives: a post its number, and a take the number of its message, or 0 where none waits.
fn answer(alloc: Global, mailbox: &mut Mailbox, call: Call) -> Result<i64, Memory> {
    let (kind, item, number) = call;
    let tag = Tag {
        item: ItemNo(item % 513),
        kind,
    };
    if number == 0 {
        return Ok(taken(mailbox.take(tag)));
    }
    let numbers = NumList::from_slice(alloc, &[number])?;
    match mailbox.post(Message { tag, numbers }) {
        Ok(()) => Ok(number),
        Err(_) => Err(Memory),
    }
}

fn taken(message: Option<Message>) -> i64 {
    match message {
        None => 0,
        Some(message) => message.numbers.get(0).copied().unwrap_or(-1),
    }
}

/// The answers of calls of a new box, and then how many headers, Requests, Replies, values and slots it has.
fn play(alloc: Global, calls: &[Call]) -> Result<Vec<i64>, Memory> {
    let mut mailbox = Mailbox::new(alloc)?;
    let mut answers = Vec::new(alloc);
    for call in calls {
        answers.push(answer(alloc, &mut mailbox, *call)?)?;
    }
    answers.extend_from_slice(&told(&mailbox))?;
    Ok(answers)
}

fn told(mailbox: &Mailbox) -> [i64; 5] {
    let counts = mailbox.counts();
    [
        small(mailbox.headers().len() as u128),
        small(counts.requests),
        small(counts.replies),
        small(counts.values),
        i64::from(mailbox.slots()),
    ]
}

fn small(count: u128) -> i64 {
    i64::try_from(count).unwrap_or(-1)
}

fn compare(rt: &impl Abort, found: &[i64], wanted: &[i64]) {
    assert_eq!(rt; found, wanted);
}

#[test]
fn boxes_are_first_in_first_out(rt: HostRuntime) -> Result<(), Fail> {
    let (request, reply) = (MsgKind::Request, MsgKind::Reply);
    let two_tags = [
        (reply, 3, 7),
        (request, 3, 1),
        (reply, 3, 9),
        (request, 3, 0),
        (reply, 3, 0),
        (reply, 3, 0),
        (reply, 3, 0),
    ];
    let one_slot = [(reply, 1, 5), (reply, 1, 0), (reply, 1, 6), (reply, 1, 0)];
    compare(
        &rt,
        &play(rt.alloc(), &two_tags)?,
        &[7, 1, 9, 1, 7, 9, 0, 3, 1, 2, 2, 3],
    );
    compare(
        &rt,
        &play(rt.alloc(), &one_slot)?,
        &[5, 5, 6, 6, 2, 0, 2, 2, 1],
    );
    Ok(())
}
