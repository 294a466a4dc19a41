// Counts of what was posted.
ghost use Rattle.std.specs.Prelude.{◌≡◌, sum_by};
ghost use Rattle.mailbox_book.specs.Boxes.{is_request, is_reply, values_in, counts_of};

use crate::message::{Header, MsgKind};

/// How many messages of each kind were posted, and how many values the Replies carried.
#[derive(Clone, Copy)]
pub struct Counts {
    pub requests: u128,
    pub replies: u128,
    pub values: u128,
}

fn requests(header: &Header) -> bool
    ensures { result ≡ is_request header.now }
{
    match header.tag.kind {
        MsgKind::Request => true,
        MsgKind::Reply => false,
    }
}

fn replies(header: &Header) -> bool
    ensures { result ≡ is_reply header.now }
{
    match header.tag.kind {
        MsgKind::Request => false,
        MsgKind::Reply => true,
    }
}

/// How many values a message carried, where it was a Reply.
fn values(header: &Header) -> u32
    ensures { result ≡ values_in header.now }
{
    match header.tag.kind {
        MsgKind::Request => 0,
        MsgKind::Reply => header.count,
    }
}

fn all_values(headers: &[Header]) -> u128
    ensures { result ≡ sum_by values_in headers.now }
{
    let mut total = 0u128;
    for header in headers {
        total += u128::from(values(header));
    }
    total
}

/// What headers count up to.
pub fn count(headers: &[Header]) -> Counts
    ensures { result ≡ counts_of headers.now }
{
    Counts {
        requests: headers.iter().filter(|h| requests(h)).count() as u128,
        replies: headers.iter().filter(|h| replies(h)).count() as u128,
        values: all_values(headers),
    }
}
