// What a line of a listing tells of a node and an item.
ghost use Rattle.std.specs.Prelude.{◌≡◌, ℕ, ◌<◌, ◌^◌, IfSome, Some, true, false, codes, if◌then◌else◌};
ghost use Rattle.std.specs.Fmt.{decimal};
ghost use Rattle.std.specs.Str.{bytes_eq};
ghost use Rattle.place_text.specs.declared.entry.Entry.{Entry as Told};
ghost use Rattle.place_text.specs.declared.entry.Kind.{Kind as Told_kind};
ghost use Rattle.place_text.specs.Readings as readings;
ghost use Rattle.place_text.specs.Readings.{entry_words, is_hoist};

use crate::cutting::number_of;
use fd_base::Bytes;

/// An operation at the `in` or the `out` of a node, or a hoist.
#[derive(Clone, Copy, PartialEq, Eq)]
pub enum Kind {
    SendIn,
    RecvIn,
    SendOut,
    RecvOut,
    Hoist,
}

/// A node, what is done there, and the item.
#[derive(Clone, Copy)]
pub struct Entry {
    pub node: u16,
    pub kind: Kind,
    pub item: u16,
}

impl Kind {
    /// The order in which the operations of a node stand.
    fn turn(self) -> u8
        ensures { result ≡ readings.turn self }
    {
        match self {
            Kind::SendIn => 0,
            Kind::RecvIn => 1,
            Kind::SendOut => 2,
            Kind::RecvOut => 3,
            Kind::Hoist => 4,
        }
    }

    /// The word before the node.
    pub fn word_before(self) -> &'static [u8]
        ensures { result.now ≡ readings.word_before self }
    {
        match self {
            Kind::Hoist => b"hoist ",
            _ => b"",
        }
    }

    /// The words between the line of the node and the item.
    pub fn words_between(self) -> &'static [u8]
        ensures { result.now ≡ readings.words_between self }
    {
        match self {
            Kind::SendIn => b" in send ",
            Kind::RecvIn => b" in recv ",
            Kind::SendOut => b" out send ",
            Kind::RecvOut => b" out recv ",
            Kind::Hoist => b" item ",
        }
    }
}

impl Entry {
    /// It stands before another: by node, then by kind, then by item.
    pub fn comes_before(self, other: Entry) -> bool
        ensures { result ≡ readings.comes_before self other }
    {
        let (here, there) = (self.kind.turn(), other.kind.turn());
        self.node < other.node
            || self.node == other.node && (here < there || here == there && self.item < other.item)
    }
}

/// The kind of an operation by the word of its place and its own.
fn kind_of(place: &[u8], operation: &[u8]) -> Kind
    ensures is { result ≡ (if bytes_eq place.now (codes "in") then (if bytes_eq operation.now (codes "send") then Told_kind.SendIn else Told_kind.RecvIn) else (if bytes_eq operation.now (codes "send") then Told_kind.SendOut else Told_kind.RecvOut)) }
    ensures kind { is_hoist result ≡ false }
{
    match (place == b"in".as_slice(), operation == b"send".as_slice()) {
        (true, true) => Kind::SendIn,
        (true, false) => Kind::RecvIn,
        (false, true) => Kind::SendOut,
        (false, false) => Kind::RecvOut,
    }
}

/// A number below 2^16.
fn short_number(digits: &[u8]) -> Option<u16>
    ensures { (n : ℕ) → n < 2 ^ 16 → digits.now ≡ decimal n → result ≡ Some n }
{
    let number = number_of(digits)?;
    u16::try_from(number).ok()
}

/// A node and an item by their digits, with what is done there.
fn numbered(node: &[u8], kind: Kind, item: &[u8]) -> Option<Entry>
    ensures kind { IfSome result (λ e. e.kind ≡ kind) }
    ensures found { (n x : ℕ) → n < 2 ^ 16 → x < 2 ^ 16 → node.now ≡ decimal n → item.now ≡ decimal x → result ≡ Some (record { node = n; kind = kind; item = x }) }
{
    let node = short_number(node)?;
    let item = short_number(item)?;
    Some(Entry { node, kind, item })
}

/// What the words of a line tell, where they are those of an operation.
fn operation_of(words: &[Bytes]) -> Option<Entry>
    ensures kind { IfSome result (λ e. is_hoist e.kind ≡ false) }
    ensures found { (e : Told) (line : ℕ) → is_hoist e.kind ≡ false → e.node < 2 ^ 16 → e.item < 2 ^ 16 → words.now ≡ entry_words line e → result ≡ Some e }
{
    if words.len() != 7 {
        return None;
    }
    let kind = kind_of(words[4].as_slice(), words[5].as_slice());
    numbered(words[1].as_slice(), kind, words[6].as_slice())
}

/// What the words of a line tell, where they are those of a hoist.
fn hoist_of(words: &[Bytes]) -> Option<Entry>
    ensures kind { IfSome result (λ e. is_hoist e.kind ≡ true) }
    ensures found { (e : Told) (line : ℕ) → is_hoist e.kind ≡ true → e.node < 2 ^ 16 → e.item < 2 ^ 16 → words.now ≡ entry_words line e → result ≡ Some e }
{
    if words.len() != 7 {
        return None;
    }
    numbered(words[2].as_slice(), Kind::Hoist, words[6].as_slice())
}

/// What the words of a line tell, where they are those of an operation, or of a hoist.
pub fn entry_of(words: &[Bytes], hoists: bool) -> Option<Entry>
    ensures kind { IfSome result (λ e. is_hoist e.kind ≡ hoists) }
    ensures found { (e : Told) (line : ℕ) → is_hoist e.kind ≡ hoists → e.node < 2 ^ 16 → e.item < 2 ^ 16 → words.now ≡ entry_words line e → result ≡ Some e }
{
    if hoists {
        hoist_of(words)
    } else {
        operation_of(words)
    }
}
