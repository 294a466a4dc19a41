// Why a tree is refused.
ghost use Rattle.std.specs.Prelude.{◌≡◌};
ghost use Rattle.fd_names.specs.First.{answer_for, is_before, place_of, rank_of, worse};

use fd_base::{Limit, Line, Memory};
use thiserror::Error;

/// What is wrong.
#[derive(Clone, Copy)]
pub enum Cause {
    /// A name that isn't declared on an earlier line, and is no scalar with an initial from I to N; or no function.
    NotDeclared,
    /// A name that is declared again.
    DeclaredTwice,
    /// A name that stands as something else than it is, or with another count of subscripts, arguments or dimensions.
    WrongShape,
    /// A PARAMETER or a bound whose value isn't constant, or faults.
    NotConstant,
    /// Bounds that make no dimension.
    BadBounds,
    /// The variable of a loop, set inside it.
    DoVarAssigned,
    /// An ALIGN that doesn't put each element of an unaligned array into a decomposition.
    AlignBad,
    /// A DISTRIBUTE that doesn't distribute one dimension of an undistributed decomposition.
    DistributeBad,
    /// A distributed array in a subscript of a distributed reference.
    IndexNotLocal,
    /// A count that passes its limit.
    TooMany(Limit),
    /// A statement that this compiler leaves out.
    LeftOut,
}

/// A cause, on a line.
#[derive(Clone, Copy)]
pub struct Refusal {
    pub line: Line,
    pub cause: Cause,
}

/// The first refusal of a tree: its line, with the number of its cause or the limit that is passed; or want of memory.
#[derive(Clone, Copy, Debug, PartialEq, Eq, Error)]
pub enum NameRefusal {
    #[error("a name, shape, constant or bound is wrong")]
    At(Line, u8),
    #[error("a count passes its limit")]
    TooMany(Line, Limit),
    #[error("no memory")]
    Memory,
}

impl From<Memory> for NameRefusal {
    ghost use Rattle.std.specs.Prelude.{◌≡◌};
    ghost use Rattle.fd_names.specs.declared.refusal.NameRefusal.TheVariants.{Memory as NoMemory};

    ghost from_gives = { λ _ e. e ≡ NoMemory };

    fn from(_e: Memory) -> NameRefusal {
        NameRefusal::Memory
    }
}

/// The place of a limit among all limits.
fn place(limit: Limit) -> u8
    ensures { result ≡ place_of limit }
{
    match limit {
        Limit::Statements => 0,
        Limit::Arrays => 1,
        Limit::Names => 2,
        Limit::Distributed => 3,
        Limit::Replicated => 4,
        Limit::Terms => 5,
        Limit::Coefficient => 6,
        Limit::Items => 7,
    }
}

impl Cause {
    /// The place of a cause among those of one line.
    pub fn rank(self) -> u32
        ensures { result ≡ rank_of self }
    {
        match self {
            Cause::NotDeclared => 60,
            Cause::DeclaredTwice => 70,
            Cause::WrongShape => 80,
            Cause::NotConstant => 90,
            Cause::BadBounds => 100,
            Cause::DoVarAssigned => 110,
            Cause::AlignBad => 120,
            Cause::DistributeBad => 130,
            Cause::IndexNotLocal => 140,
            Cause::TooMany(limit) => 160 + u32::from(place(limit)),
            Cause::LeftOut => 180,
        }
    }
}

impl Refusal {
    /// Whether `self` comes before `other`.
    pub fn is_before(self, other: Refusal) -> bool
        ensures { result ≡ is_before self other }
    {
        self.line.0 < other.line.0
            || self.line.0 == other.line.0 && self.cause.rank() < other.cause.rank()
    }

    /// The answer that tells of it.
    pub fn answer(self) -> NameRefusal
        ensures { result ≡ answer_for self.line self.cause }
    {
        match self.cause {
            Cause::NotDeclared => NameRefusal::At(self.line, 6),
            Cause::DeclaredTwice => NameRefusal::At(self.line, 7),
            Cause::WrongShape => NameRefusal::At(self.line, 8),
            Cause::NotConstant => NameRefusal::At(self.line, 9),
            Cause::BadBounds => NameRefusal::At(self.line, 10),
            Cause::DoVarAssigned => NameRefusal::At(self.line, 11),
            Cause::AlignBad => NameRefusal::At(self.line, 12),
            Cause::DistributeBad => NameRefusal::At(self.line, 13),
            Cause::IndexNotLocal => NameRefusal::At(self.line, 14),
            Cause::TooMany(limit) => NameRefusal::TooMany(self.line, limit),
            Cause::LeftOut => NameRefusal::At(self.line, 18),
        }
    }
}

/// The first of what was refused so far and one more refusal.
pub fn worse(so_far: Option<Refusal>, refusal: Refusal) -> Option<Refusal>
    ensures { result ≡ worse so_far refusal }
{
    match so_far {
        None => Some(refusal),
        Some(first) => {
            if refusal.is_before(first) {
                Some(refusal)
            } else {
                Some(first)
            }
        }
    }
}
