// Why a source has no tree.
ghost use Rattle.std.specs.Prelude.{◌≡◌};
ghost use Rattle.fd_parser.specs.declared.refusal.ParseRefusal.TheVariants as refusals;

use fd_base::Line;
use std::alloc::AllocError;
use thiserror::Error;

/// Why a source has no tree.
#[derive(Clone, Copy, Debug, PartialEq, Eq, Error)]
pub enum ParseRefusal {
    /// The first line with a refusal, and its number: 5 no line of the grammar that can stand there, 15 nested too deep,
    /// 17 no END line, 18 left out of the language.
    #[error("a line is nested too deep, left out of the language or in no program behind the lines before it, or END is missing")]
    At(Line, u8),
    #[error("no memory")]
    Memory,
}

impl From<AllocError> for ParseRefusal {
    ghost from_gives = { λ _ e. e ≡ refusals.Memory };

    fn from(_e: AllocError) -> ParseRefusal {
        ParseRefusal::Memory
    }
}
