// Why a line was not taken.
ghost use Rattle.std.specs.Prelude.{◌≡◌};
ghost use Rattle.fd_parser.specs.declared.stop.Stop.TheVariants as stops;

use std::alloc::{AllocError, AllocFailed};

/// Why a line was not taken.
#[derive(Clone, Copy, PartialEq, Eq)]
pub enum Stop {
    /// It can't stand here.
    Syntax,
    /// It would begin nesting level 33.
    TooDeep,
    Memory,
}

impl From<AllocError> for Stop {
    ghost from_gives = { λ _ e. e ≡ stops.Memory };

    fn from(_e: AllocError) -> Stop {
        Stop::Memory
    }
}

impl<T: Drop> From<AllocFailed<T>> for Stop {
    ghost from_gives = { λ _ e. e ≡ stops.Memory };

    fn from(_e: AllocFailed<T>) -> Stop {
        Stop::Memory
    }
}
