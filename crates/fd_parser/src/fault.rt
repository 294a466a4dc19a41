// Why tokens have no tree.
ghost use Rattle.std.specs.Prelude.{◌≡◌};
ghost use Rattle.fd_parser.specs.declared.fault.Fault.TheVariants as faults;

use fd_base::Memory;
use std::alloc::{AllocError, AllocFailed};

/// Why no thing of the grammar was read.
#[derive(Clone, Copy, PartialEq, Eq)]
pub enum Fault {
    /// There is none.
    Syntax,
    Memory,
}

impl From<Memory> for Fault {
    ghost from_gives = { λ _ e. e ≡ faults.Memory };

    fn from(_e: Memory) -> Fault {
        Fault::Memory
    }
}

impl From<AllocError> for Fault {
    ghost from_gives = { λ _ e. e ≡ faults.Memory };

    fn from(_e: AllocError) -> Fault {
        Fault::Memory
    }
}

impl<T: Drop> From<AllocFailed<T>> for Fault {
    ghost from_gives = { λ _ e. e ≡ faults.Memory };

    fn from(_e: AllocFailed<T>) -> Fault {
        Fault::Memory
    }
}
