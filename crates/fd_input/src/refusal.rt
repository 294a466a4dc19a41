// Why an input isn't read.
use fd_base::Memory;
use thiserror::Error;

/// Why an input isn't a list of numbers.
#[derive(Clone, Copy, Debug, Error)]
pub enum InputRefusal {
    /// The zero-based offset of the first bad byte: one that is neither white space, nor a digit, nor a sign at the start of a number; a sign that no digit follows; or the first byte of a number outside 64 bits.
    #[error("bad input at offset {0}")]
    Bad(u32),
    #[error("no memory")]
    Memory,
}

impl From<Memory> for InputRefusal {
    ghost use Rattle.std.specs.Prelude.{◌≡◌};
    ghost use Rattle.fd_input.specs.declared.refusal.InputRefusal.TheVariants as refused;

    ghost from_gives = { λ _ e. e ≡ refused.Memory };

    fn from(_e: Memory) -> InputRefusal {
        InputRefusal::Memory
    }
}
