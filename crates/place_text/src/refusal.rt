// Why a text is no listing.
use fd_base::{Line, Memory};
use thiserror::Error;

/// The first line that is wrong or missing, counted from 1; or want of memory.
#[derive(Clone, Copy, Debug, PartialEq, Eq, Error)]
pub enum ListingRefusal {
    #[error("a line of the listing is wrong")]
    Bad(Line),
    #[error("no memory")]
    Memory,
}

impl From<Memory> for ListingRefusal {
    ghost use Rattle.std.specs.Prelude.{◌≡◌};
    ghost use Rattle.place_text.specs.declared.refusal.ListingRefusal.TheVariants as refused;

    ghost from_gives = { λ _ e. e ≡ refused.Memory };

    fn from(_e: Memory) -> ListingRefusal {
        ListingRefusal::Memory
    }
}
