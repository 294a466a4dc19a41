//! The texts of linear forms, of items, and of the listing of a placement.
#![tactic(auto)]

mod cutting;
mod entry;
mod form;
mod item;
mod known;
mod listing;
mod names;
mod read;
mod reading;
mod refusal;
mod sum;

pub use form::form_text;
pub use item::item_text;
pub use listing::write_listing;
pub use read::read_listing;
pub use refusal::ListingRefusal;
