//! Who owns what of a program, and who executes each statement.
#![tactic(auto)]

mod distribution;
mod home;
mod installing;
mod laws;
mod place;
mod positions;
mod ranks;
#[cfg(test)]
mod rows;
mod table;

pub use distribution::{Distribution, distribution_at, distribution_of};
pub use home::{home_of, home_within, location_form};
pub use installing::install;
pub use laws::locations_are_positions;
pub use place::{Place, PlaceList, Placed, place_named};
pub use ranks::{HomeAt, RankSet, ranks_of};
pub use table::write_owner_table;
