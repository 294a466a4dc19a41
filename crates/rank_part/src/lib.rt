//! A rank's part of a run's store, and that what a rank values by it is what the whole store has.
#![tactic(auto)]

mod laws;

pub use laws::{
    distributes_give_owners, index_arrays_are_local, local_references_stay_local,
    locations_tell_owners, needs_come_to_hand, needs_from_own_cells, own_cells_value_as_stores,
    owners_are_ranks, parts_follow_stores, replicated_arrays_are_whole, stores_keep_sizes,
};
