//! From the syntax tree of a source to the checked program, or to the first refusal.
#![tactic(auto)]

mod alignments;
mod book;
mod checking;
mod conditions;
mod constants;
mod declarations;
mod distributions;
mod expressions;
mod finish;
mod irregular;
mod laws;
mod locality;
mod mapping;
mod names;
mod refusal;
mod statements;
mod totals;

pub use checking::check;
pub use laws::{
    arrays_are_declared, constants_are_values, first_alignment_stands, first_distribution_stands,
    functions_stand, inside_is_each_element, known_before, known_where_declared, nesting_is_kept,
    one_first, program_stands, unknown_where_made,
};
pub use refusal::NameRefusal;
