//! The numbers that a program reads.
#![tactic(auto)]

mod laws;
mod refusal;
mod text;
mod word;

pub use laws::first_bad_byte;
pub use refusal::InputRefusal;
pub use text::read_input;
