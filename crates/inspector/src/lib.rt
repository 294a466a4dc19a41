//! What a rank needs of an item from the other ranks, and whom it asks for it.
#![tactic(auto)]

mod finding;
mod found;
mod inspecting;
mod reader;
#[cfg(test)]
mod rows;
mod splitting;
mod values;
mod walk;

pub use found::ElemList;
pub use inspecting::needs;
pub use splitting::{Schedule, requests, schedule};
