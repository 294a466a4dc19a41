//! Courses: the moments of a run, and what the open loops say of the iterations that ranks visit.
#![tactic(auto)]

mod laws;

pub use laws::{
    open_iterations_are_visited, open_loops_have_their_numbers, present_elements_are_own_or_needed,
    runs_are_courses,
};
