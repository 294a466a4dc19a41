//! What the ranks of a job do along its trace, and that this keeps all that the laws of every order of steps need.
#![tactic(auto)]

mod laws;

pub use laws::{
    changes_of_jobs_are_few, interleavings_print_the_run, messages_come, operations_are_balanced,
    sound_jobs_are_lawful,
};
