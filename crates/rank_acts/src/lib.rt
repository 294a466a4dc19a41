//! What a rank of a job does next, as a function of its own memory alone, and where its memory stands in the job's trace.
#![tactic(auto)]

mod laws;

pub use laws::acts_need_running;
