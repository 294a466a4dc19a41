//! Instructions, code and jobs; the machine that runs code over one whole store is defined over them.
#![tactic(auto)]

mod code;
mod laws;

pub use code::{Code, Instr, InstrList, Job, LineNoList};
pub use laws::{
    installs_are_numbered, one_trace, trace_is_walked, traces_are_short, trails_are_paths,
};
