// What a run prints, and how it ends.
use fd_base::{Bytes, FaultKind, Line, ListOf};

/// A printed line without its LF, and the number of the step that printed it. Steps are numbered from 1.
#[derive(Drop)]
pub struct Printed {
    pub step: u64,
    pub text: Bytes,
}

pub type PrintedList = ListOf<Printed>;

/// How a run ends: behind its last statement, or at the fault of a step that began on a line.
#[derive(Clone, Copy, PartialEq, Eq)]
pub enum Outcome {
    Done,
    Fault {
        step: u64,
        line: Line,
        kind: FaultKind,
    },
}
