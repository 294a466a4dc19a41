// What is wrong with a logical line.
use crate::cause::Cause;
use crate::lexeme::Taken;
use fd_base::Line;

/// What was seen of a logical line.
#[derive(Clone, Copy)]
pub struct Faults {
    /// A byte may not stand where it stands.
    pub bad_byte: bool,
    /// How many bytes its physical lines have.
    pub size: usize,
    pub taken: Taken,
}

/// A logical line.
#[derive(Clone, Copy)]
pub struct LogicalLine {
    pub number: Line,
    /// Where its last physical line ends, before its line end.
    pub end: usize,
    /// Where that line end ends.
    pub next: usize,
    /// The first of what is wrong with it.
    pub cause: Option<Cause>,
}
