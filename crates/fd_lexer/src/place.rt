// Places in a text, and its physical lines.

/// A place where a physical line begins.
#[derive(Clone, Copy)]
pub struct Place<'a> {
    /// The bytes from here on.
    pub rest: &'a [u8],
    /// Where they stand in the text.
    pub at: usize,
    /// The number of the line, from 1.
    pub number: u32,
}

/// A physical line.
#[derive(Clone, Copy)]
pub struct PhysicalLine<'a> {
    pub number: u32,
    pub start: usize,
    /// Its bytes without its end.
    pub bytes: &'a [u8],
    /// Where its end ends.
    pub next: usize,
}
