// Limits on a program.

/// A count that a program keeps below its limit, in the order in which they are told on one line.
#[derive(Clone, Copy, Debug, PartialEq, Eq)]
pub enum Limit {
    Statements,
    Arrays,
    Names,
    /// Elements of distributed arrays.
    Distributed,
    /// Elements of replicated arrays.
    Replicated,
    /// Terms of a linear form.
    Terms,
    /// The size of a coefficient or constant of a linear form.
    Coefficient,
    Items,
}
