// Comparisons of values.

/// A comparison: `.EQ.`, `.NE.`, `.LT.`, `.LE.`, `.GT.`, `.GE.`.
#[derive(Clone, Copy, PartialEq, Eq)]
pub enum Rel {
    Eq,
    Ne,
    Lt,
    Le,
    Gt,
    Ge,
}
