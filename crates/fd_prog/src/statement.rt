// Statements whose names are looked up.
use crate::condition::Cond;
use crate::expression::{Expr, Ref};
use fd_base::{Bytes, Dist, Line, ListOf};

/// What an assignment or a READ sets.
#[derive(Drop)]
pub enum Ref2 {
    Scalar(u16),
    Elem(Ref),
}

/// What a PRINT prints: the bytes of a text, or a value.
#[derive(Drop)]
pub enum Part {
    Words(Bytes),
    Value(Expr),
}

pub type PartList = ListOf<Part>;

/// What a DISTRIBUTE among the statements gives a decomposition: the owners by the values of an array, or a regular distribution.
#[derive(Clone, Copy, PartialEq, Eq)]
pub enum Remapped {
    Map(u16),
    Regular(Dist),
}

/// A statement, with the number of its logical line. An ELSE IF is an IF nested in the ELSE side; a READ has one target.
#[derive(Drop)]
#[cycle(statement)]
pub enum Stmt {
    Assign(Line, Ref2, Expr),
    If(Line, Cond, StmtList, StmtList),
    /// The variable, the first and the last bound, the step and the body.
    Do(Line, u16, Expr, Expr, Expr, StmtList),
    While(Line, Cond, StmtList),
    Read(Line, Ref2),
    Print(Line, PartList),
    /// CONTINUE.
    Skip(Line),
    /// A DISTRIBUTE of the decomposition of this number.
    Remap(Line, u16, Remapped),
}

/// Statements, one after the other.
#[cycle(statement)]
pub enum StmtList {
    End,
    More(Box<Stmt>, Box<StmtList>),
}

// One after the other, since a program has thousands of statements, and each call takes room on the stack.
impl Drop for StmtList {
    #[cycle(statement)]
    fn drop(mut self) {
        loop {
            match self {
                StmtList::End => return,
                StmtList::More(first, rest) => {
                    drop(first);
                    self = Box::into_inner(rest);
                }
            }
        }
    }
}
