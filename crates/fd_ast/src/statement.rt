// Statements, and the tree of a source.
use crate::condition::TCond;
use crate::declaration::{TAttrList, TDeclList};
use crate::expression::TExpr;
use fd_base::{Bytes, Line, ListOf};

/// What a PRINT prints: a text, without its quotes and with each doubled quote as one, or a value.
#[derive(Drop)]
pub enum TItem {
    Words(Bytes),
    Value(TExpr),
}

pub type TItemList = ListOf<TItem>;

/// A statement, with the number of its logical line.
#[derive(Drop)]
#[cycle(statement)]
pub enum TStmt {
    /// The target, and the value.
    Assign(Line, TExpr, TExpr),
    /// An IF, a logical IF, or an ELSE IF, which is the one statement of the other side of the IF before it.
    If(Line, TCond, TStmtList, TStmtList),
    /// The variable, the first value, the last, the step, and the body.
    Do(Line, Bytes, TExpr, TExpr, TExpr, TStmtList),
    While(Line, TCond, TStmtList),
    /// One target of a READ.
    Read(Line, TExpr),
    Print(Line, TItemList),
    /// A CONTINUE.
    Skip(Line),
    /// A DISTRIBUTE with a map.
    Remap(Line, Bytes, TAttrList),
}

/// Statements, one after the other.
#[cycle(statement)]
pub enum TStmtList {
    End,
    More(Box<TStmt>, Box<TStmtList>),
}

// One after the other, since a source has up to half a million statements, and each call takes room on the stack.
impl Drop for TStmtList {
    #[cycle(statement)]
    fn drop(mut self) {
        loop {
            match self {
                TStmtList::End => return,
                TStmtList::More(first, rest) => {
                    drop(first);
                    self = Box::into_inner(rest);
                }
            }
        }
    }
}

/// The tree of a source.
#[derive(Drop)]
pub struct Tree {
    pub decls: TDeclList,
    pub body: TStmtList,
    /// The number of the END line.
    pub end_line: Line,
    /// Where what stands behind the END line begins, in bytes from 0.
    pub rest: u32,
}
