// Expressions.
use fd_base::Bytes;

/// An operator with two sides.
#[derive(Clone, Copy, PartialEq, Eq)]
pub enum Op {
    Add,
    Sub,
    Mul,
    Div,
}

/// An expression. Names are in upper case.
#[cycle(expression)]
pub enum TExpr {
    Num(i64),
    Name(Bytes),
    /// A name with parentheses: a reference to an array or a function, which the tree doesn't tell apart.
    Call(Bytes, TExprList),
    Neg(Box<TExpr>),
    Bin(Op, Box<TExpr>, Box<TExpr>),
}

/// Expressions, one after the other.
#[cycle(expression)]
pub enum TExprList {
    End,
    More(Box<TExpr>, Box<TExprList>),
}

// A line has sums of up to two thousand terms, each the left side of the next: they are dropped one after the other,
// since each call takes room on the stack. What stands in parentheses is dropped by a call of its own.
impl Drop for TExpr {
    #[cycle(expression)]
    fn drop(mut self) {
        loop {
            match self {
                TExpr::Num(_) => return,
                TExpr::Name(name) => {
                    drop(name);
                    return;
                }
                TExpr::Call(name, list) => {
                    drop(name);
                    drop(list);
                    return;
                }
                TExpr::Neg(inner) => self = Box::into_inner(inner),
                TExpr::Bin(_, left, right) => {
                    drop(right);
                    self = Box::into_inner(left);
                }
            }
        }
    }
}

// One after the other, as long lists have up to two thousand.
impl Drop for TExprList {
    #[cycle(expression)]
    fn drop(mut self) {
        loop {
            match self {
                TExprList::End => return,
                TExprList::More(first, rest) => {
                    drop(first);
                    self = Box::into_inner(rest);
                }
            }
        }
    }
}
