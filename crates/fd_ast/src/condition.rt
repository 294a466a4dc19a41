// Conditions.
use crate::expression::TExpr;
use fd_base::Rel;

/// A condition.
pub enum TCond {
    Fixed(bool),
    Cmp(Rel, TExpr, TExpr),
    Not(Box<TCond>),
    Both(Box<TCond>, Box<TCond>),
    Either(Box<TCond>, Box<TCond>),
}

// The left sides are dropped one after the other, since a line has hundreds of them and each call takes room on the
// stack. What stands in parentheses is dropped by a call of its own.
impl Drop for TCond {
    fn drop(mut self) {
        loop {
            match self {
                TCond::Fixed(_) => return,
                TCond::Cmp(_, left, right) => {
                    drop(left);
                    drop(right);
                    return;
                }
                TCond::Not(inner) => self = Box::into_inner(inner),
                TCond::Both(left, right) => {
                    drop(right);
                    self = Box::into_inner(left);
                }
                TCond::Either(left, right) => {
                    drop(right);
                    self = Box::into_inner(left);
                }
            }
        }
    }
}
