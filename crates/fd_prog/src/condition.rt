// Conditions whose names are looked up.
use crate::expression::Expr;
use fd_base::Rel;

/// A condition.
#[derive(Drop)]
pub enum Cond {
    Fixed(bool),
    Cmp(Rel, Expr, Expr),
    Not(Box<Cond>),
    Both(Box<Cond>, Box<Cond>),
    Either(Box<Cond>, Box<Cond>),
}
