// Expressions whose names are looked up.

/// The functions of the language.
#[derive(Clone, Copy, PartialEq, Eq)]
pub enum Func {
    Mod,
    Abs,
    Min,
    Max,
}

/// An operator with two sides.
#[derive(Clone, Copy, PartialEq, Eq)]
pub enum Op2 {
    Add,
    Sub,
    Mul,
    Div,
}

/// A reference to an element: the number of the array, the subscripts, and the number of the reference among all of the program.
#[derive(Drop)]
#[cycle(expression)]
pub struct Ref {
    pub array: u16,
    pub subs: ExprList,
    pub site: u32,
}

/// An expression. A constant is its number; scalars and arrays go by their numbers in the program.
#[derive(Drop)]
#[cycle(expression)]
pub enum Expr {
    Num(i64),
    Scalar(u16),
    Elem(Ref),
    Neg(Box<Expr>),
    Bin(Op2, Box<Expr>, Box<Expr>),
    Call(Func, ExprList),
}

/// Expressions, one after the other.
#[derive(Drop)]
#[cycle(expression)]
pub enum ExprList {
    End,
    More(Box<Expr>, Box<ExprList>),
}
