// Linear forms of subscripts and bounds.
use crate::expression::Func;

/// What a form sums up, apart from numbers. `Bound` is a widened variable by its number, the outermost loop's being 0; the others are of the program.
#[derive(Drop)]
#[cycle(form)]
pub enum Atom {
    Bound(u8),
    Scalar(u16),
    Elem(u16, FormList),
    Call(Func, FormList),
    Mul(Box<Form>, Box<Form>),
    Div(Box<Form>, Box<Form>),
}

/// An atom times a coefficient.
#[derive(Drop)]
#[cycle(form)]
pub struct Term {
    pub coef: i64,
    pub atom: Atom,
}

/// Terms, one after the other.
#[derive(Drop)]
#[cycle(form)]
pub enum TermList {
    End,
    More(Box<Term>, Box<TermList>),
}

/// The sum of its terms and a constant.
#[derive(Drop)]
#[cycle(form)]
pub struct Form {
    pub terms: TermList,
    pub constant: i64,
}

/// Forms, one after the other.
#[derive(Drop)]
#[cycle(form)]
pub enum FormList {
    End,
    More(Box<Form>, Box<FormList>),
}

/// Who executes: all ranks, rank 0, or the owner of a position along the distributed dimension of a decomposition.
#[derive(Drop)]
pub enum Home {
    All,
    Root,
    At(u16, Form),
}

/// Why an expression has no form.
#[derive(Clone, Copy, PartialEq, Eq)]
pub enum FormRefusal {
    /// A form on the way has too many terms.
    Terms,
    /// A coefficient or constant of a form on the way is too large.
    Coefficient,
    /// There was no memory.
    Memory,
}
