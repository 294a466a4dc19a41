// A program made ready to be run: what loops value most has a form of its own, which takes few looks at memory, and the rest stays as it stands in the program.
ghost use Rattle.std.specs.Prelude.{◌≡◌, pos};
ghost use Rattle.seq_meaning.specs.declared.ready.Written.TheVariants.{Alone};

use fd_base::{Line, Rel};
use fd_prog::{Cond, Expr, Op2, PartList, Ref2, Remapped};

/// How a scalar is written: alone, with a number added, or with a number taken from it.
#[derive(Clone, Copy)]
pub enum Written {
    Alone,
    Added,
    Taken,
}

/// A scalar and its shift, the number that is added to it: 0 where the scalar stands alone, and where a number is taken, that number with its sign turned. Most subscripts are so, and each is valued by one sum.
#[derive(Clone, Copy)]
pub struct Shifted {
    pub scalar: u16,
    pub shift: i64,
    /// For what it stands for: no code looks at it.
    pub written: Written,
    ghost alone: { written ≡ Alone → shift ≡ pos 0 },
}

/// Two subscripts that are shifted scalars.
#[derive(Clone, Copy)]
pub struct ShiftedPair {
    pub first: Shifted,
    pub second: Shifted,
}

/// A leaf: a number, a scalar, or an element by shifted scalars with the number of the reference. None has an expression inside, so its value takes no call.
#[derive(Clone, Copy)]
pub enum Leaf {
    Num(i64),
    Scalar(u16),
    ShiftedRow(u16, Shifted, u32),
    ShiftedGrid(u16, ShiftedPair, u32),
}

/// Two leaves, the operands of an operator.
#[derive(Clone, Copy)]
pub struct Leaves {
    pub left: Leaf,
    pub right: Leaf,
}

/// An expression.
#[derive(Drop)]
#[cycle(ready_expression)]
pub enum ReadyExpr<'a> {
    Num(i64),
    Scalar(u16),
    /// A scalar and a number, added.
    Above(u16, i64),
    /// A number taken from a scalar.
    Below(u16, i64),
    /// A scalar divided by 2.
    Half(u16),
    /// MOD of a scalar and 2.
    ModTwo(u16),
    /// A scalar divided by a number.
    Quotient(u16, i64),
    /// MOD of a scalar and a number.
    Remainder(u16, i64),
    /// An element by its array, a shifted scalar as its subscript, and the number of the reference.
    ShiftedRow(u16, Shifted, u32),
    /// The same by two subscripts, which a box keeps as small as the other expressions.
    ShiftedGrid(u16, Box<ShiftedPair>, u32),
    /// An element by its array, any subscript and the number of the reference.
    Row(u16, Box<ReadyExpr<'a>>, u32),
    /// The same by two subscripts.
    Grid(u16, Box<ReadyExpr<'a>>, Box<ReadyExpr<'a>>, u32),
    /// An operator on two leaves, but for those above.
    BinLeaves(Op2, Box<Leaves>),
    Bin(Op2, Box<ReadyExpr<'a>>, Box<ReadyExpr<'a>>),
    Mod(Box<ReadyExpr<'a>>, Box<ReadyExpr<'a>>),
    AsIs(&'a Expr),
}

/// Subscripts or arguments: one, two, or others than that.
#[derive(Drop)]
pub enum ReadyFew<'a> {
    One(ReadyExpr<'a>),
    Two(ReadyExpr<'a>, ReadyExpr<'a>),
    Others,
}

/// A condition.
#[derive(Drop)]
pub enum ReadyCond<'a> {
    Cmp(Rel, ReadyExpr<'a>, ReadyExpr<'a>),
    /// An expression compared with a number.
    Against(Rel, ReadyExpr<'a>, i64),
    AsIs(&'a Cond),
}

/// What an assignment or a READ sets.
#[derive(Drop)]
pub enum ReadyTarget<'a> {
    Scalar(u16),
    ShiftedRow(u16, Shifted, u32),
    ShiftedGrid(u16, ShiftedPair, u32),
    Row(u16, ReadyExpr<'a>, u32),
    Grid(u16, ReadyExpr<'a>, ReadyExpr<'a>, u32),
    AsIs(&'a Ref2),
}

/// A statement.
#[derive(Drop)]
#[cycle(ready_statement)]
pub enum ReadyStmt<'a> {
    Assign(Line, ReadyTarget<'a>, ReadyExpr<'a>),
    If(Line, ReadyCond<'a>, ReadyList<'a>, ReadyList<'a>),
    Do(Line, u16, &'a Expr, &'a Expr, &'a Expr, ReadyList<'a>),
    While(Line, ReadyCond<'a>, ReadyList<'a>),
    Read(Line, ReadyTarget<'a>),
    Print(Line, &'a PartList),
    Skip(Line),
    Remap(Line, u16, Remapped),
}

/// Statements, one after the other.
#[cycle(ready_statement)]
pub enum ReadyList<'a> {
    End,
    More(Box<ReadyStmt<'a>>, Box<ReadyList<'a>>),
}

// One after the other, since a program has thousands of statements, and each call takes room on the stack.
impl Drop for ReadyList<'_> {
    #[cycle(ready_statement)]
    fn drop(mut self) {
        loop {
            match self {
                ReadyList::End => return,
                ReadyList::More(first, rest) => {
                    drop(first);
                    self = Box::into_inner(rest);
                }
            }
        }
    }
}
