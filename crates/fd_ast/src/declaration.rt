// Declarations.
use crate::expression::{TExpr, TExprList};
use fd_base::{Bytes, Line, ListOf};

/// Names, in upper case.
pub type NameList = ListOf<Bytes>;

/// The bounds of a dimension. Where the text has one bound alone, `low` is 1.
#[derive(Drop)]
pub struct TDim {
    pub low: TExpr,
    pub high: TExpr,
}

pub type TDimList = ListOf<TDim>;

/// What a DISTRIBUTE says of one dimension.
#[derive(Drop)]
pub enum TAttr {
    /// `:`, which doesn't distribute it.
    Whole,
    Block,
    Cyclic,
    BlockCyclic(TExpr),
    /// The name of a map.
    Named(Bytes),
}

pub type TAttrList = ListOf<TAttr>;

/// A declaration, with its line and the name that it declares or speaks of. A line may have several.
#[derive(Drop)]
pub enum TDecl {
    /// One definition of a PARAMETER.
    Constant(Line, Bytes, TExpr),
    /// One name of an INTEGER; a scalar where it has no dimension.
    Integer(Line, Bytes, TDimList),
    /// One name of a DECOMPOSITION.
    Decomp(Line, Bytes, TDimList),
    /// The array, its dummies, the decomposition and the targets. `ALIGN A WITH D` has neither dummies nor targets.
    Align(Line, Bytes, NameList, Bytes, TExprList),
    /// A DISTRIBUTE without a map.
    Distribute(Line, Bytes, TAttrList),
}

pub type TDeclList = ListOf<TDecl>;
