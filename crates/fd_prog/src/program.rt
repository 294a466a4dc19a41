// The checked program.
use crate::statement::StmtList;
use fd_base::{Along, Bytes, Dist, Line, ListOf, Shape};

/// Names, in upper case.
pub type NameList = ListOf<Bytes>;

/// An array. `along` says where its elements lie along the distributed dimension of its decomposition; without a decomposition it says nothing.
#[derive(Drop)]
pub struct Array {
    pub name: Bytes,
    pub shape: Shape,
    pub decomp: Option<u16>,
    pub along: Along,
}

pub type ArrayList = ListOf<Array>;

/// A decomposition. `dim` is its distributed dimension, from 0, and `dist` is None where it is nowhere distributed.
#[derive(Drop)]
pub struct Decomp {
    pub name: Bytes,
    pub shape: Shape,
    pub dim: u8,
    pub dist: Option<Dist>,
}

pub type DecompList = ListOf<Decomp>;

/// A program. Scalars, arrays and decompositions have their places in these lists as numbers. The END line has the number `end_line`, `rest` is the offset of the first byte behind it, and the numbers of references are below `sites`.
#[derive(Drop)]
pub struct Program {
    pub scalars: NameList,
    pub arrays: ArrayList,
    pub decomps: DecompList,
    pub body: StmtList,
    pub end_line: Line,
    pub rest: u32,
    pub sites: u32,
}
