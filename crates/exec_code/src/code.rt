// Code for ranks, and what is run.
use fd_base::{ItemNo, Line, ListOf, NumList};
use fd_prog::{Cond, Expr, ItemList, PartList, Program, Ref2, SiteList};

/// An instruction. Positions in the code are zero-based.
#[derive(Drop)]
pub enum Instr {
    Assign(Ref2, Expr),
    Read(Ref2),
    Print(PartList),
    Skip,
    /// An executed DISTRIBUTE: the decomposition, and the number of the statement among those of its kind in source order, from 0.
    Install(u16, u16),
    /// The condition, and the position where the code goes on where it doesn't hold.
    Test(Cond, u32),
    /// The beginning of a DO: the variable, the first and the last bound and the step.
    Start(u16, Expr, Expr, Expr),
    /// An iteration test of the innermost open DO: the variable, and the position where the code goes on behind the loop.
    Turn(u16, u32),
    Jump(u32),
    Send(ItemNo),
    Recv(ItemNo),
    Stop,
}

pub type InstrList = ListOf<Instr>;

pub type LineNoList = ListOf<Line>;

/// Instructions, and the line of each.
#[derive(Drop)]
pub struct Code {
    pub instrs: InstrList,
    pub lines: LineNoList,
}

/// What is run: a program with its items, the code for it, an input, the number of ranks and the limit of steps.
#[derive(Drop)]
pub struct Job {
    pub program: Program,
    pub items: ItemList,
    pub of_site: SiteList,
    pub code: Code,
    pub input: NumList,
    pub ranks: u8,
    pub limit: u64,
}
