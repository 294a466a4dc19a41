// The blocks that are open while lines are read.
ghost use Rattle.std.specs.Prelude.{◌≡◌, ◌<◌, ◌≤◌, ◌++◌, ◌∷◌, [], ◌↔◌, Some, Err, IfOk, IsTrue, OnOk, map, length};
ghost use Rattle.smallvec.specs.SmallVec.{small_vec_len};
ghost use Rattle.fd_ast.specs.Tree.{cond_tree, stmt_tree, stmt_trees, IfStmt, NoStmts};
ghost use Rattle.fd_parser.specs.Program.{all_stmts};
ghost use Rattle.fd_parser.specs.Open as of;
ghost use Rattle.fd_parser.specs.Open.{stmts};
ghost use Rattle.fd_parser.specs.declared.stop.Stop.TheVariants as stops;

use crate::stop::Stop;
use fd_ast::{TCond, TExpr, TStmt, TStmtList};
use fd_base::{Bytes, Line};
use smallvec::SmallVec;
use std::alloc::{AllocError, Global};
use std::default::MadeWith;

/// The statements of a block so far. A statement is large, and a vector that grows has its elements twice: each stands in a
/// box of its own.
pub type Statements = Vec<Box<TStmt>>;

/// The line that began a loop.
#[derive(Drop)]
pub enum Head {
    Counted(Line, Bytes, TExpr, TExpr, TExpr),
    While(Line, TCond),
}

/// A block that is open: what it belongs to, and the statements before that.
#[derive(Drop)]
pub enum Frame {
    /// The body of a loop.
    Loop(Head, Statements),
    /// The first side of an IF. Whether it is the ELSE IF of the frame below.
    Then(Line, TCond, Statements, bool),
    /// The other side of an IF.
    Otherwise(Line, TCond, TStmtList, Statements, bool),
}

// The places of a stack that no block has taken yet have some value.
impl MadeWith<Global> for Frame {
    fn made_with(alloc: Global) -> Frame {
        Frame::Loop(Head::While(Line(0), TCond::Fixed(false)), Vec::new(alloc))
    }
}

/// The blocks that are open, the innermost last, and the statements of the innermost so far.
#[derive(Drop)]
pub struct OpenBlocks {
    pub open: SmallVec<Frame, 32>,
    pub done: Statements,
}

impl OpenBlocks {
    ghost use Rattle.fd_parser.specs.Open.{inside_of, head_of, outside, with_stmts, with_choice, with_loop, turned_at, side_ended_at, choice_ended_at, loop_ended_at, HasPlace, IsFull, Makes};

    pub fn new(alloc: Global) -> OpenBlocks
        ensures { inside_of result ≡ outside }
    {
        OpenBlocks {
            open: SmallVec::new(alloc),
            done: Vec::new(alloc),
        }
    }

    /// More statements of the innermost block.
    pub fn add(&mut self, alloc: Global, list: Vec<TStmt>) -> Result<(), Stop>
        ensures step { Makes result (Some (with_stmts (map stmt_tree list.items) (inside_of self.old))) (λ _. inside_of self.new) }
        ensures no_depth { result ≡ Err stops.TooDeep → ⊥ }
        ensures same { OnOk result (length (inside_of self.new).places ≡ length (inside_of self.old).places) }
    {
        append(alloc, &mut self.done, list)?;
        Ok(())
    }

    /// A logical IF, which is a level of its own.
    pub fn add_choice(
        &mut self,
        alloc: Global,
        line: Line,
        condition: TCond,
        list: Vec<TStmt>,
    ) -> Result<(), Stop>
        ensures step { Makes result (Some (with_stmts (IfStmt line (cond_tree condition) (all_stmts (map stmt_tree list.items)) NoStmts ∷ []) (inside_of self.old))) (λ _. inside_of self.new) }
        ensures too_deep { result ≡ Err stops.TooDeep → IsFull (inside_of self.old) }
        ensures same { OnOk result (length (inside_of self.new).places ≡ length (inside_of self.old).places) }
        ensures room { OnOk result (length (inside_of self.old).places < 32) }
    {
        if self.is_full() {
            return Err(Stop::TooDeep);
        }
        let mut inner = Vec::new(alloc);
        append(alloc, &mut inner, list)?;
        let yes = list_of(alloc, inner)?;
        let choice = TStmt::If(line, condition, yes, TStmtList::End);
        push_statement(alloc, &mut self.done, choice)?;
        Ok(())
    }

    // Whether another block would be one too many.
    fn is_full(&self) -> bool
        ensures { IsTrue result ↔ IsFull (inside_of self.now) }
    {
        self.open.len() >= 32
    }

    /// Begins the first side of an IF.
    pub fn begin_choice(
        &mut self,
        alloc: Global,
        line: Line,
        condition: TCond,
        chained: bool,
    ) -> Result<(), Stop>
        ensures step { Makes result (Some (with_choice line (cond_tree condition) chained (inside_of self.old))) (λ _. inside_of self.new) }
        ensures too_deep { result ≡ Err stops.TooDeep → IsFull (inside_of self.old) }
        ensures room { OnOk result (HasPlace (inside_of self.new)) }
    {
        if self.is_full() {
            return Err(Stop::TooDeep);
        }
        let before = std::mem::replace(&mut self.done, Vec::new(alloc));
        self.open
            .push(Frame::Then(line, condition, before, chained))?;
        Ok(())
    }

    /// Begins a loop.
    pub fn begin_loop(&mut self, alloc: Global, head: Head) -> Result<(), Stop>
        ensures step { Makes result (Some (with_loop (head_of head) (inside_of self.old))) (λ _. inside_of self.new) }
        ensures too_deep { result ≡ Err stops.TooDeep → IsFull (inside_of self.old) }
        ensures room { OnOk result (HasPlace (inside_of self.new)) }
    {
        if self.is_full() {
            return Err(Stop::TooDeep);
        }
        let before = std::mem::replace(&mut self.done, Vec::new(alloc));
        self.open.push(Frame::Loop(head, before))?;
        Ok(())
    }

    /// From the first side of an IF to the other.
    pub fn turn(&mut self, alloc: Global) -> Result<(), Stop>
        ensures step { Makes result (turned_at (inside_of self.old).places (inside_of self.old).done) (λ _. inside_of self.new) }
        ensures no_depth { result ≡ Err stops.TooDeep → ⊥ }
        ensures same { OnOk result (length (inside_of self.new).places ≡ length (inside_of self.old).places) }
    {
        match self.open.pop() {
            Some(Frame::Then(line, condition, before, chained)) => {
                let yes = std::mem::replace(&mut self.done, Vec::new(alloc));
                let yes = list_of(alloc, yes)?;
                self.open
                    .push(Frame::Otherwise(line, condition, yes, before, chained))?;
                Ok(())
            }
            _ => Err(Stop::Syntax),
        }
    }

    /// Ends an IF, and those whose ELSE IF it is.
    pub fn end_choice(&mut self, alloc: Global) -> Result<(), Stop>
        ensures step { Makes result (choice_ended_at (inside_of self.old).places (inside_of self.old).done) (λ _. inside_of self.new) }
        ensures no_depth { result ≡ Err stops.TooDeep → ⊥ }
        ensures fewer { OnOk result (length (inside_of self.new).places ≤ length (inside_of self.old).places) }
    {
        let mut chained = true;
        while chained {
            chained = self.end_side(alloc)?;
        }
        Ok(())
    }

    // Ends one IF, and says whether it is an ELSE IF.
    fn end_side(&mut self, alloc: Global) -> Result<bool, Stop>
        ensures step { Makes result (side_ended_at (inside_of self.old).places (inside_of self.old).done) (λ chained. (chained, inside_of self.new)) }
        ensures shorter { IfOk result (λ _. small_vec_len self.new.open < small_vec_len self.old.open) }
        ensures no_depth { result ≡ Err stops.TooDeep → ⊥ }
        ensures fewer { OnOk result (length (inside_of self.new).places ≤ length (inside_of self.old).places) }
    {
        match self.open.pop() {
            Some(Frame::Then(line, condition, before, chained)) => {
                let yes = std::mem::replace(&mut self.done, before);
                let yes = list_of(alloc, yes)?;
                let choice = TStmt::If(line, condition, yes, TStmtList::End);
                push_statement(alloc, &mut self.done, choice)?;
                Ok(chained)
            }
            Some(Frame::Otherwise(line, condition, yes, before, chained)) => {
                let no = std::mem::replace(&mut self.done, before);
                let no = list_of(alloc, no)?;
                let choice = TStmt::If(line, condition, yes, no);
                push_statement(alloc, &mut self.done, choice)?;
                Ok(chained)
            }
            _ => Err(Stop::Syntax),
        }
    }

    /// Ends a loop.
    pub fn end_loop(&mut self, alloc: Global) -> Result<(), Stop>
        ensures step { Makes result (loop_ended_at (inside_of self.old).places (inside_of self.old).done) (λ _. inside_of self.new) }
        ensures no_depth { result ≡ Err stops.TooDeep → ⊥ }
        ensures fewer { OnOk result (length (inside_of self.new).places ≤ length (inside_of self.old).places) }
    {
        match self.open.pop() {
            Some(Frame::Loop(head, before)) => {
                let body = std::mem::replace(&mut self.done, before);
                let body = list_of(alloc, body)?;
                push_statement(alloc, &mut self.done, loop_of(head, body))?;
                Ok(())
            }
            _ => Err(Stop::Syntax),
        }
    }
}

// The loop with this body.
fn loop_of(head: Head, body: TStmtList) -> TStmt
    ensures { stmt_tree result ≡ of.loop_stmt (of.head_of head) (stmt_trees body) }
{
    match head {
        Head::Counted(line, name, first, last, step) => {
            TStmt::Do(line, name, first, last, step, body)
        }
        Head::While(line, condition) => TStmt::While(line, condition, body),
    }
}

/// The statements as a list.
pub fn list_of(alloc: Global, mut statements: Statements) -> Result<TStmtList, AllocError>
    ensures { IfOk result (λ l. stmt_trees l ≡ all_stmts (stmts statements.items)) }
{
    let mut list = TStmtList::End;
    while let Some(stmt) = statements.pop() {
        list = TStmtList::More(stmt, Box::new(alloc, list)?);
    }
    Ok(list)
}

// One more statement.
fn push_statement(alloc: Global, to: &mut Statements, stmt: TStmt) -> Result<(), AllocError>
    ensures { OnOk result (stmts to.new.items ≡ stmts to.old.items ++ stmt_tree stmt ∷ []) }
{
    to.push(Box::new(alloc, stmt)?)?;
    Ok(())
}

// These statements, and then those.
fn append(alloc: Global, to: &mut Statements, from: Vec<TStmt>) -> Result<(), AllocError>
    ensures { OnOk result (stmts to.new.items ≡ stmts to.old.items ++ map stmt_tree from.items) }
{
    for stmt in from {
        push_statement(alloc, to, stmt)?;
    }
    Ok(())
}
