// The numbers that are written in a program are 64-bit numbers, as their type says. Nothing has to run this: a run's laws begin with it.
ghost use Rattle.std.specs.Prelude.{◌≡◌, true};
ghost use Rattle.fd_base.specs.Numbers.{fits_i64};
ghost use Rattle.fd_prog.specs.Expressions.{expression_of, expressions_of};
ghost use Rattle.fd_prog.specs.Statements.{statement_of, statements_of};
ghost use Rattle.fd_prog.specs.Programs.{program_of};
ghost use Rattle.fd_prog.specs.Words.{HasWords, HaveWords, SetsWords, SetWords};

use crate::expression::{Expr, ExprList};
use crate::program::Program;
use crate::statement::{Stmt, StmtList};

fn is_word(number: i64)
    ensures { fits_i64 number ≡ true }
{}

#[cycle(words_in)]
fn words_in(e: &Expr)
    ensures { HasWords (expression_of e.now) }
{
    match e {
        Expr::Num(number) => is_word(*number),
        Expr::Scalar(_) => {}
        Expr::Elem(r) => words_among(&r.subs),
        Expr::Neg(inner) => words_in(inner),
        Expr::Bin(_, left, right) => {
            words_in(left);
            words_in(right);
        }
        Expr::Call(_, args) => words_among(args),
    }
}

#[cycle(words_in)]
fn words_among(list: &ExprList)
    ensures { HaveWords (expressions_of list.now) }
{
    match list {
        ExprList::End => {}
        ExprList::More(first, rest) => {
            words_in(first);
            words_among(rest);
        }
    }
}

#[cycle(words_set)]
fn words_set(s: &Stmt)
    ensures { SetsWords (statement_of s.now) }
{
    match s {
        Stmt::Assign(_, _, e) => words_in(e),
        Stmt::If(_, _, so, otherwise) => {
            all_words_set(so);
            all_words_set(otherwise);
        }
        Stmt::Do(_, _, first, _, _, body) => {
            words_in(first);
            all_words_set(body);
        }
        Stmt::While(_, _, body) => all_words_set(body),
        Stmt::Read(_, _) => {}
        Stmt::Print(_, _) => {}
        Stmt::Skip(_) => {}
        Stmt::Remap(_, _, _) => {}
    }
}

#[cycle(words_set)]
fn all_words_set(list: &StmtList)
    ensures { SetWords (statements_of list.now) }
{
    match list {
        StmtList::End => {}
        StmtList::More(first, rest) => {
            words_set(first);
            all_words_set(rest);
        }
    }
}

/// What gives a cell its number in a program is of 64-bit numbers.
pub fn numbers_are_words(program: &Program)
    ensures { SetWords (program_of program.now).body }
{
    all_words_set(&program.body)
}
