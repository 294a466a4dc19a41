// What a line says of the blocks, and the lines of statements.
ghost use Rattle.std.specs.Prelude.{◌≡◌, [], ◌∷◌, List, map, codes, IfOk, IsTrue, ◌↔◌};
ghost use Rattle.fd_lexer.specs.View.{Name};
ghost use Rattle.fd_ast.specs.Tree.{ExprTree, CondTree, StmtTree, expr_tree, cond_tree, stmt_tree};
ghost use Rattle.fd_parser.specs.Lexemes.{toks};
ghost use Rattle.fd_parser.specs.Forms.{LineForm, line_form, IsWorded, IsSimple, IsThenRest, IsIfRest, IsRange, IsDoRest};
ghost use Rattle.fd_parser.specs.Answer.{GivesAll, GivesThree};

use crate::condition::nested;
use crate::expression::{expr, whole_expr};
use crate::fault::Fault;
use crate::lexeme::{
    Lexemes, after_sign, after_word, ended, expect_sign, expect_word, first_name, is_over, upper,
};
use crate::simple::{assignment, continue_rest, one_stmt, print_rest, read_rest};
use fd_ast::{TCond, TDecl, TExpr, TStmt};
use fd_base::{Bytes, Line};
use fd_lexer::{SignKind, is_word};
use std::alloc::Global;

/// What a line says of the text's blocks.
#[derive(Drop)]
pub enum Form {
    Program,
    Declarations(Vec<TDecl>),
    /// Statements of one line; READ has one for each target.
    Simple(Vec<TStmt>),
    LogicalIf(TCond, Vec<TStmt>),
    IfThen(TCond),
    ElseIf(TCond),
    Else,
    EndIf,
    Do(Bytes, TExpr, TExpr, TExpr),
    While(TCond),
    EndDo,
}

// A simple statement that begins with a word of its own.
fn worded<'a>(alloc: Global, line: Line, tokens: Lexemes<'a>) -> Result<Vec<TStmt>, Fault>
    ensures found { IfOk result (λ made. IsWorded line (toks tokens.now) (map stmt_tree made.items)) }
    ensures only { (xs : List StmtTree) → IsWorded line (toks tokens.now) xs → GivesAll (λ made. map stmt_tree made.items) result xs }
{
    if let Some(rest) = after_word(tokens, b"READ") {
        let list = read_rest(alloc, line, rest)?;
        return Ok(list);
    }
    if let Some(rest) = after_word(tokens, b"PRINT") {
        let list = print_rest(alloc, line, rest)?;
        return Ok(list);
    }
    let rest = expect_word(tokens, b"CONTINUE")?;
    let list = continue_rest(alloc, line, rest)?;
    Ok(list)
}

/// The simple statement that the tokens are, all of them. READ gives one for each target.
pub fn simple<'a>(alloc: Global, line: Line, tokens: Lexemes<'a>) -> Result<Vec<TStmt>, Fault>
    ensures found { IfOk result (λ made. IsSimple line (toks tokens.now) (map stmt_tree made.items)) }
    ensures only { (xs : List StmtTree) → IsSimple line (toks tokens.now) xs → GivesAll (λ made. map stmt_tree made.items) result xs }
{
    match worded(alloc, line, tokens) {
        Ok(list) => Ok(list),
        Err(Fault::Memory) => Err(Fault::Memory),
        Err(Fault::Syntax) => {
            let stmt = assignment(alloc, line, tokens)?;
            let list = one_stmt(alloc, stmt)?;
            Ok(list)
        }
    }
}

// Whether the tokens are THEN alone.
fn is_then<'a>(tokens: Lexemes<'a>) -> bool
    ensures { IsTrue result ↔ (toks tokens.now ≡ Name (codes "THEN") ∷ []) }
{
    match after_word(tokens, b"THEN") {
        Some(rest) => is_over(rest),
        None => false,
    }
}

/// What stands behind ELSE IF: a condition and THEN.
pub fn then_rest<'a>(alloc: Global, tokens: Lexemes<'a>) -> Result<TCond, Fault>
    ensures found { IfOk result (λ made. IsThenRest (toks tokens.now) (cond_tree made)) }
    ensures only { (x : CondTree) → IsThenRest (toks tokens.now) x → GivesAll cond_tree result x }
{
    let inside = expect_sign(tokens, SignKind::ParLeft)?;
    let (condition, rest) = nested(alloc, inside)?;
    if is_then(rest) {
        return Ok(condition);
    }
    Err(Fault::Syntax)
}

/// What stands behind IF: a condition, and THEN or a simple statement.
pub fn if_rest<'a>(alloc: Global, line: Line, tokens: Lexemes<'a>) -> Result<Form, Fault>
    ensures found { IfOk result (λ made. IsIfRest line (toks tokens.now) (line_form made)) }
    ensures only { (f : LineForm) → IsIfRest line (toks tokens.now) f → GivesAll line_form result f }
{
    let inside = expect_sign(tokens, SignKind::ParLeft)?;
    let (condition, rest) = nested(alloc, inside)?;
    if is_then(rest) {
        return Ok(Form::IfThen(condition));
    }
    let list = simple(alloc, line, rest)?;
    Ok(Form::LogicalIf(condition, list))
}

/// What stands behind DO.
pub fn do_rest<'a>(alloc: Global, tokens: Lexemes<'a>) -> Result<Form, Fault>
    ensures found { IfOk result (λ made. IsDoRest (toks tokens.now) (line_form made)) }
    ensures only { (f : LineForm) → IsDoRest (toks tokens.now) f → GivesAll line_form result f }
{
    let Some((name, rest)) = first_name(tokens) else {
        return Err(Fault::Syntax);
    };
    if let Some(behind) = after_sign(rest, SignKind::Equal) {
        let variable = upper(alloc, name)?;
        let (first, last, step) = range(alloc, behind)?;
        return Ok(Form::Do(variable, first, last, step));
    }
    if !is_word(name, b"WHILE") {
        return Err(Fault::Syntax);
    }
    let inside = expect_sign(rest, SignKind::ParLeft)?;
    let (condition, rest) = nested(alloc, inside)?;
    ended(rest)?;
    Ok(Form::While(condition))
}

// expr , expr [, expr]
fn range<'a>(alloc: Global, tokens: Lexemes<'a>) -> Result<(TExpr, TExpr, TExpr), Fault>
    ensures found { IfOk result (λ p. IsRange (toks tokens.now) (expr_tree p.0) (expr_tree p.1) (expr_tree p.2)) }
    ensures only { (x y z : ExprTree) → IsRange (toks tokens.now) x y z → GivesThree (λ p. expr_tree p.0) (λ p. expr_tree p.1) (λ p. expr_tree p.2) result x y z }
{
    let (first, rest) = expr(alloc, tokens)?;
    let rest = expect_sign(rest, SignKind::Comma)?;
    let (last, rest) = expr(alloc, rest)?;
    if is_over(rest) {
        return Ok((first, last, TExpr::Num(1)));
    }
    let rest = expect_sign(rest, SignKind::Comma)?;
    let step = whole_expr(alloc, rest)?;
    Ok((first, last, step))
}
