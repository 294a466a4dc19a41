// Simple statements.
ghost use Rattle.std.specs.Prelude.{◌≡◌, ◌<◌, [], ◌∷◌, List, length, map, IfOk};
ghost use Rattle.fd_lexer.specs.View.{Tok};
ghost use Rattle.fd_ast.specs.Tree.{ExprTree, ItemTree, StmtTree, expr_tree, item_tree, stmt_tree, ReadStmt};
ghost use Rattle.fd_parser.specs.Lexemes.{toks};
ghost use Rattle.fd_parser.specs.Expressions.{EndsPrimary};
ghost use Rattle.fd_parser.specs.Lists.{AreListed, EndsElement, EndsList};
ghost use Rattle.fd_parser.specs.Simple.{IsTarget, IsItem, IsAssignment, IsReadRest, IsPrintRest, IsContinueRest};
ghost use Rattle.fd_parser.specs.Answer.{GivesAll, GivesFront};

use crate::expression::{arguments, expr, whole_expr};
use crate::fault::Fault;
use crate::lexeme::{
    Lexemes, after_sign, ended, expect_sign, first_name, first_words, is_over, unquoted, upper,
};
use fd_ast::{TExpr, TItem, TItemList, TStmt};
use fd_base::{Line, Memory};
use fd_lexer::SignKind;
use std::alloc::Global;

// The target with which the tokens begin, and the tokens behind it.
fn target<'a>(alloc: Global, tokens: Lexemes<'a>) -> Result<(TExpr, Lexemes<'a>), Fault>
    ensures found { IfOk result (λ p. IsTarget (toks tokens.now) (expr_tree p.0) (toks p.1.now)) }
    ensures only { (x : ExprTree) (r : List Tok) → IsTarget (toks tokens.now) x r → EndsPrimary r → GivesFront (λ p. expr_tree p.0) (λ p. toks p.1.now) result x r }
    ensures shorter { IfOk result (λ p. length (toks p.1.now) < length (toks tokens.now)) }
{
    let Some((name, rest)) = first_name(tokens) else {
        return Err(Fault::Syntax);
    };
    let name = upper(alloc, name)?;
    match after_sign(rest, SignKind::ParLeft) {
        Some(inside) => {
            let (list, rest) = arguments(alloc, inside)?;
            Ok((TExpr::Call(name, list), rest))
        }
        None => Ok((TExpr::Name(name), rest)),
    }
}

// Targets with commas between them.
fn targets<'a>(alloc: Global, tokens: Lexemes<'a>) -> Result<(Vec<TExpr>, Lexemes<'a>), Fault>
    ensures found { IfOk result (λ p. AreListed IsTarget (toks tokens.now) (map expr_tree p.0.items) (toks p.1.now)) }
    ensures only { (xs : List ExprTree) (r : List Tok) → AreListed IsTarget (toks tokens.now) xs r → EndsList r → GivesFront (λ p. map expr_tree p.0.items) (λ p. toks p.1.now) result xs r }
    ensures shorter { IfOk result (λ p. length (toks p.1.now) < length (toks tokens.now)) }
{
    let (first, mut rest) = target(alloc, tokens)?;
    let mut list = Vec::new(alloc);
    list.push(first)?;
    while let Some(behind) = after_sign(rest, SignKind::Comma) {
        let (next, after) = target(alloc, behind)?;
        list.push(next)?;
        rest = after;
    }
    Ok((list, rest))
}

// The item with which the tokens begin, and the tokens behind it.
fn item<'a>(alloc: Global, tokens: Lexemes<'a>) -> Result<(TItem, Lexemes<'a>), Fault>
    ensures found { IfOk result (λ p. IsItem (toks tokens.now) (item_tree p.0) (toks p.1.now)) }
    ensures only { (x : ItemTree) (r : List Tok) → IsItem (toks tokens.now) x r → EndsElement r → GivesFront (λ p. item_tree p.0) (λ p. toks p.1.now) result x r }
    ensures shorter { IfOk result (λ p. length (toks p.1.now) < length (toks tokens.now)) }
{
    if let Some((words, rest)) = first_words(tokens) {
        let text = unquoted(alloc, words)?;
        return Ok((TItem::Words(text), rest));
    }
    let (value, rest) = expr(alloc, tokens)?;
    Ok((TItem::Value(value), rest))
}

// Items with commas between them.
fn items<'a>(alloc: Global, tokens: Lexemes<'a>) -> Result<(Vec<TItem>, Lexemes<'a>), Fault>
    ensures found { IfOk result (λ p. AreListed IsItem (toks tokens.now) (map item_tree p.0.items) (toks p.1.now)) }
    ensures only { (xs : List ItemTree) (r : List Tok) → AreListed IsItem (toks tokens.now) xs r → EndsList r → GivesFront (λ p. map item_tree p.0.items) (λ p. toks p.1.now) result xs r }
    ensures shorter { IfOk result (λ p. length (toks p.1.now) < length (toks tokens.now)) }
{
    let (first, mut rest) = item(alloc, tokens)?;
    let mut list = Vec::new(alloc);
    list.push(first)?;
    while let Some(behind) = after_sign(rest, SignKind::Comma) {
        let (next, after) = item(alloc, behind)?;
        list.push(next)?;
        rest = after;
    }
    Ok((list, rest))
}

/// The assignment that the tokens are, all of them.
pub fn assignment<'a>(alloc: Global, line: Line, tokens: Lexemes<'a>) -> Result<TStmt, Fault>
    ensures found { IfOk result (λ made. IsAssignment line (toks tokens.now) (stmt_tree made)) }
    ensures only { (x : StmtTree) → IsAssignment line (toks tokens.now) x → GivesAll stmt_tree result x }
{
    let (left, rest) = target(alloc, tokens)?;
    let rest = expect_sign(rest, SignKind::Equal)?;
    let value = whole_expr(alloc, rest)?;
    Ok(TStmt::Assign(line, left, value))
}

/// What stands behind READ, one statement for each target.
pub fn read_rest<'a>(alloc: Global, line: Line, tokens: Lexemes<'a>) -> Result<Vec<TStmt>, Fault>
    ensures found { IfOk result (λ made. IsReadRest line (toks tokens.now) (map stmt_tree made.items)) }
    ensures only { (xs : List StmtTree) → IsReadRest line (toks tokens.now) xs → GivesAll (λ made. map stmt_tree made.items) result xs }
{
    let rest = expect_sign(tokens, SignKind::Star)?;
    let rest = expect_sign(rest, SignKind::Comma)?;
    let (list, rest) = targets(alloc, rest)?;
    ended(rest)?;
    let reads = reads_of(alloc, line, list)?;
    Ok(reads)
}

fn reads_of(alloc: Global, line: Line, targets: Vec<TExpr>) -> Result<Vec<TStmt>, Memory>
    ensures { IfOk result (λ made. map stmt_tree made.items ≡ map (λ x. ReadStmt line x) (map expr_tree targets.items)) }
{
    let mut reads = Vec::new(alloc);
    for target in targets {
        reads.push(TStmt::Read(line, target))?;
    }
    Ok(reads)
}

/// What stands behind PRINT.
pub fn print_rest<'a>(alloc: Global, line: Line, tokens: Lexemes<'a>) -> Result<Vec<TStmt>, Fault>
    ensures found { IfOk result (λ made. IsPrintRest line (toks tokens.now) (map stmt_tree made.items)) }
    ensures only { (xs : List StmtTree) → IsPrintRest line (toks tokens.now) xs → GivesAll (λ made. map stmt_tree made.items) result xs }
{
    let rest = expect_sign(tokens, SignKind::Star)?;
    if is_over(rest) {
        let print = one_stmt(alloc, TStmt::Print(line, TItemList::new(alloc)))?;
        return Ok(print);
    }
    let rest = expect_sign(rest, SignKind::Comma)?;
    let (list, rest) = items(alloc, rest)?;
    ended(rest)?;
    let print = one_stmt(alloc, TStmt::Print(line, TItemList::from_vec(list)))?;
    Ok(print)
}

/// What stands behind CONTINUE: nothing.
pub fn continue_rest<'a>(
    alloc: Global,
    line: Line,
    tokens: Lexemes<'a>,
) -> Result<Vec<TStmt>, Fault>
    ensures found { IfOk result (λ made. IsContinueRest line (toks tokens.now) (map stmt_tree made.items)) }
    ensures only { (xs : List StmtTree) → IsContinueRest line (toks tokens.now) xs → GivesAll (λ made. map stmt_tree made.items) result xs }
{
    ended(tokens)?;
    let skip = one_stmt(alloc, TStmt::Skip(line))?;
    Ok(skip)
}

/// One statement alone.
pub fn one_stmt(alloc: Global, stmt: TStmt) -> Result<Vec<TStmt>, Memory>
    ensures { IfOk result (λ made. made.items ≡ stmt ∷ []) }
{
    let mut list = Vec::new(alloc);
    list.push(stmt)?;
    Ok(list)
}
