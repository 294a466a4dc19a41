// Expressions.
ghost use Rattle.std.specs.Prelude.{◌≡◌, ◌<◌, [], ◌∷◌, List, length, map, IfOk, MatchOption};
ghost use Rattle.fd_lexer.specs.View.{Tok};
ghost use Rattle.fd_ast.specs.declared.expression.Op.{Op};
ghost use Rattle.fd_ast.specs.Tree.{ExprTree, ExprTrees, expr_tree, expr_trees};
ghost use Rattle.fd_parser.specs.Lexemes.{toks};
ghost use Rattle.fd_parser.specs.Expressions.{IsExpr, IsSigned, IsTerm, IsPrimary, IsArgs, IsSumSign, IsFactorSign, EndsExpr, EndsTerm, EndsPrimary, all_exprs};
ghost use Rattle.fd_parser.specs.Answer.{GivesAll, GivesFront};

use crate::fault::Fault;
use crate::lexeme::{Lexemes, after_sign, ended, expect_sign, first_name, first_number, upper};
use fd_ast::{Op, TExpr, TExprList};
use fd_base::Memory;
use fd_lexer::SignKind;
use std::alloc::Global;

/// The expression with which the tokens begin, and the tokens behind it.
#[cycle(expression)]
pub fn expr<'a>(alloc: Global, tokens: Lexemes<'a>) -> Result<(TExpr, Lexemes<'a>), Fault>
    ensures found { IfOk result (λ p. IsExpr (toks tokens.now) (expr_tree p.0) (toks p.1.now)) }
    ensures only { (x : ExprTree) (r : List Tok) → IsExpr (toks tokens.now) x r → EndsExpr r → GivesFront (λ p. expr_tree p.0) (λ p. toks p.1.now) result x r }
    ensures shorter { IfOk result (λ p. length (toks p.1.now) < length (toks tokens.now)) }
{
    let (mut sum, mut rest) = signed(alloc, tokens)?;
    while let Some((op, right)) = sum_sign(rest) {
        let (next, after) = term(alloc, right)?;
        sum = TExpr::Bin(op, Box::new(alloc, sum)?, Box::new(alloc, next)?);
        rest = after;
    }
    Ok((sum, rest))
}

#[cycle(expression)]
fn signed<'a>(alloc: Global, tokens: Lexemes<'a>) -> Result<(TExpr, Lexemes<'a>), Fault>
    ensures found { IfOk result (λ p. IsSigned (toks tokens.now) (expr_tree p.0) (toks p.1.now)) }
    ensures only { (x : ExprTree) (r : List Tok) → IsSigned (toks tokens.now) x r → EndsTerm r → GivesFront (λ p. expr_tree p.0) (λ p. toks p.1.now) result x r }
    ensures shorter { IfOk result (λ p. length (toks p.1.now) < length (toks tokens.now)) }
{
    if let Some(behind) = after_sign(tokens, SignKind::Minus) {
        let (inner, rest) = term(alloc, behind)?;
        return Ok((TExpr::Neg(Box::new(alloc, inner)?), rest));
    }
    if let Some(rest) = after_sign(tokens, SignKind::Plus) {
        let (inner, rest) = term(alloc, rest)?;
        return Ok((inner, rest));
    }
    let (inner, rest) = term(alloc, tokens)?;
    Ok((inner, rest))
}

#[cycle(expression)]
fn term<'a>(alloc: Global, tokens: Lexemes<'a>) -> Result<(TExpr, Lexemes<'a>), Fault>
    ensures found { IfOk result (λ p. IsTerm (toks tokens.now) (expr_tree p.0) (toks p.1.now)) }
    ensures only { (x : ExprTree) (r : List Tok) → IsTerm (toks tokens.now) x r → EndsTerm r → GivesFront (λ p. expr_tree p.0) (λ p. toks p.1.now) result x r }
    ensures shorter { IfOk result (λ p. length (toks p.1.now) < length (toks tokens.now)) }
{
    let (mut product, mut rest) = primary(alloc, tokens)?;
    while let Some((op, right)) = factor_sign(rest) {
        let (next, after) = primary(alloc, right)?;
        product = TExpr::Bin(op, Box::new(alloc, product)?, Box::new(alloc, next)?);
        rest = after;
    }
    Ok((product, rest))
}

#[cycle(expression)]
fn primary<'a>(alloc: Global, tokens: Lexemes<'a>) -> Result<(TExpr, Lexemes<'a>), Fault>
    ensures found { IfOk result (λ p. IsPrimary (toks tokens.now) (expr_tree p.0) (toks p.1.now)) }
    ensures only { (x : ExprTree) (r : List Tok) → IsPrimary (toks tokens.now) x r → EndsPrimary r → GivesFront (λ p. expr_tree p.0) (λ p. toks p.1.now) result x r }
    ensures shorter { IfOk result (λ p. length (toks p.1.now) < length (toks tokens.now)) }
{
    if let Some((number, rest)) = first_number(tokens) {
        return Ok((TExpr::Num(number), rest));
    }
    if let Some((name, rest)) = first_name(tokens) {
        let name = upper(alloc, name)?;
        return match after_sign(rest, SignKind::ParLeft) {
            Some(inside) => {
                let (list, rest) = arguments(alloc, inside)?;
                Ok((TExpr::Call(name, list), rest))
            }
            None => Ok((TExpr::Name(name), rest)),
        };
    }
    let inside = expect_sign(tokens, SignKind::ParLeft)?;
    let (inner, rest) = expr(alloc, inside)?;
    let rest = expect_sign(rest, SignKind::ParRight)?;
    Ok((inner, rest))
}

/// Expressions with commas between them, and the parenthesis that closes them.
#[cycle(expression)]
pub fn arguments<'a>(alloc: Global, tokens: Lexemes<'a>) -> Result<(TExprList, Lexemes<'a>), Fault>
    ensures found { IfOk result (λ p. IsArgs (toks tokens.now) (expr_trees p.0) (toks p.1.now)) }
    ensures only { (xs : ExprTrees) (r : List Tok) → IsArgs (toks tokens.now) xs r → GivesFront (λ p. expr_trees p.0) (λ p. toks p.1.now) result xs r }
    ensures shorter { IfOk result (λ p. length (toks p.1.now) < length (toks tokens.now)) }
{
    let (first, mut rest) = expr(alloc, tokens)?;
    let mut list = Vec::new(alloc);
    list.push(first)?;
    while let Some(behind) = after_sign(rest, SignKind::Comma) {
        let (next, after) = expr(alloc, behind)?;
        list.push(next)?;
        rest = after;
    }
    let rest = expect_sign(rest, SignKind::ParRight)?;
    let list = list_of(alloc, list)?;
    Ok((list, rest))
}

/// The expression that the tokens are, all of them.
pub fn whole_expr<'a>(alloc: Global, tokens: Lexemes<'a>) -> Result<TExpr, Fault>
    ensures found { IfOk result (λ made. IsExpr (toks tokens.now) (expr_tree made) []) }
    ensures only { (x : ExprTree) → IsExpr (toks tokens.now) x [] → GivesAll expr_tree result x }
{
    let (tree, rest) = expr(alloc, tokens)?;
    ended(rest)?;
    Ok(tree)
}

// The expressions as a list.
fn list_of(alloc: Global, mut exprs: Vec<TExpr>) -> Result<TExprList, Memory>
    ensures { IfOk result (λ made. expr_trees made ≡ all_exprs (map expr_tree exprs.items)) }
{
    let mut list = TExprList::End;
    while let Some(last) = exprs.pop() {
        list = TExprList::More(Box::new(alloc, last)?, Box::new(alloc, list)?);
    }
    Ok(list)
}

fn sum_sign<'a>(tokens: Lexemes<'a>) -> Option<(Op, Lexemes<'a>)>
    ensures { MatchOption result ((op : Op) (us : List Tok) → IsSumSign (toks tokens.now) op us → ⊥) (λ p. IsSumSign (toks tokens.now) p.0 (toks p.1.now)) }
{
    if let Some(rest) = after_sign(tokens, SignKind::Plus) {
        return Some((Op::Add, rest));
    }
    if let Some(rest) = after_sign(tokens, SignKind::Minus) {
        return Some((Op::Sub, rest));
    }
    None
}

fn factor_sign<'a>(tokens: Lexemes<'a>) -> Option<(Op, Lexemes<'a>)>
    ensures { MatchOption result ((op : Op) (us : List Tok) → IsFactorSign (toks tokens.now) op us → ⊥) (λ p. IsFactorSign (toks tokens.now) p.0 (toks p.1.now)) }
{
    if let Some(rest) = after_sign(tokens, SignKind::Star) {
        return Some((Op::Mul, rest));
    }
    if let Some(rest) = after_sign(tokens, SignKind::Slash) {
        return Some((Op::Div, rest));
    }
    None
}
