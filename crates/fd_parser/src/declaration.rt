// Declarations, and the executed DISTRIBUTE.
ghost use Rattle.std.specs.Prelude.{◌≡◌, ◌<◌, ℕ, ◌∷◌, List, length, map, IfOk, codes};
ghost use Rattle.fd_lexer.specs.View.{Tok, Sign, uppers};
ghost use Rattle.fd_ast.specs.Tree.{ExprTree, DimTree, AttrTree, DeclTree, expr_tree, dim_tree, attr_tree, decl_tree};
ghost use Rattle.fd_parser.specs.Lexemes.{toks};
ghost use Rattle.fd_lexer.specs.declared.token.SignKind.TheVariants.{ParRight};
ghost use Rattle.fd_parser.specs.Expressions.{IsExpr};
ghost use Rattle.fd_parser.specs.Lists.{AreListed, EndsElement, EndsList};
ghost use Rattle.fd_parser.specs.Declarations.{IsDim, IsAttr, IsName, IsDefinition, IsEntity, IsDecomp};
ghost use Rattle.fd_parser.specs.Answer.{GivesFront};

use crate::expression::expr;
use crate::fault::Fault;
use crate::lexeme::{Lexemes, after_sign, after_word, expect_sign, first_name, upper};
use fd_ast::{TAttr, TDecl, TDim, TDimList, TExpr};
use fd_base::{Bytes, Line};
use fd_lexer::{SignKind, is_word};
use std::alloc::Global;

// The bounds of a dimension.
fn dim<'a>(alloc: Global, tokens: Lexemes<'a>) -> Result<(TDim, Lexemes<'a>), Fault>
    ensures found { IfOk result (λ p. IsDim (toks tokens.now) (dim_tree p.0) (toks p.1.now)) }
    ensures only { (x : DimTree) (r : List Tok) → IsDim (toks tokens.now) x r → EndsElement r → GivesFront (λ p. dim_tree p.0) (λ p. toks p.1.now) result x r }
    ensures shorter { IfOk result (λ p. length (toks p.1.now) < length (toks tokens.now)) }
{
    let (first, rest) = expr(alloc, tokens)?;
    match after_sign(rest, SignKind::Colon) {
        Some(behind) => {
            let (high, rest) = expr(alloc, behind)?;
            Ok((TDim { low: first, high }, rest))
        }
        None => {
            let low = TExpr::Num(1);
            Ok((TDim { low, high: first }, rest))
        }
    }
}

/// Dimensions with commas between them.
pub fn dims<'a>(alloc: Global, tokens: Lexemes<'a>) -> Result<(Vec<TDim>, Lexemes<'a>), Fault>
    ensures found { IfOk result (λ p. AreListed IsDim (toks tokens.now) (map dim_tree p.0.items) (toks p.1.now)) }
    ensures only { (xs : List DimTree) (r : List Tok) → AreListed IsDim (toks tokens.now) xs r → EndsList r → GivesFront (λ p. map dim_tree p.0.items) (λ p. toks p.1.now) result xs r }
    ensures shorter { IfOk result (λ p. length (toks p.1.now) < length (toks tokens.now)) }
{
    let (first, mut rest) = dim(alloc, tokens)?;
    let mut list = Vec::new(alloc);
    list.push(first)?;
    while let Some(behind) = after_sign(rest, SignKind::Comma) {
        let (next, after) = dim(alloc, behind)?;
        list.push(next)?;
        rest = after;
    }
    Ok((list, rest))
}

// What a DISTRIBUTE says of one dimension.
fn attr<'a>(alloc: Global, tokens: Lexemes<'a>) -> Result<(TAttr, Lexemes<'a>), Fault>
    ensures found { IfOk result (λ p. IsAttr (toks tokens.now) (attr_tree p.0) (toks p.1.now)) }
    ensures only { (x : AttrTree) (r : List Tok) → IsAttr (toks tokens.now) x r → EndsElement r → GivesFront (λ p. attr_tree p.0) (λ p. toks p.1.now) result x r }
    ensures shorter { IfOk result (λ p. length (toks p.1.now) < length (toks tokens.now)) }
{
    if let Some(rest) = after_sign(tokens, SignKind::Colon) {
        return Ok((TAttr::Whole, rest));
    }
    if let Some(rest) = after_word(tokens, b"BLOCK") {
        return Ok((TAttr::Block, rest));
    }
    if let Some(rest) = after_word(tokens, b"CYCLIC") {
        return Ok((TAttr::Cyclic, rest));
    }
    let Some((name, rest)) = first_name(tokens) else {
        return Err(Fault::Syntax);
    };
    match after_sign(rest, SignKind::ParLeft) {
        Some(inside) => {
            let (size, rest) = block_size(alloc, name, inside)?;
            Ok((TAttr::BlockCyclic(size), rest))
        }
        None => Ok((TAttr::Named(upper(alloc, name)?), rest)),
    }
}

// The block size of a BLOCK_CYCLIC, behind its parenthesis.
fn block_size<'a>(
    alloc: Global,
    name: &[u8],
    inside: Lexemes<'a>,
) -> Result<(TExpr, Lexemes<'a>), Fault>
    ensures found { IfOk result (λ p. (uppers name.now ≡ codes "BLOCK_CYCLIC") × IsExpr (toks inside.now) (expr_tree p.0) (Sign ParRight ∷ toks p.1.now)) }
    ensures only { (x : ExprTree) (r : List Tok) → uppers name.now ≡ codes "BLOCK_CYCLIC" → IsExpr (toks inside.now) x (Sign ParRight ∷ r) → GivesFront (λ p. expr_tree p.0) (λ p. toks p.1.now) result x r }
    ensures shorter { IfOk result (λ p. length (toks p.1.now) < length (toks inside.now)) }
{
    if !is_word(name, b"BLOCK_CYCLIC") {
        return Err(Fault::Syntax);
    }
    let (size, rest) = expr(alloc, inside)?;
    let rest = expect_sign(rest, SignKind::ParRight)?;
    Ok((size, rest))
}

/// Attributes with commas between them.
pub fn attrs<'a>(alloc: Global, tokens: Lexemes<'a>) -> Result<(Vec<TAttr>, Lexemes<'a>), Fault>
    ensures found { IfOk result (λ p. AreListed IsAttr (toks tokens.now) (map attr_tree p.0.items) (toks p.1.now)) }
    ensures only { (xs : List AttrTree) (r : List Tok) → AreListed IsAttr (toks tokens.now) xs r → EndsList r → GivesFront (λ p. map attr_tree p.0.items) (λ p. toks p.1.now) result xs r }
    ensures shorter { IfOk result (λ p. length (toks p.1.now) < length (toks tokens.now)) }
{
    let (first, mut rest) = attr(alloc, tokens)?;
    let mut list = Vec::new(alloc);
    list.push(first)?;
    while let Some(behind) = after_sign(rest, SignKind::Comma) {
        let (next, after) = attr(alloc, behind)?;
        list.push(next)?;
        rest = after;
    }
    Ok((list, rest))
}

// A name.
fn one_name<'a>(alloc: Global, tokens: Lexemes<'a>) -> Result<(Bytes, Lexemes<'a>), Fault>
    ensures found { IfOk result (λ p. IsName (toks tokens.now) p.0 (toks p.1.now)) }
    ensures only { (x : List ℕ) (r : List Tok) → IsName (toks tokens.now) x r → EndsElement r → GivesFront (λ p. p.0) (λ p. toks p.1.now) result x r }
    ensures shorter { IfOk result (λ p. length (toks p.1.now) < length (toks tokens.now)) }
{
    let Some((name, rest)) = first_name(tokens) else {
        return Err(Fault::Syntax);
    };
    let name = upper(alloc, name)?;
    Ok((name, rest))
}

/// Names with commas between them.
pub fn names<'a>(alloc: Global, tokens: Lexemes<'a>) -> Result<(Vec<Bytes>, Lexemes<'a>), Fault>
    ensures found { IfOk result (λ p. AreListed IsName (toks tokens.now) (p.0.items) (toks p.1.now)) }
    ensures only { (xs : List (List ℕ)) (r : List Tok) → AreListed IsName (toks tokens.now) xs r → EndsList r → GivesFront (λ p. p.0.items) (λ p. toks p.1.now) result xs r }
    ensures shorter { IfOk result (λ p. length (toks p.1.now) < length (toks tokens.now)) }
{
    let (first, mut rest) = one_name(alloc, tokens)?;
    let mut list = Vec::new(alloc);
    list.push(first)?;
    while let Some(behind) = after_sign(rest, SignKind::Comma) {
        let (next, after) = one_name(alloc, behind)?;
        list.push(next)?;
        rest = after;
    }
    Ok((list, rest))
}

// A name of a PARAMETER and its value.
fn definition<'a>(
    alloc: Global,
    line: Line,
    tokens: Lexemes<'a>,
) -> Result<(TDecl, Lexemes<'a>), Fault>
    ensures found { IfOk result (λ p. IsDefinition line (toks tokens.now) (decl_tree p.0) (toks p.1.now)) }
    ensures only { (x : DeclTree) (r : List Tok) → IsDefinition line (toks tokens.now) x r → EndsElement r → GivesFront (λ p. decl_tree p.0) (λ p. toks p.1.now) result x r }
    ensures shorter { IfOk result (λ p. length (toks p.1.now) < length (toks tokens.now)) }
{
    let Some((name, rest)) = first_name(tokens) else {
        return Err(Fault::Syntax);
    };
    let name = upper(alloc, name)?;
    let rest = expect_sign(rest, SignKind::Equal)?;
    let (value, rest) = expr(alloc, rest)?;
    Ok((TDecl::Constant(line, name, value), rest))
}

/// Definitions with commas between them.
pub fn definitions<'a>(
    alloc: Global,
    line: Line,
    tokens: Lexemes<'a>,
) -> Result<(Vec<TDecl>, Lexemes<'a>), Fault>
    ensures found { IfOk result (λ p. AreListed (IsDefinition line) (toks tokens.now) (map decl_tree p.0.items) (toks p.1.now)) }
    ensures only { (xs : List DeclTree) (r : List Tok) → AreListed (IsDefinition line) (toks tokens.now) xs r → EndsList r → GivesFront (λ p. map decl_tree p.0.items) (λ p. toks p.1.now) result xs r }
    ensures shorter { IfOk result (λ p. length (toks p.1.now) < length (toks tokens.now)) }
{
    let (first, mut rest) = definition(alloc, line, tokens)?;
    let mut list = Vec::new(alloc);
    list.push(first)?;
    while let Some(behind) = after_sign(rest, SignKind::Comma) {
        let (next, after) = definition(alloc, line, behind)?;
        list.push(next)?;
        rest = after;
    }
    Ok((list, rest))
}

// A name of an INTEGER, and its dimensions.
fn entity<'a>(alloc: Global, line: Line, tokens: Lexemes<'a>) -> Result<(TDecl, Lexemes<'a>), Fault>
    ensures found { IfOk result (λ p. IsEntity line (toks tokens.now) (decl_tree p.0) (toks p.1.now)) }
    ensures only { (x : DeclTree) (r : List Tok) → IsEntity line (toks tokens.now) x r → EndsElement r → GivesFront (λ p. decl_tree p.0) (λ p. toks p.1.now) result x r }
    ensures shorter { IfOk result (λ p. length (toks p.1.now) < length (toks tokens.now)) }
{
    let Some((name, rest)) = first_name(tokens) else {
        return Err(Fault::Syntax);
    };
    let name = upper(alloc, name)?;
    match after_sign(rest, SignKind::ParLeft) {
        Some(inside) => {
            let (list, rest) = dims(alloc, inside)?;
            let rest = expect_sign(rest, SignKind::ParRight)?;
            Ok((TDecl::Integer(line, name, TDimList::from_vec(list)), rest))
        }
        None => Ok((TDecl::Integer(line, name, TDimList::new(alloc)), rest)),
    }
}

/// Names of an INTEGER with commas between them.
pub fn entities<'a>(
    alloc: Global,
    line: Line,
    tokens: Lexemes<'a>,
) -> Result<(Vec<TDecl>, Lexemes<'a>), Fault>
    ensures found { IfOk result (λ p. AreListed (IsEntity line) (toks tokens.now) (map decl_tree p.0.items) (toks p.1.now)) }
    ensures only { (xs : List DeclTree) (r : List Tok) → AreListed (IsEntity line) (toks tokens.now) xs r → EndsList r → GivesFront (λ p. map decl_tree p.0.items) (λ p. toks p.1.now) result xs r }
    ensures shorter { IfOk result (λ p. length (toks p.1.now) < length (toks tokens.now)) }
{
    let (first, mut rest) = entity(alloc, line, tokens)?;
    let mut list = Vec::new(alloc);
    list.push(first)?;
    while let Some(behind) = after_sign(rest, SignKind::Comma) {
        let (next, after) = entity(alloc, line, behind)?;
        list.push(next)?;
        rest = after;
    }
    Ok((list, rest))
}

// A name of a DECOMPOSITION, and its dimensions.
fn decomp<'a>(alloc: Global, line: Line, tokens: Lexemes<'a>) -> Result<(TDecl, Lexemes<'a>), Fault>
    ensures found { IfOk result (λ p. IsDecomp line (toks tokens.now) (decl_tree p.0) (toks p.1.now)) }
    ensures only { (x : DeclTree) (r : List Tok) → IsDecomp line (toks tokens.now) x r → EndsElement r → GivesFront (λ p. decl_tree p.0) (λ p. toks p.1.now) result x r }
    ensures shorter { IfOk result (λ p. length (toks p.1.now) < length (toks tokens.now)) }
{
    let Some((name, rest)) = first_name(tokens) else {
        return Err(Fault::Syntax);
    };
    let name = upper(alloc, name)?;
    let inside = expect_sign(rest, SignKind::ParLeft)?;
    let (list, rest) = dims(alloc, inside)?;
    let rest = expect_sign(rest, SignKind::ParRight)?;
    Ok((TDecl::Decomp(line, name, TDimList::from_vec(list)), rest))
}

/// Names of a DECOMPOSITION with commas between them.
pub fn decomps<'a>(
    alloc: Global,
    line: Line,
    tokens: Lexemes<'a>,
) -> Result<(Vec<TDecl>, Lexemes<'a>), Fault>
    ensures found { IfOk result (λ p. AreListed (IsDecomp line) (toks tokens.now) (map decl_tree p.0.items) (toks p.1.now)) }
    ensures only { (xs : List DeclTree) (r : List Tok) → AreListed (IsDecomp line) (toks tokens.now) xs r → EndsList r → GivesFront (λ p. map decl_tree p.0.items) (λ p. toks p.1.now) result xs r }
    ensures shorter { IfOk result (λ p. length (toks p.1.now) < length (toks tokens.now)) }
{
    let (first, mut rest) = decomp(alloc, line, tokens)?;
    let mut list = Vec::new(alloc);
    list.push(first)?;
    while let Some(behind) = after_sign(rest, SignKind::Comma) {
        let (next, after) = decomp(alloc, line, behind)?;
        list.push(next)?;
        rest = after;
    }
    Ok((list, rest))
}
