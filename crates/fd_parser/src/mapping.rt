// What stands behind the first word of a declaration or a DISTRIBUTE.
ghost use Rattle.std.specs.Prelude.{◌≡◌, ℕ, [], ◌∷◌, List, map, IfOk, codes};
ghost use Rattle.fd_lexer.specs.View.{Name};
ghost use Rattle.fd_ast.specs.Tree.{ExprTrees, AttrTree, DeclTree, expr_trees, attr_tree, decl_tree};
ghost use Rattle.fd_parser.specs.Lexemes.{toks};
ghost use Rattle.fd_parser.specs.Lists.{AreListed};
ghost use Rattle.fd_parser.specs.Declarations.{IsEntity, IsDecomp, IsParameterRest, IsWithTargets, IsAlignRest, IsDistributeRest};
ghost use Rattle.fd_parser.specs.Answer.{GivesAll, GivesBoth};

use crate::declaration::{attrs, decomps, definitions, entities, names};
use crate::expression::arguments;
use crate::fault::Fault;
use crate::lexeme::{Lexemes, after_sign, ended, expect_sign, expect_word, first_name, upper};
use fd_ast::{NameList, TAttr, TDecl, TExprList};
use fd_base::{Bytes, Line};
use fd_lexer::SignKind;
use std::alloc::Global;

/// What stands behind PARAMETER, one declaration for each name.
pub fn parameter_rest<'a>(
    alloc: Global,
    line: Line,
    tokens: Lexemes<'a>,
) -> Result<Vec<TDecl>, Fault>
    ensures found { IfOk result (λ made. IsParameterRest line (toks tokens.now) (map decl_tree made.items)) }
    ensures only { (xs : List DeclTree) → IsParameterRest line (toks tokens.now) xs → GivesAll (λ made. map decl_tree made.items) result xs }
{
    let inside = expect_sign(tokens, SignKind::ParLeft)?;
    let (list, rest) = definitions(alloc, line, inside)?;
    let rest = expect_sign(rest, SignKind::ParRight)?;
    ended(rest)?;
    Ok(list)
}

/// What stands behind INTEGER, one declaration for each name.
pub fn integer_rest<'a>(alloc: Global, line: Line, tokens: Lexemes<'a>) -> Result<Vec<TDecl>, Fault>
    ensures found { IfOk result (λ made. AreListed (IsEntity line) (toks tokens.now) (map decl_tree made.items) []) }
    ensures only { (xs : List DeclTree) → AreListed (IsEntity line) (toks tokens.now) xs [] → GivesAll (λ made. map decl_tree made.items) result xs }
{
    let (list, rest) = entities(alloc, line, tokens)?;
    ended(rest)?;
    Ok(list)
}

/// What stands behind DECOMPOSITION, one declaration for each name.
pub fn decomposition_rest<'a>(
    alloc: Global,
    line: Line,
    tokens: Lexemes<'a>,
) -> Result<Vec<TDecl>, Fault>
    ensures found { IfOk result (λ made. AreListed (IsDecomp line) (toks tokens.now) (map decl_tree made.items) []) }
    ensures only { (xs : List DeclTree) → AreListed (IsDecomp line) (toks tokens.now) xs [] → GivesAll (λ made. map decl_tree made.items) result xs }
{
    let (list, rest) = decomps(alloc, line, tokens)?;
    ended(rest)?;
    Ok(list)
}

/// What stands behind ALIGN.
pub fn align_rest<'a>(alloc: Global, line: Line, tokens: Lexemes<'a>) -> Result<TDecl, Fault>
    ensures found { IfOk result (λ made. IsAlignRest line (toks tokens.now) (decl_tree made)) }
    ensures only { (x : DeclTree) → IsAlignRest line (toks tokens.now) x → GivesAll decl_tree result x }
{
    let Some((array, rest)) = first_name(tokens) else {
        return Err(Fault::Syntax);
    };
    let array = upper(alloc, array)?;
    if let Some(inside) = after_sign(rest, SignKind::ParLeft) {
        let (dummies, rest) = names(alloc, inside)?;
        let rest = expect_sign(rest, SignKind::ParRight)?;
        let (decomp, targets) = with_targets(alloc, rest)?;
        return Ok(TDecl::Align(line, array, NameList::from_vec(dummies), decomp, targets));
    }
    let decomp = with_name(alloc, rest)?;
    Ok(TDecl::Align(line, array, NameList::new(alloc), decomp, TExprList::End))
}

// WITH and a name, and nothing behind it.
fn with_name<'a>(alloc: Global, tokens: Lexemes<'a>) -> Result<Bytes, Fault>
    ensures found { IfOk result (λ made. toks tokens.now ≡ Name (codes "WITH") ∷ (Name made ∷ [])) }
    ensures only { (s : List ℕ) → toks tokens.now ≡ Name (codes "WITH") ∷ (Name s ∷ []) → GivesAll (λ made. made) result s }
{
    let rest = expect_word(tokens, b"WITH")?;
    let Some((name, rest)) = first_name(rest) else {
        return Err(Fault::Syntax);
    };
    ended(rest)?;
    let name = upper(alloc, name)?;
    Ok(name)
}

// WITH, a name and its targets, and nothing behind them.
fn with_targets<'a>(alloc: Global, tokens: Lexemes<'a>) -> Result<(Bytes, TExprList), Fault>
    ensures found { IfOk result (λ p. IsWithTargets (toks tokens.now) p.0 (expr_trees p.1)) }
    ensures only { (s : List ℕ) (xs : ExprTrees) → IsWithTargets (toks tokens.now) s xs → GivesBoth (λ p. p.0) (λ p. expr_trees p.1) result s xs }
{
    let rest = expect_word(tokens, b"WITH")?;
    let Some((name, rest)) = first_name(rest) else {
        return Err(Fault::Syntax);
    };
    let name = upper(alloc, name)?;
    let inside = expect_sign(rest, SignKind::ParLeft)?;
    let (targets, rest) = arguments(alloc, inside)?;
    ended(rest)?;
    Ok((name, targets))
}

/// What stands behind DISTRIBUTE: a name and its attributes.
pub fn distribute_rest<'a>(alloc: Global, tokens: Lexemes<'a>) -> Result<(Bytes, Vec<TAttr>), Fault>
    ensures found { IfOk result (λ p. IsDistributeRest (toks tokens.now) p.0 (map attr_tree p.1.items)) }
    ensures only { (s : List ℕ) (xs : List AttrTree) → IsDistributeRest (toks tokens.now) s xs → GivesBoth (λ p. p.0) (λ p. map attr_tree p.1.items) result s xs }
{
    let Some((name, rest)) = first_name(tokens) else {
        return Err(Fault::Syntax);
    };
    let name = upper(alloc, name)?;
    let inside = expect_sign(rest, SignKind::ParLeft)?;
    let (list, rest) = attrs(alloc, inside)?;
    let rest = expect_sign(rest, SignKind::ParRight)?;
    ended(rest)?;
    Ok((name, list))
}
