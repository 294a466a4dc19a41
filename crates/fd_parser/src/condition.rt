// Conditions.
ghost use Rattle.std.specs.Prelude.{◌≡◌, ◌<◌, ◌∷◌, List, length, IfOk, MatchResult};
ghost use Rattle.fd_base.specs.declared.relation.Rel.{Rel};
ghost use Rattle.fd_lexer.specs.declared.token.SignKind.TheVariants.{ParLeft, ParRight};
ghost use Rattle.fd_lexer.specs.View.{Tok};
ghost use Rattle.fd_lexer.specs.View as view;
ghost use Rattle.fd_ast.specs.Tree.{CondTree, cond_tree};
ghost use Rattle.fd_parser.specs.declared.fault.Fault.TheVariants as faults;
ghost use Rattle.fd_parser.specs.Lexemes.{tok_of, toks};
ghost use Rattle.fd_parser.specs.Expressions.{EndsExpr};
ghost use Rattle.fd_parser.specs.Conditions.{IsCond, IsConj, IsNeg, IsAtom, IsComparison, IsRelSign, EndsCond, EndsConj};
ghost use Rattle.fd_parser.specs.Conditions as of;
ghost use Rattle.fd_parser.specs.Answer.{GivesFront};

use crate::expression::expr;
use crate::fault::Fault;
use crate::lexeme::{Lexeme, Lexemes, after_dot, after_sign, expect_sign, next};
use fd_ast::TCond;
use fd_base::Rel;
use fd_lexer::{DotWord, SignKind};
use std::alloc::Global;

/// The condition with which the tokens begin, and the tokens behind it.
#[cycle(condition)]
pub fn cond<'a>(alloc: Global, tokens: Lexemes<'a>) -> Result<(TCond, Lexemes<'a>), Fault>
    ensures found { IfOk result (λ p. IsCond (toks tokens.now) (cond_tree p.0) (toks p.1.now)) }
    ensures only { (x : CondTree) (r : List Tok) → IsCond (toks tokens.now) x r → EndsCond r → GivesFront (λ p. cond_tree p.0) (λ p. toks p.1.now) result x r }
    ensures shorter { IfOk result (λ p. length (toks p.1.now) < length (toks tokens.now)) }
{
    let (mut whole, mut rest) = conj(alloc, tokens)?;
    while let Some(right) = after_dot(rest, DotWord::Or) {
        let (side, behind) = conj(alloc, right)?;
        whole = TCond::Either(Box::new(alloc, whole)?, Box::new(alloc, side)?);
        rest = behind;
    }
    Ok((whole, rest))
}

#[cycle(condition)]
fn conj<'a>(alloc: Global, tokens: Lexemes<'a>) -> Result<(TCond, Lexemes<'a>), Fault>
    ensures found { IfOk result (λ p. IsConj (toks tokens.now) (cond_tree p.0) (toks p.1.now)) }
    ensures only { (x : CondTree) (r : List Tok) → IsConj (toks tokens.now) x r → EndsConj r → GivesFront (λ p. cond_tree p.0) (λ p. toks p.1.now) result x r }
    ensures shorter { IfOk result (λ p. length (toks p.1.now) < length (toks tokens.now)) }
{
    let (mut whole, mut rest) = neg(alloc, tokens)?;
    while let Some(right) = after_dot(rest, DotWord::And) {
        let (side, behind) = neg(alloc, right)?;
        whole = TCond::Both(Box::new(alloc, whole)?, Box::new(alloc, side)?);
        rest = behind;
    }
    Ok((whole, rest))
}

#[cycle(condition)]
fn neg<'a>(alloc: Global, tokens: Lexemes<'a>) -> Result<(TCond, Lexemes<'a>), Fault>
    ensures found { IfOk result (λ p. IsNeg (toks tokens.now) (cond_tree p.0) (toks p.1.now)) }
    ensures only { (x : CondTree) (r : List Tok) → IsNeg (toks tokens.now) x r → EndsExpr r → GivesFront (λ p. cond_tree p.0) (λ p. toks p.1.now) result x r }
    ensures shorter { IfOk result (λ p. length (toks p.1.now) < length (toks tokens.now)) }
{
    match after_dot(tokens, DotWord::Not) {
        Some(rest) => {
            let (inner, rest) = atom(alloc, rest)?;
            Ok((TCond::Not(Box::new(alloc, inner)?), rest))
        }
        None => {
            let (inner, rest) = atom(alloc, tokens)?;
            Ok((inner, rest))
        }
    }
}

#[cycle(condition)]
fn atom<'a>(alloc: Global, tokens: Lexemes<'a>) -> Result<(TCond, Lexemes<'a>), Fault>
    ensures found { IfOk result (λ p. IsAtom (toks tokens.now) (cond_tree p.0) (toks p.1.now)) }
    ensures only { (x : CondTree) (r : List Tok) → IsAtom (toks tokens.now) x r → EndsExpr r → GivesFront (λ p. cond_tree p.0) (λ p. toks p.1.now) result x r }
    ensures shorter { IfOk result (λ p. length (toks p.1.now) < length (toks tokens.now)) }
{
    if let Some(rest) = after_dot(tokens, DotWord::IsTrue) {
        return Ok((TCond::Fixed(true), rest));
    }
    if let Some(rest) = after_dot(tokens, DotWord::IsFalse) {
        return Ok((TCond::Fixed(false), rest));
    }
    match after_sign(tokens, SignKind::ParLeft) {
        Some(inside) => {
            if compares(inside) {
                in_parentheses(alloc, tokens, inside)
            } else {
                comparison_first(alloc, tokens, inside)
            }
        }
        None => {
            let (tree, rest) = comparison(alloc, tokens)?;
            Ok((tree, rest))
        }
    }
}

// A condition in parentheses, or a comparison that begins with one.
#[cycle(condition)]
fn in_parentheses<'a>(
    alloc: Global,
    tokens: Lexemes<'a>,
    inside: Lexemes<'a>,
) -> Result<(TCond, Lexemes<'a>), Fault>
    requires { toks tokens.now ≡ view.Sign ParLeft ∷ toks inside.now }
    ensures found { IfOk result (λ p. IsAtom (toks tokens.now) (cond_tree p.0) (toks p.1.now)) }
    ensures only { (x : CondTree) (r : List Tok) → IsAtom (toks tokens.now) x r → EndsExpr r → GivesFront (λ p. cond_tree p.0) (λ p. toks p.1.now) result x r }
    ensures shorter { IfOk result (λ p. length (toks p.1.now) < length (toks tokens.now)) }
{
    match nested(alloc, inside) {
        Ok((inner, rest)) => Ok((inner, rest)),
        Err(Fault::Memory) => Err(Fault::Memory),
        Err(Fault::Syntax) => {
            let (tree, rest) = comparison(alloc, tokens)?;
            Ok((tree, rest))
        }
    }
}

// The same, where the comparison is tried first.
#[cycle(condition)]
fn comparison_first<'a>(
    alloc: Global,
    tokens: Lexemes<'a>,
    inside: Lexemes<'a>,
) -> Result<(TCond, Lexemes<'a>), Fault>
    requires { toks tokens.now ≡ view.Sign ParLeft ∷ toks inside.now }
    ensures found { IfOk result (λ p. IsAtom (toks tokens.now) (cond_tree p.0) (toks p.1.now)) }
    ensures only { (x : CondTree) (r : List Tok) → IsAtom (toks tokens.now) x r → EndsExpr r → GivesFront (λ p. cond_tree p.0) (λ p. toks p.1.now) result x r }
    ensures shorter { IfOk result (λ p. length (toks p.1.now) < length (toks tokens.now)) }
{
    match comparison(alloc, tokens) {
        Ok((tree, rest)) => Ok((tree, rest)),
        Err(Fault::Memory) => Err(Fault::Memory),
        Err(Fault::Syntax) => {
            let (inner, rest) = nested(alloc, inside)?;
            Ok((inner, rest))
        }
    }
}

// Whether a relation sign or a dot word stands in the group in parentheses that these tokens begin in. It only says what
// is tried first, so that the tokens of a group within groups are not read once for each of them.
fn compares<'a>(tokens: Lexemes<'a>) -> bool {
    let mut open: usize = 0;
    for token in tokens {
        match *token {
            Lexeme::Dot(_) => return true,
            Lexeme::Sign(SignKind::ParLeft) => open = open.saturating_add(1),
            Lexeme::Sign(SignKind::ParRight) => {
                if open == 0 {
                    return false;
                }
                open -= 1;
            }
            Lexeme::Sign(sign) => {
                if rel_of_sign(sign).is_some() {
                    return true;
                }
            }
            _ => {}
        }
    }
    false
}

fn comparison<'a>(alloc: Global, tokens: Lexemes<'a>) -> Result<(TCond, Lexemes<'a>), Fault>
    ensures found { IfOk result (λ p. IsComparison (toks tokens.now) (cond_tree p.0) (toks p.1.now)) }
    ensures only { (x : CondTree) (r : List Tok) → IsComparison (toks tokens.now) x r → EndsExpr r → GivesFront (λ p. cond_tree p.0) (λ p. toks p.1.now) result x r }
    ensures shorter { IfOk result (λ p. length (toks p.1.now) < length (toks tokens.now)) }
{
    let (left, rest) = expr(alloc, tokens)?;
    let (rel, right) = rel_sign(rest)?;
    let (right, rest) = expr(alloc, right)?;
    Ok((TCond::Cmp(rel, left, right), rest))
}

/// A condition, and the parenthesis that closes it.
#[cycle(condition)]
pub fn nested<'a>(alloc: Global, tokens: Lexemes<'a>) -> Result<(TCond, Lexemes<'a>), Fault>
    ensures found { IfOk result (λ p. IsCond (toks tokens.now) (cond_tree p.0) (view.Sign ParRight ∷ toks p.1.now)) }
    ensures only { (x : CondTree) (r : List Tok) → IsCond (toks tokens.now) x (view.Sign ParRight ∷ r) → GivesFront (λ p. cond_tree p.0) (λ p. toks p.1.now) result x r }
    ensures shorter { IfOk result (λ p. length (toks p.1.now) < length (toks tokens.now)) }
{
    let (inner, rest) = cond(alloc, tokens)?;
    let rest = expect_sign(rest, SignKind::ParRight)?;
    Ok((inner, rest))
}

fn rel_sign<'a>(tokens: Lexemes<'a>) -> Result<(Rel, Lexemes<'a>), Fault>
    ensures { MatchResult result (λ p. IsRelSign (toks tokens.now) p.0 (toks p.1.now)) (λ e. (e ≡ faults.Syntax) × ((r : Rel) (us : List Tok) → IsRelSign (toks tokens.now) r us → ⊥)) }
{
    let Some((first, rest)) = next(tokens) else {
        return Err(Fault::Syntax);
    };
    match rel_of(first) {
        Some(rel) => Ok((rel, rest)),
        None => Err(Fault::Syntax),
    }
}

fn rel_of(token: Lexeme) -> Option<Rel>
    ensures { result ≡ of.rel_of (tok_of token.entry) }
{
    match token {
        Lexeme::Dot(word) => rel_of_word(word),
        Lexeme::Sign(sign) => rel_of_sign(sign),
        _ => None,
    }
}

fn rel_of_word(word: DotWord) -> Option<Rel>
    ensures { result ≡ of.rel_of_word word }
{
    match word {
        DotWord::Eq => Some(Rel::Eq),
        DotWord::Ne => Some(Rel::Ne),
        DotWord::Lt => Some(Rel::Lt),
        DotWord::Le => Some(Rel::Le),
        DotWord::Gt => Some(Rel::Gt),
        DotWord::Ge => Some(Rel::Ge),
        _ => None,
    }
}

fn rel_of_sign(sign: SignKind) -> Option<Rel>
    ensures { result ≡ of.rel_of_sign sign }
{
    match sign {
        SignKind::EqEq => Some(Rel::Eq),
        SignKind::SlashEq => Some(Rel::Ne),
        SignKind::Less => Some(Rel::Lt),
        SignKind::LessEq => Some(Rel::Le),
        SignKind::Greater => Some(Rel::Gt),
        SignKind::GreaterEq => Some(Rel::Ge),
        _ => None,
    }
}
