// The tokens of a line, each with its text.
ghost use Rattle.std.specs.Prelude.{◌≡◌, ℕ, ℤ, List, [], ◌∷◌, IfOk, IsTrue, ◌↔◌, MatchOption, MatchResult};
ghost use Rattle.fd_lexer.specs.View.{Tok, uppers};
ghost use Rattle.fd_lexer.specs.View as view;
ghost use Rattle.fd_parser.specs.Lexemes.{tok_of, toks};
ghost use Rattle.fd_parser.specs.declared.fault.Fault.TheVariants as faults;

use crate::fault::Fault;
use fd_base::{Bytes, Memory};
use fd_lexer::{DotWord, SignKind, is_word, upper_byte};
use std::alloc::Global;

/// A token with its text.
#[derive(Clone, Copy)]
pub enum Lexeme<'a> {
    /// A name as it is written.
    Name(&'a [u8]),
    Num(i64),
    /// What stands between the quotes.
    Words(&'a [u8]),
    Dot(DotWord),
    Sign(SignKind),
}

/// Tokens of a line.
pub type Lexemes<'a> = &'a [Lexeme<'a>];

/// The first token, and those behind it.
pub fn next<'a>(tokens: Lexemes<'a>) -> Option<(Lexeme<'a>, Lexemes<'a>)>
    ensures { MatchOption result (toks tokens.now ≡ []) (λ p. toks tokens.now ≡ tok_of p.0 ∷ toks p.1.now) }
{
    let (first, rest) = tokens.split_first()?;
    Some((*first, rest))
}

/// What stands behind this sign, where it is the first token.
pub fn after_sign<'a>(tokens: Lexemes<'a>, sign: SignKind) -> Option<Lexemes<'a>>
    ensures { MatchOption result ((us : List Tok) → toks tokens.now ≡ view.Sign sign ∷ us → ⊥) (λ r. toks tokens.now ≡ view.Sign sign ∷ toks r.now) }
{
    match next(tokens)? {
        (Lexeme::Sign(first), rest) => { if first == sign { Some(rest) } else { None } }
        _ => None,
    }
}

/// What stands behind this sign, which must be the first token.
pub fn expect_sign<'a>(tokens: Lexemes<'a>, sign: SignKind) -> Result<Lexemes<'a>, Fault>
    ensures { MatchResult result (λ r. toks tokens.now ≡ view.Sign sign ∷ toks r.now) (λ e. (e ≡ faults.Syntax) × ((us : List Tok) → toks tokens.now ≡ view.Sign sign ∷ us → ⊥)) }
{
    match after_sign(tokens, sign) {
        Some(rest) => Ok(rest),
        None => Err(Fault::Syntax),
    }
}

/// What stands behind this dot word, where it is the first token.
pub fn after_dot<'a>(tokens: Lexemes<'a>, word: DotWord) -> Option<Lexemes<'a>>
    ensures { MatchOption result ((us : List Tok) → toks tokens.now ≡ view.Dot word ∷ us → ⊥) (λ r. toks tokens.now ≡ view.Dot word ∷ toks r.now) }
{
    match next(tokens)? {
        (Lexeme::Dot(first), rest) => { if first == word { Some(rest) } else { None } }
        _ => None,
    }
}

/// The number that is the first token, and what stands behind it.
pub fn first_number<'a>(tokens: Lexemes<'a>) -> Option<(i64, Lexemes<'a>)>
    ensures { MatchOption result ((z : ℤ) (us : List Tok) → toks tokens.now ≡ view.Num z ∷ us → ⊥) (λ p. toks tokens.now ≡ view.Num p.0 ∷ toks p.1.now) }
{
    match next(tokens)? {
        (Lexeme::Num(number), rest) => Some((number, rest)),
        _ => None,
    }
}

/// The name that is the first token, as it is written, and what stands behind it.
pub fn first_name<'a>(tokens: Lexemes<'a>) -> Option<(&'a [u8], Lexemes<'a>)>
    ensures { MatchOption result ((s : List ℕ) (us : List Tok) → toks tokens.now ≡ view.Name s ∷ us → ⊥) (λ p. toks tokens.now ≡ view.Name (uppers p.0.now) ∷ toks p.1.now) }
{
    match next(tokens)? {
        (Lexeme::Name(name), rest) => Some((name, rest)),
        _ => None,
    }
}

/// A name in upper case.
pub fn upper(alloc: Global, name: &[u8]) -> Result<Bytes, Memory>
    ensures { IfOk result (λ made. made ≡ uppers name.now) }
{
    let letters: Vec<u8> = name.iter().map(|b| upper_byte(*b)).collect(alloc)?;
    Ok(Bytes::from_vec(letters))
}

/// The quoted text that is the first token, as it is written between its quotes, and what stands behind it.
pub fn first_words<'a>(tokens: Lexemes<'a>) -> Option<(&'a [u8], Lexemes<'a>)>
    ensures { MatchOption result ((s : List ℕ) (us : List Tok) → toks tokens.now ≡ view.Words s ∷ us → ⊥) (λ p. toks tokens.now ≡ view.Words (view.unquoted p.0.now) ∷ toks p.1.now) }
{
    match next(tokens)? {
        (Lexeme::Words(words), rest) => Some((words, rest)),
        _ => None,
    }
}

/// Whether nothing is left.
pub fn is_over<'a>(tokens: Lexemes<'a>) -> bool
    ensures { IsTrue result ↔ (toks tokens.now ≡ []) }
{
    next(tokens).is_none()
}

/// Nothing may be left.
pub fn ended<'a>(tokens: Lexemes<'a>) -> Result<(), Fault>
    ensures { MatchResult result (λ _. toks tokens.now ≡ []) (λ e. (e ≡ faults.Syntax) × (toks tokens.now ≡ [] → ⊥)) }
{
    if is_over(tokens) {
        Ok(())
    } else {
        Err(Fault::Syntax)
    }
}

/// What a text between quotes stands for.
pub fn unquoted(alloc: Global, words: &[u8]) -> Result<Bytes, Memory>
    ensures { IfOk result (λ made. made ≡ view.unquoted words.now) }
{
    let mut text = Vec::new(alloc);
    let mut half = false;
    for b in words {
        half = *b == b'\'' && !half;
        if !half {
            text.push(*b)?;
        }
    }
    Ok(Bytes::from_vec(text))
}

/// What stands behind this word, where it is the first token. The word is in upper case.
pub fn after_word<'a>(tokens: Lexemes<'a>, word: &[u8]) -> Option<Lexemes<'a>>
    ensures { MatchOption result ((us : List Tok) → toks tokens.now ≡ view.Name word.now ∷ us → ⊥) (λ r. toks tokens.now ≡ view.Name word.now ∷ toks r.now) }
{
    let (name, rest) = first_name(tokens)?;
    if is_word(name, word) {
        Some(rest)
    } else {
        None
    }
}

/// What stands behind this word, which must be the first token. The word is in upper case.
pub fn expect_word<'a>(tokens: Lexemes<'a>, word: &[u8]) -> Result<Lexemes<'a>, Fault>
    ensures { MatchResult result (λ r. toks tokens.now ≡ view.Name word.now ∷ toks r.now) (λ e. (e ≡ faults.Syntax) × ((us : List Tok) → toks tokens.now ≡ view.Name word.now ∷ us → ⊥)) }
{
    match after_word(tokens, word) {
        Some(rest) => Ok(rest),
        None => Err(Fault::Syntax),
    }
}
