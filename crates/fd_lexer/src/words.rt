// The token at the front of bytes.
ghost use Rattle.std.specs.Prelude.{◌≡◌, ◌↔◌, ◌+◌, ◌<◌, ◌≤◌, ◌^◌, ℕ, ◌∷◌, [], IsTrue, IsSome, IfSome, IfNone, MatchOption, length, take, drop, pos};
ghost use Rattle.std.specs.List.{prefix_len};
ghost use Rattle.fd_base.specs.Digits.{decimal_value};
ghost use Rattle.fd_lexer.specs.declared.token.TokenKind.{TokenKind};
ghost use Rattle.fd_lexer.specs.declared.token.TokenKind.TheVariants.{Num};
ghost use Rattle.fd_lexer.specs.Bytes as of;
ghost use Rattle.fd_lexer.specs.View as view;
ghost use Rattle.fd_lexer.specs.Front.{TellsSign, TellsDot, Tells};

use crate::bytes::{is_letter, is_name_byte};
use crate::token::{DotWord, SignKind, TokenKind};
use fd_base::decimal_number;

pub fn name_len(bytes: &[u8]) -> usize
    ensures value { result ≡ prefix_len of.is_name_byte bytes.now }
    ensures within { result ≤ length bytes.now }
{
    bytes.iter().take_while(|b| is_name_byte(**b)).count()
}

pub fn letters_len(bytes: &[u8]) -> usize
    ensures value { result ≡ prefix_len of.is_letter bytes.now }
    ensures within { result ≤ length bytes.now }
{
    bytes.iter().take_while(|b| is_letter(**b)).count()
}

pub fn number_kind(digits: &[u8]) -> Option<TokenKind>
    ensures { Tells result (Num (pos (decimal_value digits.now))) }
{
    match value(digits) {
        Some(n) => Some(TokenKind::Num(n as i64)),
        None => None,
    }
}

// The number that digits stand for, unless it is past the limit.
fn value(digits: &[u8]) -> Option<u64>
    ensures { MatchOption result (2 ^ 63 ≤ decimal_value digits.now) (λ n. (n ≡ decimal_value digits.now) × (n < 2 ^ 63)) }
{
    match decimal_number(digits) {
        Some(n) => { if n < 1 << 63 { Some(n) } else { None } }
        None => None,
    }
}

// The sign of two bytes.
pub fn two_sign(first: u8, second: u8) -> Option<SignKind>
    ensures { TellsSign (first ∷ (second ∷ [])) result }
{
    if first == b'*' && second == b'*' {
        return Some(SignKind::StarStar);
    }
    if second != b'=' {
        return None;
    }
    match first {
        b'=' => Some(SignKind::EqEq),
        b'/' => Some(SignKind::SlashEq),
        b'<' => Some(SignKind::LessEq),
        b'>' => Some(SignKind::GreaterEq),
        _ => None,
    }
}

// The sign of one byte.
pub fn one_sign(b: u8) -> Option<SignKind>
    ensures { TellsSign (b ∷ []) result }
{
    match b {
        b'(' => Some(SignKind::ParLeft),
        b')' => Some(SignKind::ParRight),
        b',' => Some(SignKind::Comma),
        b':' => Some(SignKind::Colon),
        b'=' => Some(SignKind::Equal),
        b'+' => Some(SignKind::Plus),
        b'-' => Some(SignKind::Minus),
        b'*' => Some(SignKind::Star),
        b'/' => Some(SignKind::Slash),
        b'<' => Some(SignKind::Less),
        b'>' => Some(SignKind::Greater),
        _ => None,
    }
}

/// A letter in upper case; another byte as it is.
pub fn upper_byte(b: u8) -> u8
    ensures { result ≡ view.upper_of b }
{
    if b'a' <= b && b <= b'z' { b - 32 } else { b }
}

/// Whether the bytes are this word, in either case. The word is in upper case.
pub fn is_word(bytes: &[u8], word: &[u8]) -> bool
    ensures { IsTrue result ↔ (view.uppers bytes.now ≡ word.now) }
{
    if bytes.len() != word.len() {
        return false;
    }
    for (b, c) in bytes.iter().zip(word) {
        if upper_byte(*b) != *c {
            return false;
        }
    }
    true
}

// The word of these letters.
pub fn dot_word(letters: &[u8]) -> Option<DotWord>
    ensures { TellsDot letters.now result }
{
    if is_word(letters, b"EQ") {
        return Some(DotWord::Eq);
    }
    if is_word(letters, b"NE") {
        return Some(DotWord::Ne);
    }
    if is_word(letters, b"LT") {
        return Some(DotWord::Lt);
    }
    if is_word(letters, b"LE") {
        return Some(DotWord::Le);
    }
    if is_word(letters, b"GT") {
        return Some(DotWord::Gt);
    }
    if is_word(letters, b"GE") {
        return Some(DotWord::Ge);
    }
    if is_word(letters, b"AND") {
        return Some(DotWord::And);
    }
    if is_word(letters, b"OR") {
        return Some(DotWord::Or);
    }
    if is_word(letters, b"NOT") {
        return Some(DotWord::Not);
    }
    if is_word(letters, b"TRUE") {
        return Some(DotWord::IsTrue);
    }
    if is_word(letters, b"FALSE") {
        return Some(DotWord::IsFalse);
    }
    None
}
