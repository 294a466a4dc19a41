// The token at the front of bytes.
ghost use Rattle.std.specs.Prelude.{◌≡◌, ◌≢◌, ◌↔◌, ◌+◌, ◌<◌, ◌≤◌, ◌∷◌, [], ℕ, List, IsTrue, MatchOption, IfSome, IfNone, length, drop, false, slice_index};
ghost use Rattle.std.specs.List.{prefix_len};
ghost use Rattle.fd_lexer.specs.declared.token.DotWord.{DotWord};
ghost use Rattle.fd_lexer.specs.Bytes as of;
ghost use Rattle.fd_lexer.specs.Words.{IsQuoted};
ghost use Rattle.fd_lexer.specs.Front.{class, TellsTwo, TellsFront, HasDot};

use crate::bytes::is_letter;
use crate::lexeme::FrontToken;
use crate::token::{DotWord, SignKind, TokenKind};
use crate::words::{dot_word, letters_len, name_len, number_kind, one_sign, two_sign};
use fd_base::{digits_len, is_digit};

/// The token at the front of bytes that begin with no blank.
pub fn front(bytes: &[u8]) -> Option<FrontToken>
    requires { (b : ℕ) (bs : List ℕ) → bytes.now ≡ b ∷ bs → of.is_blank b ≡ false }
    ensures { TellsFront bytes.now result }
{
    let (first, rest) = bytes.split_first()?;
    if is_letter(*first) {
        return Some(FrontToken {
            len: name_len(bytes),
            kind: Some(TokenKind::Name),
        });
    }
    if is_digit(*first) {
        let len = digits_len(bytes);
        let (digits, _) = bytes.split_at(len);
        let kind = number_kind(digits);
        return Some(FrontToken { len, kind });
    }
    match *first {
        b'.' => dot_front(rest),
        b'\'' => text_front(rest),
        _ => sign_front(*first, rest),
    }
}

// The dot word behind its first dot.
fn dot_front(rest: &[u8]) -> Option<FrontToken>
    ensures { TellsFront (46 ∷ rest.now) result }
{
    match dot_letters(rest) {
        Some((n, word)) => Some(FrontToken {
            len: n + 2,
            kind: Some(TokenKind::Dot(word)),
        }),
        None => None,
    }
}

// The letters of a dot word behind its first dot: how many, and which word.
fn dot_letters(rest: &[u8]) -> Option<(usize, DotWord)>
    ensures found { IfSome result (λ p. (p.0 ≡ prefix_len of.is_letter rest.now) × HasDot rest.now p.0 p.1) }
    ensures none { IfNone result ((d : DotWord) → HasDot rest.now (prefix_len of.is_letter rest.now) d → ⊥) }
{
    let n = letters_len(rest);
    if n < rest.len() && rest[n] == b'.' {
        let (letters, _) = rest.split_at(n);
        let word = dot_word(letters)?;
        return Some((n, word));
    }
    None
}

fn sign_front(first: u8, rest: &[u8]) -> Option<FrontToken>
    requires { class first ≡ 3 }
    ensures { TellsFront (first ∷ rest.now) result }
{
    match two_front(first, rest) {
        Some(sign) => Some(FrontToken {
            len: 2,
            kind: Some(TokenKind::Sign(sign)),
        }),
        None => match one_sign(first) {
            Some(sign) => Some(FrontToken {
                len: 1,
                kind: Some(TokenKind::Sign(sign)),
            }),
            None => None,
        },
    }
}

fn two_front(first: u8, rest: &[u8]) -> Option<SignKind>
    ensures { TellsTwo first rest.now result }
{
    match rest.first() {
        Some(second) => two_sign(first, *second),
        None => None,
    }
}

// The quoted text behind its opening quote.
fn text_front(rest: &[u8]) -> Option<FrontToken>
    ensures { TellsFront (39 ∷ rest.now) result }
{
    match quoted_len(rest) {
        Some(n) => Some(FrontToken {
            len: n + 1,
            kind: Some(TokenKind::Words),
        }),
        None => None,
    }
}

// How many bytes a quoted text takes behind its opening quote, with the closing one.
fn quoted_len(bytes: &[u8]) -> Option<usize>
    ensures within { IfSome result (λ n. n ≤ length bytes.now) }
    ensures found { IfSome result (λ n. IsQuoted bytes.now (drop n bytes.now)) }
    ensures none { IfNone result ((rest : List ℕ) → IsQuoted bytes.now rest → ⊥) }
{
    let mut at = 0usize;
    while at < bytes.len() {
        if bytes[at] != b'\'' {
            at += 1;
        } else if quote_follows(bytes, at) {
            at += 2;
        } else {
            return Some(at + 1);
        }
    }
    None
}

// Whether a quote stands behind the byte at a place.
fn quote_follows(bytes: &[u8], at: usize) -> bool
    requires { at < length bytes.now }
    ensures { IsTrue result ↔ ((at + 1 < length bytes.now) × (slice_index bytes.now (at + 1) ≡ 39)) }
{
    at + 1 < bytes.len() && bytes[at + 1] == b'\''
}
