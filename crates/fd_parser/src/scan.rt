// What is told of a line by its tokens alone.
ghost use Rattle.std.specs.Prelude.{◌≡◌, ◌≤◌, map, drop, length};
ghost use Rattle.fd_lexer.specs.View.{uppers};
ghost use Rattle.fd_parser.specs.Lexemes.{tok_of, toks};
ghost use Rattle.fd_parser.specs.Scans as of;

use crate::lexeme::{Lexeme, Lexemes, first_name, next};
use fd_lexer::{SignKind, is_word};

/// The parentheses that are open, and how many of the outermost belong to the form of the line.
#[derive(Clone, Copy)]
pub struct Level {
    pub open: u32,
    pub own: u32,
}

// Whether a name is this word, which is in upper case.
fn is_text(name: &[u8], word: &[u8]) -> bool
    ensures { result ≡ of.is_text (uppers name.now) word.now }
{
    is_word(name, word)
}

// Whether a name is one of these words, which are in upper case.
fn is_one_of(name: &[u8], words: &[&[u8]]) -> bool
    ensures { result ≡ of.is_one_of (uppers name.now) (map (λ w. w.now) words.now) }
{
    let Some((word, rest)) = words.split_first() else {
        return false;
    };
    if is_text(name, word) {
        return true;
    }
    is_one_of(name, rest)
}

// Whether the first token is one of these words, which are in upper case.
fn begins_with<'a>(tokens: Lexemes<'a>, words: &[&[u8]]) -> bool
    ensures { result ≡ of.begins_with (map (λ w. w.now) words.now) (toks tokens.now) }
{
    match first_name(tokens) {
        Some((name, _)) => is_one_of(name, words),
        None => false,
    }
}

fn is_left<'a>(token: Lexeme<'a>) -> bool
    ensures { result ≡ of.is_left (tok_of token.entry) }
{
    match token {
        Lexeme::Sign(SignKind::ParLeft) => true,
        _ => false,
    }
}

fn is_right<'a>(token: Lexeme<'a>) -> bool
    ensures { result ≡ of.is_right (tok_of token.entry) }
{
    match token {
        Lexeme::Sign(SignKind::ParRight) => true,
        _ => false,
    }
}

fn is_equal<'a>(token: Lexeme<'a>) -> bool
    ensures { result ≡ of.is_equal (tok_of token.entry) }
{
    match token {
        Lexeme::Sign(SignKind::Equal) => true,
        _ => false,
    }
}

fn is_power<'a>(token: Lexeme<'a>) -> bool
    ensures { result ≡ of.is_power (tok_of token.entry) }
{
    match token {
        Lexeme::Sign(SignKind::StarStar) => true,
        _ => false,
    }
}

fn is_number<'a>(token: Lexeme<'a>) -> bool
    ensures { result ≡ of.is_number (tok_of token.entry) }
{
    match token {
        Lexeme::Num(_) => true,
        _ => false,
    }
}

fn begins_with_number<'a>(tokens: Lexemes<'a>) -> bool
    ensures { result ≡ of.first_is of.is_number (toks tokens.now) }
{
    match next(tokens) {
        Some((first, _)) => is_number(first),
        None => false,
    }
}

fn begins_with_left<'a>(tokens: Lexemes<'a>) -> bool
    ensures { result ≡ of.first_is of.is_left (toks tokens.now) }
{
    match next(tokens) {
        Some((first, _)) => is_left(first),
        None => false,
    }
}

fn begins_with_equal<'a>(tokens: Lexemes<'a>) -> bool
    ensures { result ≡ of.first_is of.is_equal (toks tokens.now) }
{
    match next(tokens) {
        Some((first, _)) => is_equal(first),
        None => false,
    }
}

// How many tokens stand up to the parenthesis that closes a group, with it.
fn group_len<'a>(tokens: Lexemes<'a>) -> usize
    ensures rest { toks (drop result tokens.now) ≡ of.behind_group 1 (toks tokens.now) }
    ensures within { result ≤ length tokens.now }
{
    let mut open: usize = 0;
    let mut at: usize = 0;
    while at < tokens.len() {
        let token = tokens[at];
        at += 1;
        if is_left(token) {
            open += 1;
        } else if is_right(token) {
            if open == 0 {
                return at;
            }
            open -= 1;
        }
    }
    at
}

// What stands behind an optional group in parentheses.
fn after_group<'a>(tokens: Lexemes<'a>) -> Lexemes<'a>
    ensures { toks result.now ≡ of.after_group (toks tokens.now) }
{
    let Some((first, rest)) = next(tokens) else {
        return tokens;
    };
    if is_left(first) {
        behind_group(rest)
    } else {
        tokens
    }
}

// What stands behind the parenthesis that closes a group.
fn behind_group<'a>(tokens: Lexemes<'a>) -> Lexemes<'a>
    ensures { toks result.now ≡ of.behind_group 1 (toks tokens.now) }
{
    let len = group_len(tokens);
    let (_, rest) = tokens.split_at(len);
    rest
}

/// Whether the line begins with a name, an optional group in parentheses, and then `=`.
pub fn is_assignment<'a>(tokens: Lexemes<'a>) -> bool
    ensures { result ≡ of.is_assignment (toks tokens.now) }
{
    match first_name(tokens) {
        Some((_, rest)) => begins_with_equal(after_group(rest)),
        None => false,
    }
}

// Whether the line begins with DO WHILE and a parenthesis.
fn is_while<'a>(tokens: Lexemes<'a>) -> bool
    ensures { result ≡ of.is_while (toks tokens.now) }
{
    match first_name(tokens) {
        Some((name, rest)) => is_text(name, b"DO") && is_while_group(rest),
        None => false,
    }
}

fn is_while_group<'a>(tokens: Lexemes<'a>) -> bool
    ensures { result ≡ of.is_while_group (toks tokens.now) }
{
    match first_name(tokens) {
        Some((name, rest)) => is_text(name, b"WHILE") && begins_with_left(rest),
        None => false,
    }
}

fn own_of<'a>(tokens: Lexemes<'a>) -> u32
    ensures value { result ≡ of.own_of (toks tokens.now) }
    ensures small { result ≤ 2 }
{
    if is_assignment(tokens) {
        0
    } else if begins_with(tokens, &[b"DISTRIBUTE"]) {
        2
    } else if is_while(tokens)
        || begins_with(
            tokens,
            &[
                b"IF",
                b"ELSEIF",
                b"ELSE",
                b"PARAMETER",
                b"INTEGER",
                b"DECOMPOSITION",
                b"ALIGN",
            ],
        )
    {
        1
    } else {
        0
    }
}

fn level_behind<'a>(one_group: bool, level: Level, token: Lexeme<'a>) -> Level
    requires { level.«open» ≤ 1000 }
    ensures { result ≡ of.level_behind one_group level (tok_of token.entry) }
{
    if is_left(token) {
        return Level {
            open: level.open + 1,
            own: level.own,
        };
    }
    if is_right(token) {
        let own = if level.open <= 1 && one_group {
            0
        } else {
            level.own
        };
        return Level {
            open: level.open.saturating_sub(1),
            own,
        };
    }
    level
}

/// Whether some parenthesis begins nesting level 33.
pub fn is_too_deep<'a>(tokens: Lexemes<'a>) -> bool
    ensures { result ≡ of.is_too_deep (toks tokens.now) }
{
    let one_group = begins_with(tokens, &[b"IF"]);
    let mut level = Level {
        open: 0,
        own: own_of(tokens),
    };
    for token in tokens {
        level = level_behind(one_group, level, *token);
        if level.open > level.own + 32 {
            return true;
        }
    }
    false
}

fn has_power<'a>(tokens: Lexemes<'a>) -> bool
    ensures { result ≡ of.has_power (toks tokens.now) }
{
    for token in tokens {
        if is_power(*token) {
            return true;
        }
    }
    false
}

fn is_numbered_do<'a>(tokens: Lexemes<'a>) -> bool
    ensures { result ≡ of.is_numbered_do (toks tokens.now) }
{
    match first_name(tokens) {
        Some((name, rest)) => is_text(name, b"DO") && begins_with_number(rest),
        None => false,
    }
}

fn is_left_out_word<'a>(tokens: Lexemes<'a>) -> bool
    ensures { result ≡ of.is_left_out_word (toks tokens.now) }
{
    begins_with(
        tokens,
        &[
            b"REAL",
            b"DOUBLE",
            b"COMPLEX",
            b"LOGICAL",
            b"CHARACTER",
            b"DIMENSION",
            b"DATA",
            b"IMPLICIT",
            b"COMMON",
            b"EQUIVALENCE",
            b"SAVE",
            b"EXTERNAL",
        ],
    ) || begins_with(
        tokens,
        &[
            b"INTRINSIC",
            b"SUBROUTINE",
            b"FUNCTION",
            b"ENTRY",
            b"CALL",
            b"RETURN",
            b"STOP",
            b"PAUSE",
            b"GOTO",
            b"GO",
            b"ASSIGN",
            b"WRITE",
        ],
    ) || begins_with(
        tokens,
        &[
            b"FORMAT",
            b"OPEN",
            b"CLOSE",
            b"INQUIRE",
            b"REWIND",
            b"BACKSPACE",
            b"ENDFILE",
            b"EXIT",
            b"CYCLE",
            b"SELECT",
            b"FORALL",
        ],
    )
}

/// Whether the line is of a kind that the language leaves out.
pub fn is_left_out<'a>(tokens: Lexemes<'a>) -> bool
    ensures { result ≡ of.is_left_out (toks tokens.now) }
{
    begins_with_number(tokens)
        || has_power(tokens)
        || is_numbered_do(tokens)
        || (!is_assignment(tokens) && is_left_out_word(tokens))
}
