// The tree of a source.
ghost use Rattle.std.specs.Prelude.{◌≡◌, ◌<◌, ◌≤◌, ◌∷◌, [], ℕ, List, true, false, length, drop, All, IfOk, IfErr, IfSome, OnOk, MatchOption};
ghost use Rattle.fd_base.specs.declared.numbering.Line.{Line};
ghost use Rattle.fd_lexer.specs.Text.{IsReading};
ghost use Rattle.fd_lexer.specs.View.{IsToken, IsWellFormed, lines_of, tok_at, is_line_end, token_lines};
ghost use Rattle.fd_ast.specs.Tree.{ProgramTree, program_tree};
ghost use Rattle.fd_parser.specs.Lexemes.{tok_of, toks};
ghost use Rattle.fd_parser.specs.Sections.{here_of, HasRoom};
ghost use Rattle.fd_parser.specs.TakenLine.{IsTaken, IsStopped};
ghost use Rattle.fd_parser.specs.Text.{IsText, AreFine, IsRefusal, IsAllowed, Gives};
ghost use Rattle.fd_parser.specs.Source.{IsSource};

use crate::blocks::{OpenBlocks, list_of};
use crate::fault::Fault;
use crate::lexeme::{Lexeme, Lexemes};
use crate::line::form;
use crate::refusal::ParseRefusal;
use crate::scan::{is_left_out, is_too_deep};
use crate::source::Source;
use crate::stop::Stop;
use fd_ast::{TDeclList, Tree};
use fd_base::Line;
use fd_lexer::{Lexed, Token, TokenKind};
use std::alloc::{AllocError, Global};

// The token with its text; none at the end of a line.
fn lexeme_of<'a>(text: &'a [u8], token: Token) -> Option<Lexeme<'a>>
    requires { IsToken text.now token }
    ensures { MatchOption result (is_line_end token.kind ≡ true) (λ x. (is_line_end token.kind ≡ false) × (tok_at text.now token.start token.end token.kind ≡ tok_of x ∷ [])) }
{
    let start = token.start as usize;
    let end = token.end as usize;
    match token.kind {
        TokenKind::Name => Some(Lexeme::Name(&text[start..end])),
        TokenKind::Num(number) => Some(Lexeme::Num(number)),
        TokenKind::Words => Some(Lexeme::Words(&text[start + 1..end - 1])),
        TokenKind::Dot(word) => Some(Lexeme::Dot(word)),
        TokenKind::Sign(sign) => Some(Lexeme::Sign(sign)),
        TokenKind::LineEnd => None,
    }
}

// The line that begins with the token at `from`, the text of its tokens, and where the next one begins.
fn line_at<'a>(
    alloc: Global,
    text: &'a [u8],
    tokens: &[Token],
    from: usize,
) -> Result<Option<(Line, Vec<Lexeme<'a>>, usize)>, AllocError>
    requires tokens { All (IsToken text.now) tokens.now }
    requires within { from ≤ length tokens.now }
    ensures line { IfOk result (λ o. MatchOption o (lines_of text.now (drop from tokens.now) ≡ []) (λ p. lines_of text.now (drop from tokens.now) ≡ record { number = p.0; toks = toks p.1.items } ∷ lines_of text.now (drop p.2 tokens.now))) }
    ensures next { IfOk result (λ o. IfSome o (λ p. (from < p.2) × (p.2 ≤ length tokens.now))) }
{
    let mut lexemes = Vec::new(alloc);
    let mut at = from;
    while at < tokens.len() {
        let token = tokens[at];
        at += 1;
        match lexeme_of(text, token) {
            None => return Ok(Some((token.line, lexemes, at))),
            Some(lexeme) => lexemes.push(lexeme)?,
        }
    }
    Ok(None)
}

// Takes the next line.
fn take_line<'a>(
    alloc: Global,
    source: &mut Source,
    line: Line,
    tokens: Lexemes<'a>,
) -> Result<(), ParseRefusal>
    ensures taken { OnOk result (HasRoom (here_of source.old) → IsTaken (here_of source.old) line (toks tokens.now) (here_of source.new)) }
    ensures stopped { IfErr result (IsStopped (here_of source.old) line (toks tokens.now)) }
{
    if is_too_deep(tokens) {
        return Err(ParseRefusal::At(line, 15));
    }
    if is_left_out(tokens) {
        return Err(ParseRefusal::At(line, 18));
    }
    match form(alloc, line, tokens) {
        Ok(form) => match source.take(alloc, line, form) {
            Ok(()) => Ok(()),
            Err(Stop::Syntax) => Err(ParseRefusal::At(line, 5)),
            Err(Stop::TooDeep) => Err(ParseRefusal::At(line, 15)),
            Err(Stop::Memory) => Err(ParseRefusal::Memory),
        },
        Err(Fault::Syntax) => Err(ParseRefusal::At(line, 5)),
        Err(Fault::Memory) => Err(ParseRefusal::Memory),
    }
}

/// The tree of a source.
pub fn parse(alloc: Global, lexed: &Lexed) -> Result<Tree, ParseRefusal>
    requires { IsWellFormed lexed.now }
    // What is answered is the tree of the lines before the END line.
    ensures found { IfOk result (λ t. IsText (token_lines lexed.now) (program_tree t) × (lexed.now.ended ≡ true)) }
    ensures rest { IfOk result (λ t. (t.end_line ≡ lexed.now.end_line) × (t.rest ≡ lexed.now.rest)) }
    // What is answered has no line that is left out of the language or nested too deep.
    ensures allowed { IfOk result (λ _. AreFine (token_lines lexed.now)) }
    // What has an END line and a tree, and no such line, is answered.
    ensures only { (x : ProgramTree) → IsText (token_lines lexed.now) x → IsAllowed (token_lines lexed.now) → lexed.now.ended ≡ true → Gives program_tree result x }
    // The same by the bytes that were lexed: what is answered is their tree, and what has a tree is answered.
    ensures source { IfOk result (λ t. (bytes : List ℕ) → IsReading bytes lexed.now → IsSource bytes (program_tree t) t.end_line t.rest) }
    ensures only_source { (bytes : List ℕ) (x : ProgramTree) (k : Line) (rest : ℕ) → IsReading bytes lexed.now → IsSource bytes x k rest → IsAllowed (token_lines lexed.now) → Gives program_tree result x }
    // The first refusal.
    ensures refused { IfErr result (IsRefusal (token_lines lexed.now) lexed.now.ended lexed.now.end_line) }
{
    let mut source = Source::new(alloc);
    let text = lexed.text.as_slice();
    let tokens = lexed.tokens.as_slice();
    let mut at: usize = 0;
    while let Some((line, lexemes, next)) = line_at(alloc, text, tokens, at)? {
        take_line(alloc, &mut source, line, &lexemes)?;
        at = next;
    }
    if !lexed.ended {
        return Err(ParseRefusal::At(lexed.end_line, 17));
    }
    let Source {
        section: _,
        decls,
        inside,
    } = source;
    let OpenBlocks { open, done } = inside;
    if !open.is_empty() {
        return Err(ParseRefusal::At(lexed.end_line, 5));
    }
    let body = list_of(alloc, done)?;
    Ok(Tree {
        decls: TDeclList::from_vec(decls),
        body,
        end_line: lexed.end_line,
        rest: lexed.rest,
    })
}
