// From the bytes of a deck to its program and its items.
ghost use Rattle.std.specs.Prelude.{◌≡◌, ◌≤◌, length, IfOk, IfErr};
ghost use Rattle.fd_prog.specs.Programs.{program_of};
ghost use Rattle.program_laws.specs.Accepted.{IsAcceptedProgram};
ghost use Rattle.fdc_main.specs.Meaning.{IsChecked, IsProgram};
ghost use Rattle.fdc_main.specs.Plans.{AreItems};
ghost use Rattle.fdc_main.specs.Answers.{RefusalFits};

use fd_base::{Limit, Line};
use fd_lexer::{LexRefusal, lex};
use fd_names::{NameRefusal, check};
use fd_parser::{ParseRefusal, parse};
use fd_prog::Program;
use section_num::{Items, NumberRefusal, number};
use std::alloc::Global;
use thiserror::Error;

/// Why a deck has no program: the number of a refusal or the limit that is passed, with its line; or want of memory.
#[derive(Clone, Copy, Debug, Error)]
pub enum SourceRefusal {
    #[error("a line is refused")]
    At(Line, u8),
    #[error("a count passes its limit")]
    TooMany(Line, Limit),
    #[error("no memory")]
    Memory,
}

/// A program and its items.
#[derive(Drop)]
pub struct Accepted {
    pub program: Program,
    pub items: Items,
}

/// The program of a deck with its items, or the first refusal.
pub fn read_source(alloc: Global, bytes: &[u8]) -> Result<Accepted, SourceRefusal>
    requires { length bytes.now ≤ 1048576 }
    ensures program { IfOk result (λ s. IsProgram bytes.now (program_of s.program)) }
    ensures accepted { IfOk result (λ s. IsAcceptedProgram (program_of s.program)) }
    ensures items { IfOk result (λ s. AreItems (program_of s.program) s.items) }
    ensures refused { IfErr result (RefusalFits bytes.now) }
{
    let program = read_program(alloc, bytes)?;
    match number(alloc, &program) {
        Ok(items) => Ok(Accepted { program, items }),
        Err(NumberRefusal::TooMany(line, limit)) => Err(SourceRefusal::TooMany(line, limit)),
        Err(NumberRefusal::Memory) => Err(SourceRefusal::Memory),
    }
}

// The program of a deck, or its first refusal by tokens, grammar and names.
fn read_program(alloc: Global, bytes: &[u8]) -> Result<Program, SourceRefusal>
    requires { length bytes.now ≤ 1048576 }
    ensures program { IfOk result (λ p. IsChecked bytes.now (program_of p)) }
    ensures accepted { IfOk result (λ p. IsAcceptedProgram (program_of p)) }
    ensures refused { IfErr result (RefusalFits bytes.now) }
{
    let lexed = match lex(alloc, bytes) {
        Ok(lexed) => lexed,
        Err(LexRefusal::At(line, number)) => return Err(SourceRefusal::At(line, number)),
        Err(LexRefusal::Memory) => return Err(SourceRefusal::Memory),
    };
    let tree = match parse(alloc, &lexed) {
        Ok(tree) => tree,
        Err(ParseRefusal::At(line, number)) => return Err(SourceRefusal::At(line, number)),
        Err(ParseRefusal::Memory) => return Err(SourceRefusal::Memory),
    };
    match check(alloc, &tree) {
        Ok(program) => Ok(program),
        Err(NameRefusal::At(line, number)) => Err(SourceRefusal::At(line, number)),
        Err(NameRefusal::TooMany(line, limit)) => Err(SourceRefusal::TooMany(line, limit)),
        Err(NameRefusal::Memory) => Err(SourceRefusal::Memory),
    }
}
