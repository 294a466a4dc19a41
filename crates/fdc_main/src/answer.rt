// What is answered, before anything is written.
ghost use Rattle.std.specs.Prelude.{◌≡◌, ◌≤◌, length, drop, map, string_bytes, IfOk, Some};
ghost use Rattle.fd_io.specs.Deck.{Took};
ghost use Rattle.fd_prog.specs.Programs.{program_of};
ghost use Rattle.fd_prog.specs.Run.{lines_text};
ghost use Rattle.program_laws.specs.Accepted.{IsAcceptedProgram};
ghost use Rattle.fd_input.specs.Text.{input_numbers};
ghost use Rattle.fdc_main.specs.Words.{mode_of, IsInRange};
ghost use Rattle.fdc_main.specs.Plans.{AreItems};
ghost use Rattle.fdc_main.specs.Responses.{Response, AcceptedBy, finding_told, run_on};
ghost use Rattle.fdc_main.specs.Top.{ReadsDeck};
ghost use Rattle.fdc_main.specs.Answers.{AnswerFits, AnswerEnds, AnswersDeck, Stands};

use crate::check::{Finding, check_listing};
use crate::command_line::{DeckMode, Mode, read_words};
use crate::plan::plan_text;
use crate::source::{SourceRefusal, read_source};
use crate::texts::{
    broken_line, fault_line, input_line, past_limit_line, refused_line, wrong_line,
};
use fd_base::{Bytes, Memory};
use fd_gen::generate_mesh;
use fd_input::{InputRefusal, read_input};
use fd_io::{DeckRefusal, Source, read_deck};
use fd_prog::{Outcome, PrintedList, Program};
use owner_part::write_owner_table;
use place_check::Verdict;
use section_num::Items;
use seq_meaning::{SeqEnd, run_seq};
use std::alloc::Global;

/// What there is to tell: a text for standard output, and a line for standard error.
#[derive(Drop)]
pub enum Answer {
    Usage,
    ReadFault,
    TooLong,
    /// The line of the refusal.
    Source(Bytes),
    /// The line of the bad byte.
    Input(Bytes),
    /// The line on the first wrong line of a listing, or on the condition that its places break.
    Listing(Bytes),
    /// What was printed, and the line of the fault.
    RunFault(Bytes, Bytes),
    /// What was printed.
    Done(Bytes),
}

/// Does what the words ask: with the deck, which is read, if they name a mode that reads it.
pub fn answer_words<S: Source>(
    alloc: Global,
    words: &[String],
    deck: &mut S,
) -> Result<Answer, Memory>
    ensures fits { IfOk result (λ a. AnswerFits a (mode_of (map string_bytes words.now)) (S.held deck.old) (S.faults deck.old) (S.faults deck.new)) }
    ensures unread { (ReadsDeck (mode_of (map string_bytes words.now)) → ⊥) → deck.new ≡ deck.old }
    ensures took { Took (S.held deck.old) (S.held deck.new) (λ n. n ≤ 1048577) }
    ensures end { IfOk result (λ a. ReadsDeck (mode_of (map string_bytes words.now)) → AnswerEnds a (S.held deck.new)) }
    ensures later { S.faults deck.old ≤ S.faults deck.new }
{
    let Some(mode) = read_words(alloc, words)? else {
        return Ok(Answer::Usage);
    };
    match mode {
        Mode::Deck(mode) => answer_read(alloc, mode, deck),
        Mode::Gen { size, seed } => Ok(Answer::Done(generate_mesh(alloc, size, seed)?)),
    }
}

// Reads the deck, and does with it what a mode asks.
fn answer_read<S: Source>(alloc: Global, mode: DeckMode, deck: &mut S) -> Result<Answer, Memory>
    requires range { IsInRange (Mode.Deck mode) }
    ensures fits { IfOk result (λ a. AnswerFits a (Some (Mode.Deck mode)) (S.held deck.old) (S.faults deck.old) (S.faults deck.new)) }
    ensures took { Took (S.held deck.old) (S.held deck.new) (λ n. n ≤ 1048577) }
    ensures end { IfOk result (λ a. AnswerEnds a (S.held deck.new)) }
    ensures later { S.faults deck.old ≤ S.faults deck.new }
{
    let bytes = match read_deck(alloc, deck) {
        Ok(bytes) => bytes,
        Err(DeckRefusal::ReadFault) => return Ok(Answer::ReadFault),
        Err(DeckRefusal::TooLong) => return Ok(Answer::TooLong),
        Err(DeckRefusal::Memory) => return Err(Memory),
    };
    answer_deck(alloc, mode, bytes.as_slice())
}

// What a mode answers on the bytes of a deck.
fn answer_deck(alloc: Global, mode: DeckMode, bytes: &[u8]) -> Result<Answer, Memory>
    requires short { length bytes.now ≤ 1048576 }
    requires range { IsInRange (Mode.Deck mode) }
    ensures { IfOk result (AnswersDeck mode bytes.now) }
{
    match read_source(alloc, bytes) {
        Ok(accepted) => {
            let rest = rest_of(bytes, accepted.program.rest);
            answer_program(alloc, mode, &accepted.program, &accepted.items, rest)
        }
        Err(SourceRefusal::At(line, number)) => {
            let told = refused_line(alloc, line, number)?;
            Ok(Answer::Source(told))
        }
        Err(SourceRefusal::TooMany(line, limit)) => {
            let told = past_limit_line(alloc, line, limit)?;
            Ok(Answer::Source(told))
        }
        Err(SourceRefusal::Memory) => Err(Memory),
    }
}

// The bytes from this offset on.
fn rest_of(bytes: &[u8], from: u32) -> &[u8]
    ensures rest { result.now ≡ drop from bytes.now }
    ensures within { length result.now ≤ length bytes.now }
{
    bytes.get(from as usize..).unwrap_or(&[])
}

// What a mode answers on a program and the bytes behind its END line.
fn answer_program(
    alloc: Global,
    mode: DeckMode,
    program: &Program,
    items: &Items,
    rest: &[u8],
) -> Result<Answer, Memory>
    requires accepted { IsAcceptedProgram (program_of program.now) }
    requires items { AreItems (program_of program.now) items.now }
    requires short { length rest.now ≤ 1048576 }
    requires range { IsInRange (Mode.Deck mode) }
    ensures { IfOk result (λ a. (r : Response) × AcceptedBy mode (program_of program.now) rest.now r × Stands a r) }
{
    match mode {
        DeckMode::Seq { steps } => answer_run(alloc, program, rest, steps),
        DeckMode::Map { ranks } => Ok(Answer::Done(write_owner_table(alloc, program, ranks)?)),
        DeckMode::Plan => Ok(Answer::Done(plan_text(alloc, program, items)?)),
        DeckMode::Check => {
            let finding = check_listing(alloc, program, items, rest)?;
            answer_finding(alloc, finding)
        }
    }
}

// Runs a program in sequence on the numbers of its input.
fn answer_run(alloc: Global, program: &Program, rest: &[u8], steps: u64) -> Result<Answer, Memory>
    requires accepted { IsAcceptedProgram (program_of program.now) }
    requires short { length rest.now ≤ 1048576 }
    requires some { 1 ≤ steps }
    requires most { steps ≤ 100000000 }
    ensures { IfOk result (λ a. Stands a (run_on (program_of program.now) steps (input_numbers rest.now))) }
{
    let input = match read_input(alloc, rest) {
        Ok(input) => input,
        Err(InputRefusal::Bad(offset)) => {
            let told = input_line(alloc, offset)?;
            return Ok(Answer::Input(told));
        }
        Err(InputRefusal::Memory) => return Err(Memory),
    };
    let SeqEnd { lines, outcome } = run_seq(alloc, program, input.as_slice(), steps)?;
    let text = printed_text(alloc, lines)?;
    match outcome {
        Outcome::Done => Ok(Answer::Done(text)),
        Outcome::Fault { line, kind, .. } => {
            let told = fault_line(alloc, line, kind)?;
            Ok(Answer::RunFault(text, told))
        }
    }
}

// Tells what was found in a listing.
fn answer_finding(alloc: Global, finding: Finding) -> Result<Answer, Memory>
    ensures { IfOk result (λ a. Stands a (finding_told finding)) }
{
    match finding {
        Finding::WrongLine(line) => Ok(Answer::Listing(wrong_line(alloc, line)?)),
        Finding::Judged(Verdict::Good) => {
            let text = Bytes::from_slice(alloc, b"placement good\n")?;
            Ok(Answer::Done(text))
        }
        Finding::Judged(
            Verdict::Bad {
                condition,
                item,
                path,
            },
        ) => {
            let told = broken_line(alloc, condition, item, path.as_slice())?;
            Ok(Answer::Listing(told))
        }
    }
}

// The text of the lines, each with its LF. A line is dropped as soon as it is in the text.
fn printed_text(alloc: Global, lines: PrintedList) -> Result<Bytes, Memory>
    ensures { IfOk result (λ text. text ≡ lines_text lines) }
{
    let mut text = Bytes::new(alloc);
    for line in lines.into_vec() {
        text.append(line.text.as_slice())?;
        text.push(b'\n')?;
    }
    Ok(text)
}
