// Tables of whole programs, each in one text: rows of words, a deck, and what the program answers.
//
// A row is `>>> WORDS`, where a remark may stand behind a colon; then its deck, byte for byte; and behind `<<< ` the exit status, a blank and what standard error gains between `fdc: ` and its line end, if it gains anything, and on the next lines what standard output gains. Of a plan `<<< good` says only that it is judged good. In a deck `{N|TEXT}` stands for TEXT N times in a row, and each `%` in TEXT for the number of the time, from 1.
use crate::rows::{Ends, PLAIN, Told, run_deck};
use crate::status::Status;
use fd_base::{Bytes, Memory};
use std::alloc::Global;
use std::process::Abort;
use std::test::Fail;

const GOOD: &str = "0\nplacement good\n";

// A row's parts, as a table has them.
#[derive(Clone, Copy)]
struct Row<'a> {
    words: &'a str,
    deck: &'a str,
    told: &'a str,
}

/// Runs each row of a table, and compares what it answers. What a plan prints is judged, too.
pub fn hold(rt: &impl Abort, alloc: Global, table: &str) -> Result<(), Fail> {
    hold_over(rt, alloc, &PLAIN, table)
}

/// Runs each row of a table over these ends.
pub fn hold_over(rt: &impl Abort, alloc: Global, ends: &Ends, table: &str) -> Result<(), Fail> {
    for text in rows_of(rt, table).split(">>> ") {
        hold_row(rt, alloc, ends, text)?;
    }
    Ok(())
}

// What stands behind the mark of the first row, with which a table begins.
fn rows_of<'a>(rt: &impl Abort, table: &'a str) -> &'a str {
    table.strip_prefix(">>> ").expect(rt, table)
}

// Runs one row.
fn hold_row(rt: &impl Abort, alloc: Global, ends: &Ends, text: &str) -> Result<(), Fail> {
    let row = row_of(rt, text);
    if row.words == "plan" && row.told == "good\n" {
        return judge_plan(rt, alloc, row.deck);
    }
    let deck = expanded(rt, alloc, row.deck)?;
    let told = run_deck(rt, alloc, row.words, deck, ends)?;
    answers(rt, alloc, &told, row.told, text)?;
    if row.words == "plan" && matches!(told.status, Status::Done) {
        judge_plan(rt, alloc, row.deck)?;
    }
    Ok(())
}

// Has what a deck's plan prints judged behind the deck.
fn judge_plan(rt: &impl Abort, alloc: Global, text: &str) -> Result<(), Fail> {
    let deck = planned(rt, alloc, text)?;
    let judged = run_deck(rt, alloc, "check", deck, &PLAIN)?;
    answers(rt, alloc, &judged, GOOD, text)
}

// A deck with what its plan prints behind it.
fn planned(rt: &impl Abort, alloc: Global, text: &str) -> Result<Bytes, Memory> {
    let deck = expanded(rt, alloc, text)?;
    let told = run_deck(rt, alloc, "plan", deck, &PLAIN)?;
    let mut both = expanded(rt, alloc, text)?;
    both.append(told.out.as_slice())?;
    Ok(both)
}

// The parts of a row.
fn row_of<'a>(rt: &impl Abort, text: &'a str) -> Row<'a> {
    let (first, rest) = parted(rt, text, "\n");
    let (deck, told) = parted(rt, rest, "<<< ");
    Row {
        words: without_remark(first),
        deck,
        told,
    }
}

/// What stands before and behind the first of these in a text.
pub fn parted<'a>(rt: &impl Abort, text: &'a str, by: &str) -> (&'a str, &'a str) {
    text.split_once(by).expect(rt, text)
}

fn without_remark(first: &str) -> &str {
    match first.split_once(":") {
        Some((words, _)) => words,
        None => first,
    }
}

// The deck that a text stands for.
fn expanded(rt: &impl Abort, alloc: Global, text: &str) -> Result<Bytes, Memory> {
    let mut deck = Bytes::new(alloc);
    for part in text.split("{") {
        append_part(rt, alloc, part, &mut deck)?;
    }
    Ok(deck)
}

// Appends what stands behind one brace, up to the next that opens.
fn append_part(rt: &impl Abort, alloc: Global, part: &str, deck: &mut Bytes) -> Result<(), Memory> {
    let Some((repeated, plain)) = part.split_once("}") else {
        return deck.append(part.as_bytes());
    };
    let (times, text) = parted(rt, repeated, "|");
    let times = times.parse::<u32>().expect(rt, part);
    append_times(alloc, text, times, deck)?;
    deck.append(plain.as_bytes())
}

// Appends a text so many times.
fn append_times(alloc: Global, text: &str, times: u32, deck: &mut Bytes) -> Result<(), Memory> {
    if text.contains("%") {
        append_numbered(alloc, text, times, deck)
    } else {
        append_alike(text.as_bytes(), times, deck)
    }
}

fn append_alike(text: &[u8], times: u32, deck: &mut Bytes) -> Result<(), Memory> {
    for _ in 0..times {
        deck.append(text)?;
    }
    Ok(())
}

// Appends a text so many times, with the number of the time in it.
fn append_numbered(alloc: Global, text: &str, times: u32, deck: &mut Bytes) -> Result<(), Memory> {
    for time in 1..=times {
        append_number(alloc, text, time, deck)?;
    }
    Ok(())
}

fn append_number(alloc: Global, text: &str, number: u32, deck: &mut Bytes) -> Result<(), Memory> {
    let digits = number.to_string(alloc)?;
    let numbered = text.replace(alloc, "%", digits.as_str())?;
    deck.append(numbered.as_bytes())
}

/// Compares what a run answered with what stands behind `<<< ` in a row.
pub fn answers(
    rt: &impl Abort,
    alloc: Global,
    told: &Told,
    expected: &str,
    row: &str,
) -> Result<(), Fail> {
    let answered = written(alloc, told)?;
    assert_eq!(rt; answered.as_str(), expected, "{row}");
    Ok(())
}

// What a run answered, as a table has it.
fn written(alloc: Global, told: &Told) -> Result<String, Memory> {
    let status = told.status.code().to_string(alloc)?;
    let mut text = Bytes::from_slice(alloc, status.as_bytes())?;
    append_line(told.err.as_slice(), &mut text)?;
    text.append(told.out.as_slice())?;
    Ok(String::from_utf8_lossy(alloc, text.as_slice())?)
}

// Appends the line of standard error. What is no such line stands whole behind a mark of its own.
fn append_line(err: &[u8], text: &mut Bytes) -> Result<(), Memory> {
    match line_of(err) {
        Some(line) => {
            text.append(b" ")?;
            text.append(line)?;
        }
        None if err.is_empty() => {}
        None => {
            text.append(b" NO LINE ")?;
            text.append(err)?;
        }
    }
    text.append(b"\n")
}

// What stands between `fdc: ` and the only line end.
fn line_of(err: &[u8]) -> Option<&[u8]> {
    let line = err.strip_prefix(b"fdc: ")?.strip_suffix(b"\n")?;
    if line.contains(&b'\n') {
        None
    } else {
        Some(line)
    }
}
