// Lists of words with what they say.
use crate::command_line::{DeckMode, Mode, read_words};
use fd_base::Memory;
use std::alloc::Global;
use std::process::Abort;
use std::test::Fail;

// A line is a list of words and what it says. Words are parted by `|`, and `EMPTY` is the word that is empty. A line that begins with `#` is a remark.
const ROWS: &str = "# The modes by themselves
seq > seq 1000000
map > map 4
plan > plan
check > check
gen > gen 100 1
# An option in both forms, before and behind the mode
seq|--steps|5 > seq 5
seq|--steps=5 > seq 5
--steps|5|seq > seq 5
--steps=5|seq > seq 5
map|--ranks|16 > map 16
--ranks=1|map > map 1
gen|--size|7|--seed|5 > gen 7 5
--seed=5|gen|--size=7 > gen 7 5
gen|--size|7 > gen 7 1
--seed|5|gen > gen 100 5
# Leading zeros, the least and the greatest number, and what is past them
seq|--steps|007 > seq 7
map|--ranks|04 > map 4
seq|--steps=000000000000000000000000000009 > seq 9
seq|--steps|1 > seq 1
seq|--steps|0 > none
seq|--steps|100000000 > seq 100000000
seq|--steps|100000001 > none
map|--ranks|0 > none
map|--ranks|17 > none
map|--ranks=17 > none
map|--ranks|260 > none
gen|--size|0 > none
gen|--size=1 > gen 1 1
gen|--size|050000 > gen 50000 1
gen|--size|50001 > none
gen|--size|18446744073709551616 > none
gen|--size=4294967297 > none
gen|--seed|0 > gen 100 0
gen|--seed=18446744073709551615 > gen 100 18446744073709551615
gen|--seed=18446744073709551616 > none
seq|--steps|123456789012345678901234567890 > none
seq|--steps|18446744073709551621 > none
# No number
seq|--steps > none
seq|--steps= > none
seq|--steps|EMPTY > none
seq|--steps=|5 > none
seq|--steps|-5 > none
seq|--steps|+5 > none
seq|--steps=+5 > none
seq|--steps| 5 > none
seq|--steps|5  > none
seq|--steps|5.0 > none
seq|--steps|1_000 > none
seq|--steps|0x5 > none
seq|--steps|five > none
seq|--steps|٥ > none
seq|--steps=5=6 > none
seq|--steps|=5 > none
# A mode or an option in the place of a number
--steps|seq > none
--steps|seq|seq > none
seq|--steps|--steps|5 > none
map|--ranks|--ranks=2 > none
seq|--steps|--|5 > none
";

const WRONG: &str = "# No mode, two, and names of none
 > none
EMPTY > none
--steps|5 > none
seq|seq > none
seq|map > none
map|--ranks|2|seq > none
seq|EMPTY > none
Seq > none
seq  > none
séq > none
se > none
seqs > none
help > none
sim > none
run > none
gem > none
# An option twice, of the other mode, or of none
seq|--steps|5|--steps|5 > none
seq|--steps=5|--steps=5 > none
--steps=5|seq|--steps|6 > none
map|--ranks=2|--ranks=2 > none
seq|--ranks|4 > none
seq|--ranks=4|--steps=5 > none
map|--steps|5 > none
map|--ranks|2|--steps|5 > none
plan|--ranks|2 > none
--steps=5|plan > none
plan|--ranks=2|--steps=5 > none
plan|map > none
plan|plan > none
check|--ranks=2 > none
check|--steps|5 > none
check|plan > none
gen|--ranks|2 > none
gen|--steps=5|--size=5 > none
gen|--size=5|--size=5 > none
gen|seq > none
gen|gen > none
seq|--size=5 > none
map|--seed=5 > none
plan|--size|5 > none
check|--seed|5 > none
seq|--step|5 > none
seq|--stepss|5 > none
seq|--Steps|5 > none
seq|---steps|5 > none
seq|-steps|5 > none
seq|steps=5 > none
seq|--seed|1 > none
seq|--mode|seq > none
--mode|seq > none
--mode=seq > none
seq|--=5 > none
# Hyphens alone, help and version
seq|-- > none
--|seq > none
seq|- > none
- > none
seq|-h > none
seq|--help > none
--help > none
seq|-V > none
seq|--version > none
run|--|3 > none
";

fn words_of(alloc: Global, text: &str) -> Result<Vec<String>, Memory> {
    let mut words = Vec::new(alloc);
    for word in text.split("|") {
        if word == "EMPTY" {
            words.push(String::new(alloc))?;
        } else if !word.is_empty() {
            words.push(String::from_str(alloc, word)?)?;
        }
    }
    Ok(words)
}

// What a list of words says, as a line has it.
fn said(alloc: Global, text: &str) -> Result<String, Memory> {
    let words = words_of(alloc, text)?;
    let said = match read_words(alloc, words.as_slice())? {
        Some(Mode::Deck(DeckMode::Seq { steps })) => format!(in alloc; "seq {steps}"),
        Some(Mode::Deck(DeckMode::Map { ranks })) => format!(in alloc; "map {ranks}"),
        Some(Mode::Deck(DeckMode::Plan)) => String::from_str(alloc, "plan"),
        Some(Mode::Deck(DeckMode::Check)) => String::from_str(alloc, "check"),
        Some(Mode::Gen { size, seed }) => format!(in alloc; "gen {size} {seed}"),
        None => String::from_str(alloc, "none"),
    };
    Ok(said?)
}

fn hold_line(rt: &impl Abort, alloc: Global, line: &str) -> Result<(), Fail> {
    if line.starts_with("#") {
        return Ok(());
    }
    let (words, mode) = line.rsplit_once(" > ").expect(rt, line);
    let said = said(alloc, words)?;
    assert_eq!(rt; said.as_str(), mode, "{line}");
    Ok(())
}

fn hold(rt: &impl Abort, alloc: Global, table: &str) -> Result<(), Fail> {
    for line in table.lines() {
        hold_line(rt, alloc, line)?;
    }
    Ok(())
}

#[test]
fn words_say_a_mode_or_nothing(rt: HostRuntime) -> Result<(), Fail> {
    hold(&rt, rt.alloc(), ROWS)
}

#[test]
fn wrong_words_say_nothing(rt: HostRuntime) -> Result<(), Fail> {
    hold(&rt, rt.alloc(), WRONG)
}
