// The mode, from what `clap` found in the words.
ghost use Rattle.std.specs.Prelude.{◌≡◌, ◌<◌, ◌^◌, List, Some, true, unwrap_or};
ghost use Rattle.std.specs.List.{list_any};
ghost use Rattle.clap.specs.Matches.{found_of};
ghost use Rattle.clap.specs.Walk.{rows_of};
ghost use Rattle.fdc_main.specs.WordsRows.{are_good, rows_of_parts, mode_given, mode_without};
ghost use Rattle.fdc_main.specs.Words.{OptionRule, Part, mode_of_parts, option_named, number_at};

use crate::command_line::{DeckMode, Mode};
use clap::ArgMatches;

pub fn mode_found(matches: &ArgMatches) -> Option<Mode>
    ensures { (parts : List Part) → are_good parts ≡ true → rows_of (found_of matches.now) ≡ rows_of_parts parts
        → result ≡ mode_of_parts parts }
{
    let name = matches.get_str("mode")?;
    let ranks = small_number(matches, "ranks");
    let steps = number(matches, "steps");
    let seed = number(matches, "seed");
    let size = size_number(matches, "size");
    mode_from(name, ranks, steps, seed, size)
}

// The mode of a name and of the numbers that were given, where the mode takes them.
fn mode_from(
    name: &str,
    ranks: Option<u8>,
    steps: Option<u64>,
    seed: Option<u64>,
    size: Option<u32>,
) -> Option<Mode>
    ensures { result ≡ mode_given name.now ranks steps seed size }
{
    let (has_ranks, has_steps) = (ranks.is_some(), steps.is_some());
    let (has_seed, has_size) = (seed.is_some(), size.is_some());
    match name {
        "seq" => mode_without(&[has_ranks, has_seed, has_size], seq_mode(steps)),
        "map" => mode_without(&[has_steps, has_seed, has_size], map_mode(ranks)),
        "plan" => mode_without(
            &[has_ranks, has_steps, has_seed, has_size],
            Mode::Deck(DeckMode::Plan),
        ),
        "check" => mode_without(
            &[has_ranks, has_steps, has_seed, has_size],
            Mode::Deck(DeckMode::Check),
        ),
        "gen" => mode_without(&[has_ranks, has_steps], gen_mode(size, seed)),
        _ => None,
    }
}

// A mode, where none of some other numbers was given.
fn mode_without(others: &[bool], mode: Mode) -> Option<Mode>
    ensures { result ≡ mode_without others.now mode }
{
    if is_any(others) { None } else { Some(mode) }
}

fn is_any(others: &[bool]) -> bool
    ensures { result ≡ list_any (λ other. other) others.now }
{
    others.iter().any(|other| *other)
}

fn seq_mode(steps: Option<u64>) -> Mode
    ensures { result ≡ Mode.Deck (DeckMode.Seq (unwrap_or steps 1000000)) }
{
    Mode::Deck(DeckMode::Seq {
        steps: steps.unwrap_or(1_000_000),
    })
}

fn map_mode(ranks: Option<u8>) -> Mode
    ensures { result ≡ Mode.Deck (DeckMode.Map (unwrap_or ranks 4)) }
{
    Mode::Deck(DeckMode::Map {
        ranks: ranks.unwrap_or(4),
    })
}

fn gen_mode(size: Option<u32>, seed: Option<u64>) -> Mode
    ensures { result ≡ Mode.Gen (unwrap_or size 100) (unwrap_or seed 1) }
{
    Mode::Gen {
        size: size.unwrap_or(100),
        seed: seed.unwrap_or(1),
    }
}

fn number(matches: &ArgMatches, name: &str) -> Option<u64>
    ensures { (o : OptionRule) (parts : List Part) → option_named name.now ≡ Some o → are_good parts ≡ true
        → rows_of (found_of matches.now) ≡ rows_of_parts parts → result ≡ number_at name.now parts }
{
    matches.get_one::<u64>(name)
}

// The number of an option whose numbers fit into a byte.
fn small_number(matches: &ArgMatches, name: &str) -> Option<u8>
    ensures { (o : OptionRule) (parts : List Part) → option_named name.now ≡ Some o → o.high < 2 ^ 8 → are_good parts ≡ true
        → rows_of (found_of matches.now) ≡ rows_of_parts parts → result ≡ number_at name.now parts }
{
    matches.get_one::<u8>(name)
}

// The number of an option whose numbers fit into 32 bits.
fn size_number(matches: &ArgMatches, name: &str) -> Option<u32>
    ensures { (o : OptionRule) (parts : List Part) → option_named name.now ≡ Some o → o.high < 2 ^ 32 → are_good parts ≡ true
        → rows_of (found_of matches.now) ≡ rows_of_parts parts → result ≡ number_at name.now parts }
{
    matches.get_one::<u32>(name)
}
