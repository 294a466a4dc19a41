//! The words of the command line: one mode anywhere, and its options in any order.
ghost use Rattle.std.specs.Prelude.{◌≡◌, map, string_bytes, IfOk, IfSome};
ghost use Rattle.clap.specs.Values.{kind_of};
ghost use Rattle.fdc_main.specs.WordsCommand.{is_out_of_memory};
ghost use Rattle.fdc_main.specs.Words.{mode_of, IsInRange};

mod command;
mod found;
mod laws;
#[cfg(test)]
mod rows;
mod shapes;

use clap::Error;
use clap::error::ErrorKind;
use command::fdc_command;
use fd_base::Memory;
use found::mode_found;
use shapes::are_clean_words;
use std::alloc::Global;

/// What the program is asked to do.
#[derive(Clone, Copy)]
pub enum Mode {
    /// What the deck on standard input is for.
    Deck(DeckMode),
    /// Write the deck of a mesh of this many nodes, 1 to 50,000, made from a number. Nothing is read.
    Gen { size: u32, seed: u64 },
}

/// What the program is asked to do with the deck that it reads.
#[derive(Clone, Copy)]
pub enum DeckMode {
    /// Run the deck in sequence, in at most this many steps, 1 to 100,000,000.
    Seq { steps: u64 },
    /// Print who owns what on this many ranks, 1 to 16.
    Map { ranks: u8 },
    /// Print where each item is sent and received.
    Plan,
    /// Judge the listing behind the program.
    Check,
}

/// The mode that the words ask for, or `None` where they are no command line.
pub fn read_words(alloc: Global, words: &[String]) -> Result<Option<Mode>, Memory>
    ensures mode { IfOk result (λ mode. mode ≡ mode_of (map string_bytes words.now)) }
    ensures ranges { IfOk result (λ mode. IfSome mode IsInRange) }
{
    if !are_clean_words(words) {
        return Ok(None);
    }
    let command = fdc_command(alloc)?;
    match command.try_get_matches_from(words) {
        Ok(matches) => Ok(mode_found(&matches)),
        Err(error) => {
            if is_out_of_memory(&error) {
                Err(Memory)
            } else {
                Ok(None)
            }
        }
    }
}

fn is_out_of_memory(error: &Error) -> bool
    ensures { result ≡ is_out_of_memory (kind_of error.now) }
{
    matches!(error.kind(), ErrorKind::OutOfMemory)
}
