// The one call of the program.
ghost use Rattle.std.specs.Prelude.{◌≡◌, ◌≤◌, map, string_bytes};
ghost use Rattle.fd_io.specs.Causes.{Rose};
ghost use Rattle.fd_io.specs.Deck.{Took};
ghost use Rattle.fdc_main.specs.Words.{mode_of};
ghost use Rattle.fdc_main.specs.Top.{StatusFits, OutFits, ErrFits, DeckFits, IsQuiet, IsAnswered, ReadsDeck, Told, EachResponse};

use crate::answer::answer_words;
use crate::status::Status;
use crate::telling::{tell, want_memory};
use fd_io::{Gate, Sink, Source};
use std::alloc::Global;

/// Does what the words ask for, in most modes with the deck, and writes what is printed to `out`, or one line to `err` and
/// as much as it may to `out`.
pub fn fdc<S: Source, O: Sink, E: Sink, G: Gate>(
    alloc: Global,
    words: &[String],
    deck: &mut S,
    out: &mut O,
    err: &mut E,
    _gate: &G,
) -> Status
    // Which status comes, by the words and by what the deck's bytes mean; 5 and 6 only where an end's count of faults rose.
    ensures status { StatusFits (mode_of (map string_bytes words.now)) (S.held deck.old) result }
    ensures read { result ≡ Status.ReadFault → Rose (S.faults deck.old) (S.faults deck.new) }
    ensures write { result ≡ Status.WriteFault → Rose (O.faults out.old) (O.faults out.new) }

    // Exactly: with a mode that reads no deck, the status is 0, or 6 in its place, but for 7. With a mode that reads one,
    // and a deck that tells its bytes, it is that of the mode's response to what they mean, or 6 in place of 0, but for 5
    // and 7.
    ensures exact { (result ≡ Status.ReadFault → ⊥) → (result ≡ Status.Memory → ⊥) → EachResponse (mode_of (map string_bytes words.now)) (S.held deck.old) (λ r. IsAnswered r.status result) }
    ensures exact_out { (result ≡ Status.ReadFault → ⊥) → (result ≡ Status.Memory → ⊥) → EachResponse (mode_of (map string_bytes words.now)) (S.held deck.old) (λ r. Told (O.taken out.old) (O.taken out.new) (O.faults out.old) (O.faults out.new) r.out) }
    ensures exact_err { (result ≡ Status.ReadFault → ⊥) → (result ≡ Status.WriteFault → ⊥) → (result ≡ Status.Memory → ⊥) → EachResponse (mode_of (map string_bytes words.now)) (S.held deck.old) (λ r. Told (E.taken err.old) (E.taken err.new) (E.faults err.old) (E.faults err.new) r.err) }

    // What each end gained.
    ensures out { OutFits (mode_of (map string_bytes words.now)) (S.held deck.old) result (O.taken out.old) (O.taken out.new) (O.faults out.old) (O.faults out.new) }
    ensures err { ErrFits (mode_of (map string_bytes words.now)) (S.held deck.old) result (E.taken err.old) (E.taken err.new) (E.faults err.old) (E.faults err.new) }

    // With all but 0, 1 and 6 standard output isn't even asked to write, and with 0 standard error isn't.
    ensures quiet { IsQuiet result (O.calls out.old) (O.calls out.new) }
    ensures silent { result ≡ Status.Done → E.calls err.new ≡ E.calls err.old }

    // At most 1,048,577 bytes are taken. Without a mode that reads the deck it is as before, and with one it was read to
    // its end with 0, 1, 4, 6 and 8.
    ensures took { Took (S.held deck.old) (S.held deck.new) (λ n. n ≤ 1048577) }
    ensures unread { (ReadsDeck (mode_of (map string_bytes words.now)) → ⊥) → deck.new ≡ deck.old }
    ensures end { ReadsDeck (mode_of (map string_bytes words.now)) → DeckFits result (S.held deck.new) }

    // No count falls.
    ensures later_deck { S.faults deck.old ≤ S.faults deck.new }
    ensures later_out { O.faults out.old ≤ O.faults out.new }
    ensures later_err { E.faults err.old ≤ E.faults err.new }
{
    match answer_words(alloc, words, deck) {
        Ok(answer) => tell(answer, out, err),
        Err(_) => want_memory(err),
    }
}
