// What is written for an answer.
ghost use Rattle.std.specs.Prelude.{◌≡◌, ◌≤◌};
ghost use Rattle.fdc_main.specs.Top.{Told, IsQuiet};
ghost use Rattle.fdc_main.specs.Texts.{memory_text};
ghost use Rattle.fdc_main.specs.Answers.{AnswerOut, AnswerErr, DoneOut, DoneErr};

use crate::answer::Answer;
use crate::status::Status;
use fd_io::{Sink, write_all};

/// Writes what an answer asks for.
pub fn tell<O: Sink, E: Sink>(answer: Answer, out: &mut O, err: &mut E) -> Status
    ensures out { AnswerOut answer result (O.taken out.old) (O.taken out.new) (O.faults out.old) (O.faults out.new) }
    ensures err { AnswerErr answer result (E.taken err.old) (E.taken err.new) (E.faults err.old) (E.faults err.new) }
    ensures quiet { IsQuiet result (O.calls out.old) (O.calls out.new) }
    ensures silent { result ≡ Status.Done → E.calls err.new ≡ E.calls err.old }
    ensures later_out { O.faults out.old ≤ O.faults out.new }
    ensures later_err { E.faults err.old ≤ E.faults err.new }
{
    match answer {
        Answer::Usage => {
            say(
                err,
                b"fdc: usage: fdc MODE [--ranks N] [--steps N] [--seed N] [--workers N] [--size N]\n",
            );
            Status::Usage
        }
        Answer::ReadFault => {
            say(err, b"fdc: reading failed\n");
            Status::ReadFault
        }
        Answer::TooLong => {
            say(err, b"fdc: deck too long\n");
            Status::Source
        }
        Answer::Source(line) => {
            say(err, line.as_slice());
            Status::Source
        }
        Answer::Input(line) => {
            say(err, line.as_slice());
            Status::Input
        }
        Answer::Listing(line) => {
            say(err, line.as_slice());
            Status::Listing
        }
        Answer::RunFault(text, line) => {
            say(out, text.as_slice());
            say(err, line.as_slice());
            Status::RunFault
        }
        Answer::Done(text) => tell_done(out, err, text.as_slice()),
    }
}

// Writes the whole output of a run that is done.
fn tell_done<O: Sink, E: Sink>(out: &mut O, err: &mut E, text: &[u8]) -> Status
    ensures out { DoneOut text.now result (O.taken out.old) (O.taken out.new) (O.faults out.old) (O.faults out.new) }
    ensures err { DoneErr result (E.taken err.old) (E.taken err.new) (E.faults err.old) (E.faults err.new) }
    ensures quiet { IsQuiet result (O.calls out.old) (O.calls out.new) }
    ensures silent { result ≡ Status.Done → E.calls err.new ≡ E.calls err.old }
    ensures later_out { O.faults out.old ≤ O.faults out.new }
    ensures later_err { E.faults err.old ≤ E.faults err.new }
{
    match write_all(out, text) {
        Ok(()) => Status::Done,
        Err(_) => {
            say(err, b"fdc: writing failed\n");
            Status::WriteFault
        }
    }
}

// Writes a text, of which a prefix is taken where the sink fails.
fn say<O: Sink>(sink: &mut O, text: &[u8])
    ensures told { Told (O.taken sink.old) (O.taken sink.new) (O.faults sink.old) (O.faults sink.new) text.now }
    ensures later { O.faults sink.old ≤ O.faults sink.new }
{
    let _ = write_all(sink, text);
}

/// Tells of want of memory.
pub fn want_memory<E: Sink>(err: &mut E) -> Status
    ensures status { result ≡ Status.Memory }
    ensures told { Told (E.taken err.old) (E.taken err.new) (E.faults err.old) (E.faults err.new) memory_text }
    ensures later { E.faults err.old ≤ E.faults err.new }
{
    say(err, b"fdc: no memory\n");
    Status::Memory
}
