//! The program `fdc`: its words, the deck on standard input, and the one call that does the work.
#![tactic(auto)]

mod answer;
mod check;
mod command_line;
mod laws;
mod plan;
#[cfg(test)]
mod rows;
mod source;
mod status;
mod telling;
mod texts;
mod top;

ghost use Rattle.std.specs.Prelude.{◌≡◌};
ghost use Rattle.std.specs.Process.{exit_status};
ghost use Rattle.fdc_main.specs.Top.{status_number};

use fd_base::Memory;
use fd_io::{OpenGate, StderrSink, StdinSource, StdoutSink};
use status::Status;
use std::process::ExitCode;
use std::{env, io};
use telling::want_memory;
use top::fdc;

fn main(rt: HostRuntime) -> ExitCode {
    let alloc = rt.alloc();
    let mut deck = StdinSource::new(rt.stdin());
    let mut out = StdoutSink::new(rt.stdout());
    let mut err = StderrSink::new(rt.stderr());
    let status = match command_words(&rt) {
        Ok(words) => fdc(
            alloc,
            words.as_slice(),
            &mut deck,
            &mut out,
            &mut err,
            &OpenGate,
        ),
        Err(_) => want_memory(&mut err),
    };
    exit_code(status)
}

// The exit status of the program.
fn exit_code(status: Status) -> ExitCode
    ensures { exit_status result ≡ status_number status }
{
    ExitCode::from(status.code())
}

// The words of the command line without the program's name. Words that are no text are wrong words, as none are.
fn command_words(rt: &(impl env::Env + AllocGlobal)) -> Result<Vec<String>, Memory> {
    match env::args(rt) {
        Ok(words) => Ok(words.skip(1).collect(rt.alloc())?),
        Err(e) if e.kind() == io::ErrorKind::OutOfMemory => Err(Memory),
        Err(_) => Ok(Vec::new(rt.alloc())),
    }
}
