// The run of a program in sequence.
ghost use Rattle.std.specs.Prelude.{◌≡◌, ◌≤◌, IfOk};
ghost use Rattle.fd_prog.specs.Programs.{program_of};
ghost use Rattle.fd_prog.specs.Sequence.{sequential_run};
ghost use Rattle.fd_prog.specs.WellFormed.{IsSoundProgram};

use crate::preparing::ready_list;
use crate::progress::{Progress, Stop};
use crate::running::run_list;
use crate::store::Store;
use crate::task::Task;
use fd_base::Memory;
use fd_prog::{Outcome, PrintedList, Program};
use std::alloc::Global;

/// The printed lines, each with the step that printed it, and how the run ended.
#[derive(Drop)]
pub struct SeqEnd {
    pub lines: PrintedList,
    pub outcome: Outcome,
}

/// Runs a program on an input, up to a limit of steps.
pub fn run_seq(
    alloc: Global,
    program: &Program,
    input: &[i64],
    limit: u64,
) -> Result<SeqEnd, Memory>
    requires sound { IsSoundProgram (program_of program.now) }
    requires some { 1 ≤ limit }
    requires most { limit ≤ 100000000 }
    ensures { IfOk result (λ end. record { lines = end.lines; outcome = end.outcome } ≡ sequential_run (program_of program.now) input.now limit) }
{
    let task = Task {
        program,
        input,
        limit,
    };
    let mut progress = Progress {
        store: Store::first(alloc, program)?,
        steps: 0,
        lines: PrintedList::new(alloc),
        outcome: Outcome::Done,
    };
    let body = ready_list(alloc, &program.body, false)?;
    let end = run_list(alloc, &task, &body, &mut progress);
    let Progress {
        store: _,
        steps: _,
        lines,
        outcome,
    } = progress;
    match end {
        Ok(()) => Ok(SeqEnd {
            lines,
            outcome: Outcome::Done,
        }),
        Err(Stop::Ended) => Ok(SeqEnd { lines, outcome }),
        Err(Stop::Memory) => Err(Memory),
    }
}
