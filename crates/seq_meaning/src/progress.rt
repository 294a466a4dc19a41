// Where a run stands, and what ends it.
ghost use Rattle.std.specs.Prelude.{◌≡◌, ◌+◌, ◌<◌, ◌≤◌, nat_lt, OnOk};

use crate::store::Store;
use fd_base::{FaultKind, Line, Memory};
use fd_prog::{Outcome, PrintedList};

/// The store, the count of completed steps, the printed lines, and the fault that has ended the run, or Done where none has.
#[derive(Drop)]
pub struct Progress {
    pub store: Store,
    pub steps: u64,
    pub lines: PrintedList,
    pub outcome: Outcome,
    ghost bounded: { steps ≤ 100000000 },
}

/// What stops a run before its last statement: a fault, which is its outcome then, or want of memory.
#[derive(Drop)]
pub enum Stop {
    Ended,
    Memory,
}

impl From<Memory> for Stop {
    ghost use Rattle.std.specs.Prelude.{◌≡◌};
    ghost use Rattle.seq_meaning.specs.declared.progress.Stop.TheVariants as stop;

    ghost from_gives = { λ _ e. e ≡ stop.Memory };

    fn from(_e: Memory) -> Stop {
        Stop::Memory
    }
}

impl Progress {
    ghost use Rattle.fd_prog.specs.Sequence as sequence;
    ghost use Rattle.seq_meaning.specs.Going.{progress_of, Continues, IsEnded, IsAllowed};

    /// A step may be made on this line, or the limit ends the run.
    pub fn allowed(&mut self, limit: u64, line: Line) -> Result<(), Stop>
        ensures allowed { IsAllowed (nat_lt self.old.steps limit) result self.old self.new line }
        ensures below { OnOk result (self.old.steps < limit) }
    {
        if self.steps < limit {
            Ok(())
        } else {
            Err(self.end(line, FaultKind::StepLimit))
        }
    }

    /// Completes the step at hand, or ends the run by its fault.
    #[inline(always)]
    pub fn complete<A>(&mut self, line: Line, given: Result<A, FaultKind>) -> Result<A, Stop>
        requires { self.old.steps < 100000000 }
        ensures goes { (go : A → sequence.Progress → sequence.Onward) → Continues (sequence.completed line (progress_of self.old) given go) (λ x. go x (progress_of self.new)) self.new result }
        ensures counted { OnOk result (self.new.steps ≡ self.old.steps + 1) }
    {
        match given {
            Ok(found) => {
                self.steps += 1;
                Ok(found)
            }
            Err(kind) => Err(self.end(line, kind)),
        }
    }

    // The end by a fault of the step at hand.
    #[inline(never)]
    fn end(&mut self, line: Line, kind: FaultKind) -> Stop
        ensures { IsEnded result self.old self.new line kind }
    {
        let step = self.steps + 1;
        self.outcome = Outcome::Fault { step, line, kind };
        Stop::Ended
    }
}
