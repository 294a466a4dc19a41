// The rules on sums over all arrays.
ghost use Rattle.std.specs.Prelude.{◌≡◌, OnOk, IfOk};
ghost use Rattle.fd_names.specs.First.{met, noted};
ghost use Rattle.fd_names.specs.Totals.{added, total_causes, total_refusals};
ghost use Rattle.fd_names.specs.Checked.{no_elements};

use crate::book::Book;
use crate::declarations::Size;
use crate::refusal::Cause;
use fd_base::{Limit, Line, Memory};

const MOST_DISTRIBUTED: u64 = 262144;

const MOST_REPLICATED: u64 = 65536;

/// The elements so far, of distributed and of replicated arrays.
#[derive(Clone, Copy)]
pub struct Total {
    pub distributed: u64,
    pub replicated: u64,
}

impl Total {
    /// With so many elements more. More elements than numbers are as good as want of memory.
    fn add(self, dealt: bool, elements: u64) -> Result<Total, Memory>
        ensures { IfOk result (λ t. t ≡ added dealt elements self) }
    {
        let mut total = self;
        if dealt {
            total.distributed = total.distributed.checked_add(elements).ok_or(Memory)?;
        } else {
            total.replicated = total.replicated.checked_add(elements).ok_or(Memory)?;
        }
        Ok(total)
    }
}

impl Book {
    /// The limit on elements of this kind.
    fn note_total(&mut self, line: Line, dealt: bool, total: Total)
        ensures { self.new ≡ record self.old { worst = noted line (total_causes dealt total) self.old.worst } }
    {
        if dealt {
            self.note_if(
                MOST_DISTRIBUTED < total.distributed,
                line,
                Cause::TooMany(Limit::Distributed),
            );
        } else {
            self.note_if(
                MOST_REPLICATED < total.replicated,
                line,
                Cause::TooMany(Limit::Replicated),
            );
        }
    }

    /// The elements of all arrays, in order of declaration; `dealt` says which arrays are distributed.
    pub fn totals(&mut self, sizes: &[Size], dealt: &[bool]) -> Result<(), Memory>
        ensures { OnOk result (self.new ≡ record self.old { worst = met (total_refusals sizes.now dealt.now no_elements) self.old.worst }) }
    {
        let mut total = Total {
            distributed: 0,
            replicated: 0,
        };
        let mut flags = dealt;
        for size in sizes {
            let (flag, rest) = match flags {
                [] => (false, flags),
                [first, rest @ ..] => (*first, rest),
            };
            total = total.add(flag, size.elements)?;
            self.note_total(size.line, flag, total);
            flags = rest;
        }
        Ok(())
    }
}
