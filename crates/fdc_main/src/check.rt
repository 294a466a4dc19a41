// What mode check finds.
ghost use Rattle.std.specs.Prelude.{◌≤◌, length, IfOk};
ghost use Rattle.fd_prog.specs.Checked.{size_among};
ghost use Rattle.fd_prog.specs.Programs.{program_of};
ghost use Rattle.fdc_main.specs.Plans.{AreItems};
ghost use Rattle.fdc_main.specs.Checks.{IsFound};

use fd_base::{Line, Memory};
use fd_prog::Program;
use interval_graph::build;
use place_check::{Verdict, judge};
use place_text::{ListingRefusal, read_listing};
use section_num::Items;
use std::alloc::Global;

/// What is found in a text that is to be the listing of a program.
#[derive(Drop)]
pub enum Finding {
    /// The first line that is wrong or missing, counted from 1.
    WrongLine(Line),
    /// The verdict on the places that it lists.
    Judged(Verdict),
}

/// Reads the text as a listing of a program, and judges its places.
pub fn check_listing(
    alloc: Global,
    program: &Program,
    items: &Items,
    text: &[u8],
) -> Result<Finding, Memory>
    requires statements { size_among (program_of program.now).body ≤ 4096 }
    requires items { AreItems (program_of program.now) items.now }
    requires short { length text.now ≤ 1048576 }
    ensures { IfOk result (IsFound (program_of program.now) text.now) }
{
    let graph = build(alloc, program)?;
    match read_listing(alloc, text, program, items, &graph) {
        Ok(placement) => {
            let verdict = judge(alloc, &graph, &items.take, &items.steal, &placement)?;
            Ok(Finding::Judged(verdict))
        }
        Err(ListingRefusal::Bad(line)) => Ok(Finding::WrongLine(line)),
        Err(ListingRefusal::Memory) => Err(Memory),
    }
}
