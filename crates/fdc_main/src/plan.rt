// What mode plan prints.
ghost use Rattle.std.specs.Prelude.{◌≤◌, IfOk};
ghost use Rattle.fd_prog.specs.Checked.{size_among};
ghost use Rattle.fd_prog.specs.Programs.{program_of};
ghost use Rattle.fdc_main.specs.Plans.{AreItems, IsListing};

use fd_base::{Bytes, Memory};
use fd_prog::Program;
use gnt_solver::solve;
use interval_graph::build;
use place_text::write_listing;
use section_num::Items;
use std::alloc::Global;

/// The listing of a program's items, and of where each is sent and received.
pub fn plan_text(alloc: Global, program: &Program, items: &Items) -> Result<Bytes, Memory>
    requires statements { size_among (program_of program.now).body ≤ 4096 }
    requires items { AreItems (program_of program.now) items.now }
    ensures { IfOk result (IsListing (program_of program.now)) }
{
    let graph = build(alloc, program)?;
    let placement = solve(alloc, &graph, &items.take, &items.steal)?;
    write_listing(alloc, program, items, &graph, &placement)
}
