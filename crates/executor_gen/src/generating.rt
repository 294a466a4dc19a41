// The code of a program.
ghost use Rattle.std.specs.Prelude.{◌≡◌, ℕ, ℤ, List, ◌+◌, ◌*◌, ◌≤◌, ◌∷◌, [], IfOk, length, map};
ghost use Rattle.exec_code.specs.Instructions.{code_of};
ghost use Rattle.exec_code.specs.Sound.{AreGoodPlaces, AreItemsOf, Follows, IsSoundJob};
ghost use Rattle.program_laws.specs.Accepted.{IsAcceptedProgram};
ghost use Rattle.program_laws.specs.Plans.{plan_of};
ghost use Rattle.fd_prog.specs.Nodes.{node_count, nodes_of};
ghost use Rattle.fd_prog.specs.Paths.{Plan};
ghost use Rattle.fd_prog.specs.Programs.{program_of};
ghost use Rattle.gnt_solver.specs.Placed.{places_of, AreTables};
ghost use Rattle.interval_graph.specs.Rows.{rows_of};
ghost use Rattle.executor_gen.specs.Blocks.{spots_in, operations_among, place_at, ends_from, AreFew, AreOperations, IsLaid};
ghost use Rattle.executor_gen.specs.Jobs.{job_with};
ghost use Rattle.executor_gen.specs.Layout.{spots_of};

use crate::blocks::{write_end, write_quiet};
use crate::measure::{measure_all, note, quiet_size};
use crate::operations::{Operations, count_ins};
use crate::tables::operations_of;
use crate::tree::{count_all, write_all};
use exec_code::{Code, Instr, InstrList, LineNoList};
use fd_base::{Line, Memory};
use fd_prog::Program;
use gnt_solver::Placement;
use interval_graph::Graph;
use section_num::Items;
use std::alloc::Global;

/// The positions of the blocks of a program's nodes, and that behind the last.
fn block_places(
    alloc: Global,
    program: &Program,
    operations: &[Operations],
) -> Result<Vec<u32>, Memory>
    requires nodes { node_count (program_of program.now) ≤ 30000 }
    requires few { AreFew operations.now }
    ensures places { IfOk result (λ places. places.items ≡ 0 ∷ ends_from (spots_in operations.now) 0 0 (nodes_of (program_of program.now))) }
    ensures low { IfOk result (λ places. (n : ℕ) → place_at places.items n ≤ 100000000) }
{
    let mut places = Vec::new(alloc);
    places.push(0)?;
    let first = quiet_size(operations, 0);
    let start = note(first, 0, &mut places)?;
    let mid = measure_all(&program.body, 1, start, operations, &mut places)?;
    let last = count_all(&program.body) + 1;
    let size = count_ins(operations, last) + 1;
    let _end = note(size, mid, &mut places)?;
    Ok(places)
}

/// The code of a program with these operations at its nodes.
fn code_with(alloc: Global, program: &Program, operations: &[Operations]) -> Result<Code, Memory>
    requires nodes { node_count (program_of program.now) ≤ 30000 }
    requires few { AreFew operations.now }
    ensures { IfOk result (λ code. (p : Plan) → AreOperations p operations.now → IsLaid p (nodes_of (program_of program.now)) (code_of code)) }
{
    let places = block_places(alloc, program, operations)?;
    let mut instrs: Vec<Instr> = Vec::new(alloc);
    let mut lines: Vec<Line> = Vec::new(alloc);
    let last = count_all(&program.body) + 1;
    write_quiet(operations, 0, Line(0), &mut instrs, &mut lines)?;
    let _next = write_all(
        alloc,
        &program.body,
        1,
        0,
        places.as_slice(),
        operations,
        &mut instrs,
        &mut lines,
    )?;
    write_end(operations, last, program.end_line, &mut instrs, &mut lines)?;
    Ok(Code {
        instrs: InstrList::from_vec(instrs),
        lines: LineNoList::from_vec(lines),
    })
}

/// The code of a program with a placement of its items. It serves every input, number of ranks and limit.
pub fn generate(
    alloc: Global,
    program: &Program,
    items: &Items,
    graph: &Graph,
    p: &Placement,
) -> Result<Code, Memory>
    requires accepted { IsAcceptedProgram (program_of program.now) }
    requires rows { graph.now.rows.items ≡ rows_of (nodes_of (program_of program.now)) }
    requires numbered { AreItemsOf (program_of program.now) items.now.items items.now.of_site }
    requires tables { AreTables (record { nodes = length graph.now.rows.items; items = length items.now.items }) p.now }
    ensures runs { IfOk result (λ code. (input : List ℤ) (ranks limit : ℕ) → Follows (job_with (program_of program.now) items.now (code_of code) input ranks limit) (plan_of (program_of program.now) (places_of p.now))) }
    ensures sound { IfOk result (λ code. AreGoodPlaces (program_of program.now) (places_of p.now) → (input : List ℤ) (ranks limit : ℕ) → 1 ≤ ranks → ranks ≤ 16 → 1 ≤ limit → limit ≤ 100000000 → IsSoundJob (job_with (program_of program.now) items.now (code_of code) input ranks limit)) }
    ensures small { IfOk result (λ code. length code.instrs ≤ 3 * node_count (program_of program.now) + 2 * operations_among (spots_of (plan_of (program_of program.now) (places_of p.now))) 0 (node_count (program_of program.now))) }
{
    let nodes = graph.count();
    let count = items.items.len() as u16;
    let operations = operations_of(alloc, p, nodes, count)?;
    let code = code_with(alloc, program, operations.as_slice())?;
    Ok(code)
}
