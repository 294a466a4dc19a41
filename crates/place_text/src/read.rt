// The placement that a listing tells.
ghost use Rattle.std.specs.Prelude.{◌≡◌, ℕ, ◌+◌, ◌<◌, ◌^◌, false, IfErr, IfOk, get_or, length, map};
ghost use Rattle.fd_prog.specs.Items.{linear_item_of};
ghost use Rattle.fd_prog.specs.Paths.{Places};
ghost use Rattle.fd_prog.specs.Programs.{program_of};
ghost use Rattle.interval_graph.specs.Rows.{AreRows};
ghost use Rattle.gnt_solver.specs.declared.tables.Size.{Size};
ghost use Rattle.gnt_solver.specs.Columns.{at, col, IsTable};
ghost use Rattle.gnt_solver.specs.Placed.{AreTables, places_of};
ghost use Rattle.place_text.specs.declared.entry.Entry.{Entry as Told};
ghost use Rattle.place_text.specs.declared.refusal.ListingRefusal.TheVariants as refused;
ghost use Rattle.place_text.specs.Readings as readings;
ghost use Rattle.place_text.specs.Readings.{AreBack, AreFew, IsFirstWrong, IsKnown, IsListingOf, IsReadAs, NamesLine, layout_by, layout_of, lines_in, marked, size_by, size_in};
ghost use Rattle.place_text.specs.Tables as tables;

use crate::cutting::{parts, unended};
use crate::known::Known;
use crate::listing::item_lines;
use crate::reading::{count_line, match_front, read_entries, wrong};
use crate::refusal::ListingRefusal;
use fd_base::{Bytes, Line, Memory, NodeNo};
use fd_prog::{Item, Program};
use fd_sets::SetTable;
use gnt_solver::{Placement, taken_in_bodies};
use interval_graph::Graph;
use section_num::Items;
use std::alloc::Global;

/// The table with the empty set at each node.
pub fn blank(alloc: Global, nodes: u16, items: u16) -> Result<SetTable, Memory>
    ensures table { IfOk result (λ t. IsTable (record { nodes = nodes; items = items }) t) }
    ensures none { IfOk result (λ t. (x n : ℕ) → at (col t x) n ≡ false) }
{
    let made = SetTable::new(alloc, nodes, items)?;
    Ok(made)
}

/// A placement that sends, receives and hoists nothing.
fn nowhere(alloc: Global, known: &Known) -> Result<Placement, Memory>
    requires { IsKnown known.now }
    ensures tables { IfOk result (λ p. AreTables (size_in known.now) p) }
    ensures none { IfOk result (λ p. (o : Told) → marked (places_of p) o ≡ false) }
{
    let nodes = known.lines.len() as u16;
    Ok(Placement {
        send_in: blank(alloc, nodes, known.items)?,
        send_out: blank(alloc, nodes, known.items)?,
        recv_in: blank(alloc, nodes, known.items)?,
        recv_out: blank(alloc, nodes, known.items)?,
        hoists: blank(alloc, nodes, known.items)?,
    })
}

/// The placement that lines tell, which begin with these.
pub fn read_lines(
    alloc: Global,
    known: &Known,
    front: &[Bytes],
    lines: &[Bytes],
) -> Result<Placement, ListingRefusal>
    requires few { AreFew lines.now }
    requires known { IsKnown known.now }
    ensures tables { IfOk result (λ p. AreTables (size_in known.now) p) }
    ensures read { IfOk result (λ p. IsReadAs front.now (layout_of known.now) lines.now (places_of p)) }
    ensures wrong { IfErr result (λ e. NamesLine e (IsFirstWrong front.now (layout_of known.now) lines.now)) }
{
    match_front(front, lines)?;
    let places_at = front.len();
    let places = count_line(alloc, b"places ", lines, places_at)?;
    let mut p = nowhere(alloc, known)?;
    read_entries(alloc, known, false, lines, places_at + 1, places, &mut p)?;
    let hoists_at = places_at + 1 + places as usize;
    let hoists = count_line(alloc, b"hoists ", lines, hoists_at)?;
    read_entries(alloc, known, true, lines, hoists_at + 1, hoists, &mut p)?;
    let end = hoists_at + 1 + hoists as usize;
    if end < lines.len() {
        Err(wrong(end))
    } else {
        Ok(p)
    }
}

/// The first lines of a program's listing: how many items there are, and the items.
fn opening(alloc: Global, program: &Program, items: &[Item]) -> Result<Vec<Bytes>, Memory>
    ensures { IfOk result (λ lines. lines.items ≡ readings.opening (program_of program.now) (map linear_item_of items.now)) }
{
    let mut count = Bytes::from_slice(alloc, b"items ")?;
    count.append_number(items.len() as u64)?;
    let mut lines = item_lines(alloc, program, items)?;
    lines.insert(0, count)?;
    Ok(lines)
}

/// The lines of the nodes, in order of their numbers.
fn lines_of(alloc: Global, graph: &Graph) -> Result<Vec<Line>, Memory>
    requires { length graph.now.rows.items < 2 ^ 16 }
    ensures lines { IfOk result (λ lines. lines.items ≡ tables.lines_of graph.now.rows.items) }
    ensures numbers { IfOk result (λ lines. (n : ℕ) → (get_or lines.items n (record { 0 = 0 })).0 < 2 ^ 32) }
{
    let mut lines = Vec::new(alloc);
    for n in 0..graph.count() {
        lines.push(graph.line(NodeNo(n)))?;
    }
    Ok(lines)
}

/// What the lines of a listing can tell of a graph and of items.
fn known_of(alloc: Global, graph: &Graph, items: &Items) -> Result<Known, Memory>
    requires rows { AreRows graph.now.rows.items }
    requires items { length items.now.items < 2 ^ 16 }
    requires takes { IsTable (size_by graph.now.rows.items items.now.items) items.now.take }
    ensures known { IfOk result (λ k. IsKnown k) }
    ensures lines { IfOk result (λ k. k.lines.items ≡ tables.lines_of graph.now.rows.items) }
    ensures items { IfOk result (λ k. k.items ≡ length items.now.items) }
    ensures layout { IfOk result (λ k. layout_of k ≡ layout_by graph.now.rows.items items.now.items items.now.take) }
{
    let lines = lines_of(alloc, graph)?;
    let taken = taken_in_bodies(alloc, graph, &items.take)?;
    Ok(Known {
        lines,
        items: items.items.len() as u16,
        taken,
    })
}

/// The placement that a listing tells, or its first wrong line. The items are the program's, with a set of what it takes for each node of its graph.
pub fn read_listing(
    alloc: Global,
    bytes: &[u8],
    program: &Program,
    items: &Items,
    graph: &Graph,
) -> Result<Placement, ListingRefusal>
    requires short { length bytes.now + 1 < 2 ^ 32 }
    requires rows { AreRows graph.now.rows.items }
    requires items { length items.now.items < 2 ^ 16 }
    requires takes { IsTable (size_by graph.now.rows.items items.now.items) items.now.take }
    ensures tables { IfOk result (λ p. AreTables (size_by graph.now.rows.items items.now.items) p) }
    ensures read { IfOk result (λ p. IsReadAs (readings.opening (program_of program.now) (map linear_item_of items.now.items)) (layout_by graph.now.rows.items items.now.items items.now.take) (lines_in bytes.now) (places_of p)) }
    ensures wrong { IfErr result (λ e. NamesLine e (IsFirstWrong (readings.opening (program_of program.now) (map linear_item_of items.now.items)) (layout_by graph.now.rows.items items.now.items items.now.take) (lines_in bytes.now))) }
    ensures accepted { IfErr result (λ e. (places : Places) → IsListingOf (program_of program.now) (map linear_item_of items.now.items) (layout_by graph.now.rows.items items.now.items items.now.take) places bytes.now → e ≡ refused.Memory) }
    ensures back { IfOk result (λ p. (places : Places) → IsListingOf (program_of program.now) (map linear_item_of items.now.items) (layout_by graph.now.rows.items items.now.items items.now.take) places bytes.now → AreBack (layout_by graph.now.rows.items items.now.items items.now.take) places (places_of p)) }
{
    let lines = parts(alloc, unended(bytes), b'\n')?;
    let front = opening(alloc, program, items.items.as_slice())?;
    let known = known_of(alloc, graph, items)?;
    read_lines(alloc, &known, front.as_slice(), lines.as_slice())
}
