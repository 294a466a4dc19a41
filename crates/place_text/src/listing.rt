// The listing of a program's items and of where they are sent and received.
ghost use Rattle.std.specs.Prelude.{◌≡◌, ℕ, ◌<◌, ◌≤◌, ◌^◌, ◌++◌, false, flat_map, length, map, IfOk, IfSome, IfNone, OnOk};
ghost use Rattle.std.specs.Fmt.{decimal};
ghost use Rattle.fd_sets.specs.Sets.{IsLeast};
ghost use Rattle.fd_prog.specs.Programs.{program_of};
ghost use Rattle.fd_prog.specs.Items.{linear_item_of};
ghost use Rattle.gnt_solver.specs.Columns.{at, col, held};
ghost use Rattle.gnt_solver.specs.Placed.{places_of};
ghost use Rattle.place_text.specs.Listings as texts;
ghost use Rattle.place_text.specs.Tables.{HasNode, HasNodes, lines_of};

use crate::item::append_item;
use fd_base::{Bytes, ItemNo, Line, Memory, NodeNo};
use fd_prog::{Item, Program};
use fd_sets::{ItemSet, SetTable};
use gnt_solver::Placement;
use interval_graph::Graph;
use section_num::Items;
use std::alloc::Global;

/// The least item of a set from one on, up to the last.
fn next_item(set: &ItemSet, from: u16, last: u16) -> Option<ItemNo>
    ensures some { IfSome result (λ next. IsLeast set.now from next.0 × (next.0 ≤ last)) }
    ensures none { IfNone result ((x : ℕ) → from ≤ x → x ≤ last → held set.now x ≡ false) }
{
    let next = set.next_from(ItemNo(from))?;
    if next.0 <= last { Some(next) } else { None }
}

/// Appends a line for each item of a set: a word, a node, what is told of it, and the item's number.
fn append_marked(
    alloc: Global,
    word: &[u8],
    n: NodeNo,
    line: Line,
    told: &[u8],
    items: u16,
    set: &ItemSet,
    lines: &mut Vec<Bytes>,
) -> Result<(), Memory>
    ensures { OnOk result (lines.new.items ≡ lines.old.items ++ texts.marked_lines (texts.front_text word.now n.0 line told.now) items (held set.now)) }
{
    let mut done = 0;
    while done < items {
        let Some(item) = next_item(set, done + 1, items) else {
            return Ok(());
        };
        lines.push(marked_line(alloc, word, n, line, told, item)?)?;
        done = item.0;
    }
    Ok(())
}

fn marked_line(
    alloc: Global,
    word: &[u8],
    n: NodeNo,
    line: Line,
    told: &[u8],
    item: ItemNo,
) -> Result<Bytes, Memory>
    ensures { IfOk result (λ made. made ≡ texts.front_text word.now n.0 line told.now ++ decimal item.0) }
{
    let mut text = Bytes::from_slice(alloc, word)?;
    text.append(b"node ")?;
    text.append_number(u64::from(n.0))?;
    text.append(b" line ")?;
    text.append_number(u64::from(line.0))?;
    text.append(told)?;
    text.append_number(u64::from(item.0))?;
    Ok(text)
}

/// The lines of items, which are numbered from 1.
#[tactic(auto, using(crate::proofs::Lines::items_more))]
pub fn item_lines(alloc: Global, program: &Program, items: &[Item]) -> Result<Vec<Bytes>, Memory>
    ensures { IfOk result (λ lines. lines.items ≡ texts.item_lines (program_of program.now) 1 (map linear_item_of items.now)) }
{
    let mut lines = Vec::new(alloc);
    for (index, item) in items.iter().enumerate() {
        lines.push(item_line(alloc, program, index as u64 + 1, item)?)?;
    }
    Ok(lines)
}

fn item_line(alloc: Global, program: &Program, number: u64, item: &Item) -> Result<Bytes, Memory>
    ensures { IfOk result (λ line. line ≡ texts.item_line (program_of program.now) number (linear_item_of item.now)) }
{
    let mut line = Bytes::from_slice(alloc, b"item ")?;
    line.append_number(number)?;
    line.append(b" ")?;
    append_item(alloc, program, item, &mut line)?;
    Ok(line)
}

/// Appends a line for each item of a node's set.
#[tactic(auto, using(crate::proofs::Lines::of_table))]
fn append_of_table(
    alloc: Global,
    word: &[u8],
    n: NodeNo,
    line: Line,
    told: &[u8],
    items: u16,
    table: &SetTable,
    lines: &mut Vec<Bytes>,
) -> Result<(), Memory>
    requires { n.0 < length table.now }
    ensures { OnOk result (lines.new.items ≡ lines.old.items ++ texts.marked_lines (texts.front_text word.now n.0 line told.now) items (λ x. at (col table.now x) n.0)) }
{
    append_marked(alloc, word, n, line, told, items, table.set(n), lines)
}

/// Appends the lines of the operations at a node's `in`, sends before receives.
fn append_arrival(
    alloc: Global,
    n: NodeNo,
    line: Line,
    items: u16,
    p: &Placement,
    lines: &mut Vec<Bytes>,
) -> Result<(), Memory>
    requires { HasNode p.now n.0 }
    ensures { OnOk result (lines.new.items ≡ lines.old.items ++ texts.lines_on_arrival items (places_of p.now) n.0 line) }
{
    let (sends, receives) = (&p.send_in, &p.recv_in);
    append_of_table(alloc, b"", n, line, b" in send ", items, sends, lines)?;
    append_of_table(alloc, b"", n, line, b" in recv ", items, receives, lines)
}

/// Appends the lines of the operations at a node's `out`, sends before receives.
fn append_leaving(
    alloc: Global,
    n: NodeNo,
    line: Line,
    items: u16,
    p: &Placement,
    lines: &mut Vec<Bytes>,
) -> Result<(), Memory>
    requires { HasNode p.now n.0 }
    ensures { OnOk result (lines.new.items ≡ lines.old.items ++ texts.lines_on_leaving items (places_of p.now) n.0 line) }
{
    let (sends, receives) = (&p.send_out, &p.recv_out);
    append_of_table(alloc, b"", n, line, b" out send ", items, sends, lines)?;
    append_of_table(alloc, b"", n, line, b" out recv ", items, receives, lines)
}

/// Appends the lines of a node's operations, those at its `in` first.
fn append_places(
    alloc: Global,
    n: NodeNo,
    line: Line,
    items: u16,
    placement: &Placement,
    lines: &mut Vec<Bytes>,
) -> Result<(), Memory>
    requires { HasNode placement.now n.0 }
    ensures { OnOk result (lines.new.items ≡ lines.old.items ++ texts.place_lines items (places_of placement.now) n.0 line) }
{
    append_arrival(alloc, n, line, items, placement, lines)?;
    append_leaving(alloc, n, line, items, placement, lines)
}

/// The lines of the operations of all nodes.
#[tactic(auto, using(crate::proofs::Lines::nodes_more))]
fn place_lines(
    alloc: Global,
    graph: &Graph,
    items: u16,
    placement: &Placement,
) -> Result<Vec<Bytes>, Memory>
    requires few { length graph.now.rows.items < 2 ^ 16 }
    requires tables { HasNodes placement.now (length graph.now.rows.items) }
    ensures { IfOk result (λ lines. lines.items ≡ texts.by_node (texts.place_lines items (places_of placement.now)) 0 (lines_of graph.now.rows.items)) }
{
    let mut lines = Vec::new(alloc);
    for n in 0..graph.count() {
        let line = graph.line(NodeNo(n));
        append_places(alloc, NodeNo(n), line, items, placement, &mut lines)?;
    }
    Ok(lines)
}

/// The lines of the hoists of all nodes.
#[tactic(auto, using(crate::proofs::Lines::nodes_more))]
fn hoist_lines(
    alloc: Global,
    graph: &Graph,
    items: u16,
    placement: &Placement,
) -> Result<Vec<Bytes>, Memory>
    requires few { length graph.now.rows.items < 2 ^ 16 }
    requires tables { HasNodes placement.now (length graph.now.rows.items) }
    ensures { IfOk result (λ lines. lines.items ≡ texts.by_node (texts.hoist_lines items (places_of placement.now)) 0 (lines_of graph.now.rows.items)) }
{
    let mut lines = Vec::new(alloc);
    let hoists = &placement.hoists;
    for n in 0..graph.count() {
        let line = graph.line(NodeNo(n));
        append_of_table(
            alloc,
            b"hoist ",
            NodeNo(n),
            line,
            b" item ",
            items,
            hoists,
            &mut lines,
        )?;
    }
    Ok(lines)
}

/// The listing of a program's items and of a placement: the items, the operations of all nodes, and the hoists.
pub fn write_listing(
    alloc: Global,
    program: &Program,
    items: &Items,
    graph: &Graph,
    placement: &Placement,
) -> Result<Bytes, Memory>
    requires items { length items.now.items < 2 ^ 16 }
    requires nodes { length graph.now.rows.items < 2 ^ 16 }
    requires tables { HasNodes placement.now (length graph.now.rows.items) }
    ensures { IfOk result (λ text. text ≡ texts.listing (program_of program.now) (map linear_item_of items.now.items) (lines_of graph.now.rows.items) (places_of placement.now)) }
{
    let count = items.items.len() as u16;
    let mut text = Bytes::new(alloc);
    let told = item_lines(alloc, program, items.items.as_slice())?;
    append_counted(b"items ", &told, &mut text)?;
    let places = place_lines(alloc, graph, count, placement)?;
    append_counted(b"places ", &places, &mut text)?;
    let hoists = hoist_lines(alloc, graph, count, placement)?;
    append_counted(b"hoists ", &hoists, &mut text)?;
    Ok(text)
}

/// The lines with a word and their count in front of them.
fn append_counted(word: &[u8], lines: &[Bytes], out: &mut Bytes) -> Result<(), Memory>
    ensures { OnOk result (out.new ≡ out.old ++ texts.counted_lines word.now lines.now) }
{
    out.append(word)?;
    out.append_number(lines.len() as u64)?;
    out.append(b"\n")?;
    append_lines(lines, out)
}

fn append_lines(lines: &[Bytes], out: &mut Bytes) -> Result<(), Memory>
    ensures { OnOk result (out.new ≡ out.old ++ flat_map texts.ended_line lines.now) }
{
    for line in lines {
        out.append(line.as_slice())?;
        out.append(b"\n")?;
    }
    Ok(())
}
