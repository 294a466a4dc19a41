// What calls answer that no mode prints: the item of each reference, the nodes of a graph with their edges, and the verdict on a hoist for what no body takes.
//
// A row is `>>> CALL`, its deck, and behind `<<< ` the text of what the call answers. Of a graph that is a line a node: its kind and its line, behind `>` where its edges lead, behind `<` where they come from, and behind `:` the nodes of its body at its level; `e` marks an Entry edge and `c` a Cycle edge.
ghost use Rattle.std.specs.Prelude.{◌≤◌, ◌<◌, length, IfOk};
ghost use Rattle.fd_prog.specs.Checked.{IsCheckedProgram, size_among};
ghost use Rattle.fd_prog.specs.Programs.{program_of};
ghost use Rattle.gnt_solver.specs.Columns.{IsTable};
ghost use Rattle.fdc_main.specs.Plans.{AreItems};

use crate::rows::ROOM;
use crate::rows::script::parted;
use crate::source::{Accepted, read_source};
use crate::texts::broken_line;
use fd_base::{Bytes, Memory, NodeNo};
use fd_prog::Program;
use fd_sets::SetTable;
use interval_graph::{EdgeKind, Edges, Graph, NodeKind, build};
use place_check::{Verdict, judge};
use place_text::read_listing;
use section_num::Items;
use std::alloc::Global;
use std::process::Abort;
use std::test::Fail;

const TABLE: &str =
    ">>> sites: A target has no item, and a reference is numbered before those in its subscripts\nINTEGER A(8), B(8)\nDECOMPOSITION D(8)\nALIGN A(I) WITH D(I)\nALIGN B(I) WITH D(I)\nDISTRIBUTE D(BLOCK)\nDO I = 1, 8\nA(I) = I\nENDDO\nDO I = 2, 8\nB(I) = A(I-1)\nENDDO\nPRINT *, B(8)\nEND\n<<<  0 0 1 2
>>> sites: A replicated array has none\nINTEGER X(4), Y(4), M(4)\nDISTRIBUTE X(BLOCK)\nDISTRIBUTE Y(BLOCK)\nM(1) = 99\nDO WHILE (M(1) .LT. 0)\nY(1) = X(M(1))\nENDDO\nPRINT *, Y(1)\nEND\n<<<  0 0 0 1 0 2
>>> graph: A statement, and a loop of an IF with a statement on its yes side and of a loop of a statement\n! Line 1\n! Line 2\n CONTINUE\nDO I = 1, 8\nIF (I .EQ. 1) THEN\n CONTINUE\nENDIF\nDO J = 1, 8\n CONTINUE\nENDDO\nENDDO\nEND\n<<< Start 0 > 1 < :\nSimple 3 > 2 < 0 :\nLoop 4 > 3e 16 < 1 15c : 3e 4 5 6 7 8 9 10 11 15\nPad 4 > 4 < 2e :\nBranch 5 > 5 8 < 3 :\nPad 5 > 6 < 4 :\nSimple 6 > 7 < 5 :\nPad 5 > 10 < 6 :\nPad 5 > 9 < 4 :\nPad 5 > 10 < 8 :\nJoin 5 > 11 < 7 9 :\nLoop 8 > 12e 15 < 10 14c : 12e 13 14\nPad 8 > 13 < 11e :\nSimple 9 > 14 < 12 :\nLatch 8 > 11c < 13 :\nLatch 4 > 2c < 11 :\nEnd 12 > < 2 :
>>> hoist: What is sent for a loop's sake whose body no longer takes it isn't used\nINTEGER A(4), K\nDISTRIBUTE A(BLOCK)\nDO I = 1, 8\nK = K + A(1)\nK = K + 1\nENDDO\nEND\nitems 1\nitem 1 A(1) do 1,8,1 at all\nplaces 2\nnode 1 line 3 in send 1\nnode 1 line 3 in recv 1\nhoists 1\nhoist node 1 line 3 item 1\n<<< fdc: placement: Used item 1 path 0 1 6
";

// A program with its items.
fn accepted(alloc: Global, deck: &[u8]) -> Result<Accepted, Memory>
    requires { length deck.now ≤ 1048576 }
    ensures checked { IfOk result (λ s. IsCheckedProgram (program_of s.program)) }
    ensures items { IfOk result (λ s. AreItems (program_of s.program) s.items) }
{
    match read_source(alloc, deck) {
        Ok(accepted) => Ok(accepted),
        Err(_) => Err(Memory),
    }
}

fn sites_text(alloc: Global, items: &Items) -> Result<Bytes, Memory> {
    let mut text = Bytes::new(alloc);
    for item in items.of_site.as_slice() {
        text.append(b" ")?;
        text.append_number(u64::from(item.0))?;
    }
    text.append(b"\n")?;
    Ok(text)
}

fn kind_name(kind: NodeKind) -> &'static str {
    match kind {
        NodeKind::Start => "Start ",
        NodeKind::End => "End ",
        NodeKind::Simple => "Simple ",
        NodeKind::Branch => "Branch ",
        NodeKind::Pad => "Pad ",
        NodeKind::Join => "Join ",
        NodeKind::Loop => "Loop ",
        NodeKind::Latch => "Latch ",
    }
}

fn edge_mark(kind: EdgeKind) -> &'static str {
    match kind {
        EdgeKind::Forward => "",
        EdgeKind::Entry => "e",
        EdgeKind::Cycle => "c",
    }
}

fn append_edges(edges: Edges, text: &mut Bytes) -> Result<(), Memory> {
    for (node, kind) in edges {
        text.append(b" ")?;
        text.append_number(u64::from(node.0))?;
        text.append(edge_mark(kind).as_bytes())?;
    }
    Ok(())
}

fn append_node(graph: &Graph, n: NodeNo, text: &mut Bytes) -> Result<(), Memory>
    requires { n.0 < length graph.now.rows.items }
{
    text.append(kind_name(graph.kind(n)).as_bytes())?;
    text.append_number(u64::from(graph.line(n).0))?;
    text.append(b" >")?;
    append_edges(graph.succs(n), text)?;
    text.append(b" <")?;
    append_edges(graph.preds(n), text)?;
    text.append(b" :")?;
    append_edges(graph.children(n), text)?;
    text.append(b"\n")
}

fn graph_text(alloc: Global, program: &Program) -> Result<Bytes, Memory>
    requires { size_among (program_of program.now).body ≤ 4096 }
{
    let graph = build(alloc, program)?;
    let mut text = Bytes::new(alloc);
    for n in 0..graph.count() {
        append_node(&graph, NodeNo(n), &mut text)?;
    }
    Ok(text)
}

// The table in which no node takes an item.
fn nothing(alloc: Global, nodes: u16, items: u16) -> Result<SetTable, Memory>
    ensures { IfOk result (λ t. IsTable (record { nodes = nodes; items = items }) t) }
{
    let table = SetTable::new(alloc, nodes, items)?;
    Ok(table)
}

// What is said of the places of a listing where nothing is taken.
fn verdict_text(
    alloc: Global,
    program: &Program,
    items: &Items,
    listing: &[u8],
) -> Result<Bytes, Memory>
    requires statements { size_among (program_of program.now).body ≤ 4096 }
    requires items { AreItems (program_of program.now) items.now }
    requires short { length listing.now ≤ 1048576 }
{
    let graph = build(alloc, program)?;
    let placement = match read_listing(alloc, listing, program, items, &graph) {
        Ok(placement) => placement,
        Err(_) => return Err(Memory),
    };
    let none = nothing(alloc, graph.count(), items.items.len() as u16)?;
    match judge(alloc, &graph, &none, &none, &placement)? {
        Verdict::Good => Ok(Bytes::new(alloc)),
        Verdict::Bad {
            condition,
            item,
            path,
        } => broken_line(alloc, condition, item, path.as_slice()),
    }
}

// What a call answers on a deck.
fn answered(rt: &impl Abort, alloc: Global, call: &str, deck: &str) -> Result<Bytes, Memory> {
    assert!(rt; deck.len() <= ROOM);
    let Accepted { program, items } = accepted(alloc, deck.as_bytes())?;
    match call {
        "sites" => sites_text(alloc, &items),
        "graph" => graph_text(alloc, &program),
        _ => {
            let (_, listing) = parted(rt, deck, "\nEND\n");
            assert!(rt; listing.len() <= ROOM);
            verdict_text(alloc, &program, &items, listing.as_bytes())
        }
    }
}

fn answer_row(rt: &impl Abort, alloc: Global, row: &str) -> Result<(), Fail> {
    let (first, rest) = parted(rt, row, "\n");
    let (call, _) = parted(rt, first, ":");
    let (deck, told) = parted(rt, rest, "<<< ");
    let text = answered(rt, alloc, call, deck)?;
    assert_eq!(rt; text.as_slice(), told.as_bytes(), "{row}");
    Ok(())
}

#[test]
fn calls_answer_what_is_worked_by_hand(rt: HostRuntime) -> Result<(), Fail> {
    for row in TABLE.split(">>> ") {
        if !row.is_empty() {
            answer_row(&rt, rt.alloc(), row)?;
        }
    }
    Ok(())
}
