// The shortest walk that breaks a condition.
ghost use Rattle.std.specs.Prelude.{◌≡◌, ◌<◌, ◌∷◌, [], IfOk, length};
ghost use Rattle.interval_graph.specs.Rows.{AreRows, flow_of};
ghost use Rattle.place_check.specs.Columns.{machine_of};
ghost use Rattle.place_check.specs.Trails.{IsSearch, IsExpanded, IsSearched, IsBegun};

use crate::column::Column;
use crate::edges::edges_of;
use crate::reached::Search;
use crate::verdict::NodeList;
use fd_base::{ListOf, Memory, NodeNo};
use interval_graph::Graph;
use std::alloc::Global;

/// Follows the edges from what is at a place; the node that one of them leads to where that breaks the condition.
fn expand(
    graph: &Graph,
    column: &Column,
    search: &mut Search,
    at: usize,
) -> Result<Option<u16>, Memory>
    requires rows { AreRows graph.now.rows.items }
    requires count { length column.now.nodes.items ≡ length graph.now.rows.items }
    requires inside { at < length search.old.reached.items }
    requires search { IsSearch (flow_of graph.now.rows.items) (machine_of column.now) (length graph.now.rows.items) search.old at }
    ensures { IfOk result (λ broken. IsExpanded (flow_of graph.now.rows.items) (machine_of column.now) (length graph.now.rows.items) search.old search.new at broken) }
{
    let edges = edges_of(graph, search.reached[at].node);
    let broken = search.follow(column, at, edges.first)?;
    if broken.is_some() {
        return Ok(broken);
    }
    search.follow(column, at, edges.second)
}

/// A search that has reached Start with a mark.
fn begun(alloc: Global, count: u16, mark: bool) -> Result<Search, Memory>
    requires { 0 < count }
    ensures { IfOk result (λ search. IsBegun count mark search) }
{
    let mut search = Search {
        reached: Vec::new(alloc),
        seen: vec![in alloc; false; 2 * usize::from(count)]?,
    };
    search.note(0, mark, 0)?;
    Ok(search)
}

/// The path that is Start alone.
fn start_alone(alloc: Global) -> Result<NodeList, Memory>
    ensures { IfOk result (λ nodes. nodes ≡ record { 0 = 0 } ∷ []) }
{
    let mut nodes = Vec::new(alloc);
    nodes.push(NodeNo(0))?;
    Ok(ListOf::from_vec(nodes))
}

/// The first walk that breaks the condition, from what is reached at Start on.
fn search_on(
    alloc: Global,
    graph: &Graph,
    column: &Column,
    search: Search,
) -> Result<Option<NodeList>, Memory>
    requires rows { AreRows graph.now.rows.items }
    requires count { length column.now.nodes.items ≡ length graph.now.rows.items }
    requires search { IsSearch (flow_of graph.now.rows.items) (machine_of column.now) (length graph.now.rows.items) search 0 }
    ensures { IfOk result (λ found. IsSearched (flow_of graph.now.rows.items) (machine_of column.now) found) }
{
    let mut search = search;
    let mut next = 0;
    while next < search.reached.len() {
        if let Some(last) = expand(graph, column, &mut search, next)? {
            let path = search.path(alloc, next, last)?;
            return Ok(Some(path));
        }
        next += 1;
    }
    Ok(None)
}

/// The path with the fewest nodes on which the item breaks the condition, and of these the least list of nodes.
pub fn first_walk(alloc: Global, graph: &Graph, column: &Column) -> Result<Option<NodeList>, Memory>
    requires rows { AreRows graph.now.rows.items }
    requires count { length column.now.nodes.items ≡ length graph.now.rows.items }
    ensures { IfOk result (λ found. IsSearched (flow_of graph.now.rows.items) (machine_of column.now) found) }
{
    match column.arrive(0, false) {
        None => {
            let path = start_alone(alloc)?;
            Ok(Some(path))
        }
        Some(mark) => {
            let search = begun(alloc, graph.count(), mark)?;
            search_on(alloc, graph, column, search)
        }
    }
}
