// Sets and tables of one size, seen item by item.
ghost use Rattle.std.specs.Prelude.{◌≡◌, ℕ, ◌<◌, true, false, not, ◌&&◌, ◌||◌, IfOk, set};
ghost use Rattle.gnt_solver.specs.Columns.{held, col, at, IsTable};

use fd_base::{Memory, NodeNo};
use fd_sets::{ItemSet, SetTable};
use std::alloc::Global;

/// How many nodes a table has sets for, and the greatest item of each.
#[derive(Clone, Copy)]
pub struct Size {
    pub nodes: u16,
    pub items: u16,
}

/// The empty set.
pub fn empty(alloc: Global, size: Size) -> Result<ItemSet, Memory>
    ensures size { IfOk result (λ s. s.size ≡ size.items) }
    ensures held { IfOk result (λ s. (x : ℕ) → held s x ≡ false) }
{
    let made = ItemSet::new(alloc, size.items)?;
    Ok(made)
}

/// Gives a set the members of another.
pub fn fill(s: &mut ItemSet, other: &ItemSet)
    requires { other.now.size ≡ s.old.size }
    ensures size { s.new.size ≡ s.old.size }
    ensures held { (x : ℕ) → held s.new x ≡ held other.now x }
{
    s.meet(other);
    s.unite(other);
}

/// Leaves no member, whichever the other set has: none is in it and not in it.
pub fn clear(s: &mut ItemSet, other: &ItemSet)
    requires { other.now.size ≡ s.old.size }
    ensures size { s.new.size ≡ s.old.size }
    ensures held { (x : ℕ) → held s.new x ≡ false }
{
    s.meet(other);
    s.drop_all(other);
}

/// Adds the members of another set.
pub fn unite(s: &mut ItemSet, other: &ItemSet)
    requires { other.now.size ≡ s.old.size }
    ensures size { s.new.size ≡ s.old.size }
    ensures held { (x : ℕ) → held s.new x ≡ (held s.old x || held other.now x) }
{
    s.unite(other);
}

/// Leaves the members that another set has too.
pub fn meet(s: &mut ItemSet, other: &ItemSet)
    requires { other.now.size ≡ s.old.size }
    ensures size { s.new.size ≡ s.old.size }
    ensures held { (x : ℕ) → held s.new x ≡ (held s.old x && held other.now x) }
{
    s.meet(other);
}

/// Leaves the members that another set hasn't.
pub fn lose(s: &mut ItemSet, other: &ItemSet)
    requires { other.now.size ≡ s.old.size }
    ensures size { s.new.size ≡ s.old.size }
    ensures held { (x : ℕ) → held s.new x ≡ (held s.old x && not (held other.now x)) }
{
    s.drop_all(other);
}

/// The table with the empty set at each node.
pub fn blank(alloc: Global, size: Size) -> Result<SetTable, Memory>
    ensures table { IfOk result (λ t. IsTable size t) }
    ensures none { IfOk result (λ t. (x n : ℕ) → at (col t x) n ≡ false) }
{
    let made = SetTable::new(alloc, size.nodes, size.items)?;
    Ok(made)
}

/// The set of a node.
pub fn entry(table: &SetTable, n: u16, size: Size) -> &ItemSet
    requires table { IsTable size table.now }
    requires inside { n < size.nodes }
    ensures size { result.now.size ≡ size.items }
    ensures held { (x : ℕ) → held result.now x ≡ at (col table.now x) n }
{
    table.set(NodeNo(n))
}

/// Gives the set of a node the members of another set.
pub fn put(table: &mut SetTable, n: u16, given: &ItemSet, size: Size)
    requires table { IsTable size table.old }
    requires inside { n < size.nodes }
    requires sized { given.now.size ≡ size.items }
    ensures table { IsTable size table.new }
    ensures column { (x : ℕ) → col table.new x ≡ set (col table.old x) n (held given.now x) }
{
    fill(table.set_mut(NodeNo(n)), given);
}

/// Adds the members of another set to the set of a node.
pub fn unite_at(table: &mut SetTable, n: u16, other: &ItemSet, size: Size)
    requires table { IsTable size table.old }
    requires inside { n < size.nodes }
    requires sized { other.now.size ≡ size.items }
    ensures table { IsTable size table.new }
    ensures column { (x : ℕ) → col table.new x ≡ set (col table.old x) n (at (col table.old x) n || held other.now x) }
{
    unite(table.set_mut(NodeNo(n)), other);
}

/// Leaves the members of the set of a node that another set has too.
pub fn meet_at(table: &mut SetTable, n: u16, other: &ItemSet, size: Size)
    requires table { IsTable size table.old }
    requires inside { n < size.nodes }
    requires sized { other.now.size ≡ size.items }
    ensures table { IsTable size table.new }
    ensures column { (x : ℕ) → col table.new x ≡ set (col table.old x) n (at (col table.old x) n && held other.now x) }
{
    meet(table.set_mut(NodeNo(n)), other);
}
