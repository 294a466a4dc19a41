// Tables of what nodes take or steal.
ghost use Rattle.std.specs.Prelude.{◌≡◌, ℕ, ◌<◌, ◌≤◌, ◌^◌, ◌==◌, [], All, IfOk, get_or, length};
ghost use Rattle.std.specs.List.{list_any};
ghost use Rattle.std.specs.FinSet as set;
ghost use Rattle.fd_base.specs.declared.numbering.ItemNo.{ItemNo as Numbered};
ghost use Rattle.section_num.specs.Tables.{IsTable};

use fd_base::{ItemNo, ListOf, Memory, NodeNo};
use fd_sets::{ItemSet, SetTable};
use std::alloc::Global;

/// The set of these items, with room for so many.
fn set_of(alloc: Global, numbers: &[ItemNo], items: u16) -> Result<ItemSet, Memory>
    requires { All (λ (n : Numbered). n.0 ≤ items) numbers.now }
    ensures size { IfOk result (λ s. s.size ≡ items) }
    ensures members { IfOk result (λ s. (x : ℕ) → set.contains s.members x ≡ list_any (λ (n : Numbered). n.0 == x) numbers.now) }
{
    let mut members = ItemSet::new(alloc, items)?;
    for number in numbers {
        members.insert(*number);
    }
    Ok(members)
}

/// The table with these items at the nodes, in order of the nodes.
pub fn table_of(alloc: Global, rows: &[ListOf<ItemNo>], items: u16) -> Result<SetTable, Memory>
    requires few { length rows.now < 2 ^ 16 }
    requires inside { All (All (λ (n : Numbered). n.0 ≤ items)) rows.now }
    ensures { IfOk result (λ t. IsTable (length rows.now) items (λ n x. list_any (λ (k : Numbered). k.0 == x) (get_or rows.now n [])) t) }
{
    let mut table = SetTable::new(alloc, rows.len() as u16, items)?;
    for (n, row) in rows.iter().enumerate() {
        let set = set_of(alloc, row.as_slice(), items)?;
        table.put(NodeNo(n as u16), set);
    }
    Ok(table)
}
