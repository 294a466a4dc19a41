// The calls that take memory, and sets whose items end at or beside the end of a word.
ghost use Rattle.std.specs.Prelude.{◌≡◌};

use crate::{ItemSet, SetTable};
use fd_base::{ItemNo, Memory, NodeNo};
use std::alloc::Global;
use std::process::Abort;
use std::test::Fail;

/// Stands for no item.
const NONE: u16 = 9999;

/// The greatest item, one of the first set, one of both, one of the second, the item to look from, and the least of both from there on.
const ROWS: [[u16; 6]; 13] = [
    [8, 2, 5, 7, 0, 5],
    [8, 2, 5, 7, 6, NONE],
    [1, 0, 1, 1, 0, 1],
    [63, 62, 63, 0, 1, 63],
    [64, 63, 64, 0, 0, 64],
    [64, 64, 63, 0, 64, NONE],
    [65, 64, 65, 63, 64, 65],
    [511, 448, 511, 447, 64, 511],
    [511, 510, 0, 511, 1, NONE],
    [512, 511, 512, 448, 65, 512],
    [512, 512, 64, 128, 64, 64],
    [575, 512, 575, 511, 513, 575],
    [576, 575, 576, 1, 64, 576],
];

fn same(rt: &impl Abort, found: u16, wanted: u16) {
    assert_eq!(rt; found, wanted);
}

/// Adds an item that the set has room for.
fn put(set: &mut ItemSet, item: u16)
    ensures { set.new.size ≡ set.old.size }
{
    if item <= set.size() {
        set.insert(ItemNo(item));
    }
}

/// The least item of both sets, the second of which is a table's. The table's other sets stay empty.
fn least_of_both(alloc: Global, row: [u16; 6]) -> Result<u16, Memory> {
    let [size, first, both, second, from, _] = row;
    let mut some = ItemSet::new(alloc, size)?;
    put(&mut some, first);
    put(&mut some, both);
    let mut table = SetTable::new(alloc, 3, size)?;
    let other = table.set_mut(NodeNo(1));
    put(other, second);
    put(other, both);
    some.meet(table.set(NodeNo(1)));
    some.unite(table.set(NodeNo(2)));
    some.drop_all(table.set(NodeNo(0)));
    match some.next_from(ItemNo(from)) {
        Some(next) if some.has(next) => Ok(next.0),
        _ => Ok(NONE),
    }
}

#[test]
fn sets_of_a_table_meet(rt: HostRuntime) -> Result<(), Fail> {
    for row in &ROWS {
        same(&rt, least_of_both(rt.alloc(), *row)?, row[5]);
    }
    Ok(())
}
