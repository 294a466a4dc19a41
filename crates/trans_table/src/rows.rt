// The calls that take memory, at a worked row: owners, local numbers and counts.
ghost use Rattle.std.specs.Prelude.{◌≡◌, ◌^◌, ◌<◌, ◌≤◌, length};

use crate::Table;
use fd_base::{Memory, RankNo};
use std::alloc::Global;
use std::process::Abort;
use std::test::Fail;

/// An element has this owner, comes back by its local number, and has that number.
fn stands(rt: &impl Abort, table: &Table, element: u32, place: (u8, u32))
    requires { element < length table.now }
{
    let (owner, local) = (table.owner_of(element), table.local_of(element));
    let back = table.element_at(owner, local);
    assert!(rt;
        owner.0 == place.0 && local == place.1 && back == element,
        "{element}"
    );
}

fn compare(rt: &impl Abort, table: &Table, row: &[(u8, u32)])
    requires len { length row.now ≡ length table.now }
    requires small { length row.now < 2 ^ 32 }
{
    for (element, place) in row.iter().enumerate() {
        stands(rt, table, element as u32, *place);
    }
}

fn count(rt: &impl Abort, table: &Table, row: [u32; 16]) {
    for rank in 0..16_u8 {
        assert_eq!(rt; table.count_of(RankNo(rank)), row[usize::from(rank)]);
    }
}

fn compare_rows(rt: &impl Abort, alloc: Global) -> Result<(), Memory> {
    let three = Table::build(alloc, &[3, -1, 4, 0, 7], 3)?;
    compare(rt, &three, &[(0, 0), (2, 0), (1, 0), (0, 1), (1, 1)]);
    count(rt, &three, [2, 2, 1, 0, 0, 0, 0, 0, 0, 0, 0, 0, 0, 0, 0, 0]);
    let all = Table::build(alloc, &[i64::MIN, i64::MAX, -16, 17], 16)?;
    compare(rt, &all, &[(0, 0), (15, 0), (0, 1), (1, 0)]);
    count(rt, &all, [2, 1, 0, 0, 0, 0, 0, 0, 0, 0, 0, 0, 0, 0, 0, 1]);
    Ok(())
}

#[test]
fn tables_are_as_worked_by_hand(rt: HostRuntime) -> Result<(), Fail> {
    compare_rows(&rt, rt.alloc())?;
    Ok(())
}
