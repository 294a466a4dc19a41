// What no owner table says: the element of each local number, and how many elements each rank has.
ghost use Rattle.std.specs.Prelude.{◌≡◌, ◌<◌, ◌≤◌, [], ◌∷◌, pos, length};
ghost use Rattle.fd_base.specs.Places.{IsRegular};

use crate::Map;
use fd_base::{Along, Dist, RankNo, Shape};
use std::process::Abort;

fn same(rt: &impl Abort, found: u32, wanted: u32) {
    assert_eq!(rt; found, wanted);
}

/// Each element comes back by its owner and its local number.
fn come_back(rt: &impl Abort, map: &Map, count: u32)
    requires { count ≤ length map.now }
{
    for element in 0..count {
        let found = map.element_at(map.owner_of(element), map.local_of(element));
        same(rt, found, element);
    }
}

/// How many elements each rank has.
fn count(rt: &impl Abort, map: &Map, row: [u32; 16]) {
    for rank in 0..16_u8 {
        same(rt, map.count_of(RankNo(rank)), row[usize::from(rank)]);
    }
}

fn line(extent: u32) -> Shape
    ensures { result ≡ record { dims = 1; low = pos 1 ∷ pos 0 ∷ []; extent = extent ∷ 1 ∷ [] } }
{
    Shape {
        dims: 1,
        low: [1, 0],
        extent: [extent, 1],
    }
}

fn grid() -> Shape
    ensures { result ≡ record { dims = 2; low = pos 1 ∷ pos 1 ∷ []; extent = 2 ∷ 4 ∷ [] } }
{
    Shape {
        dims: 2,
        low: [1, 1],
        extent: [2, 4],
    }
}

fn all_come_back(rt: &impl Abort) {
    let behind = Along::Dim { dim: 0, shift: 0 };
    come_back(rt, &Map::regular(line(4), behind, 5, Dist::Cyclic, 2), 4);
    come_back(
        rt,
        &Map::regular(line(7), behind, 8, Dist::BlockCyclic(3), 2),
        7,
    );
    let columns = Along::Dim { dim: 1, shift: -1 };
    come_back(rt, &Map::regular(grid(), columns, 4, Dist::Block, 2), 8);
}

/// Ten elements in a dimension of ten.
fn ten(dist: Dist, ranks: u8) -> Map
    requires dist { IsRegular dist }
    requires ranks { (1 ≤ ranks) × (ranks ≤ 16) }
{
    Map::regular(line(10), Along::Dim { dim: 0, shift: -1 }, 10, dist, ranks)
}

/// Ten elements over one, three, four and sixteen ranks.
fn count_ten(rt: &impl Abort, dist: Dist, rows: [[u32; 16]; 4])
    requires { IsRegular dist }
{
    let [one, three, four, sixteen] = rows;
    count(rt, &ten(dist, 1), one);
    count(rt, &ten(dist, 3), three);
    count(rt, &ten(dist, 4), four);
    count(rt, &ten(dist, 16), sixteen);
}

const BLOCK: [[u32; 16]; 4] = [
    [10, 0, 0, 0, 0, 0, 0, 0, 0, 0, 0, 0, 0, 0, 0, 0],
    [4, 4, 2, 0, 0, 0, 0, 0, 0, 0, 0, 0, 0, 0, 0, 0],
    [3, 3, 3, 1, 0, 0, 0, 0, 0, 0, 0, 0, 0, 0, 0, 0],
    [1, 1, 1, 1, 1, 1, 1, 1, 1, 1, 0, 0, 0, 0, 0, 0],
];

const CYCLIC: [[u32; 16]; 4] = [
    [10, 0, 0, 0, 0, 0, 0, 0, 0, 0, 0, 0, 0, 0, 0, 0],
    [4, 3, 3, 0, 0, 0, 0, 0, 0, 0, 0, 0, 0, 0, 0, 0],
    [3, 3, 2, 2, 0, 0, 0, 0, 0, 0, 0, 0, 0, 0, 0, 0],
    [1, 1, 1, 1, 1, 1, 1, 1, 1, 1, 0, 0, 0, 0, 0, 0],
];

const BLOCK_CYCLIC: [[u32; 16]; 4] = [
    [10, 0, 0, 0, 0, 0, 0, 0, 0, 0, 0, 0, 0, 0, 0, 0],
    [4, 4, 2, 0, 0, 0, 0, 0, 0, 0, 0, 0, 0, 0, 0, 0],
    [4, 2, 2, 2, 0, 0, 0, 0, 0, 0, 0, 0, 0, 0, 0, 0],
    [2, 2, 2, 2, 2, 0, 0, 0, 0, 0, 0, 0, 0, 0, 0, 0],
];

#[test]
fn elements_and_counts_are_as_worked_by_hand(rt: HostRuntime) {
    all_come_back(&rt);
    count_ten(&rt, Dist::Block, BLOCK);
    count_ten(&rt, Dist::Cyclic, CYCLIC);
    count_ten(&rt, Dist::BlockCyclic(2), BLOCK_CYCLIC);
}
