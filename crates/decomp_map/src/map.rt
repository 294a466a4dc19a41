// The map of a regularly distributed array.
ghost use Rattle.std.specs.Prelude.{◌≡◌, ℕ, ◌+◌, ◌*◌, ◌/◌, ◌%◌, ◌^◌, ◌<◌, ◌≤◌, ℤ, pos, ◌+ℤ◌, ◌≤ℤ◌, ◌<ℤ◌, All, length};
ghost use Rattle.fd_base.specs.Places.{IsAligned, IsRegular, count_in, local_in, owner_in, owner_of_position, regular_owners};
ghost use Rattle.fd_base.specs.Shapes.{IsShape, size_of};
ghost use Rattle.decomp_map.specs.Counting.{count_below};
ghost use Rattle.decomp_map.specs.Positions.{is_owned, owner_at};

use crate::positions::Positions;
use fd_base::{Along, Dist, RankNo, Shape};
use std::marker::Model;

/// Who owns the elements of an array, in column-major order. Contracts see it as the list of the owners.
#[derive(Drop)]
pub struct Map {
    /// The elements that lie side by side at one position.
    inner: u32,
    /// The positions in a row.
    width: u32,
    /// How often the positions come again.
    outer: u32,
    positions: Positions,
}

impl Model for Map {
    ghost use Rattle.std.specs.Prelude.{List, ℕ};

    ghost Value = { List ℕ };

    ghost use Rattle.decomp_map.specs.Positions.{IsLaid, owners_laid};

    ghost view = { λ m. owners_laid m.inner m.width m.outer m.positions };

    ghost invariant = { λ m. IsLaid m.inner m.width m.outer m.positions };
}

/// The place of an element: `index` along the row of positions, `rest` among the elements side by side there, in the row
/// of number `turn`.
#[derive(Clone, Copy)]
struct Spot {
    turn: u32,
    index: u32,
    rest: u32,
}

/// The place of an element where rows have `width` positions with `inner` elements each.
fn spot_of(element: u32, inner: u32, width: u32) -> Spot
    requires inner { 0 < inner }
    requires width { 0 < width }
    ensures whole { (result.turn * width + result.index) * inner + result.rest ≡ element }
    ensures index { result.index < width }
    ensures rest { result.rest < inner }
{
    let position = element / inner;
    Spot {
        turn: position / width,
        index: position % width,
        rest: element % inner,
    }
}

/// The place of the element of a rank with a local number. The rank has one at least in a row.
fn spot_at(positions: &Positions, inner: u32, width: u32, rank: u8, local: u32) -> Spot
    requires rank { rank < positions.now.ranks }
    requires small { positions.now.start + width < 2 ^ 32 }
    requires inner { 0 < inner }
    requires per_row { 0 < count_below (is_owned positions.now rank) width }
    ensures owner { owner_at positions.now result.index ≡ rank }
    ensures local { (result.turn * count_below (is_owned positions.now rank) width
        + count_below (is_owned positions.now rank) result.index) * inner + result.rest ≡ local }
    ensures index { result.index < width }
    ensures rest { result.rest < inner }
    ensures in_row { count_below (is_owned positions.now rank) result.index
        < count_below (is_owned positions.now rank) width }
{
    let per_row = positions.owned(rank, width);
    let number = local / inner;
    Spot {
        turn: number / per_row,
        index: positions.nth(rank, number % per_row) as u32,
        rest: local % inner,
    }
}

/// The size of the blocks that an attribute deals, at least 1. A dimension in one block a rank is one with blocks dealt in turn.
fn block_of(extent: u32, dist: Dist, ranks: u8) -> u32
    requires dist { IsRegular dist }
    requires ranks { 0 < ranks }
    ensures positive { 0 < result }
    ensures owners { (position : ℕ) → position < extent
        → owner_of_position dist extent ranks position ≡ (position / result) % ranks }
{
    match dist {
        Dist::Block => extent.div_ceil(u32::from(ranks)).max(1),
        Dist::Cyclic => 1,
        Dist::BlockCyclic(size) => size,
        Dist::Irregular | Dist::Later => unreachable!(),
    }
}

/// The position of the least subscript of a dimension.
fn start_of(low: i64, shift: i64) -> u32
    requires low { pos 0 ≤ℤ (low +ℤ shift) }
    requires high { (low +ℤ shift) <ℤ pos (2 ^ 32) }
    ensures { pos result ≡ low +ℤ shift }
{
    (low + shift) as u32
}

impl Map {
    /// The map of an array of this shape, placed so in a dimension of this extent that is dealt to the ranks.
    pub fn regular(shape: Shape, along: Along, extent: u32, dist: Dist, ranks: u8) -> Map
        requires shape { IsShape shape }
        requires aligned { IsAligned shape along extent }
        requires dist { IsRegular dist }
        requires ranks { (1 ≤ ranks) × (ranks ≤ 16) }
        ensures owners { result ≡ regular_owners shape along extent dist ranks }
        ensures ranks { All (λ owner. owner < ranks) result }
        ensures size { length result ≡ size_of shape }
    {
        let block = block_of(extent, dist, ranks);
        let [rows, columns] = shape.extent;
        let [row_low, column_low] = shape.low;
        match along {
            Along::Fixed(start) => Map {
                inner: rows * columns,
                width: 1,
                outer: 1,
                positions: Positions {
                    start,
                    block,
                    ranks,
                },
            },
            Along::Dim { dim: 0, shift } => Map {
                inner: 1,
                width: rows,
                outer: columns,
                positions: Positions {
                    start: start_of(row_low, shift),
                    block,
                    ranks,
                },
            },
            Along::Dim { shift, .. } => Map {
                inner: rows,
                width: columns,
                outer: 1,
                positions: Positions {
                    start: start_of(column_low, shift),
                    block,
                    ranks,
                },
            },
        }
    }

    /// The rank that owns an element.
    pub fn owner_of(&self, element: u32) -> RankNo
        requires { element < length self.now }
        ensures { result.0 ≡ owner_in self.now element }
    {
        let spot = spot_of(element, self.inner, self.width);
        RankNo(self.positions.owner(spot.index))
    }

    /// The number of an element among those of its owner, from 0.
    pub fn local_of(&self, element: u32) -> u32
        requires { element < length self.now }
        ensures value { result ≡ local_in self.now element }
        ensures below { result < count_in self.now (owner_in self.now element) }
    {
        let spot = spot_of(element, self.inner, self.width);
        let rank = self.positions.owner(spot.index);
        let per_row = u64::from(self.positions.owned(rank, self.width));
        let in_row = u64::from(self.positions.owned(rank, spot.index));
        let before = u64::from(spot.turn) * per_row + in_row;
        (before * u64::from(self.inner) + u64::from(spot.rest)) as u32
    }

    /// How many elements a rank owns.
    pub fn count_of(&self, rank: RankNo) -> u32
        ensures { result ≡ count_in self.now rank.0 }
    {
        if rank.0 >= self.positions.ranks {
            return 0;
        }
        let per_row = u64::from(self.positions.owned(rank.0, self.width));
        (u64::from(self.outer) * per_row * u64::from(self.inner)) as u32
    }

    /// The element of a rank with a local number.
    pub fn element_at(&self, rank: RankNo, local: u32) -> u32
        requires { local < count_in self.now rank.0 }
        ensures inside { result < length self.now }
        ensures owner { owner_in self.now result ≡ rank.0 }
        ensures local { local_in self.now result ≡ local }
        ensures only { (other : ℕ) → other < length self.now → owner_in self.now other ≡ rank.0
            → local_in self.now other ≡ local → other ≡ result }
    {
        let spot = spot_at(&self.positions, self.inner, self.width, rank.0, local);
        (spot.turn * self.width + spot.index) * self.inner + spot.rest
    }
}
