// The ranks that execute at a home.
ghost use Rattle.std.specs.Prelude.{◌≡◌, ℕ, ◌<◌, ◌≤◌, ◌==◌, ◌&&◌, nat_lt, nat_eq};
ghost use Rattle.owner_part.specs.Executing.{HasHome, executes, has_rank};
ghost use Rattle.owner_part.specs.Placed.{place_of};

use crate::place::Place;
use fd_base::RankNo;

/// Who executes, with the element in place of a form: every rank, rank 0, or the owner of the element.
#[derive(Clone, Copy, PartialEq, Eq)]
pub enum HomeAt {
    All,
    Root,
    Element(u32),
}

/// A set of ranks below 16, one bit for each.
#[derive(Clone, Copy, PartialEq, Eq)]
pub struct RankSet(pub u16);

impl RankSet {
    pub fn has(self, rank: RankNo) -> bool
        ensures { result ≡ has_rank self rank.0 }
    {
        rank.0 < 16 && self.0 >> rank.0 & 1 == 1
    }
}

/// The ranks below a bound.
fn ranks_below(ranks: u8) -> RankSet
    requires { ranks ≤ 16 }
    ensures { (rank : ℕ) → has_rank result rank ≡ nat_lt rank ranks }
{
    RankSet(((1_u32 << ranks) - 1) as u16)
}

/// One rank alone.
fn only(rank: u8) -> RankSet
    requires { rank < 16 }
    ensures { (other : ℕ) → has_rank result other ≡ nat_eq rank other }
{
    RankSet(1 << rank)
}

/// The owner of an element of a place that is split.
fn owner_at(place: &Place, element: u32, ranks: u8) -> u8
    requires { HasHome (place_of place.now) (HomeAt.Element element) ranks }
    ensures owner { (rank : ℕ) → executes (place_of place.now) (HomeAt.Element element) rank ≡ nat_eq result rank }
    ensures below { result < ranks }
{
    match place {
        Place::Whole => unreachable!(),
        Place::Regular(map) => map.owner_of(element).0,
        Place::Irregular(table) => table.owner_of(element).0,
        Place::Unset => unreachable!(),
    }
}

/// The ranks below `ranks` that execute at a home.
pub fn ranks_of(place: &Place, home: HomeAt, ranks: u8) -> RankSet
    requires ranks { (1 ≤ ranks) × (ranks ≤ 16) }
    requires home { HasHome (place_of place.now) home ranks }
    ensures { (rank : ℕ) → has_rank result rank ≡ (nat_lt rank ranks && executes (place_of place.now) home rank) }
{
    match home {
        HomeAt::All => ranks_below(ranks),
        HomeAt::Root => only(0),
        HomeAt::Element(element) => only(owner_at(place, element, ranks)),
    }
}
