// Where the elements of arrays and the positions of decompositions are.
ghost use Rattle.std.specs.Prelude.{◌≡◌, option_map};
ghost use Rattle.fd_base.specs.Places.{is_owner, owner_in, owners_in};
ghost use Rattle.owner_part.specs.Placed.{HasElement, is_same, place_of, place_told};

use decomp_map::Map;
use fd_base::{ListOf, RankNo};
use trans_table::Table;

/// Where the elements of an array are: all of them on every rank, split over the ranks by a formula or by a table, or not placed yet.
#[derive(Drop)]
pub enum Place {
    Whole,
    Regular(Map),
    Irregular(Table),
    Unset,
}

/// What has a place: an array, or the distributed dimension of a decomposition, which has an element for each position.
#[derive(Clone, Copy, PartialEq, Eq)]
pub enum Placed {
    Array(u16),
    Decomp(u16),
}

/// The places of arrays and decompositions. The first pair that names one counts.
pub type PlaceList = ListOf<(Placed, Place)>;

impl Place {
    /// The rank that owns an element of a place that is split over the ranks.
    pub fn owner_of(&self, element: u32) -> RankNo
        requires { HasElement (place_of self.now) element }
        ensures { result.0 ≡ owner_in (owners_in (place_of self.now)) element }
    {
        match self {
            Place::Whole => unreachable!(),
            Place::Regular(map) => map.owner_of(element),
            Place::Irregular(table) => table.owner_of(element),
            Place::Unset => unreachable!(),
        }
    }

    /// Whether a rank owns an element of a place that is split over the ranks.
    pub fn owns(&self, element: u32, rank: RankNo) -> bool
        requires { HasElement (place_of self.now) element }
        ensures { result ≡ is_owner (place_of self.now) element rank.0 }
    {
        self.owner_of(element).0 == rank.0
    }
}

/// Whether both are one array, or one decomposition.
fn is_named(name: Placed, wanted: Placed) -> bool
    ensures { result ≡ is_same name wanted }
{
    match name {
        Placed::Array(array) => match wanted {
            Placed::Array(other) => array == other,
            Placed::Decomp(_) => false,
        },
        Placed::Decomp(decomp) => match wanted {
            Placed::Array(_) => false,
            Placed::Decomp(other) => decomp == other,
        },
    }
}

/// The place of an array or a decomposition; None exactly where no pair of the list names it.
pub fn place_named(places: &PlaceList, name: Placed) -> Option<&Place>
    ensures { option_map (λ place. place_of place.now) result ≡ place_told places.now name }
{
    for (other, place) in places.as_slice() {
        if is_named(*other, name) {
            return Some(place);
        }
    }
    None
}
