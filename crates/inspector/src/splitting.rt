// Needs, split by the ranks that own them.
ghost use Rattle.std.specs.Prelude.{◌≡◌, All, IfOk, filter, map};
ghost use Rattle.std.specs.List.{range_with_len};
ghost use Rattle.fd_base.specs.Places.{is_owner};
ghost use Rattle.owner_part.specs.Placed.{HasElement, place_of};

use crate::found::ElemList;
use fd_base::{ListOf, Memory, RankNo};
use owner_part::Place;
use std::alloc::Global;

/// The needs that each rank owns, by the rank's number.
pub type Schedule = ListOf<ElemList>;

/// Those needs that a rank owns, in order. They are elements of the place, which is split over the ranks.
pub fn requests(
    alloc: Global,
    needs: &ElemList,
    place: &Place,
    peer: RankNo,
) -> Result<ElemList, Memory>
    requires { All (HasElement (place_of place.now)) needs.now }
    ensures { IfOk result (λ es. es ≡ filter (λ e. is_owner (place_of place.now) e peer.0) needs.now) }
{
    let mut owned = Vec::new(alloc);
    for element in needs.as_slice() {
        if place.owns(*element, peer) {
            owned.push(*element)?;
        }
    }
    Ok(ElemList::from_vec(owned))
}

/// The needs that each of the ranks owns. They are elements of the place, which is split over the ranks.
pub fn schedule(
    alloc: Global,
    needs: &ElemList,
    place: &Place,
    ranks: u8,
) -> Result<Schedule, Memory>
    requires { All (HasElement (place_of place.now)) needs.now }
    ensures { IfOk result (λ rows. rows ≡ map (λ rank. filter (λ e. is_owner (place_of place.now) e rank) needs.now) (range_with_len 0 ranks)) }
{
    let mut rows = Vec::new(alloc);
    for rank in 0..ranks {
        rows.push(requests(alloc, needs, place, RankNo(rank))?)?;
    }
    Ok(Schedule::from_vec(rows))
}
