//! Places in the ring.

ghost use Rattle.std.specs.Prelude.{◌≡◌, ◌+◌, ◌^◌, ◌<◌, ◌≤◌};
ghost use Rattle.zj_area.specs.Ring.{IsPlace, next_place};

use zj_block::{Sizes, Tail};

/// Where the record goes that follows one with this end: there, or to the start where a longest record
/// doesn't fit.
#[tactic(auto, unfolding(crate::specs::Ring::next_place))]
pub fn next_place(sizes: &Sizes, end: u64) -> u64
    requires { end ≤ sizes.now.area }
    ensures next { result ≡ next_place sizes.now end }
    ensures place { IsPlace sizes.now result }
{
    if end + sizes.max_record() <= sizes.area() {
        end
    } else {
        0
    }
}

/// Where the record is due that follows one of so many bytes.
pub fn behind(sizes: &Sizes, due: Tail, len: u64) -> Tail
    requires within { due.place + len ≤ sizes.now.area }
    requires number { due.number + 1 < 2 ^ 64 }
    ensures due { result ≡ record { place = next_place sizes.now (due.place + len); number = due.number + 1 } }
    ensures place { IsPlace sizes.now result.place }
{
    let _area = sizes.area();
    Tail {
        place: next_place(sizes, due.place + len),
        number: due.number + 1,
    }
}
