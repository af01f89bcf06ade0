// The bids of a lot. The struct stands alone here: what it does is in the modules below it.
ghost use Rattle.std.specs.Prelude.{◌≡◌, ◌≤◌, true, [], length, take};
ghost use Rattle.lot.specs.Entering.{taken_after};

use crate::bid::Bid;

pub mod allocation;
pub mod average;
pub mod entering;
pub mod price;
mod rung;

// The bids of a lot in entry order: each was taken by the lot as the ones before it left it.
// An array with a count, and no ArrayVec: a copy of a lot's bids is an ordinary value, and an ArrayVec's can fail.
#[derive(Clone, Copy)]
pub struct Bids {
    entries: [Bid; 64],
    count: usize,
    ghost few: { count ≤ 64 },
    ghost long: { length entries ≡ 64 },
    ghost taken: { taken_after [] (take count entries) ≡ true },
}
