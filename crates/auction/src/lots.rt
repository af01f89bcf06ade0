// A lot of an auction. The struct stands alone here.
ghost use Rattle.std.specs.Prelude.{◌≡◌, length};

use lot::bids::Bids;
use lot::pri::Pri;

pub mod bidding;
pub mod earning;

// A lot's terms, a flag for each member number that says whether a call excused it, and the bids in entry order.
#[derive(Clone, Copy)]
pub struct Lot {
    weight: u16,
    requirement: u16,
    pri: Pri,
    excused: [bool; 32],
    bids: Bids,
    ghost flags: { length excused ≡ 32 },
}
