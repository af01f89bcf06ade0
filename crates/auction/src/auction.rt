// The lots of an auction. The struct stands alone here.
ghost use Rattle.std.specs.Prelude.{◌≡◌, ◌≤◌, map, length, take};
ghost use Rattle.auction.specs.Lots.{listing_of};
ghost use Rattle.auction.specs.Weights.{lot_weights};
ghost use Rattle.share.specs.Rule.{total};

use crate::lots::Lot;

pub mod bidding;
pub(crate) mod cleared;
pub mod filling;
pub mod opening;
pub mod questions;

// Up to four lots, numbered from 1 in the order in which they were opened. Between auctions there is none, so their weights add up to 10,000 or to nothing.
// An array with a count, and no ArrayVec: a copy of an auction is an ordinary value, and a copy of an ArrayVec is one that may fail.
#[derive(Clone, Copy)]
pub struct Auction {
    lots: [Lot; 4],
    count: usize,
    ghost rooms: { length lots ≡ 4 },
    ghost few: { count ≤ 4 },
    ghost shared: { total (lot_weights (map listing_of (take count lots))) ≤ 10000 },
}
