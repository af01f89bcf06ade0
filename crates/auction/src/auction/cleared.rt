// An auction with its members and the price of each lot. The struct stands alone here.
ghost use Rattle.std.specs.Prelude.{◌≡◌, map};
ghost use Rattle.auction.specs.Auctions.{listings_of};
ghost use Rattle.auction.specs.Lots.{price_in};

use super::Auction;
use crate::roster::Roster;
use arrayvec::ArrayVec;
use lot::bid::Price;

pub mod weights;

// The price of each lot is worked out once, for all members; there is none where the lot fails.
#[derive(Drop)]
pub(crate) struct Cleared<'a> {
    auction: &'a Auction,
    members: &'a Roster,
    prices: ArrayVec<Option<Price>, 4>,
    ghost priced: { prices.items ≡ map price_in (listings_of auction.now) },
}
