// Opening an auction, and its lots by number.
ghost use Rattle.std.specs.Prelude.{◌≡◌, ◌+◌, ◌≤◌, [], map, length};
ghost use Rattle.auction.specs.Auctions.{listings_of, as_listings, listed};
ghost use Rattle.auction.specs.Lots.{listing_of, opened, lot_at};
ghost use Rattle.auction.specs.Offers.{terms_of, bad_offer};
ghost use Rattle.share.specs.Rule.{total};
ghost use Rattle.share.specs.Refusals.{numbered, unless, if_so};
ghost use Rattle.share.specs.declared.refusal.Refusal.TheVariants.{LotTerms};

use super::Auction;
use crate::lots::Lot;
use crate::offer::Offer;
use crate::place::index;
use crate::terms::Terms;
use share::refusal::Refusal;

pub const MOST_LOTS: u16 = 4;

pub const ALL_WEIGHTS: u32 = 10_000;

// The weights of lots, added up.
fn weights(terms: &[Terms]) -> u32
    requires { length terms.now ≤ 4 }
    ensures { result ≡ total (map (λ t. t.weight) terms.now) }
{
    terms.iter().map(|lot| u32::from(lot.weight)).sum()
}

impl Auction {
    // No auction: there are no lots.
    pub fn none() -> Auction
        ensures { listings_of result ≡ [] }
    {
        Auction {
            lots: [Lot::blank(); 4],
            count: 0,
        }
    }

    // An auction of the lots of an offer, with nobody excused and without bids.
    pub fn open(offer: &Offer) -> Result<Auction, Refusal>
        ensures { as_listings (numbered result) ≡ unless (if_so (bad_offer offer.now) LotTerms) (map opened (terms_of offer.now)) }
    {
        if !(1..=MOST_LOTS).contains(&offer.count) {
            return Err(Refusal::LotTerms);
        }
        let count = usize::from(offer.count);
        let terms = &offer.terms[..count];
        let mut lots = [Lot::blank(); 4];
        // By place: with `iter_mut` and `zip` the auction's ghost fields were not proved, and with `enumerate` the terms would be indexed in its stead.
        for (i, lot) in terms.iter().enumerate() {
            lots[i] = Lot::new(*lot)?;
        }
        if weights(terms) != ALL_WEIGHTS {
            return Err(Refusal::LotTerms);
        }
        Ok(Auction { lots, count })
    }

    // The lots in lot order.
    pub(crate) fn lots(&self) -> &[Lot]
        ensures { map listing_of result.now ≡ listings_of self.now }
    {
        &self.lots[..self.count]
    }

    // How many lots there are.
    pub fn count(&self) -> u16
        ensures { result ≡ length (listings_of self.now) }
    {
        self.count as u16
    }

    // The lot of a number.
    pub(crate) fn lot(&self, lot: u16) -> Option<&Lot>
        ensures { listed result ≡ lot_at (listings_of self.now) lot }
    {
        self.lots().get(index(lot))
    }
}
