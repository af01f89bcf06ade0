// Lots as they are handed over.
ghost use Rattle.auction.specs.Offers.{most_lots, terms_of};
ghost use Rattle.std.specs.Prelude.{◌≡◌, min, length, take};

use super::Offer;
use crate::terms::Terms;

impl Offer {
    // The offer of these lots, of which the first four are held.
    pub fn of(lots: &[Terms]) -> Offer
        ensures count { result.count ≡ min (length lots.now) 65535 }
        ensures terms { terms_of result ≡ take most_lots lots.now }
    {
        let held = lots.len().min(4);
        let mut terms = [Terms::default(); 4];
        terms[..held].copy_from_slice(&lots[..held]);
        Offer {
            count: lots.len().min(65_535) as u16,
            terms,
        }
    }
}
