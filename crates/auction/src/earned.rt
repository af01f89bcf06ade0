// What a member must bid for in a lot, and what its bids there amount to.
ghost use Rattle.auction.specs.Earning.{says_nothing, some_silent};
ghost use Rattle.std.specs.Prelude.{◌≡◌};

use lot::bid::Price;
use share::units::Parts;

// A member's requirement in a lot, and its BP there if something counts.
#[derive(Clone, Copy, Default)]
pub struct Earned {
    pub requirement: Parts,
    pub bp: Option<Price>,
}

impl Earned {
    // Whether nothing counts although something is required: such a member is Non-bidding.
    pub(crate) fn is_silent(&self) -> bool
        ensures { result ≡ says_nothing self.now }
    {
        self.bp.is_none() && self.requirement.0 != 0
    }
}

// Whether a member is Non-bidding, by what it earned in each lot.
pub(crate) fn is_silent(earned: &[Earned]) -> bool
    ensures { result ≡ some_silent earned.now }
{
    earned.iter().any(|e| e.is_silent())
}
