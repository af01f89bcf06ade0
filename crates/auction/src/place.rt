// What stands at a member number.
ghost use Rattle.std.specs.Prelude.{◌≡◌, ◌-◌};
ghost use Rattle.auction.specs.Roster.{fund_in};

use crate::member::Member;
use share::rule::Weighted;

// The index of what is numbered from 1; of 0 that of 1, which who numbers refuses first.
pub(crate) fn index(number: u16) -> usize
    ensures { result ≡ number - 1 }
{
    usize::from(number).saturating_sub(1)
}

// A member, or nobody. Places share by the funds of the members there; one where nobody is weighs nothing.
#[derive(Clone, Copy)]
pub struct Place(pub Option<Member>);

impl Weighted for Place {
    ghost heft = { fund_in };

    fn weight(&self) -> u64 {
        self.0.map_or(0, |member| member.fund.0)
    }
}
