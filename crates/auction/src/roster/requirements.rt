// Members share by their funds.
ghost use Rattle.std.specs.Prelude.{◌≡◌, ◌-◌, ◌≤◌};
ghost use Rattle.auction.specs.Places.{places_of};
ghost use Rattle.auction.specs.Roster.{funds};
ghost use Rattle.share.specs.Rule.{share_of};

use super::Roster;
use crate::place::index;
use share::rule::share;
use share::units::Parts;

impl Roster {
    // What falls to a member of some parts that all members share by their funds.
    pub(crate) fn part(&self, parts: u16, member: u16) -> Parts
        ensures value { result.0 ≡ share_of parts (funds (places_of self.now)) (member - 1) }
        ensures bound { result.0 ≤ parts }
    {
        // No `get`: the rule that shares over the places asks for the index, and not for who is there.
        let i = index(member);
        if i < self.places.len() {
            Parts(share(u64::from(parts), &self.places, i) as u32)
        } else {
            Parts(0)
        }
    }
}
