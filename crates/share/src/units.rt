// Units that are never mixed in a sum or a comparison: each is a struct of its own. `Display` is written for each, since an impl by a macro is refused.
ghost use Rattle.std.specs.Fmt.{decimal};
ghost use Rattle.std.specs.Prelude.{◌≡◌, ◌+◌, ◌-◌, ◌<◌, ◌≤◌, ◌^◌, Some};

use std::fmt;
use std::ops::{Add, Sub};

// A whole number of dollars.
#[derive(Clone, Copy, PartialEq, Eq, PartialOrd, Ord, Default, Debug)]
pub struct Dollars(pub u64);

// A part is one ten-thousandth of a lot.
#[derive(Clone, Copy, PartialEq, Eq, PartialOrd, Ord, Default, Debug)]
pub struct Parts(pub u32);

impl Add for Dollars {
    type Output = Dollars;

    ghost can_add = { λ a b. a.0 + b.0 < 2 ^ 64 };

    ghost add_gives = { λ a b r. r.0 ≡ a.0 + b.0 };

    fn add(self, more: Dollars) -> Dollars {
        Dollars(self.0 + more.0)
    }
}

impl Sub for Dollars {
    type Output = Dollars;

    ghost can_sub = { λ a b. b.0 ≤ a.0 };

    ghost sub_gives = { λ a b r. r.0 ≡ a.0 - b.0 };

    fn sub(self, less: Dollars) -> Dollars {
        Dollars(self.0 - less.0)
    }
}

// The bare number.
impl fmt::Display for Dollars {
    ghost output = { λ dollars. Some (decimal dollars.0) };

    fn fmt<W: fmt::Write>(&self, f: &mut fmt::Formatter<W>) -> fmt::Result {
        let dollars = self.0;
        write!(f, "{dollars}")
    }
}

// The bare number.
impl fmt::Display for Parts {
    ghost output = { λ parts. Some (decimal parts.0) };

    fn fmt<W: fmt::Write>(&self, f: &mut fmt::Formatter<W>) -> fmt::Result {
        let parts = self.0;
        write!(f, "{parts}")
    }
}
