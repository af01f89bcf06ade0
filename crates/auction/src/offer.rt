// What an auction is opened with. The struct stands alone here.
ghost use Rattle.std.specs.Prelude.{◌≡◌, ◌-◌, length, drop, replicate};

use crate::terms::Terms;

pub mod handing;

// The lots of an auction as they are handed over: how many, and the terms of the first four.
// More than four are refused for their number alone, so that the terms of the others are not held; the places of lots that are not handed over hold zeros.
// The count is no length of the array, since it may be above four.
#[derive(Clone, Copy)]
pub struct Offer {
    pub count: u16,
    pub terms: [Terms; 4],
    ghost four: { length terms ≡ 4 },
    ghost plain: { drop count terms ≡ replicate (4 - count) (record { weight = 0; requirement = 0; pri = 0 }) },
}
