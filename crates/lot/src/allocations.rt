// What the bids of a lot get. The struct stands alone here: what it answers is in the module below it.
ghost use Rattle.std.specs.Prelude.{◌≡◌, ◌≤◌, length};

use share::units::Parts;

pub mod parts;

// What each bid of a lot gets, in entry order.
// An array with a count, and no ArrayVec: it is Copy for its callers, which an ArrayVec is not.
#[derive(Clone, Copy)]
pub struct Allocations {
    parts: [Parts; 64],
    count: usize,
    ghost few: { count ≤ 64 },
    ghost long: { length parts ≡ 64 },
}
