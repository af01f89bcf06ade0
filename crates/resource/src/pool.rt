// A pool: payers who bear a loss together, each by its weight.
ghost use Rattle.std.specs.Prelude.{◌≡◌, ◌<◌, ◌≤◌, length};
ghost use Rattle.resource.specs.Payers.{first_weights, Light};
ghost use Rattle.share.specs.Rule.{total};

use self::acts::MOST_PAYERS;
use share::units::Dollars;

pub mod acts;

// The payers' weights in payer order, their sum, and how much stands for a loss. A payer bears its share of the standing over the weights.
// An array and a count, so that no memory is asked for and a copy is an ordinary value: the library's `ArrayVec` is not Copy, and its clone can fail.
#[derive(Clone, Copy)]
pub struct Pool {
    weights: [Dollars; MOST_PAYERS],
    count: usize,
    capacity: Dollars,
    standing: Dollars,
    ghost some: { 0 < count },
    ghost few: { count ≤ 32 },
    ghost whole: { length weights ≡ 32 },
    ghost light: { Light (first_weights count weights) },
    ghost summed: { capacity.0 ≡ total (first_weights count weights) },
    ghost covered: { standing.0 ≤ capacity.0 },
}
