// A deposit: one amount that was paid in.
ghost use Rattle.std.specs.Prelude.{◌≤◌};
ghost use Rattle.share.specs.Rule.{limit};

use share::units::Dollars;

pub mod acts;

// One amount, and how much of it stands for a loss.
// Its facts are ghost fields and not a model's invariant: a resource owes its laws at every value, and a model of two numbers has values that no deposit has.
#[derive(Clone, Copy)]
pub struct Deposit {
    paid: Dollars,
    standing: Dollars,
    ghost covered: { standing.0 ≤ paid.0 },
    ghost bounded: { paid.0 ≤ limit },
}
