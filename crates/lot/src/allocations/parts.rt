// Making and reading allocations.
ghost use Rattle.std.specs.Prelude.{◌≡◌, ◌≤◌, length, take};
ghost use Rattle.lot.specs.Allotments.{numbers, parts_of};

use super::Allocations;
use share::units::Parts;

impl Allocations {
    // The first of 64 numbers of parts.
    pub(crate) fn first(count: usize, parts: [Parts; 64]) -> Allocations
        requires { count ≤ 64 }
        ensures { parts_of result ≡ numbers (take count parts) }
    {
        Allocations { parts, count }
    }

    // The parts that each bid gets, in entry order.
    pub fn parts(&self) -> &[Parts]
        ensures { numbers result.now ≡ parts_of self.now }
    {
        &self.parts[..self.count]
    }
}
