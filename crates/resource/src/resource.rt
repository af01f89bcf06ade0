// What every resource shows.
ghost use Rattle.std.specs.Prelude.{◌≡◌, ℕ, ◌-◌, ◌≤◌, min};
ghost use Rattle.resource.specs.Meaning.{stand_refusal, stood_at};
ghost use Rattle.share.specs.Refusals.{numbered, unless};
ghost use Rattle.share.specs.Rule.{limit};

use share::refusal::Refusal;
use share::units::Dollars;

// A resource means two numbers: the capacity, up to which it can stand for a loss, and the standing, the loss that it stands for now.
pub trait Resource {
    ghost capacity: { Self → ℕ };

    ghost standing: { Self → ℕ };

    fn capacity(&self) -> Dollars
        ensures { result.0 ≡ capacity self.now };

    fn standing(&self) -> Dollars
        ensures { result.0 ≡ standing self.now };

    // Stands for n from now on, unless that is above the capacity.
    // Each resource makes this test itself: what is left without it could only be called within the capacity, and no method of a resource asks anything.
    fn stand_at(&mut self, n: Dollars) -> Result<(), Refusal>
        ensures answer { numbered result ≡ unless (stand_refusal (capacity self.old) n.0) tt }
        ensures after { standing self.new ≡ stood_at (capacity self.old) (standing self.old) n.0 }
        ensures same { capacity self.new ≡ capacity self.old };

    // Gives up what it stands for: the capacity is lowered by it, and nothing stands any more.
    fn write_off(&mut self)
        ensures lowers { capacity self.new ≡ capacity self.old - standing self.old }
        ensures clears { standing self.new ≡ 0 };

    ghost covered: { (x : Self) → standing x ≤ capacity x };

    ghost bounded: { (x : Self) → capacity x ≤ limit };

    // Stands for as much of an amount as it can, and says how much that is.
    final fn fill(&mut self, amount: Dollars) -> Dollars
        ensures value { result.0 ≡ min amount.0 (capacity self.old) }
        ensures after { standing self.new ≡ min amount.0 (capacity self.old) }
        ensures same { capacity self.new ≡ capacity self.old }
    {
        let filled = amount.min(self.capacity());
        let _ = self.stand_at(filled);
        self.standing()
    }

    // How much more it could stand for.
    final fn free(&self) -> Dollars
        ensures { result.0 ≡ capacity self.now - standing self.now }
    {
        self.capacity() - self.standing()
    }

    // Writes it off, and says what it stood for.
    final fn settle(&mut self) -> Dollars
        ensures value { result.0 ≡ standing self.old }
        ensures lowers { capacity self.new ≡ capacity self.old - standing self.old }
        ensures clears { standing self.new ≡ 0 }
    {
        let lost = self.standing();
        self.write_off();
        lost
    }
}
