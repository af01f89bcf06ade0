// What a pool does.
ghost use Rattle.std.specs.Prelude.{◌≡◌, ℕ, ◌-◌, ◌<◌, length, slice_index};
ghost use Rattle.resource.specs.Meaning.{stand_refusal, stood_at};
ghost use Rattle.resource.specs.Payers.{weights_of, heavy, pool_refusal};
ghost use Rattle.resource.specs.Pools.{payers_of, capacity_of, standing_of, payer_refusal, dollars_in, fresh, as_made, PoolLaw};
ghost use Rattle.share.specs.Refusals.{numbered, unless};
ghost use Rattle.share.specs.Rule.{share_of, lowered};
ghost use Rattle.resource.specs.Totals.{pool-total, pool-covered};
ghost use Rattle.std.proofs.Common.{rules};

use super::Pool;
use crate::resource::Resource;
use share::refusal::Refusal;
use share::rule::{share, sum};
use share::units::Dollars;

pub const MOST_PAYERS: usize = 32;

pub const MOST_WEIGHT: u64 = 100_000_000;

// Whether some weight is above the greatest. The chain goes over numbers, as `heavy` does: with dollars compared in `any`, it was not proved that the answer is `heavy`.
fn some_heavy(payers: &[Dollars]) -> bool
    ensures { result ≡ heavy (weights_of payers.now) }
{
    payers
        .iter()
        .map(|weight| weight.0)
        .any(|weight| weight > MOST_WEIGHT)
}

impl Pool {
    // A pool of these payers, of which nothing stands for a loss yet.
    pub fn new(payers: &[Dollars]) -> Result<Pool, Refusal>
        ensures { as_made (numbered result) ≡ unless (pool_refusal (weights_of payers.now)) (fresh (weights_of payers.now)) }
    {
        if payers.is_empty() || payers.len() > MOST_PAYERS || some_heavy(payers) {
            return Err(Refusal::OutsideLimits);
        }
        let mut weights = [Dollars(0); MOST_PAYERS];
        weights[..payers.len()].copy_from_slice(payers);
        Ok(Pool {
            weights,
            count: payers.len(),
            capacity: Dollars(sum(payers)),
            standing: Dollars(0),
        })
    }

    // The payers' weights, in payer order.
    fn payers(&self) -> &[Dollars]
        ensures { weights_of result.now ≡ payers_of self.now }
    {
        &self.weights[..self.count]
    }

    // How many payers there are.
    pub fn count(&self) -> u16
        ensures { result ≡ length (payers_of self.now) }
    {
        self.count as u16
    }

    // The place of a payer by its number, which counts from 1.
    fn place(&self, payer: u16) -> Result<usize, Refusal>
        ensures { numbered result ≡ unless (payer_refusal (length (payers_of self.now)) payer) (payer - 1) }
    {
        if (1..=self.count()).contains(&payer) {
            Ok(usize::from(payer) - 1)
        } else {
            Err(Refusal::OutOfRange)
        }
    }

    // A payer's weight.
    pub fn weight(&self, payer: u16) -> Result<Dollars, Refusal>
        ensures { dollars_in (numbered result) ≡ unless (payer_refusal (length (payers_of self.now)) payer) (slice_index (payers_of self.now) (payer - 1)) }
    {
        let place = self.place(payer)?;
        Ok(self.payers()[place])
    }

    // What the payer at a place bears.
    fn borne_at(&self, place: usize) -> Dollars
        requires { place < length (payers_of self.now) }
        ensures { result.0 ≡ share_of (standing_of self.now) (payers_of self.now) place }
    {
        let payers = self.payers();
        Dollars(share(self.standing.0, payers, place))
    }

    // What a payer bears of what stands.
    pub fn bears(&self, payer: u16) -> Result<Dollars, Refusal>
        ensures value { dollars_in (numbered result) ≡ unless (payer_refusal (length (payers_of self.now)) payer) (share_of (standing_of self.now) (payers_of self.now) (payer - 1)) }
        ensures law { PoolLaw (standing_of self.now) (payers_of self.now) }
    {
        let place = self.place(payer)?;
        Ok(self.borne_at(place))
    }
}

impl Resource for Pool {
    ghost capacity = { capacity_of };

    ghost standing = { standing_of };

    ghost covered = { pool-covered };

    ghost bounded = { pool-total };

    fn capacity(&self) -> Dollars {
        self.capacity
    }

    fn standing(&self) -> Dollars {
        self.standing
    }

    // This and `write_off` repeat the trait's clauses, since a method that adds one (`each`) has its own in place of the trait's.
    fn stand_at(&mut self, n: Dollars) -> Result<(), Refusal>
        ensures answer { numbered result ≡ unless (stand_refusal (capacity_of self.old) n.0) tt }
        ensures after { standing_of self.new ≡ stood_at (capacity_of self.old) (standing_of self.old) n.0 }
        ensures same { capacity_of self.new ≡ capacity_of self.old }
        ensures each { payers_of self.new ≡ payers_of self.old }
    {
        if n > self.capacity {
            return Err(Refusal::AboveCapacity);
        }
        self.standing = n;
        Ok(())
    }

    fn write_off(&mut self)
        ensures lowers { capacity_of self.new ≡ capacity_of self.old - standing_of self.old }
        ensures clears { standing_of self.new ≡ 0 }
        ensures each { payers_of self.new ≡ lowered (standing_of self.old) (payers_of self.old) }
    {
        let mut weights = self.weights;
        for (place, weight) in weights[..self.count].iter_mut().enumerate() {
            weight.0 -= self.borne_at(place).0;
        }
        self.capacity.0 -= self.standing.0;
        self.weights = weights;
        self.standing = Dollars(0);
    }
}
