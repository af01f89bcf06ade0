// What a deposit does.
ghost use Rattle.std.specs.Prelude.{◌≡◌, ℕ};
ghost use Rattle.resource.specs.Deposits.{deposit_refusal, paid_of, standing_of, fresh, as_made};
ghost use Rattle.share.specs.Refusals.{numbered, unless};
ghost use Rattle.std.proofs.Common.{rules};

use super::Deposit;
use crate::resource::Resource;
use share::refusal::Refusal;
use share::units::Dollars;

pub const MOST: Dollars = Dollars(3_200_000_000);

impl Deposit {
    // A deposit of an amount, of which nothing stands for a loss yet.
    pub fn new(paid: Dollars) -> Result<Deposit, Refusal>
        ensures { as_made (numbered result) ≡ unless (deposit_refusal paid.0) (fresh paid.0) }
    {
        if paid > MOST {
            return Err(Refusal::OutsideLimits);
        }
        Ok(Deposit {
            paid,
            standing: Dollars(0),
        })
    }
}

impl Resource for Deposit {
    ghost capacity = { paid_of };

    ghost standing = { standing_of };

    ghost covered = { Prim.search rules };

    ghost bounded = { Prim.search rules };

    fn capacity(&self) -> Dollars {
        self.paid
    }

    fn standing(&self) -> Dollars {
        self.standing
    }

    fn stand_at(&mut self, n: Dollars) -> Result<(), Refusal> {
        if n > self.paid {
            return Err(Refusal::AboveCapacity);
        }
        self.standing = n;
        Ok(())
    }

    fn write_off(&mut self) {
        self.paid.0 -= self.standing.0;
        self.standing = Dollars(0);
    }
}
