// The terms of a lot.
ghost use Rattle.std.specs.Prelude.{◌≡◌};

// What a lot is opened with: its weight in the auction, the parts that all members together must bid for, and its price range.
#[derive(Clone, Copy, PartialEq, Eq, Default, Debug)]
pub struct Terms {
    pub weight: u16,
    pub requirement: u16,
    pub pri: u32,
}

impl Terms {
    // Terms by their numbers.
    pub fn new(weight: u16, requirement: u16, pri: u32) -> Terms
        ensures { result ≡ record { weight = weight; requirement = requirement; pri = pri } }
    {
        Terms {
            weight,
            requirement,
            pri,
        }
    }
}
