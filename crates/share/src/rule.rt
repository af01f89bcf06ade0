// The share rule, written once for everything that has a weight.
ghost use Rattle.std.specs.Prelude.{◌≡◌, ℕ, ◌+◌, ◌-◌, ◌*◌, ◌/◌, ◌<◌, ◌≤◌, map, length};
ghost use Rattle.share.specs.Laws.{ShareLaw};
ghost use Rattle.share.specs.Rule.{limit, total, share_of};

use crate::units::Dollars;

// What has a weight: `heft` is the number that it weighs.
pub trait Weighted {
    ghost heft: { Self → ℕ };

    fn weight(&self) -> u64
        ensures { result ≡ heft self.now };
}

impl Weighted for Dollars {
    ghost heft = { λ d. d.0 };

    fn weight(&self) -> u64 {
        self.0
    }
}

// The sum of the weights.
pub fn sum<T: Weighted>(items: &[T]) -> u64
    requires { total (map T.heft items.now) ≤ limit }
    ensures { result ≡ total (map T.heft items.now) }
{
    items.iter().map(T::weight).sum()
}

// What falls to the weight `own`, which comes after weights of `before`, where there are weights of `all`.
fn cut(amount: u64, before: u64, own: u64, all: u64) -> u64
    requires bounded { amount ≤ limit }
    requires summed { all ≤ limit }
    requires within { before + own ≤ all }
    ensures { result ≡ amount * (before + own) / all - amount * before / all }
{
    if all == 0 {
        return 0;
    }
    amount * (before + own) / all - amount * before / all
}

// What item `i` gets of `amount`: 0 where all the weights are 0.
pub fn share<T: Weighted>(amount: u64, items: &[T], i: usize) -> u64
    requires bounded { amount ≤ limit }
    requires summed { total (map T.heft items.now) ≤ limit }
    requires within { i < length items.now }
    ensures value { result ≡ share_of amount (map T.heft items.now) i }
    ensures bound { result ≤ amount }
{
    cut(amount, sum(&items[0..i]), items[i].weight(), sum(items))
}

// The laws of the share rule, for every amount and all weights.
pub fn share_laws()
    ensures { ShareLaw }
{}
