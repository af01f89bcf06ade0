// The price range of a lot. The struct stands alone here: what it does is in the module below it.
ghost use Rattle.std.specs.Prelude.{◌≡◌, ◌%◌, ◌≤◌};

pub mod measures;

// PRI, the price range of a lot in dollars: an even number.
// No Model: its view would be the one field, which the definitions read by `pri_of`, in the terms of an auction's lot too.
#[derive(Clone, Copy)]
pub struct Pri {
    dollars: u32,
    ghost low: { 2 ≤ dollars },
    ghost high: { dollars ≤ 2000000000 },
    ghost even: { dollars % 2 ≡ 0 },
}
