// What the weights of members keep to, as a theorem about the definitions.
ghost use Rattle.auction.specs.Laws.{WeightLaw};

// A member's weights in the seats of an amount add up to the amount, less what is in failed lots; never to more.
pub fn weight_law()
    ensures { WeightLaw }
{}
