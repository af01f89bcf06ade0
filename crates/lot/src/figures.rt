// Worked figures, as a theorem about the definitions.
ghost use Rattle.lot.specs.Figures.{Figures};

// Each figure is what the definitions give.
pub fn figures()
    ensures { Figures }
{}
