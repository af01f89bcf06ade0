// The laws of the book, as theorems about books of this code and about the definitions.
ghost use Rattle.book.specs.Bounds.{MeansLaw, LimitsLaw, FillingLaw};
ghost use Rattle.book.specs.Figures.{Figures};
ghost use Rattle.book.specs.Law.{Law};
ghost use Rattle.book.specs.Lives.{Lives};

use resource::resource::Resource;

// Of every book that has lived, over any two resources: money is kept, seats fill in order, members bear in proportion, and the loss alone decides.
pub fn law<R: Resource, S: Resource>()
    ensures { Law R.Resource S.Resource }
{}

// Of every book that has lived: no seat stands above its capacity, what stands is the net loss, and no member bears more than it has.
pub fn means_law<R: Resource>()
    ensures { MeansLaw R.Resource }
{}

// Of every book that has lived: every fund, assessment, weight and capacity is within its limit, and there are at most four lots.
pub fn limits_law<R: Resource>()
    ensures { LimitsLaw R.Resource }
{}

// Of every book that has lived: in Charging its pools have the weights that the filling rules give.
pub fn filling_law<R: Resource>()
    ensures { FillingLaw R.Resource }
{}

// Each figure is what the definitions give.
pub fn figures()
    ensures { Figures }
{}

// Two whole lives answer as they should.
pub fn lives()
    ensures { Lives }
{}
