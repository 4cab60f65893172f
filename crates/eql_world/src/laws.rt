//! Laws of views and of worlds, each as the contract of a function that does nothing.
ghost use Rattle.eql_world.specs.Laws.{ViewFitsWeakly, MeaningIsOfTheWorldAlone};

/// The view of objects that fit a schema fits it within the bounds that a caller sees.
#[tactic(auto, using(crate::proofs::ViewFits::view_fits_weakly))]
pub fn view_fits_weakly()
    ensures { ViewFitsWeakly }
{}

/// What a query means depends on nothing but what the world gives.
#[tactic(auto, using(crate::proofs::SameWorlds::meaning_is_of_the_world_alone))]
pub fn meaning_is_of_the_world_alone()
    ensures { MeaningIsOfTheWorldAlone }
{}
