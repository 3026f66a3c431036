// The laws of the layers in the subject's words: which sets are models of what a layer means.
ghost use Rattle.layers.specs.Laws.{CappingLaw, ObservingLaw};

// A model of the clauses of observations over others is a model of the others that agrees with each observation.
pub fn observing_law()
    ensures { ObservingLaw }
{}

// The clauses of a cap over others have a model exactly where a model of the others is a proper subset of the cap.
pub fn capping_law()
    ensures { CappingLaw }
{}
