// The law of reasons in the subject's words: which atoms of a set have one.
ghost use Rattle.judging.specs.Laws.{ReasonsLaw};

// Each atom of a set has a reason exactly where no single atom can be left out, as of a minimal model.
pub fn reasons_law()
    ensures { ReasonsLaw }
{}
