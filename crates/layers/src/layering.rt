// A layer over a source: clauses of its own, in front of those of the source below it.
ghost use Rattle.std.specs.Prelude.{◌≡◌};
ghost use Rattle.layers.specs.Layering.{below, layered};

use atoms::AtomSet;
use clauses::{Clause, Source};

// What gives the clauses of its own, and the source below: `below` in the contracts.
// What stays below is a clause of each call on a layer: no field can be given that calls may not write.
#[derive(Drop)]
pub struct Layer<O, S> {
    pub(crate) own: O,
    pub(crate) source: S,
}

impl<O, S> Layer<O, S> {
    // The source below the layer.
    pub fn below(&self) -> &S
        ensures { result.now ≡ below self.now }
    {
        &self.source
    }

    // Ends the layer, and gives back the source below it.
    pub fn into_below(self) -> S
    where
        O: Drop,
        ensures { result ≡ below self }
    {
        let Layer { own: _, source } = self;
        source
    }
}

// It means its own clauses, and then the clauses of the source below.
impl<O: Source, S: Source> Source for Layer<O, S> {
    ghost clauses = { layered O.Source.clauses S.Source.clauses };

    fn first_broken(&self, set: AtomSet) -> Option<Clause> {
        self.own
            .first_broken(set)
            .or_else(|| self.source.first_broken(set))
    }
}
