// The steps of a search from node to node. `stack` in the contracts has the records of a path, the deepest first.
ghost use Rattle.std.specs.Prelude.{◌≡◌, ◌<◌, not, [], ◌∷◌, length, ◌==◌};
ghost use Rattle.atoms.specs.Atoms.{bits};
ghost use Rattle.atoms.specs.Sets.{Disjoint, size};
ghost use Rattle.walks.specs.Walks.{Advanced, Here, Visits, stack};

use crate::branches::{Branch, Node, Visit};
use crate::paths::Path;
use arrayvec::ArrayVec;
use clauses::Source;
use shelves::Shelf;

impl Path {
    // The path that ends at the root.
    pub(crate) fn new() -> Path
        ensures { stack result ≡ [] }
    {
        Path {
            branches: ArrayVec::new(),
        }
    }

    // The node at its end; `None` where an atom that is taken there is denied.
    fn node(&self) -> Option<Node>
        ensures { Here (stack self.now) result }
    {
        match self.branches.last() {
            None => Some(Node::default()),
            Some(top) => top.present(),
        }
    }

    // What is found at its end, where the sets on the shelf are handed out.
    pub(crate) fn visit<S: Source, H: Shelf>(&self, source: &S, shelf: &H) -> Visit
        ensures { Visits (S.Source.clauses source.now) (H.Shelf.sets shelf.now) (stack self.now) result }
    {
        self.node()
            .map_or(Visit::Dead, |node| node.visit(source, shelf))
    }

    // Goes down to the first branch of a record. There is a place for it.
    pub(crate) fn push(&mut self, branch: Branch)
        requires live { 0 < bits branch.left }
        requires sized { size (bits branch.node.taken) ≡ length (stack self.old) }
        requires apart { Disjoint (bits branch.node.taken) (bits branch.left) }
        ensures { stack self.new ≡ branch ∷ stack self.old }
    {
        self.branches.push(branch);
    }

    // Goes on to the next branch; `false` where there is none.
    pub(crate) fn advance(&mut self) -> bool
        ensures records { Advanced (stack self.old) (stack self.new) }
        ensures more { result ≡ not (length (stack self.new) == 0) }
    {
        while let [.., top] = self.branches.as_mut_slice() {
            top.left = top.left.without_least();
            if !top.left.is_empty() {
                return true;
            }
            self.branches.pop();
        }
        false
    }
}
