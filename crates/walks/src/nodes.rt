// Nodes: where a branch leads, and what is found there.
ghost use Rattle.std.specs.Prelude.{Some};
ghost use Rattle.walks.specs.Nodes.{Leads, Visited};

use crate::branches::{Branch, Node, Visit};
use clauses::Source;
use shelves::Shelf;

impl Branch {
    // The node of the present branch; `None` where the atom that it takes is denied.
    pub fn present(&self) -> Option<Node>
        ensures { Leads self.now result }
    {
        let later = self.left.without_least();
        let least = self.left.difference(later);
        if self.node.denied.intersects(least) {
            return None;
        }
        Some(Node {
            taken: self.node.taken.union(least),
            denied: self.node.denied.union(later),
        })
    }
}

impl Node {
    // What is found at the node, where the sets on the shelf are handed out.
    pub fn visit<S: Source, H: Shelf>(self, source: &S, shelf: &H) -> Visit
        ensures { Visited (S.Source.clauses source.now) (H.Shelf.sets shelf.now) (Some self) result }
    {
        if shelf.holds_subset_of(self.taken) {
            return Visit::Dead;
        }
        match source.first_broken(self.taken) {
            None => Visit::Model(self.taken),
            Some(clause) if clause.head.is_empty() => Visit::Dead,
            Some(clause) => Visit::Split(Branch {
                node: self,
                left: clause.head,
            }),
        }
    }
}
