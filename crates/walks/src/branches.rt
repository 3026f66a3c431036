// Branch records, the nodes below them, and what is found at a node.
use atoms::AtomSet;

// The atoms taken and those denied.
#[derive(Clone, Copy)]
pub struct Node {
    pub taken: AtomSet,
    pub denied: AtomSet,
}

// A node, and the head atoms that are still to be taken there. Its present branch takes the least of these and denies the
// others.
#[derive(Clone, Copy)]
pub struct Branch {
    pub node: Node,
    pub left: AtomSet,
}

// What is found at a node: nothing, a model, or a clause to branch on.
#[derive(Clone, Copy)]
pub enum Visit {
    Dead,
    Model(AtomSet),
    Split(Branch),
}

// The root: no atom is taken, and none denied.
// By hand: a derive would want a default of every type in it, where only a blank place is wanted.
impl Default for Node {
    ghost use Rattle.std.specs.Prelude.{◌≡◌};
    ghost use Rattle.atoms.specs.Atoms.{bits};

    ghost is_default = { λ n. (bits n.taken ≡ 0) × (bits n.denied ≡ 0) };

    fn default() -> Node {
        Node {
            taken: AtomSet::empty(),
            denied: AtomSet::empty(),
        }
    }
}

// What fills a place where no record is: the root, with no atom left.
// By hand: a derive would want a default of every type in it, where only a blank place is wanted.
impl Default for Branch {
    fn default() -> Branch {
        Branch {
            node: Node::default(),
            left: AtomSet::empty(),
        }
    }
}
