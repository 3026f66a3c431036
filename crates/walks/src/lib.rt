#![tactic(auto)]
// The walk: the search for the explanations of a list of clauses, depth first, over a table of branch records.
mod branches;
mod nodes;
mod paths;
mod steps;
mod walking;

use crate::paths::Path;

// Where a search stands: at the end of a path, or nowhere, since it is done.
#[derive(Drop)]
pub struct Walk {
    path: Option<Path>,
}
