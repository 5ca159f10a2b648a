ghost use Rattle.std.specs.Prelude.{◌≤◌};

use crate::changes::Changes;

pub mod changing;
pub mod making;
pub mod opening;
pub mod store;

// Where the open node of an edit is.
#[derive(Clone, Copy, Debug, PartialEq, Eq)]
pub enum At {
    // No node was opened.
    Nowhere,
    // Node 0, the new root.
    Root,
    // Node 1, the leaf of added labels.
    Added,
    // A node of the store below.
    Below,
}

// An edit over a store, which it has taken.
#[derive(Drop)]
pub struct Edit<S> {
    below: S,
    changes: Changes,
    at: At,
    // how often nodes 0 and 1 were opened since the meter was set to 0
    own: u32,
    ghost short: { own ≤ 2000000 },
}
