ghost use Rattle.std.specs.Prelude.{◌≡◌, ◌≤◌, true};
ghost use Rattle.edges.specs.Chain.{is_node};

use geometry::Label;
use index::Openings;

pub mod making;
pub mod store;

// A store of nodes one below another: each but the last leads to the next from slot 0, and the last has a label there.
#[derive(Drop)]
pub struct Chain {
    last: usize,
    label: Label,
    openings: Openings,
    ghost few: { last ≤ 299 },
    ghost within: { is_node last openings.node ≡ true },
}
