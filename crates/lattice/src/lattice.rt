ghost use Rattle.std.specs.Prelude.{◌≡◌, ◌≤◌, true};
ghost use Rattle.lattice.specs.Grid.{Lines, Stepped, Reach, Numbered, is_node};

use index::Openings;

pub mod crossings;
pub mod making;
pub mod store;

// Labels where rows and columns cross, one step apart, numbered by twelves from row to row.
#[derive(Drop)]
pub struct Lattice {
    rows: u32,
    columns: u32,
    step: u32,
    x: i32,
    y: i32,
    first: u32,
    openings: Openings,
    ghost lined: { Lines rows columns },
    ghost stepped: { Stepped step },
    ghost across: { Reach x step columns },
    ghost upward: { Reach y step rows },
    ghost numbered: { Numbered rows columns first },
    ghost within: { is_node rows openings.node ≡ true },
}
