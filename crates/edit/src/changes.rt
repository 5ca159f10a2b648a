ghost use Rattle.std.specs.Prelude.{◌≡◌, ◌≤◌, true, length};
ghost use Rattle.geometry.specs.Numbers.{distinct};

use arrayvec::ArrayVec;
use geometry::Label;
use index::SLOTS;

pub mod holding;

// The labels that an edit has added, in order of adding, and the numbers that it has withdrawn below.
#[derive(Drop)]
pub struct Changes {
    added: ArrayVec<Label, SLOTS>,
    withdrawn: ArrayVec<u32, SLOTS>,
    ghost few: { length added.items ≤ 12 },
    ghost apart: { distinct added.items ≡ true },
}
