ghost use Rattle.std.specs.Prelude.{◌≡◌, true};
ghost use Rattle.geometry.specs.Numbers.{distinct};

use geometry::Label;

pub mod adding;
pub mod nearest;
pub mod reading;

// Labels in the order of adding, no number twice.
#[derive(Drop)]
pub struct LabelList {
    labels: Vec<Label>,
    ghost once: { distinct labels.items ≡ true },
}
