ghost use Rattle.std.specs.Prelude.{◌≤◌};

use crate::place::Place;

pub mod making;

// A label: its number, and its place.
#[derive(Clone, Copy, Debug, PartialEq, Eq, PartialOrd, Ord)]
pub struct Label {
    number: u32,
    place: Place,
    ghost numbered: { (1 ≤ number) × (number ≤ 999999999) },
}
