ghost use Rattle.std.specs.Prelude.{◌≡◌, pos};
ghost use Rattle.geometry.specs.Plane.{label_at, label_from, numbered};

use super::Label;
use crate::place::Place;
use crate::refusal::{Reason, Refusal};

// Whether a label can have the number.
pub fn numbered(number: u32) -> bool
    ensures { result ≡ numbered number }
{
    (1..=999_999_999).contains(&number)
}

impl Label {
    pub fn new(number: u32, x: i32, y: i32) -> Result<Label, Refusal>
        ensures { result ≡ label_from number x y }
    {
        if !numbered(number) {
            return Err(Reason::BadNumber.into());
        }
        let place = Place::new(x, y)?;
        Ok(Label { number, place })
    }

    pub fn number(&self) -> u32
        ensures { result ≡ self.now.number }
    {
        self.number
    }

    pub fn place(&self) -> Place
        ensures { result ≡ self.now.place }
    {
        self.place
    }
}

// A label to fill a list with that has places to spare: number 1 in the middle of the map.
impl Default for Label {
    ghost is_default = { λ l. l ≡ label_at 1 (pos 0) (pos 0) };

    fn default() -> Label {
        Label {
            number: 1,
            place: Place::middle(),
        }
    }
}
