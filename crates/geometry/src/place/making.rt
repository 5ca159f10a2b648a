ghost use Rattle.std.specs.Prelude.{◌≡◌, pos};
ghost use Rattle.geometry.specs.Plane.{place_at, place_from, in_range};

use super::Place;
use crate::refusal::{Reason, Refusal};

const LIMIT: u32 = 1_000_000;

// Whether a coordinate lies on the map.
pub fn in_range(z: i32) -> bool
    ensures { result ≡ in_range z }
{
    z.unsigned_abs() <= LIMIT
}

impl Place {
    pub fn new(x: i32, y: i32) -> Result<Place, Refusal>
        ensures { result ≡ place_from x y }
    {
        if !in_range(x) || !in_range(y) {
            return Err(Reason::BadPlace.into());
        }
        Ok(Place { x, y })
    }

    // The middle of the map.
    pub fn middle() -> Place
        ensures { result ≡ place_at (pos 0) (pos 0) }
    {
        Place { x: 0, y: 0 }
    }

    pub fn x(&self) -> i32
        ensures { result ≡ self.now.x }
    {
        self.x
    }

    pub fn y(&self) -> i32
        ensures { result ≡ self.now.y }
    {
        self.y
    }
}
