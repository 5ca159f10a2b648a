ghost use Rattle.std.specs.Prelude.{◌≡◌};
ghost use Rattle.geometry.specs.Plane.{holds, covering, gap};

use super::Rect;
use super::span::Span;
use crate::place::Place;

impl Rect {
    // From west to east.
    fn across(&self) -> Span
        ensures low { result.low ≡ self.now.west }
        ensures high { result.high ≡ self.now.east }
    {
        Span {
            low: self.west,
            high: self.east,
        }
    }

    // From south to north.
    fn along(&self) -> Span
        ensures low { result.low ≡ self.now.south }
        ensures high { result.high ≡ self.now.north }
    {
        Span {
            low: self.south,
            high: self.north,
        }
    }

    pub fn contains(&self, p: Place) -> bool
        ensures { result ≡ holds self.now p }
    {
        self.across().contains(p.x()) && self.along().contains(p.y())
    }

    pub fn covers(&self, other: &Rect) -> bool
        ensures { result ≡ covering self.now other.now }
    {
        self.across().covers(other.across()) && self.along().covers(other.along())
    }

    // The gap of a place to the box in x.
    pub fn gap_x(&self, p: Place) -> u32
        ensures { result ≡ gap self.now.west self.now.east p.x }
    {
        self.across().gap(p.x())
    }

    // The gap of a place to the box in y.
    pub fn gap_y(&self, p: Place) -> u32
        ensures { result ≡ gap self.now.south self.now.north p.y }
    {
        self.along().gap(p.y())
    }
}
