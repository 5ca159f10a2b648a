ghost use Rattle.std.specs.Prelude.{◌≡◌};
ghost use Rattle.geometry.specs.Plane.{span, spanning, gap};

use crate::place::making::in_range;

// From one coordinate to another, along one axis.
#[derive(Clone, Copy)]
pub(crate) struct Span {
    pub(crate) low: i32,
    pub(crate) high: i32,
}

impl Span {
    // Whether it is the side of a box: it does not run backwards, and lies on the map.
    pub(crate) fn is_side(self) -> bool
        ensures { result ≡ span self.low self.high }
    {
        self.low <= self.high && in_range(self.low) && in_range(self.high)
    }

    pub(crate) fn contains(self, z: i32) -> bool
        ensures { result ≡ spanning self.low self.high z z }
    {
        self.low <= z && z <= self.high
    }

    pub(crate) fn covers(self, other: Span) -> bool
        ensures { result ≡ spanning self.low self.high other.low other.high }
    {
        self.low <= other.low && other.high <= self.high
    }

    // How far `z` is from the nearer end, and 0 between them.
    pub(crate) fn gap(self, z: i32) -> u32
        ensures { result ≡ gap self.low self.high z }
    {
        if z < self.low {
            self.low.abs_diff(z)
        } else if self.high < z {
            z.abs_diff(self.high)
        } else {
            0
        }
    }
}
