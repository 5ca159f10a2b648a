ghost use Rattle.std.specs.Prelude.{◌≡◌};

use super::Openings;

impl Openings {
    // The node that is open, if one is.
    pub fn node(&self) -> Option<usize>
        ensures { result ≡ self.now.node }
    {
        self.node
    }

    // How many openings were counted.
    pub fn meter(&self) -> u32
        ensures { result ≡ self.now.meter }
    {
        self.meter
    }
}
