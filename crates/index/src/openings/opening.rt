ghost use Rattle.std.specs.Prelude.{◌≡◌, None};
ghost use Rattle.index.specs.Opening.{result_among, node_among, meter_among};

use super::Openings;
use geometry::{Reason, Refusal};

// The meter counts no further.
const METER_END: u32 = 2_000_000;

impl Openings {
    // No node is open, and the meter is 0.
    pub fn new() -> Openings
        ensures node { result.node ≡ None }
        ensures meter { result.meter ≡ 0 }
    {
        Openings {
            node: None,
            meter: 0,
        }
    }

    // Sets the meter to 0.
    pub fn zero(&mut self)
        ensures node { self.new.node ≡ self.old.node }
        ensures meter { self.new.meter ≡ 0 }
    {
        self.meter = 0;
    }

    // Opens node `i` of so many, and raises the meter by one.
    pub fn open(&mut self, nodes: usize, i: usize) -> Result<(), Refusal>
        ensures told { result ≡ result_among nodes i self.old.meter }
        ensures node { self.new.node ≡ node_among nodes i self.old.meter self.old.node }
        ensures meter { self.new.meter ≡ meter_among nodes i self.old.meter }
    {
        if i >= nodes {
            return Err(Reason::NoSuchNode.into());
        }
        if self.meter >= METER_END {
            return Err(Reason::MeterAtEnd.into());
        }
        self.node = Some(i);
        self.meter += 1;
        Ok(())
    }
}
