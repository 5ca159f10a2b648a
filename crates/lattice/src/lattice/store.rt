ghost use Rattle.lattice.specs.Shown.{table_of};
ghost use Rattle.lattice.specs.Shows.{shows-lawful, shows-inside};

use super::Lattice;
use super::crossings::advance;
use geometry::{Rect, Refusal};
use index::{NodeStore, Slot};

impl NodeStore for Lattice {
    ghost table = { table_of };

    ghost opened = { λ l. l.openings.node };

    ghost metered = { λ l. l.openings.meter };

    ghost lawful = { λ l. shows-lawful l };

    ghost within = { λ l. shows-inside l };

    ghost bounded = { λ l. l.openings.bounded };

    fn node_count(&self) -> usize {
        self.rows as usize + 1
    }

    fn root_box(&self) -> Rect {
        self.box_between(self.y, advance(self.y, self.step, self.rows - 1))
    }

    fn meter(&self) -> u32 {
        self.openings.meter()
    }

    fn slot(&self, j: usize) -> Slot {
        match self.openings.node() {
            None => Slot::Empty,
            Some(0) => self.root_slot(j),
            Some(i) => self.leaf_slot(i - 1, j),
        }
    }

    fn zero(&mut self) {
        self.openings.zero();
    }

    fn open(&mut self, i: usize) -> Result<(), Refusal> {
        let nodes = self.node_count();
        self.openings.open(nodes, i)
    }
}
