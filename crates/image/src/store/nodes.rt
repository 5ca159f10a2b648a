ghost use Rattle.std.specs.Prelude.{◌≡◌};
ghost use Rattle.image.specs.Layout.{image_of};
ghost use Rattle.image.specs.Nodes.{table_of};
ghost use Rattle.image.specs.Opened.{noted};
ghost use Rattle.image.specs.Held.{opens-inside, held-lawful};
ghost use Rattle.std.proofs.Common.{rules, arith};

use super::ImageStore;
use geometry::{Rect, Refusal};
use index::{NodeStore, Slot};

impl NodeStore for ImageStore {
    ghost table = { λ s. table_of (image_of s.bytes.items) };

    ghost opened = { λ s. s.openings.node };

    ghost metered = { λ s. s.openings.meter };

    ghost lawful = { λ s. held-lawful s.bytes.items s.fine };

    ghost within = { λ s. opens-inside (image_of s.bytes.items) s.openings.node (noted s.starts s.openings.node) s.within };

    ghost bounded = { first_of (Prim.search rules, Prim.grind (arith, Self.row.coded.inj)) };

    fn node_count(&self) -> usize {
        self.nodes
    }

    fn root_box(&self) -> Rect {
        self.reader().rect(0).unwrap()
    }

    fn meter(&self) -> u32 {
        self.openings.meter()
    }

    fn slot(&self, j: usize) -> Slot {
        match self.openings.node() {
            None => Slot::Empty,
            Some(i) => self.reader().slot(i, usize::from(self.starts[i]), j),
        }
    }

    fn zero(&mut self) {
        self.openings.zero();
    }

    fn open(&mut self, i: usize) -> Result<(), Refusal> {
        self.openings.open(self.nodes, i)
    }
}
