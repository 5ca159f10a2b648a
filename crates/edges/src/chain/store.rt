ghost use Rattle.std.specs.Prelude.{◌≡◌, ◌≤◌, slice_index_or};
ghost use Rattle.index.specs.declared.slot.Slot.TheVariants.{Empty};
ghost use Rattle.index.specs.Table.{node_at};
ghost use Rattle.edges.specs.Chain.{chain_table};
ghost use Rattle.edges.specs.Linked.{lawful, node-inside};

use super::Chain;
use geometry::{Rect, Refusal};
use index::{NodeStore, Slot};

impl Chain {
    // Slot `j` of node `i`.
    fn slot_of(&self, i: usize, j: usize) -> Slot
        requires { i ≤ self.now.last }
        ensures { result ≡ slice_index_or (node_at (chain_table self.now.last self.now.label) i) j Empty }
    {
        if j > 0 {
            return Slot::Empty;
        }
        if i < self.last {
            Slot::Leads(self.root_box(), i + 1)
        } else {
            Slot::Holds(self.label)
        }
    }
}

impl NodeStore for Chain {
    ghost table = { λ c. chain_table c.last c.label };

    ghost opened = { λ c. c.openings.node };

    ghost metered = { λ c. c.openings.meter };

    ghost lawful = { λ c. lawful c.last c.label c.few };

    ghost within = { λ c. node-inside c.last c.label c.openings.node c.within };

    ghost bounded = { λ c. c.openings.bounded };

    fn node_count(&self) -> usize {
        self.last + 1
    }

    fn root_box(&self) -> Rect {
        Rect::spot(self.label.place())
    }

    fn meter(&self) -> u32 {
        self.openings.meter()
    }

    fn slot(&self, j: usize) -> Slot {
        match self.openings.node() {
            None => Slot::Empty,
            Some(i) => self.slot_of(i, j),
        }
    }

    fn zero(&mut self) {
        self.openings.zero();
    }

    fn open(&mut self, i: usize) -> Result<(), Refusal> {
        let nodes = self.node_count();
        self.openings.open(nodes, i)
    }
}
