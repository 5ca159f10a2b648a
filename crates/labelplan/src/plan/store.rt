ghost use Rattle.labelplan.specs.declared.plan.Plan.TheVariants.{Grid, Image};

use super::Plan;
use crate::forwarding::in_each;
use geometry::{Rect, Refusal};
use index::{NodeStore, Slot};

// Asks the store that a plan is, of either kind, in the same words.
macro_rules! on_store {
    ($plan:expr, $store:ident => $said:expr) => {
        in_each!($plan, Plan [Grid Image], $store => $said)
    };
}

// A plan is read as the store that it is. A macro writes no ghost member, so each of these names both kinds.
impl<G: NodeStore, I: NodeStore> NodeStore for Plan<G, I> {
    ghost table = { elim [ Grid s ↦ G.table s | Image s ↦ I.table s.value ] };

    ghost opened = { elim [ Grid s ↦ G.opened s | Image s ↦ I.opened s.value ] };

    ghost metered = { elim [ Grid s ↦ G.metered s | Image s ↦ I.metered s.value ] };

    ghost frames = { elim [ Grid s ↦ G.frames s | Image s ↦ I.frames s.value ] };

    ghost lawful = { elim [ Grid s ↦ G.lawful s | Image s ↦ I.lawful s.value ] };

    ghost within = { elim [ Grid s ↦ G.within s | Image s ↦ I.within s.value ] };

    ghost bounded = { elim [ Grid s ↦ G.bounded s | Image s ↦ I.bounded s.value ] };

    fn node_count(&self) -> usize {
        on_store!(self, store => store.node_count())
    }

    fn root_box(&self) -> Rect {
        on_store!(self, store => store.root_box())
    }

    fn meter(&self) -> u32 {
        on_store!(self, store => store.meter())
    }

    fn slot(&self, j: usize) -> Slot {
        on_store!(self, store => store.slot(j))
    }

    fn zero(&mut self) {
        on_store!(self, store => store.zero())
    }

    fn open(&mut self, i: usize) -> Result<(), Refusal> {
        on_store!(self, store => store.open(i))
    }
}
