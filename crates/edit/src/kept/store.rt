ghost use Rattle.runs.specs.Layers.{closed};
ghost use Rattle.runs.proofs.Layering.{shown-lawful};
ghost use Rattle.edit.specs.Showing.{layer_of};
ghost use Rattle.edit.specs.Laws.{within, bounded};

use super::Kept;
use crate::edit::Edit;
use geometry::{Rect, Refusal};
use index::{NodeStore, Slot};

// A kept edit is read as the edit that it is; no layers of changes lie beneath it.
impl<S: NodeStore> NodeStore for Kept<S> {
    ghost table = { λ k. ⟦<Edit<S> as NodeStore>⟧.table k.edit };

    ghost opened = { λ k. ⟦<Edit<S> as NodeStore>⟧.opened k.edit };

    ghost metered = { λ k. ⟦<Edit<S> as NodeStore>⟧.metered k.edit };

    ghost lawful = { λ k. shown-lawful (layer_of k.edit.changes) (S.table k.edit.below) (S.lawful k.edit.below) k.edit.changes.few k.edit.changes.apart };

    ghost within = { λ k. within (layer_of k.edit.changes) (S.table k.edit.below) k.edit.at (S.opened k.edit.below) (S.within k.edit.below) };

    ghost bounded = { λ k. bounded (closed (S.table k.edit.below)) (S.metered k.edit.below) k.edit.own (S.bounded k.edit.below) };

    fn node_count(&self) -> usize {
        self.edit.node_count()
    }

    fn root_box(&self) -> Rect {
        self.edit.root_box()
    }

    fn meter(&self) -> u32 {
        self.edit.meter()
    }

    fn slot(&self, j: usize) -> Slot {
        self.edit.slot(j)
    }

    fn zero(&mut self) {
        self.edit.zero();
    }

    fn open(&mut self, i: usize) -> Result<(), Refusal> {
        self.edit.open(i)
    }
}
