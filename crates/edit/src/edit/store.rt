ghost use Rattle.std.specs.Prelude.{◌≡◌, ◌∷◌};
ghost use Rattle.runs.specs.Layers.{frame, shown, closed};
ghost use Rattle.runs.proofs.Layering.{shown-lawful};
ghost use Rattle.edit.specs.Showing.{layer_of, opened_at, counted};
ghost use Rattle.edit.specs.Laws.{within, bounded};

use super::opening::METER_END;
use super::{At, Edit};
use geometry::{Reason, Rect, Refusal};
use index::{NodeStore, Slot};

impl<S: NodeStore> NodeStore for Edit<S> {
    ghost table = { λ e. shown (layer_of e.changes) (S.table e.below) };

    ghost opened = { λ e. opened_at (closed (S.table e.below)) e.at (S.opened e.below) };

    ghost metered = { λ e. counted (closed (S.table e.below)) (S.metered e.below) e.own };

    ghost frames = { λ e. frame (layer_of e.changes) (S.table e.below) ∷ S.frames e.below };

    ghost lawful = { λ e. shown-lawful (layer_of e.changes) (S.table e.below) (S.lawful e.below) e.changes.few e.changes.apart };

    ghost within = { λ e. within (layer_of e.changes) (S.table e.below) e.at (S.opened e.below) (S.within e.below) };

    ghost bounded = { λ e. bounded (closed (S.table e.below)) (S.metered e.below) e.own (S.bounded e.below) };

    fn node_count(&self) -> usize {
        if self.is_closed() {
            self.below.node_count()
        } else {
            self.below.node_count() + 2
        }
    }

    fn root_box(&self) -> Rect {
        let below = self.below.root_box();
        if self.is_closed() {
            below
        } else {
            Rect::around(&below, &self.changes.around(below))
        }
    }

    fn meter(&self) -> u32 {
        if self.is_closed() {
            self.below.meter()
        } else {
            (self.below.meter() + self.own).min(METER_END)
        }
    }

    fn slot(&self, j: usize) -> Slot {
        if self.is_closed() {
            return self.slot_closed(j);
        }
        match self.at {
            At::Nowhere => Slot::Empty,
            At::Root => self.root_slot(j),
            At::Added => self.changes.slot(j),
            At::Below => self.slot_below(j),
        }
    }

    fn zero(&mut self) {
        self.below.zero();
        self.own = 0;
    }

    fn open(&mut self, i: usize) -> Result<(), Refusal> {
        self.check_opening(i)?;
        self.open_node(i);
        Ok(())
    }
}
