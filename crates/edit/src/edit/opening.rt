ghost use Rattle.std.specs.Prelude.{◌≡◌, ◌<◌, ◌+◌, true, Some, slice_index_or};
ghost use Rattle.index.specs.declared.slot.Slot.TheVariants.{Empty};
ghost use Rattle.edit.specs.declared.edit.At.TheVariants.{Below};
ghost use Rattle.index.specs.Table.{slot_at, node_count};
ghost use Rattle.index.specs.Opening.{open_result, opens};
ghost use Rattle.runs.specs.Layers.{closed, root_slots, added_slots, added_box, through};
ghost use Rattle.edit.specs.Showing.{layer_of, opened_at, counted};

use super::{At, Edit};
use geometry::{Reason, Rect, Refusal};
use index::{NodeStore, Slot};

// An edit over more nodes is closed.
const MOST_NODES: usize = 298;

// The meter counts no further.
pub(crate) const METER_END: u32 = 2_000_000;

impl<S: NodeStore> Edit<S> {
    // Whether there is no room for a layer over the store below.
    pub(crate) fn is_closed(&self) -> bool
        ensures { result ≡ closed (S.table self.now.below) }
    {
        self.below.node_count() > MOST_NODES
    }

    // What the new root has in slot `j`.
    pub(crate) fn root_slot(&self, j: usize) -> Slot
        ensures { result ≡ slice_index_or (root_slots (S.table self.now.below).box (added_box (layer_of self.now.changes).added (S.table self.now.below).box)) j Empty }
    {
        let below = self.below.root_box();
        match j {
            0 => Slot::Leads(below, 2),
            1 => Slot::Leads(self.changes.around(below), 1),
            _ => Slot::Empty,
        }
    }

    // What slot `j` of the node that is open below shows.
    pub(crate) fn slot_below(&self, j: usize) -> Slot
        ensures { result ≡ through (layer_of self.now.changes) (slot_at (S.table self.now.below) (S.opened self.now.below) j) }
    {
        match self.below.slot(j) {
            Slot::Empty => Slot::Empty,
            Slot::Holds(label) => {
                if self.changes.hides(label.number()) {
                    Slot::Empty
                } else {
                    Slot::Holds(label)
                }
            }
            Slot::Leads(around, node) => Slot::Leads(around, node + 2),
        }
    }

    // The refusal of opening node `i`, if it is refused.
    pub(crate) fn check_opening(&self, i: usize) -> Result<(), Refusal>
        ensures { result ≡ open_result (⟦<Edit<S> as NodeStore>⟧.table self.now) i (⟦<Edit<S> as NodeStore>⟧.metered self.now) }
    {
        if i >= self.node_count() {
            return Err(Reason::NoSuchNode.into());
        }
        if self.meter() >= METER_END {
            return Err(Reason::MeterAtEnd.into());
        }
        Ok(())
    }

    // What slot `j` of the open node shows where the edit is closed.
    pub(crate) fn slot_closed(&self, j: usize) -> Slot
        ensures { result ≡ slot_at (S.table self.now.below) (opened_at true self.now.at (S.opened self.now.below)) j }
    {
        match self.at {
            At::Below => self.below.slot(j),
            _ => Slot::Empty,
        }
    }

    // Opens node `i` of the store below.
    fn open_below(&mut self, i: usize)
        requires accepted { opens (S.table self.old.below) i (S.metered self.old.below) ≡ true }
        ensures table { S.table self.new.below ≡ S.table self.old.below }
        ensures frames { S.frames self.new.below ≡ S.frames self.old.below }
        ensures opened { S.opened self.new.below ≡ Some i }
        ensures metered { S.metered self.new.below ≡ S.metered self.old.below + 1 }
        ensures rest { (self.new.changes ≡ self.old.changes) × (self.new.at ≡ Below) × (self.new.own ≡ self.old.own) }
    {
        let Ok(()) = self.below.open(i) else {
            unreachable!()
        };
        self.at = At::Below;
    }

    // Opens node `i`.
    pub(crate) fn open_node(&mut self, i: usize)
        requires accepted { opens (⟦<Edit<S> as NodeStore>⟧.table self.old) i (⟦<Edit<S> as NodeStore>⟧.metered self.old) ≡ true }
        ensures table { ⟦<Edit<S> as NodeStore>⟧.table self.new ≡ ⟦<Edit<S> as NodeStore>⟧.table self.old }
        ensures frames { ⟦<Edit<S> as NodeStore>⟧.frames self.new ≡ ⟦<Edit<S> as NodeStore>⟧.frames self.old }
        ensures opened { ⟦<Edit<S> as NodeStore>⟧.opened self.new ≡ Some i }
        ensures metered { ⟦<Edit<S> as NodeStore>⟧.metered self.new ≡ ⟦<Edit<S> as NodeStore>⟧.metered self.old + 1 }
    {
        if self.is_closed() {
            self.open_below(i);
        } else if i >= 2 {
            self.open_below(i - 2);
        } else {
            self.at = if i == 0 { At::Root } else { At::Added };
            self.own += 1;
        }
    }
}
