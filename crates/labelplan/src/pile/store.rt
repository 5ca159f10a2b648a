ghost use Rattle.labelplan.specs.Edits.{edit-lawful, edit-within, edit-bounded};
ghost use Rattle.labelplan.specs.declared.pile.Layered.TheVariants.{Bare, Edited, Kept};

use super::Layered;
use crate::forwarding::in_each;
use edit::{Edit, Kept};
use geometry::{Rect, Refusal};
use index::{NodeStore, Slot};

// Asks the store that a level is, of each kind, in the same words.
macro_rules! on_level {
    ($level:expr, $store:ident => $said:expr) => {
        in_each!($level, Layered [Bare Edited Kept], $store => $said)
    };
}

// A level is read as the store that it is.
impl<S: NodeStore> NodeStore for Layered<S> {
    ghost table = { elim [ Bare s ↦ S.table s | Edited e ↦ ⟦<Edit<S> as NodeStore>⟧.table e.value | Kept k ↦ ⟦<Kept<S> as NodeStore>⟧.table k.value ] };

    ghost opened = { elim [ Bare s ↦ S.opened s | Edited e ↦ ⟦<Edit<S> as NodeStore>⟧.opened e.value | Kept k ↦ ⟦<Kept<S> as NodeStore>⟧.opened k.value ] };

    ghost metered = { elim [ Bare s ↦ S.metered s | Edited e ↦ ⟦<Edit<S> as NodeStore>⟧.metered e.value | Kept k ↦ ⟦<Kept<S> as NodeStore>⟧.metered k.value ] };

    ghost frames = { elim [ Bare s ↦ S.frames s | Edited e ↦ ⟦<Edit<S> as NodeStore>⟧.frames e.value | Kept k ↦ ⟦<Kept<S> as NodeStore>⟧.frames k.value ] };

    ghost lawful = { elim [ Bare s ↦ S.lawful s | Edited e ↦ edit-lawful S.table S.lawful e.value | Kept k ↦ edit-lawful S.table S.lawful k.value.edit ] };

    ghost within = { elim [ Bare s ↦ S.within s | Edited e ↦ edit-within S.table S.opened S.within e.value | Kept k ↦ edit-within S.table S.opened S.within k.value.edit ] };

    ghost bounded = { elim [ Bare s ↦ S.bounded s | Edited e ↦ edit-bounded S.table S.metered S.bounded e.value | Kept k ↦ edit-bounded S.table S.metered S.bounded k.value.edit ] };

    fn node_count(&self) -> usize {
        on_level!(self, store => store.node_count())
    }

    fn root_box(&self) -> Rect {
        on_level!(self, store => store.root_box())
    }

    fn meter(&self) -> u32 {
        on_level!(self, store => store.meter())
    }

    fn slot(&self, j: usize) -> Slot {
        on_level!(self, store => store.slot(j))
    }

    fn zero(&mut self) {
        on_level!(self, store => store.zero())
    }

    fn open(&mut self, i: usize) -> Result<(), Refusal> {
        on_level!(self, store => store.open(i))
    }
}
