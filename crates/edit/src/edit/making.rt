ghost use Rattle.std.specs.Prelude.{◌≡◌, None, ◌∷◌};
ghost use Rattle.runs.specs.Layers.{bare, frame, shown};
ghost use Rattle.runs.specs.Law.{Law};
ghost use Rattle.edit.specs.Showing.{CountsInFull};
ghost use Rattle.runs.specs.Runs.{Step, state_of, opening, keeping, cancelling};

use super::{At, Edit};
use crate::changes::Changes;
use crate::kept::Kept;
use index::NodeStore;

impl<S: NodeStore> Edit<S> {
    // A new edit over a store.
    pub fn over(below: S) -> Edit<S>
        ensures table { ⟦<Edit<S> as NodeStore>⟧.table result ≡ shown bare (S.table below) }
        ensures frames { ⟦<Edit<S> as NodeStore>⟧.frames result ≡ frame bare (S.table below) ∷ S.frames below }
        ensures step { Step opening (state_of ⟦<S as NodeStore>⟧ below) (state_of ⟦<Edit<S> as NodeStore>⟧ result) }
        ensures counts { CountsInFull }
        ensures law { Law (state_of ⟦<S as NodeStore>⟧ below) }
    {
        Edit {
            below,
            changes: Changes::new(),
            at: At::Nowhere,
            own: 0,
        }
    }

    // The store below, as it was when the edit was opened.
    pub fn cancel(self) -> S
        ensures below { result ≡ self.below }
        ensures step { Step cancelling (state_of ⟦<Edit<S> as NodeStore>⟧ self) (state_of ⟦<S as NodeStore>⟧ result) }
    {
        self.below
    }

    // A store with the table of the edit, which takes no changes.
    pub fn keep(self) -> Kept<S>
        ensures table { ⟦<Kept<S> as NodeStore>⟧.table result ≡ ⟦<Edit<S> as NodeStore>⟧.table self }
        ensures step { Step keeping (state_of ⟦<Edit<S> as NodeStore>⟧ self) (state_of ⟦<Kept<S> as NodeStore>⟧ result) }
    {
        Kept { edit: self }
    }
}
