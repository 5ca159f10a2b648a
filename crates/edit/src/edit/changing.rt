ghost use Rattle.std.specs.Prelude.{◌≡◌, ◌∷◌, false};
ghost use Rattle.geometry.specs.Numbers.{present};
ghost use Rattle.index.specs.Table.{plan};
ghost use Rattle.runs.specs.Layers.{frame, shown, closed};
ghost use Rattle.runs.specs.Changes.{add_result, add_layer, withdraw_result, withdraw_layer};
ghost use Rattle.runs.specs.Runs.{Step, state_of, adding, withdrawing};
ghost use Rattle.edit.specs.Showing.{layer_of};

use super::Edit;
use crate::seeking::has_number;
use geometry::{Label, Reason, Refusal};
use index::NodeStore;

impl<S: NodeStore> Edit<S> {
    // Whether the plan has the number, where the edit is not closed. Sets the meter to 0 first, so that it does not meet
    // its end.
    fn has(&mut self, number: u32) -> bool
        requires { closed (S.table self.old.below) ≡ false }
        ensures value { result ≡ present number (plan (⟦<Edit<S> as NodeStore>⟧.table self.old)) }
        ensures table { S.table self.new.below ≡ S.table self.old.below }
        ensures frames { S.frames self.new.below ≡ S.frames self.old.below }
        ensures changes { self.new.changes ≡ self.old.changes }
    {
        self.below.zero();
        self.own = 0;
        if self.changes.adds(number) {
            return true;
        }
        !self.changes.hides(number) && has_number(&mut self.below, number)
    }

    // Puts a label among the added.
    fn put(&mut self, number: u32, x: i32, y: i32) -> Result<(), Refusal>
        ensures told { result ≡ add_result (S.table self.old.below) (layer_of self.old.changes) number x y }
        ensures layer { layer_of self.new.changes ≡ add_layer (layer_of self.old.changes) number x y result }
        ensures table { S.table self.new.below ≡ S.table self.old.below }
        ensures frames { S.frames self.new.below ≡ S.frames self.old.below }
    {
        if self.is_closed() {
            return Err(Reason::EditClosed.into());
        }
        let label = Label::new(number, x, y)?;
        if self.has(number) {
            return Err(Reason::NumberPresent.into());
        }
        self.changes.add(label)
    }

    // Takes the label of the number out.
    fn take_out(&mut self, number: u32) -> Result<(), Refusal>
        ensures told { result ≡ withdraw_result (S.table self.old.below) (layer_of self.old.changes) number }
        ensures layer { layer_of self.new.changes ≡ withdraw_layer (layer_of self.old.changes) number result }
        ensures table { S.table self.new.below ≡ S.table self.old.below }
        ensures frames { S.frames self.new.below ≡ S.frames self.old.below }
    {
        if self.is_closed() {
            return Err(Reason::EditClosed.into());
        }
        if !self.has(number) {
            return Err(Reason::NumberAbsent.into());
        }
        self.changes.withdraw(number)
    }

    // Adds a label whose number is not in the plan.
    pub fn add(&mut self, number: u32, x: i32, y: i32) -> Result<(), Refusal>
        ensures told { result ≡ add_result (S.table self.old.below) (layer_of self.old.changes) number x y }
        ensures table { ⟦<Edit<S> as NodeStore>⟧.table self.new ≡ shown (add_layer (layer_of self.old.changes) number x y result) (S.table self.old.below) }
        ensures frames { ⟦<Edit<S> as NodeStore>⟧.frames self.new ≡ frame (add_layer (layer_of self.old.changes) number x y result) (S.table self.old.below) ∷ S.frames self.old.below }
        ensures step { Step (adding number x y result) (state_of ⟦<Edit<S> as NodeStore>⟧ self.old) (state_of ⟦<Edit<S> as NodeStore>⟧ self.new) }
    {
        self.put(number, x, y)
    }

    // Withdraws the label of the number: one that was added is dropped, and one below is hidden.
    pub fn withdraw(&mut self, number: u32) -> Result<(), Refusal>
        ensures told { result ≡ withdraw_result (S.table self.old.below) (layer_of self.old.changes) number }
        ensures table { ⟦<Edit<S> as NodeStore>⟧.table self.new ≡ shown (withdraw_layer (layer_of self.old.changes) number result) (S.table self.old.below) }
        ensures frames { ⟦<Edit<S> as NodeStore>⟧.frames self.new ≡ frame (withdraw_layer (layer_of self.old.changes) number result) (S.table self.old.below) ∷ S.frames self.old.below }
        ensures step { Step (withdrawing number result) (state_of ⟦<Edit<S> as NodeStore>⟧ self.old) (state_of ⟦<Edit<S> as NodeStore>⟧ self.new) }
    {
        self.take_out(number)
    }
}
