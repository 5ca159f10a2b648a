// The plan at hand with the edits over it: a type for each level, since an edit takes the store below.
ghost use Rattle.std.specs.Prelude.{◌≡◌, ℕ, ◌+◌, ◌-◌, ◌≤◌, false, [], nat_lt, MatchBool, MatchOption, IfOk, vec_items};
ghost use Rattle.index.specs.Table.{plan};
ghost use Rattle.runs.specs.Runs.{Step, state_of, opening, adding, withdrawing, keeping, cancelling};
ghost use Rattle.labelplan.specs.Piles.{has_edit};

use crate::plan::MapPlan;
use edit::{Edit, Kept};
use geometry::{Label, Refusal};
use index::NodeStore;
use std::alloc::{AllocError, Global};

pub mod bottom;
pub mod level;
pub mod store;

// A level of a pile: the store below, or an edit over it, which may be kept. The boxes keep the type of many levels small.
#[derive(Drop)]
pub enum Layered<S> {
    Bare(S),
    Edited(Box<Edit<S>>),
    Kept(Box<Kept<S>>),
}

// Four levels over a store.
type Four<S> = Layered<Layered<Layered<Layered<S>>>>;

// Eight edits can lie one over another.
pub type Pile = Four<Four<MapPlan>>;

// A store over which edits can be opened. An edit is open where there is one on top and it is not kept.
pub trait Editable: NodeStore + Drop {
    // how many levels there are
    ghost depth: { ℕ };

    // how many edits can be opened yet, one over another
    ghost room: { Self → ℕ };

    // The plan alone, with room for an edit at each level.
    fn on(plan: MapPlan) -> Self
        ensures room { room result ≡ depth }
        ensures table { Self.table result ≡ ⟦<MapPlan as NodeStore>⟧.table plan }
        ensures frames { Self.frames result ≡ [] };

    // The labels that it shows, from node to node. Which store shows them is asked here once, so that each has an arm of
    // its own: asked through every level at each slot, it takes several times as long.
    fn labels(&mut self, heap: Global) -> Result<Vec<Label>, AllocError>
        ensures table { Self.table self.new ≡ Self.table self.old }
        ensures labels { IfOk result (λ labels. vec_items labels ≡ plan (Self.table self.old)) };

    // A line for each of its nodes, by arms for the same reason.
    fn nodes(&mut self, heap: Global) -> Result<String, AllocError>
        ensures { Self.table self.new ≡ Self.table self.old };

    fn has_room(&self) -> bool
        ensures { result ≡ nat_lt 0 (room self.now) };

    fn is_open(&self) -> bool
        ensures { result ≡ has_edit (Self.frames self.now) };

    // Opens an edit, where there is room.
    fn begin(self, heap: Global) -> Result<Self, AllocError>
        ensures room { IfOk result (λ pile. room pile ≡ room self - 1) }
        ensures step { IfOk result (λ pile. MatchBool (nat_lt 0 (room self)) (Step opening (state_of ⟦<Self as NodeStore>⟧ self) (state_of ⟦<Self as NodeStore>⟧ pile)) (pile ≡ self)) };

    // Adds a label in the edit that is open, if one is.
    fn add(&mut self, number: u32, x: i32, y: i32) -> Option<Result<(), Refusal>>
        ensures room { room self.new ≡ room self.old }
        ensures step { MatchOption result ((has_edit (Self.frames self.old) ≡ false) × (self.new ≡ self.old)) (λ r. Step (adding number x y r) (state_of ⟦<Self as NodeStore>⟧ self.old) (state_of ⟦<Self as NodeStore>⟧ self.new)) };

    // Withdraws a label in the edit that is open, if one is.
    fn withdraw(&mut self, number: u32) -> Option<Result<(), Refusal>>
        ensures room { room self.new ≡ room self.old }
        ensures step { MatchOption result ((has_edit (Self.frames self.old) ≡ false) × (self.new ≡ self.old)) (λ r. Step (withdrawing number r) (state_of ⟦<Self as NodeStore>⟧ self.old) (state_of ⟦<Self as NodeStore>⟧ self.new)) };

    // Keeps the edit that is open, if one is.
    fn keep(self, heap: Global) -> Result<Self, AllocError>
        ensures room { IfOk result (λ pile. room pile ≡ room self) }
        ensures step { IfOk result (λ pile. MatchBool (has_edit (Self.frames self)) (Step keeping (state_of ⟦<Self as NodeStore>⟧ self) (state_of ⟦<Self as NodeStore>⟧ pile)) (pile ≡ self)) };

    // Cancels the edit that is open, if one is.
    fn cancel(self) -> Self
        ensures room { MatchBool (has_edit (Self.frames self)) (room self + 1 ≤ room result) (room result ≡ room self) }
        ensures step { MatchBool (has_edit (Self.frames self)) (Step cancelling (state_of ⟦<Self as NodeStore>⟧ self) (state_of ⟦<Self as NodeStore>⟧ result)) (result ≡ self) };
}
