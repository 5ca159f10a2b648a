use geometry::{Label, Rect};

// How many slots a node has.
pub const SLOTS: usize = 12;

// What a node has in one of its twelve places: nothing, a label, or a branch, which is a box and the node it leads to.
#[derive(Clone, Copy, Debug, PartialEq, Eq)]
pub enum Slot {
    Empty,
    Holds(Label),
    Leads(Rect, usize),
}
