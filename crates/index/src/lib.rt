// The tree of nodes that queries read: what a node store is, and makers of one.
#![tactic(auto)]

pub mod openings;
pub mod slot;
pub mod slots;
pub mod store;

pub use openings::Openings;
pub use slot::{SLOTS, Slot};
pub use slots::open_slots;
pub use store::NodeStore;
