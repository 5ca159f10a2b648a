// The labels nearest to a place, listed from a plain list of labels: the reference for indexed answers.
#![tactic(auto)]

pub mod failure;
pub mod found;
pub mod list;

pub use failure::Failure;
pub use found::Found;
pub use list::LabelList;
pub use list::nearest::{counted, nearest_of};
