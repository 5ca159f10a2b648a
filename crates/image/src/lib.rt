// Images: tables of nodes written as bytes, and a store that holds one.
#![tactic(auto)]

mod boxes;
mod checks;
mod nodes;
mod numbers;
mod reading;
mod refusing;
mod slots;
pub mod store;
mod targets;

pub use store::ImageStore;
