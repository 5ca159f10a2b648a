// Queries over any node store and any measure: the nearest labels, and the mutual ones. What a call leaves of the
// store, and how far its meter may stand before, is said in each contract: no type can say it of a store that is lent.
#![tactic(auto)]

mod checking;
mod entering;
mod gathering;
pub mod queries;
mod query;
mod sight;
mod walking;

pub use neighbours::Told;
pub use queries::{mutual, nearest, spare_item, work_places};
