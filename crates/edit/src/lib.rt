// Edits over any store: labels added and withdrawn, which are kept or cancelled.
#![tactic(auto)]

mod changes;
pub mod edit;
pub mod kept;
pub mod rehearsing;
mod seeking;

pub use edit::Edit;
pub use kept::Kept;
pub use rehearsing::{Rehearsal, rehearse};
