// Who is near to whom, and which nodes a search has to look into: the definitions, and the items of a search.
#![tactic(auto)]

pub mod arrival;
pub mod item;
pub mod limit;
pub mod told;
pub mod view;

pub use arrival::Arrival;
pub use item::{Item, Subject};
pub use limit::Limit;
pub use told::Told;
pub use view::View;
