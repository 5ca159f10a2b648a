// Places, boxes and labels of a map, and the refusals of every call.
#![tactic(auto)]

pub mod label;
pub mod place;
pub mod rect;
pub mod refusal;

pub use label::Label;
pub use label::making::numbered;
pub use place::Place;
pub use place::making::in_range;
pub use rect::Rect;
pub use refusal::{Reason, Refusal};
