// The lines of a script: the commands that they give, and the lines that answer them.
#![tactic(auto)]

pub mod command;
mod number;
pub mod report;

pub use command::{Command, MeasureKind, Query, WorkList, parse};
