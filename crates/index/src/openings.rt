ghost use Rattle.std.specs.Prelude.{◌≤◌};

pub mod opening;
pub mod reading;

// The node of a store that is open, if one is, and the meter of its openings.
#[derive(Clone, Copy, Debug, PartialEq, Eq)]
pub struct Openings {
    node: Option<usize>,
    meter: u32,
    ghost bounded: { meter ≤ 2000000 },
}
