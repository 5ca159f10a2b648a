ghost use Rattle.std.specs.Prelude.{◌≡◌, ◌≤◌, unsigned_abs};

pub mod making;

// A place on the map, in whole metres from its middle.
#[derive(Clone, Copy, Debug, PartialEq, Eq, PartialOrd, Ord)]
pub struct Place {
    x: i32,
    y: i32,
    ghost near: { (unsigned_abs x ≤ 1000000) × (unsigned_abs y ≤ 1000000) },
}
