ghost use Rattle.std.specs.Prelude.{◌≤◌, ◌≤ℤ◌, unsigned_abs};

pub mod making;
pub mod relations;
pub mod sides;
mod span;

// A box on the map: a bounding rectangle, its sides included.
#[derive(Clone, Copy, Debug, PartialEq, Eq)]
pub struct Rect {
    west: i32,
    south: i32,
    east: i32,
    north: i32,
    ghost upright: { (west ≤ℤ east) × (south ≤ℤ north) },
    ghost near: { (unsigned_abs west ≤ 1000000) × (unsigned_abs south ≤ 1000000) × (unsigned_abs east ≤ 1000000) × (unsigned_abs north ≤ 1000000) },
}
