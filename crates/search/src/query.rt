ghost use Rattle.std.specs.Prelude.{◌≤◌};

use geometry::Place;

// A query as it was admitted: by which measure and from where, and whose label is left out. Fewer than `k` others are
// nearer than an answer, and fewer than `confirming` in turn, where answers are confirmed.
#[derive(Drop)]
pub(crate) struct Query<'a, M> {
    pub measure: &'a M,
    pub from: Place,
    pub own: Option<u32>,
    pub k: u32,
    pub confirming: Option<u32>,
    ghost counted: { 1 ≤ k },
}
