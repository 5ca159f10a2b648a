// Measures: the distance of two places, and the near bound from a place to a box.
#![tactic(auto)]

ghost use Rattle.std.specs.Prelude.{◌≡◌, ◌≤◌, true, false};
ghost use Rattle.std.proofs.Common.{ap};
ghost use Rattle.geometry.specs.declared.place.Place.{Place};
ghost use Rattle.geometry.specs.declared.rect.Rect.{Rect};
ghost use Rattle.geometry.specs.Plane.{holds, covering};
ghost use Rattle.measure.specs.Formula.{differences, gaps, straight, street, tile};
ghost use Rattle.measure.specs.Gaps.{swapped, within, nested};
ghost use Rattle.measure.specs.Formulas.{straight-grows, street-grows, tile-grows};

use geometry::{Place, Rect};
use queue::Ranked;
use std::marker::Model;

// A measure, with the laws that every search rests on.
pub trait Measure {
    type Distance: Ranked;

    // the distance of two places
    ghost dist: { Self → Place → Place → Self.Distance };

    // the near bound from a place to a box
    ghost bound: { Self → Place → Rect → Self.Distance };

    fn distance(&self, a: Place, b: Place) -> Self::Distance
        ensures { result ≡ dist self.now a b };

    fn near(&self, a: Place, b: &Rect) -> Self::Distance
        ensures { result ≡ bound self.now a b.now };

    // distance is the same both ways
    ghost symmetric: { (m : Self) (a b : Place) → dist m a b ≡ dist m b a };

    // the near bound is no greater than the distance to any place in the box
    ghost below: { (m : Self) (a p : Place) (b : Rect) → holds b p ≡ true → Self.Distance.Ranked.precedes (dist m a p) (bound m a b) ≡ false };

    // a box inside another has a near bound no smaller
    ghost inner: { (m : Self) (a : Place) (b c : Rect) → covering b c ≡ true → Self.Distance.Ranked.precedes (bound m a c) (bound m a b) ≡ false };
}

// The differences of two places, or the gaps of a place to a box, in x and in y.
#[derive(Clone, Copy)]
struct Differences {
    x: u32,
    y: u32,
}

impl Model for Differences {
    ghost use Rattle.std.specs.Prelude.{ℕ, ◌≤◌};

    ghost Value = { ℕ × ℕ };

    ghost view = { λ d. (d.x, d.y) };

    ghost invariant = { λ d. (d.x ≤ 2000000) × (d.y ≤ 2000000) };

    ghost inverse = { λ v. record { x = v.0; y = v.1 } };
}

impl Differences {
    fn between(a: Place, b: Place) -> Differences
        ensures { result ≡ differences a b }
    {
        Differences {
            x: a.x().abs_diff(b.x()),
            y: a.y().abs_diff(b.y()),
        }
    }

    fn up_to(a: Place, b: &Rect) -> Differences
        ensures { result ≡ gaps a b.now }
    {
        Differences {
            x: b.gap_x(a),
            y: b.gap_y(a),
        }
    }

    // The sum of the squares.
    fn straight(self) -> u64
        ensures { result ≡ straight self }
    {
        let (x, y) = (u64::from(self.x), u64::from(self.y));
        x * x + y * y
    }

    // The sum.
    fn street(self) -> u32
        ensures { result ≡ street self }
    {
        self.x + self.y
    }

    // The larger, then the smaller.
    fn tile(self) -> (u32, u32)
        ensures { result ≡ tile self }
    {
        (self.x.max(self.y), self.x.min(self.y))
    }
}

// The straight measure: the sum of the squares of the differences, which orders as the straight line does.
#[derive(Clone, Copy)]
pub struct Straight;

// The street measure: the sum of the differences.
#[derive(Clone, Copy)]
pub struct Street;

// The tile measure: the larger difference, then the smaller.
#[derive(Clone, Copy)]
pub struct Tile;

// The three impls differ in the formula alone, and each stands for itself: it is a rule of the project that a measure
// proves the laws of its own distances.
impl Measure for Straight {
    type Distance = u64;

    ghost dist = { λ _ a b. straight (differences a b) };

    ghost bound = { λ _ a b. straight (gaps a b) };

    ghost symmetric = { λ m a b. ap straight (swapped a b) };

    ghost below = { λ m a p b h. straight-grows _ _ (within a p b h) };

    ghost inner = { λ m a b c h. straight-grows _ _ (nested a b c h) };

    fn distance(&self, a: Place, b: Place) -> u64 {
        Differences::between(a, b).straight()
    }

    fn near(&self, a: Place, b: &Rect) -> u64 {
        Differences::up_to(a, b).straight()
    }
}

impl Measure for Street {
    type Distance = u32;

    ghost dist = { λ _ a b. street (differences a b) };

    ghost bound = { λ _ a b. street (gaps a b) };

    ghost symmetric = { λ m a b. ap street (swapped a b) };

    ghost below = { λ m a p b h. street-grows _ _ (within a p b h) };

    ghost inner = { λ m a b c h. street-grows _ _ (nested a b c h) };

    fn distance(&self, a: Place, b: Place) -> u32 {
        Differences::between(a, b).street()
    }

    fn near(&self, a: Place, b: &Rect) -> u32 {
        Differences::up_to(a, b).street()
    }
}

impl Measure for Tile {
    type Distance = (u32, u32);

    ghost dist = { λ _ a b. tile (differences a b) };

    ghost bound = { λ _ a b. tile (gaps a b) };

    ghost symmetric = { λ m a b. ap tile (swapped a b) };

    ghost below = { λ m a p b h. tile-grows _ _ (within a p b h) };

    ghost inner = { λ m a b c h. tile-grows _ _ (nested a b c h) };

    fn distance(&self, a: Place, b: Place) -> (u32, u32) {
        Differences::between(a, b).tile()
    }

    fn near(&self, a: Place, b: &Rect) -> (u32, u32) {
        Differences::up_to(a, b).tile()
    }
}
