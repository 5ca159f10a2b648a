ghost use Rattle.std.specs.Prelude.{◌≡◌};
ghost use Rattle.geometry.specs.Plane.{rect_from, around, spot, Smallest};

use super::Rect;
use super::span::Span;
use crate::place::Place;
use crate::refusal::{Reason, Refusal};

impl Rect {
    pub fn new(west: i32, south: i32, east: i32, north: i32) -> Result<Rect, Refusal>
        ensures { result ≡ rect_from west south east north }
    {
        let across = Span {
            low: west,
            high: east,
        };
        let along = Span {
            low: south,
            high: north,
        };
        if !across.is_side() || !along.is_side() {
            return Err(Reason::BadBox.into());
        }
        Ok(Rect {
            west,
            south,
            east,
            north,
        })
    }

    // The box of a single place.
    pub fn spot(p: Place) -> Rect
        ensures { result ≡ spot p }
    {
        Rect {
            west: p.x(),
            south: p.y(),
            east: p.x(),
            north: p.y(),
        }
    }

    // The smallest box around both.
    pub fn around(a: &Rect, b: &Rect) -> Rect
        ensures value { result ≡ around a.now b.now }
        ensures smallest { Smallest result a.now b.now }
    {
        Rect {
            west: a.west.min(b.west),
            south: a.south.min(b.south),
            east: a.east.max(b.east),
            north: a.north.max(b.north),
        }
    }
}
