// The checks of the boxes.
ghost use Rattle.std.specs.Prelude.{◌≡◌, ◌<◌, ◌&&◌, int_le};
ghost use Rattle.geometry.specs.declared.refusal.Reason.TheVariants.{BadBox, OutsideBox};
ghost use Rattle.geometry.specs.Plane.{span, spanning};
ghost use Rattle.image.specs.Layout.{image_of};
ghost use Rattle.image.specs.Checks.{first_bad, at_first, box_fine, inside_fine};
ghost use Rattle.image.specs.Results.{as_result, inside_of};

use crate::nodes::Entries;
use crate::reading::Reader;
use crate::refusing::refuse_at;
use crate::targets::Leads;
use geometry::{Reason, Refusal};

// Whether the numbers from `low` to `high` hold those from `first` to `last`. Geometry's `Span` has the same test and
// is its own: made public, it would bring three other calls for this one.
fn is_spanning(low: i32, high: i32, first: i32, last: i32) -> bool
    ensures { result ≡ spanning low high first last }
{
    low <= first && last <= high
}

impl Reader<'_> {
    // Whether the box of entry `e` is upright and on the map.
    fn is_box(self, e: usize) -> bool
        requires { e < self.entries }
        ensures { result ≡ (span ((image_of self.entry.bytes.now).west e) ((image_of self.entry.bytes.now).east e) && span ((image_of self.entry.bytes.now).south e) ((image_of self.entry.bytes.now).north e)) }
    {
        self.rect(e).is_ok()
    }

    // Whether the box of entry `e`, which is upright, is one place.
    fn is_place(self, e: usize) -> bool
        requires { e < self.entries }
        ensures { result ≡ (int_le ((image_of self.entry.bytes.now).east e) ((image_of self.entry.bytes.now).west e) && int_le ((image_of self.entry.bytes.now).north e) ((image_of self.entry.bytes.now).south e)) }
    {
        self.east(e) <= self.west(e) && self.north(e) <= self.south(e)
    }

    // Whether the box of entry `e` lies in that of entry `b`.
    fn is_inside(self, b: usize, e: usize) -> bool
        requires { (b < self.entries) × (e < self.entries) }
        ensures { result ≡ inside_of (image_of self.entry.bytes.now) b e }
    {
        is_spanning(self.west(b), self.east(b), self.west(e), self.east(e))
            && is_spanning(self.south(b), self.north(b), self.south(e), self.north(e))
    }
}

impl Entries<'_> {
    fn is_box_fine(self, e: usize) -> bool
        requires { e < self.reader.entries }
        ensures { result ≡ box_fine (image_of self.entry.reader.bytes.now) e }
    {
        if !self.reader.is_box(e) {
            return false;
        }
        if self.is_leaf_entry(e) {
            return self.reader.is_place(e);
        }
        true
    }

    // Every box is upright and on the map, and that of a label is one place.
    pub(crate) fn check_boxes(self) -> Result<(), Refusal>
        ensures { result ≡ as_result (at_first (first_bad (box_fine (image_of self.entry.reader.bytes.now)) self.entry.reader.entries) (λ _. BadBox)) }
    {
        refuse_at(
            (0..self.reader.entries).find(|e| !self.is_box_fine(*e)),
            Reason::BadBox,
        )
    }
}

impl Leads<'_> {
    // Whether entry `e`, if it is not entry 0, lies inside its node's box.
    fn is_in_place(&self, e: usize) -> bool
        requires { e < self.now.entries.reader.entries }
        ensures { result ≡ inside_fine (image_of self.entry.now.entries.reader.bytes.now) e }
    {
        e == 0
            || self
                .entries
                .reader
                .is_inside(self.leaders[self.entries.owners[e]].unwrap_or(0), e)
    }

    // Every entry but entry 0 lies inside its node's box.
    pub(crate) fn check_inside(&self) -> Result<(), Refusal>
        ensures { result ≡ as_result (at_first (first_bad (inside_fine (image_of self.entry.now.entries.reader.bytes.now)) self.entry.now.entries.reader.entries) (λ _. OutsideBox)) }
    {
        refuse_at(
            (0..self.entries.reader.entries).find(|e| !self.is_in_place(*e)),
            Reason::OutsideBox,
        )
    }
}
