// The slots of an accepted image's nodes.
ghost use Rattle.std.specs.Prelude.{◌≡◌, ◌<◌, false, is_some, slice_index_or};
ghost use Rattle.index.specs.declared.slot.Slot.TheVariants.{Empty};
ghost use Rattle.geometry.specs.Plane.{label_from, rect_from};
ghost use Rattle.image.specs.Layout.{image_of};
ghost use Rattle.image.specs.Nodes.{start, node_of};
ghost use Rattle.image.specs.Checks.{verdict};
ghost use Rattle.image.specs.Opened.{label_slot, branch_slot};

use crate::reading::Reader;
use geometry::Label;
use index::Slot;

impl Reader<'_> {
    // The label that entry `e` writes.
    fn label_slot(self, e: usize) -> Slot
        requires { e < self.entries }
        ensures { result ≡ label_slot (label_from ((image_of self.entry.bytes.now).target e) ((image_of self.entry.bytes.now).west e) ((image_of self.entry.bytes.now).south e)) }
    {
        Label::new(self.target(e), self.west(e), self.south(e)).map_or(Slot::Empty, Slot::Holds)
    }

    // The branch that entry `e` writes.
    fn branch_slot(self, e: usize) -> Slot
        requires { e < self.entries }
        ensures { result ≡ branch_slot ((image_of self.entry.bytes.now).target e) (rect_from ((image_of self.entry.bytes.now).west e) ((image_of self.entry.bytes.now).south e) ((image_of self.entry.bytes.now).east e) ((image_of self.entry.bytes.now).north e)) }
    {
        // No `From` takes a `u32` to a `usize`.
        let to = self.target(e) as usize;
        self.rect(e).map_or(Slot::Empty, |b| Slot::Leads(b, to))
    }

    // What node `i` of an accepted image, whose slot 0 is entry `first`, has in slot `j`.
    pub(crate) fn slot(self, i: usize, first: usize, j: usize) -> Slot
        requires fine { is_some (verdict self.bytes.now 1537) ≡ false }
        requires node { (i < self.nodes) × (first ≡ start (image_of self.bytes.now) i) }
        ensures { result ≡ slice_index_or (node_of (image_of self.entry.bytes.now) i) j Empty }
    {
        if j >= usize::from(self.count(i)) {
            return Slot::Empty;
        }
        if self.level(i) == 0 {
            self.label_slot(first + j)
        } else {
            self.branch_slot(first + j)
        }
    }
}
