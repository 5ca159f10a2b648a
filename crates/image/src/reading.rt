// The numbers that an image writes, read where they stand.
ghost use Rattle.std.specs.Prelude.{◌≡◌, ◌+◌, ◌*◌, ◌<◌, ◌≤◌, [], ◌∷◌, length, slice_index};
ghost use Rattle.geometry.specs.Plane.{rect_from};
ghost use Rattle.image.specs.Layout.{signed, box_start, image_of};
ghost use Rattle.image.specs.Results.{Sized};

use geometry::{Rect, Refusal};

// An image has no more nodes, and no more entries.
pub(crate) const MOST_NODES: usize = 128;

pub(crate) const MOST_ENTRIES: usize = 1537;

// A start for each node, and the end of the last.
pub(crate) const STARTS: usize = MOST_NODES + 1;

// The bytes of an image, which say how many nodes and entries there are and are as long as that asks for.
#[derive(Clone, Copy)]
pub(crate) struct Reader<'a> {
    pub(crate) bytes: &'a [u8],
    pub(crate) nodes: usize,
    pub(crate) entries: usize,
    ghost sized: { Sized bytes.now nodes entries },
}

// An entry's number is asked for in range by each call: a type of numbers in range would be made at each turn of a
// loop, where the same bound is shown.
impl Reader<'_> {
    // The four bytes from `at` on.
    fn four_at(self, at: usize) -> [u8; 4]
        requires { at + 3 < length self.bytes.now }
        ensures { result ≡ slice_index self.entry.bytes.now at ∷ slice_index self.entry.bytes.now (at + 1) ∷ slice_index self.entry.bytes.now (at + 2) ∷ slice_index self.entry.bytes.now (at + 3) ∷ [] }
    {
        [
            self.bytes[at],
            self.bytes[at + 1],
            self.bytes[at + 2],
            self.bytes[at + 3],
        ]
    }

    // The size byte of node `i` that stands so many bytes after its first.
    fn size_byte(self, i: usize, after: usize) -> u8
        requires { (i < self.nodes) × (after ≤ 1) }
        ensures { result ≡ slice_index self.entry.bytes.now (4 + 2 * i + after) }
    {
        self.bytes[4 + 2 * i + after]
    }

    // The level of node `i`.
    #[tactic(auto, unfolding(crate::specs::Layout::image_of))]
    pub(crate) fn level(self, i: usize) -> u8
        requires { i < self.nodes }
        ensures { result ≡ (image_of self.entry.bytes.now).level i }
    {
        self.size_byte(i, 0)
    }

    // How many entries node `i` has.
    #[tactic(auto, unfolding(crate::specs::Layout::image_of))]
    pub(crate) fn count(self, i: usize) -> u8
        requires { i < self.nodes }
        ensures { result ≡ (image_of self.entry.bytes.now).count i }
    {
        self.size_byte(i, 1)
    }

    // The side of the box of entry `e` that stands so many bytes after its first.
    fn side(self, e: usize, after: usize) -> i32
        requires { (e < self.entries) × (after ≤ 12) }
        ensures { result ≡ signed self.entry.bytes.now (box_start self.entry.nodes e + after) }
    {
        i32::from_be_bytes(self.four_at(4 + 2 * self.nodes + 16 * e + after))
    }

    // The sides of the box of entry `e`, each named for what it is; `side` reads all four.
    #[tactic(auto, unfolding(crate::specs::Layout::image_of))]
    pub(crate) fn west(self, e: usize) -> i32
        requires { e < self.entries }
        ensures { result ≡ (image_of self.entry.bytes.now).west e }
    {
        self.side(e, 0)
    }

    #[tactic(auto, unfolding(crate::specs::Layout::image_of))]
    pub(crate) fn south(self, e: usize) -> i32
        requires { e < self.entries }
        ensures { result ≡ (image_of self.entry.bytes.now).south e }
    {
        self.side(e, 4)
    }

    #[tactic(auto, unfolding(crate::specs::Layout::image_of))]
    pub(crate) fn east(self, e: usize) -> i32
        requires { e < self.entries }
        ensures { result ≡ (image_of self.entry.bytes.now).east e }
    {
        self.side(e, 8)
    }

    #[tactic(auto, unfolding(crate::specs::Layout::image_of))]
    pub(crate) fn north(self, e: usize) -> i32
        requires { e < self.entries }
        ensures { result ≡ (image_of self.entry.bytes.now).north e }
    {
        self.side(e, 12)
    }

    // The box that entry `e` writes, if it is one.
    pub(crate) fn rect(self, e: usize) -> Result<Rect, Refusal>
        requires { e < self.entries }
        ensures { result ≡ rect_from ((image_of self.entry.bytes.now).west e) ((image_of self.entry.bytes.now).south e) ((image_of self.entry.bytes.now).east e) ((image_of self.entry.bytes.now).north e) }
    {
        Rect::new(self.west(e), self.south(e), self.east(e), self.north(e))
    }

    // What entry `e` leads to.
    #[tactic(auto, unfolding(crate::specs::Layout::image_of))]
    pub(crate) fn target(self, e: usize) -> u32
        requires { e < self.entries }
        ensures { result ≡ (image_of self.entry.bytes.now).target e }
    {
        u32::from_be_bytes(self.four_at(4 + 2 * self.nodes + 16 * self.entries + 4 * e))
    }
}
