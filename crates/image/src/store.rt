ghost use Rattle.std.specs.Prelude.{◌≡◌, ℕ, ◌<◌, ◌≤◌, true, false, is_some, slice_index, vec_capacity};
ghost use Rattle.image.specs.Layout.{image_of};
ghost use Rattle.image.specs.Nodes.{start};
ghost use Rattle.image.specs.Checks.{verdict};
ghost use Rattle.image.specs.Opened.{noted, opens_at};

use crate::reading::STARTS;
use index::Openings;

pub mod nodes;
pub mod opening;

// A store that holds an accepted image, the entry in slot 0 of each of its nodes, and memory for the longest image. The
// starts stand in fixed memory, since opening an image takes none, and in few bytes, since a store is moved whole.
#[derive(Drop)]
pub struct ImageStore {
    bytes: Vec<u8>,
    nodes: usize,
    entries: usize,
    starts: [u16; STARTS],
    openings: Openings,
    ghost roomy: { 31000 ≤ vec_capacity bytes },
    ghost fine: { is_some (verdict bytes.items 1537) ≡ false },
    ghost sized: { (nodes ≡ (image_of (bytes.items)).nodes) × (entries ≡ (image_of (bytes.items)).entries) },
    ghost placed: { (i : ℕ) → i < nodes → slice_index starts i ≡ start (image_of bytes.items) i },
    ghost within: { opens_at (image_of bytes.items) openings.node (noted starts openings.node) ≡ true },
}
