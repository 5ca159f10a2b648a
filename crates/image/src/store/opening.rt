ghost use Rattle.std.specs.Prelude.{◌≡◌, ◌≤◌, true, false, length, is_ok, IfOk, vec_capacity};
ghost use Rattle.index.specs.Laws.{Lawful};
ghost use Rattle.image.specs.Layout.{image_of};
ghost use Rattle.image.specs.Nodes.{table_of, label_numbers};
ghost use Rattle.image.specs.Checks.{verdict};
ghost use Rattle.image.specs.Obeys.{Obeys};
ghost use Rattle.image.specs.Results.{as_result};
ghost use Rattle.image.specs.Store.{held_table, empty_table, Fresh, HasEntries};

use super::ImageStore;
use crate::checks::check;
use crate::reading::{MOST_ENTRIES, MOST_NODES, Reader, STARTS};
use geometry::Refusal;
use index::Openings;
use std::alloc::{AllocError, Global};

// How long the longest image is.
const LONGEST: usize = 4 + 2 * MOST_NODES + 20 * MOST_ENTRIES;

// The image of one empty leaf, whose box is the single place (0, 0).
const EMPTY: [u8; 26] = [
    0, 1, 0, 1, 0, 0, 0, 0, 0, 0, 0, 0, 0, 0, 0, 0, 0, 0, 0, 0, 0, 0, 0, 0, 0, 0,
];

// Puts other bytes into a list that has room for them.
fn refill(list: &mut Vec<u8>, bytes: &[u8])
    requires { length bytes.now ≤ vec_capacity list.old }
    ensures items { list.new.items ≡ bytes.now }
    ensures room { vec_capacity list.old ≤ vec_capacity list.new }
{
    list.clear();
    let _ = list.extend_from_slice(bytes);
}

impl ImageStore {
    // A store of one empty leaf, with memory for every image.
    pub fn new(heap: Global) -> Result<ImageStore, AllocError>
        ensures { IfOk result (λ s. Fresh empty_table s) }
    {
        let mut bytes = Vec::with_capacity(heap, LONGEST)?;
        refill(&mut bytes, &EMPTY);
        Ok(ImageStore {
            bytes,
            nodes: 1,
            entries: 1,
            starts: [1; STARTS],
            openings: Openings::new(),
        })
    }

    // Takes the image that `bytes` write, if it passes the checks; `numbers` is a list to work in.
    pub fn open_image(&mut self, bytes: &[u8], numbers: &mut [u32]) -> Result<(), Refusal>
        ensures told { result ≡ as_result (verdict bytes.now (length numbers.old)) }
        ensures accepted { is_ok result ≡ true → Fresh (table_of (image_of bytes.now)) self.new }
        ensures refused { is_ok result ≡ false → self.new ≡ self.old }
        ensures exactly { length (label_numbers (image_of bytes.now)) ≤ length numbers.old → (is_ok result ≡ true → Obeys bytes.now) × (Obeys bytes.now → is_ok result ≡ true) }
        ensures lawful { is_ok result ≡ true → Lawful (held_table self.new) × HasEntries (image_of bytes.now) (held_table self.new) }
    {
        let reader = check(bytes, numbers)?;
        refill(&mut self.bytes, bytes);
        self.nodes = reader.nodes;
        self.entries = reader.entries;
        self.starts = reader.starts();
        self.openings = Openings::new();
        Ok(())
    }

    // What reads the image that the store holds.
    pub(crate) fn reader(&self) -> Reader<'_>
        ensures bytes { result.bytes.now ≡ self.entry.now.bytes.items }
        ensures nodes { result.nodes ≡ self.entry.now.nodes }
        ensures entries { result.entries ≡ self.entry.now.entries }
    {
        Reader {
            bytes: self.bytes.as_slice(),
            nodes: self.nodes,
            entries: self.entries,
        }
    }
}
