// The checks of the nodes, and the node of each entry.
ghost use Rattle.std.specs.Prelude.{◌≡◌, ℕ, ◌+◌, ◌<◌, ◌≤◌, length, ◌==◌, slice_index};
ghost use Rattle.geometry.specs.declared.refusal.Reason.TheVariants.{BadSize};
ghost use Rattle.geometry.specs.Refusals.{refusal};
ghost use Rattle.image.specs.Layout.{image_of};
ghost use Rattle.image.specs.Nodes.{start, is_leaf_entry};
ghost use Rattle.image.specs.Checks.{first_bad, at_first, unless, node_fine};
ghost use Rattle.image.specs.Results.{as_result, Owned};

use crate::reading::{Reader, STARTS};
use crate::refusing::refuse_unless;
use geometry::{Reason, Refusal};
use index::SLOTS;

// The highest level of a node.
const TOP_LEVEL: u8 = 7;

// An image, and the node of each of its entries.
#[derive(Clone, Copy)]
pub(crate) struct Entries<'a> {
    pub(crate) reader: Reader<'a>,
    pub(crate) owners: &'a [usize],
    ghost owned: { Owned reader.bytes.now owners.now reader.nodes reader.entries },
}

// Writes `v` into each place from `from` up to `to`.
fn write_all(list: &mut [usize], from: usize, to: usize, v: usize)
    requires { (from ≤ to) × (to ≤ length list.old) }
    ensures before { (k : ℕ) → k < from → slice_index list.new k ≡ slice_index list.old k }
    ensures within { (k : ℕ) → from ≤ k → k < to → slice_index list.new k ≡ v }
{
    list[from..to].fill(v);
}

impl<'a> Reader<'a> {
    // Every node's level and count are in range.
    pub(crate) fn check_nodes(self) -> Result<(), Refusal>
        ensures { result ≡ as_result (at_first (first_bad (node_fine (image_of self.entry.bytes.now)) self.entry.nodes) (λ _. BadSize)) }
    {
        let [_, _, _, _, sizes @ ..] = self.bytes else {
            return Ok(());
        };
        // That the size bytes are taken apart by patterns is a rule of the project; the count is the place of a
        // refusal.
        let mut left = sizes;
        for i in 0..self.nodes {
            let [level, count, rest @ ..] = left else {
                return Ok(());
            };
            if *level > TOP_LEVEL || usize::from(*count) > SLOTS {
                return Err(Refusal {
                    reason: Reason::BadSize,
                    place: i,
                });
            }
            left = rest;
        }
        Ok(())
    }

    // The entry in slot 0 of each node, and the entry after those of all nodes.
    pub(crate) fn starts(self) -> [u16; STARTS]
        ensures { (i : ℕ) → i ≤ self.entry.nodes → slice_index result i ≡ start (image_of self.entry.bytes.now) i }
    {
        let mut starts = [1; STARTS];
        // A node's count is read by its number, and each start is written from the one before it.
        for i in 0..self.nodes {
            starts[i + 1] = starts[i] + u16::from(self.count(i));
        }
        starts
    }

    // The entry after those of all nodes. It is added up without a list of starts, as long as the image may be refused.
    fn end(self) -> usize
        ensures { result ≡ start (image_of self.entry.bytes.now) self.entry.nodes }
    {
        let mut end = 1;
        // A node's count is read by its number.
        for i in 0..self.nodes {
            end += usize::from(self.count(i));
        }
        end
    }

    // The counts come to the number of entries.
    pub(crate) fn check_sum(self) -> Result<(), Refusal>
        ensures { result ≡ as_result (unless (start (image_of self.entry.bytes.now) self.entry.nodes == self.entry.entries) (refusal BadSize self.entry.nodes)) }
    {
        refuse_unless(self.end() == self.entries, Reason::BadSize, self.nodes)
    }

    // Finds the node of each entry.
    pub(crate) fn find_owners(self, owners: &'a mut [usize]) -> Entries<'a>
        requires sum { start (image_of self.bytes.now) self.nodes ≡ self.entries }
        requires room { self.entries ≤ length owners.old }
        ensures { result.reader ≡ self.entry }
    {
        let starts = self.starts();
        // The node's number is what is written, so an iterator over the starts would have to count as well.
        for i in 0..self.nodes {
            let from = usize::from(starts[i]);
            let to = usize::from(starts[i + 1]);
            write_all(owners, from, to, i);
        }
        Entries {
            reader: self,
            owners,
        }
    }
}

impl Entries<'_> {
    // Whether entry `e` is one of a leaf.
    pub(crate) fn is_leaf_entry(self, e: usize) -> bool
        requires { e < self.reader.entries }
        ensures { result ≡ is_leaf_entry (image_of self.entry.reader.bytes.now) e }
    {
        e >= 1 && self.reader.level(self.owners[e]) == 0
    }
}
