// The checks of the label numbers.
ghost use Rattle.std.specs.Prelude.{◌≡◌, ◌+◌, ◌<◌, ◌≤◌, length, take, nat_le, nat_lt};
ghost use Rattle.std.specs.List.{range_with_len, count_by};
ghost use Rattle.std.specs.Option.{option_map};
ghost use Rattle.queue.specs.Order.{sorted};
ghost use Rattle.queue.specs.Shape.{Heap};
ghost use Rattle.geometry.specs.declared.refusal.Reason.TheVariants.{BadNumber, ShortWorkList};
ghost use Rattle.geometry.specs.Refusals.{refusal};
ghost use Rattle.image.specs.Layout.{image_of};
ghost use Rattle.image.specs.Nodes.{is_leaf_entry, label_numbers};
ghost use Rattle.image.specs.Checks.{unless, repeated_in, smallest_repeated};
ghost use Rattle.image.specs.Results.{as_result, Queued};

use crate::nodes::Entries;
use crate::refusing::{refuse_at, refuse_unless};
use geometry::{Reason, Refusal};
use queue::{pop, push};

// The smallest number that is twice in a queue. The list and its length stand apart, as the queue's calls take them:
// the list is lent, and the checks take no memory.
fn first_repeated(items: &mut [u32], len: usize) -> Option<u32>
    requires { (Heap nat_lt items.old len) × (len ≤ length items.old) }
    ensures { result ≡ repeated_in (sorted nat_lt (take len items.old)) }
{
    let Some((first, rest)) = pop(items, len) else {
        return None;
    };
    let mut last = first;
    let mut left = rest;
    while let Some((x, after)) = pop(items, left) {
        if x == last {
            return Some(last);
        }
        last = x;
        left = after;
    }
    None
}

impl Entries<'_> {
    // How many labels there are.
    fn label_count(self) -> usize
        ensures { result ≡ count_by (is_leaf_entry (image_of self.entry.reader.bytes.now)) (range_with_len 0 self.entry.reader.entries) }
    {
        (0..self.reader.entries)
            .filter(|e| self.is_leaf_entry(*e))
            .count()
    }

    // The list of numbers has room for that of every label.
    pub(crate) fn check_room(self, room: usize) -> Result<(), Refusal>
        ensures { result ≡ as_result (unless (nat_le (length (label_numbers (image_of self.entry.reader.bytes.now))) room) (refusal ShortWorkList (length (label_numbers (image_of self.entry.reader.bytes.now))))) }
    {
        let count = self.label_count();
        refuse_unless(count <= room, Reason::ShortWorkList, count)
    }

    // Makes a queue of the numbers of all labels, from the front of the list on, and gives its length.
    fn push_numbers(self, numbers: &mut [u32]) -> usize
        requires { length (label_numbers (image_of self.reader.bytes.now)) ≤ length numbers.old }
        ensures { Queued (label_numbers (image_of self.entry.reader.bytes.now)) numbers.new result }
    {
        // An entry is read by its number, and each turn pushes into the list that the next one pushes into.
        let mut len = 0;
        for e in 0..self.reader.entries {
            if self.is_leaf_entry(e) {
                len = push(numbers, len, self.reader.target(e)).unwrap_or(len);
            }
        }
        len
    }

    // No label number occurs twice.
    pub(crate) fn check_numbers(self, numbers: &mut [u32]) -> Result<(), Refusal>
        requires { length (label_numbers (image_of self.reader.bytes.now)) ≤ length numbers.old }
        ensures { result ≡ as_result (option_map (refusal BadNumber) (smallest_repeated (label_numbers (image_of self.entry.reader.bytes.now)))) }
    {
        let len = self.push_numbers(numbers);
        // No `From` takes a `u32` to a `usize`.
        refuse_at(
            first_repeated(numbers, len).map(|x| x as usize),
            Reason::BadNumber,
        )
    }
}
