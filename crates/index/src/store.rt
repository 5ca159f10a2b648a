ghost use Rattle.std.specs.Prelude.{◌≡◌, ℕ, ◌≤◌, List, [], Option};
ghost use Rattle.index.specs.Table.{Table, node_count, slot_at};
ghost use Rattle.index.specs.Laws.{Lawful, Inside};
ghost use Rattle.index.specs.Opening.{open_result, open_node, open_meter};
ghost use Rattle.index.specs.Frames.{Frame};

use crate::slot::Slot;
use geometry::{Rect, Refusal};

// A store of nodes, one of which may be open. The meter counts the openings.
pub trait NodeStore {
    // the nodes and the root box
    ghost table: { Self → Table };

    // the node that is open, or none
    ghost opened: { Self → Option ℕ };

    // the openings since the meter was zeroed
    ghost metered: { Self → ℕ };

    // the layers of changes that lie beneath, the upper first
    ghost frames: { Self → List Frame } = { λ _. [] };

    fn node_count(&self) -> usize
        ensures { result ≡ node_count (table self.now) };

    fn root_box(&self) -> Rect
        ensures { result ≡ (table self.now).box };

    fn meter(&self) -> u32
        ensures { result ≡ metered self.now };

    // What the open node has in slot `j`: nothing where no node is open, or `j` is over 11.
    fn slot(&self, j: usize) -> Slot
        ensures { result ≡ slot_at (table self.now) (opened self.now) j };

    // Sets the meter to 0.
    fn zero(&mut self)
        ensures table { table self.new ≡ table self.old }
        ensures frames { frames self.new ≡ frames self.old }
        ensures opened { opened self.new ≡ opened self.old }
        ensures metered { metered self.new ≡ 0 };

    // Opens node `i`, and raises the meter by one.
    fn open(&mut self, i: usize) -> Result<(), Refusal>
        ensures table { table self.new ≡ table self.old }
        ensures frames { frames self.new ≡ frames self.old }
        ensures told { result ≡ open_result (table self.old) i (metered self.old) }
        ensures opened { opened self.new ≡ open_node (table self.old) i (metered self.old) (opened self.old) }
        ensures metered { metered self.new ≡ open_meter (table self.old) i (metered self.old) };

    ghost lawful: { (s : Self) → Lawful (table s) };

    ghost within: { (s : Self) → Inside (table s) (opened s) };

    ghost bounded: { (s : Self) → metered s ≤ 2000000 };
}
