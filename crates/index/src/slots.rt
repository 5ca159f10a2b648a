// The slots of a node.
ghost use Rattle.std.specs.Prelude.{◌≡◌, map};
ghost use Rattle.std.specs.List.{range_with_len};
ghost use Rattle.index.specs.Table.{slot_at};

use crate::slot::{SLOTS, Slot};
use crate::store::NodeStore;
use std::array;

// The slots of the open node; all are empty where no node is open.
pub fn open_slots<S: NodeStore>(store: &S) -> [Slot; SLOTS]
    ensures { result ≡ map (slot_at (S.table store.now) (S.opened store.now)) (range_with_len 0 SLOTS) }
{
    array::from_fn(|j| store.slot(j))
}
