// What the tests share: changes in an edit, and what they read of calls and of stores.
use edit::Edit;
use geometry::Refusal;
use index::{NodeStore, Slot, open_slots};
use measure::Straight;
use neighbours::Item;
use search::spare_item;
use std::alloc::{AllocError, Global};
use std::process::Abort;
use std::test::Fail;

// The number of a refusal, if it is one.
pub(crate) fn refused<T: Drop>(r: Result<T, Refusal>) -> Option<u32> {
    r.err().map(|e| e.number())
}

// The labels of a store, by number: each with its x.
pub(crate) fn labels<S: NodeStore>(heap: Global, store: &mut S) -> Result<Vec<(u32, i32)>, Fail> {
    let mut found = Vec::new(heap);
    for i in 0..store.node_count() {
        store.open(i)?;
        for slot in open_slots(store) {
            if let Slot::Holds(label) = slot {
                found.push((label.number(), label.place().x()))?;
            }
        }
    }
    found.sort_unstable();
    Ok(found)
}

// A work list of so many places.
pub(crate) fn work_list(heap: Global, places: usize) -> Result<Vec<Item<u64>>, AllocError> {
    vec![in heap; spare_item(&Straight); places]
}

// A change: a label of that number at (x, 0) is added, or the number is withdrawn.
#[derive(Clone, Copy, Debug)]
pub(crate) enum Change {
    Add(u32, i32),
    Withdraw(u32),
}

// A change, and the number of its refusal if it is refused.
pub(crate) type Outcome = (Change, Option<u32>);

// Makes changes in turn.
pub(crate) fn make<S: NodeStore>(rt: &impl Abort, edit: &mut Edit<S>, changes: &[Outcome]) {
    for (change, told) in changes {
        let end = match *change {
            Change::Add(number, x) => edit.add(number, x, 0),
            Change::Withdraw(number) => edit.withdraw(number),
        };
        assert_eq!(rt; refused(end), *told, "{change:?}");
    }
}
