// The items of a node enter the queue.
ghost use Rattle.std.specs.Prelude.{◌≡◌, ◌+◌, ◌<◌, ◌≤◌, length, Some};
ghost use Rattle.queue.specs.Shape.{Heap};
ghost use Rattle.index.specs.Table.{node_count, node_at};
ghost use Rattle.neighbours.specs.Items.{ahead};
ghost use Rattle.neighbours.specs.Scene.{listed};
ghost use Rattle.search.specs.Entering.{open_slots, Entered};
ghost use Rattle.search.specs.Sights.{item_seen, items_seen};

use crate::sight::Sight;
use index::{NodeStore, SLOTS, Slot};
use measure::Measure;
use neighbours::{Item, Subject};
use queue::{Ranked, push};

// Here and in what calls these, the queue is the first `len` of `items`, a heap that is changed in place: one list that
// the caller lends for the whole query is a rule of the project. The two stand apart: a struct that borrows the list
// would be taken apart at each call of `push` and `pop`.
impl<M: Measure> Sight<'_, M> {
    // The item of a slot, if it has one that the view shows.
    fn item_of(&self, slot: Slot) -> Option<Item<M::Distance>>
        ensures { result ≡ item_seen M.dist M.bound self.now slot }
    {
        match slot {
            Slot::Empty => None,
            Slot::Holds(label) => {
                if !self.view.shows(label.number()) {
                    return None;
                }
                Some(Item {
                    distance: self.measure.distance(self.view.from, label.place()),
                    subject: Subject::OfLabel(label),
                })
            }
            Slot::Leads(around, node) => Some(Item {
                distance: self.measure.near(self.view.from, &around),
                subject: Subject::OfNode(node),
            }),
        }
    }

    // Pushes the item of a slot, and gives the length of the queue then.
    fn push_slot(&self, slot: Slot, items: &mut [Item<M::Distance>], len: usize) -> usize
        requires room { len + length (listed (item_seen M.dist M.bound self.now slot)) ≤ length items.old }
        requires shape { Heap (ahead M.Distance.Ranked.precedes) items.old len }
        ensures { Entered (ahead M.Distance.Ranked.precedes) items.old items.new len result (listed (item_seen M.dist M.bound self.now slot)) }
    {
        match self.item_of(slot) {
            Some(item) => push(items, len, item).unwrap_or(len),
            None => len,
        }
    }

    // Pushes the items of the open node, and gives the length of the queue then. The loop is no fold: its closure would
    // hold the list, and the closure's contract would be the loop's invariant again.
    fn push_items<S: NodeStore>(
        &self,
        store: &S,
        items: &mut [Item<M::Distance>],
        len: usize,
    ) -> usize
        requires room { len + length (items_seen M.dist M.bound self.now (open_slots (S.table store.now) (S.opened store.now))) ≤ length items.old }
        requires shape { Heap (ahead M.Distance.Ranked.precedes) items.old len }
        ensures { Entered (ahead M.Distance.Ranked.precedes) items.old items.new len result (items_seen M.dist M.bound self.now (open_slots (S.table store.now) (S.opened store.now))) }
    {
        let mut count = len;
        for j in 0..SLOTS {
            count = self.push_slot(store.slot(j), items, count);
        }
        count
    }

    // Opens a node and pushes its items, and gives the length of the queue then.
    pub fn open_node<S: NodeStore>(
        &self,
        store: &mut S,
        node: usize,
        items: &mut [Item<M::Distance>],
        len: usize,
    ) -> usize
        requires node { node < node_count (S.table store.old) }
        requires meter { S.metered store.old < 2000000 }
        requires room { len + length (items_seen M.dist M.bound self.now (node_at (S.table store.old) node)) ≤ length items.old }
        requires shape { Heap (ahead M.Distance.Ranked.precedes) items.old len }
        ensures table { S.table store.new ≡ S.table store.old }
        ensures frames { S.frames store.new ≡ S.frames store.old }
        ensures metered { S.metered store.new ≡ S.metered store.old + 1 }
        ensures entered { Entered (ahead M.Distance.Ranked.precedes) items.old items.new len result (items_seen M.dist M.bound self.now (node_at (S.table store.old) node)) }
    {
        if store.open(node).is_err() {
            unreachable();
        }
        self.push_items(store, items, len)
    }
}
