// The labels of a store from a place on, the nearest first.
ghost use Rattle.std.specs.Prelude.{◌≡◌, ◌+◌, ◌-◌, ◌≤◌, length, take};
ghost use Rattle.queue.specs.Order.{sorted};
ghost use Rattle.neighbours.specs.Items.{ahead};
ghost use Rattle.neighbours.specs.Scene.{work_places, left, all_items, Waiting};
ghost use Rattle.neighbours.specs.Walks.{Next};
ghost use Rattle.search.specs.Sights.{seen};

use crate::sight::Sight;
use index::NodeStore;
use measure::Measure;
use neighbours::{Arrival, Item, Limit, Subject};
use queue::{Ranked, pop, push};

impl<M: Measure> Sight<'_, M> {
    // Begins a search: the root alone is in the queue. Gives the length of the queue then.
    pub fn start<S: NodeStore>(&self, store: &S, items: &mut [Item<M::Distance>]) -> usize
        requires { work_places (S.table store.now) ≤ length items.old }
        ensures waiting { Waiting (seen M.Distance.Ranked.precedes M.dist M.bound self.now (S.table store.now)) items.new result }
        ensures whole { let s = seen M.Distance.Ranked.precedes M.dist M.bound self.now (S.table store.now) in left s (take result items.new) ≡ sorted (ahead s.lt) (all_items s) }
    {
        let root = Item {
            distance: self.measure.near(self.view.from, &store.root_box()),
            subject: Subject::OfNode(0),
        };
        push(items, 0, root).unwrap_or(0)
    }

    // The next label within the limit, with its distance and the length of the queue then. Every node on the way is
    // opened, once it is known to be within the limit, and none else.
    pub fn next_label<S: NodeStore>(
        &self,
        store: &mut S,
        limit: Limit<M::Distance>,
        items: &mut [Item<M::Distance>],
        len: usize,
    ) -> Option<Arrival<M::Distance>>
        requires waiting { Waiting (seen M.Distance.Ranked.precedes M.dist M.bound self.now (S.table store.old)) items.old len }
        requires meter { S.metered store.old + length (left (seen M.Distance.Ranked.precedes M.dist M.bound self.now (S.table store.old)) (take len items.old)) ≤ 2000000 }
        ensures table { S.table store.new ≡ S.table store.old }
        ensures frames { S.frames store.new ≡ S.frames store.old }
        ensures next { let s = seen M.Distance.Ranked.precedes M.dist M.bound self.now (S.table store.old) in Next s limit (left s (take len items.old)) items.new (S.metered store.old) (S.metered store.new) result }
    {
        let mut waiting = len;
        while let Some((x, rest)) = pop(items, waiting) {
            if !limit.admits(&x.distance) {
                return None;
            }
            match x.subject {
                Subject::OfLabel(label) => {
                    return Some(Arrival {
                        distance: x.distance,
                        label,
                        waiting: rest,
                    });
                }
                Subject::OfNode(node) => {
                    waiting = self.open_node(store, node, items, rest);
                }
            }
        }
        None
    }
}
