// Whether a candidate is an answer.
ghost use Rattle.std.specs.Prelude.{◌≡◌, ◌+◌, ◌≤◌, length, nat_lt};
ghost use Rattle.index.specs.Table.{plan};
ghost use Rattle.neighbours.specs.Neighbours.{others, confirmed};
ghost use Rattle.neighbours.specs.Reach.{reach_of};
ghost use Rattle.neighbours.specs.Scene.{work_places};
ghost use Rattle.neighbours.specs.Walks.{nearer_in, nodes_before};
ghost use Rattle.search.specs.Answers.{Roomy};
ghost use Rattle.search.specs.Sights.{seen};
ghost use Rattle.search.specs.Asking.{ranking_of, accepted, cost_of};

use crate::query::Query;
use crate::sight::Sight;
use index::NodeStore;
use measure::Measure;
use neighbours::{Arrival, Item, Limit, View};
use queue::Ranked;

impl<M: Measure> Sight<'_, M> {
    // Whether fewer than `k` of the labels that the view shows are nearer than `end`. Goes from the nearest label on,
    // as long as they are nearer than `end` and fewer than `k` have come.
    fn few_nearer<S: NodeStore>(
        &self,
        store: &mut S,
        end: M::Distance,
        k: u32,
        items: &mut [Item<M::Distance>],
    ) -> bool
        requires room { work_places (S.table store.old) ≤ length items.old }
        requires meter { S.metered store.old + work_places (S.table store.old) ≤ 2000000 }
        ensures table { S.table store.new ≡ S.table store.old }
        ensures frames { S.frames store.new ≡ S.frames store.old }
        ensures value { result ≡ nat_lt (nearer_in (seen M.Distance.Ranked.precedes M.dist M.bound self.now (S.table store.old)) end) k }
        ensures metered { S.metered store.new ≡ S.metered store.old + nodes_before (seen M.Distance.Ranked.precedes M.dist M.bound self.now (S.table store.old)) end k }
    {
        let mut len = self.start(store, items);
        for _ in 0..k {
            match self.next_label(store, Limit::Before(end), items, len) {
                Some(label) => len = label.waiting,
                None => return true,
            }
        }
        false
    }
}

impl<M: Measure> Query<'_, M> {
    // Whether the query's place is near in turn to a candidate, under `k`: its own label and the candidate are left
    // out.
    fn is_confirmed<S: NodeStore>(
        &self,
        store: &mut S,
        k: u32,
        candidate: Arrival<M::Distance>,
        items: &mut [Item<M::Distance>],
    ) -> bool
        requires count { 1 ≤ k }
        requires distance { candidate.distance ≡ M.dist self.now.measure.now self.now.from candidate.label.place }
        requires room { work_places (S.table store.old) ≤ length items.old }
        requires meter { S.metered store.old + work_places (S.table store.old) ≤ 2000000 }
        ensures table { S.table store.new ≡ S.table store.old }
        ensures frames { S.frames store.new ≡ S.frames store.old }
        ensures value { result ≡ confirmed (ranking_of M.Distance.Ranked.precedes M.dist M.bound self.now) self.now.from k (others self.now.own (plan (S.table store.old))) candidate.label }
        ensures metered { S.metered store.new ≡ S.metered store.old + reach_of (ranking_of M.Distance.Ranked.precedes M.dist M.bound self.now) (S.table store.old) self.now.from k (others self.now.own (plan (S.table store.old))) candidate.label }
    {
        let from_there = Sight {
            measure: self.measure,
            view: View {
                from: candidate.label.place(),
                own: self.own,
                candidate: Some(candidate.label.number()),
            },
        };
        from_there.few_nearer(store, candidate.distance, k, items)
    }

    // Whether a candidate is an answer: always where none is confirmed. Which step runs is told by a count, and not by
    // a closure, which would hold the store and the second work list, and whose contract would be this one again.
    pub fn is_answer<S: NodeStore>(
        &self,
        store: &mut S,
        candidate: Arrival<M::Distance>,
        items: &mut [Item<M::Distance>],
    ) -> bool
        requires distance { candidate.distance ≡ M.dist self.now.measure.now self.now.from candidate.label.place }
        requires room { Roomy (S.table store.old) self.now.confirming (length items.old) }
        requires meter { S.metered store.old + work_places (S.table store.old) ≤ 2000000 }
        ensures table { S.table store.new ≡ S.table store.old }
        ensures frames { S.frames store.new ≡ S.frames store.old }
        ensures value { result ≡ accepted (ranking_of M.Distance.Ranked.precedes M.dist M.bound self.now) (S.table store.old) self.now candidate.label }
        ensures metered { S.metered store.new ≡ S.metered store.old + cost_of (ranking_of M.Distance.Ranked.precedes M.dist M.bound self.now) (S.table store.old) self.now candidate.label }
    {
        match self.confirming {
            Some(k) => self.is_confirmed(store, k, candidate, items),
            None => true,
        }
    }
}
