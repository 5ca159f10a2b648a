// The answers of a query, in order.
ghost use Rattle.std.specs.Prelude.{◌≡◌, ◌+◌, ◌≤◌, true, ◌++◌, length, take, drop, if◌then◌else◌, Some, None, nat_eq, slice_set};
ghost use Rattle.neighbours.specs.declared.limit.Limit.TheVariants.{UpTo};
ghost use Rattle.neighbours.specs.Scene.{work_places};
ghost use Rattle.search.specs.Answers.{Roomy, put_at, fitting};
ghost use Rattle.search.specs.Asking.{ranking_of, answers_to, openings_for};

use crate::query::Query;
use crate::sight::Sight;
use index::NodeStore;
use measure::Measure;
use neighbours::{Item, Limit, View};
use queue::Ranked;

// The limit when one more label has come, at that distance: the k-th sets it.
fn limit_after<D: Ranked>(limit: Limit<D>, came: u32, k: u32, distance: D) -> Limit<D>
    ensures { result ≡ (if nat_eq came k then UpTo distance else limit) }
{
    if came == k {
        Limit::UpTo(distance)
    } else {
        limit
    }
}

// Puts an answer behind the others, and gives their count then; `None` where there is no place. That the list is lent,
// and filled from the front, is a rule of the project. The place is tested and then written, since a proof knows no
// element of a slice once what its `get_mut` lent has been written.
fn put_answer(answers: &mut [u32], count: usize, number: u32) -> Option<usize>
    ensures told { result ≡ put_at answers.old count }
    ensures answers { answers.new ≡ slice_set answers.old count number }
{
    if count >= answers.len() {
        return None;
    }
    answers[count] = number;
    Some(count + 1)
}

impl<M: Measure> Query<'_, M> {
    // Puts the answers into the list, in order, and gives their count; `None` where they do not fit.
    pub fn gather<S: NodeStore>(
        &self,
        store: &mut S,
        work: &mut [Item<M::Distance>],
        second: &mut [Item<M::Distance>],
        answers: &mut [u32],
    ) -> Option<usize>
        requires room { work_places (S.table store.old) ≤ length work.old }
        requires second { Roomy (S.table store.old) self.now.confirming (length second.old) }
        requires meter { S.metered store.old ≤ 900000 }
        ensures table { S.table store.new ≡ S.table store.old }
        ensures frames { S.frames store.new ≡ S.frames store.old }
        ensures told { result ≡ fitting (answers_to (ranking_of M.Distance.Ranked.precedes M.dist M.bound self.now) (S.table store.old) self.now) (length answers.old) }
        ensures answers { let ns = answers_to (ranking_of M.Distance.Ranked.precedes M.dist M.bound self.now) (S.table store.old) self.now in answers.new ≡ take (length answers.old) ns ++ drop (length ns) answers.old }
        ensures metered { elim result [ Some n ↦ S.metered store.new ≡ S.metered store.old + openings_for (ranking_of M.Distance.Ranked.precedes M.dist M.bound self.now) (S.table store.old) self.now | None ↦ Unit {0} ] }
    {
        let sight = Sight {
            measure: self.measure,
            view: View {
                from: self.from,
                own: self.own,
                candidate: None,
            },
        };
        let mut limit = Limit::Anywhere;
        let mut came: u32 = 0;
        let mut count = 0;
        let mut len = sight.start(store, work);
        while let Some(next) = sight.next_label(store, limit, work, len) {
            came += 1;
            limit = limit_after(limit, came, self.k, next.distance);
            len = next.waiting;
            if self.is_answer(store, next, second) {
                count = put_answer(answers, count, next.label.number())?;
            }
        }
        Some(count)
    }
}
