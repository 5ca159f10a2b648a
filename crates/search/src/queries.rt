// The two queries.
ghost use Rattle.std.specs.Prelude.{◌≡◌, ◌≤◌, length, IfOk, None};
ghost use Rattle.geometry.specs.Plane.{place_at};
ghost use Rattle.index.specs.Laws.{Inside};
ghost use Rattle.neighbours.specs.Ranking.{ranking, Sound};
ghost use Rattle.neighbours.specs.Neighbours.{nearest_answers, mutual_answers};
ghost use Rattle.neighbours.specs.Reach.{nearest_openings, mutual_openings};
ghost use Rattle.neighbours.specs.Links.{Links};
ghost use Rattle.neighbours.specs.Scene.{work_places, spare_item};
ghost use Rattle.neighbours.specs.Queries.{refused, refused_nearest, refused_mutual, outcome, filled};
ghost use Rattle.runs.specs.Runs.{Step, asking_nearest, asking_mutual, state_of};
ghost use Rattle.search.specs.Answers.{Roomy, all_counted, checked, concluded, admitted};
ghost use Rattle.search.specs.Asking.{ranking_of, answers_to, openings_for};

use crate::query::Query;
use geometry::{Place, Reason, Refusal};
use index::{NodeStore, SLOTS};
use listing::counted;
use measure::Measure;
use neighbours::{Item, Subject, Told};
use queue::Ranked;

// How many places a query's work list must have.
pub fn work_places<S: NodeStore>(store: &S) -> usize
    ensures { result ≡ work_places (S.table store.now) }
{
    1 + SLOTS * store.node_count()
}

// An item to fill a work list with.
pub fn spare_item<M: Measure>(measure: &M) -> Item<M::Distance>
    ensures { result ≡ spare_item (M.dist measure.now) }
{
    Item {
        distance: measure.distance(Place::middle(), Place::middle()),
        subject: Subject::OfNode(0),
    }
}

// The refusal of counts that are not all from 1 to 64.
fn check_counts(counts: &[u32]) -> Result<(), Refusal>
    ensures { result ≡ checked (all_counted counts.now) }
{
    if counts.iter().all(|k| counted(*k)) {
        return Ok(());
    }
    Err(Reason::BadCount.into())
}

// The place of a query, or its refusal: of the counts first, then of the place, then of the shortest work list.
fn admit<S: NodeStore>(
    store: &S,
    counts: &[u32],
    x: i32,
    y: i32,
    shortest: usize,
) -> Result<Place, Refusal>
    ensures { result ≡ admitted (refused (all_counted counts.now) x y (work_places (S.table store.now)) shortest) x y }
{
    check_counts(counts)?;
    let from = Place::new(x, y)?;
    let needed = work_places(store);
    if shortest < needed {
        return Err(Refusal {
            reason: Reason::ShortWorkList,
            place: needed,
        });
    }
    Ok(from)
}

// What a query tells that put so many answers, or had no place for one.
fn conclude<S: NodeStore>(store: &S, count: Option<usize>) -> Result<Told, Refusal>
    ensures { result ≡ concluded count (S.metered store.now) }
{
    let count = count.ok_or(Reason::ShortAnswerList)?;
    Ok(Told {
        count,
        opened: store.meter(),
    })
}

impl<M: Measure> Query<'_, M> {
    // Answers the query where the meter stands at 0: puts the answers into the list, and tells their count and the openings.
    fn answer<S: NodeStore>(
        &self,
        store: &mut S,
        work: &mut [Item<M::Distance>],
        second: &mut [Item<M::Distance>],
        answers: &mut [u32],
    ) -> Result<Told, Refusal>
        requires zeroed { S.metered store.old ≡ 0 }
        requires room { work_places (S.table store.old) ≤ length work.old }
        requires second { Roomy (S.table store.old) self.now.confirming (length second.old) }
        ensures told { let near = ranking_of M.Distance.Ranked.precedes M.dist M.bound self.now in result ≡ outcome None (answers_to near (S.table store.old) self.now) (openings_for near (S.table store.old) self.now) (length answers.old) }
        ensures answers { answers.new ≡ filled None (answers_to (ranking_of M.Distance.Ranked.precedes M.dist M.bound self.now) (S.table store.old) self.now) answers.old }
        ensures metered { IfOk result (λ t. S.metered store.new ≡ openings_for (ranking_of M.Distance.Ranked.precedes M.dist M.bound self.now) (S.table store.old) self.now) }
        ensures table { S.table store.new ≡ S.table store.old }
        ensures frames { S.frames store.new ≡ S.frames store.old }
    {
        let count = self.gather(store, work, second, answers);
        conclude(store, count)
    }
}

// The labels near to a place: those than which fewer than `k` are nearer, by distance and then by number. The label of
// the query's own number is left out.
pub fn nearest<S: NodeStore, M: Measure>(
    store: &mut S,
    measure: &M,
    x: i32,
    y: i32,
    own: Option<u32>,
    k: u32,
    work: &mut [Item<M::Distance>],
    answers: &mut [u32],
) -> Result<Told, Refusal>
    ensures told { result ≡ outcome (refused_nearest (S.table store.old) x y k (length work.old)) (nearest_answers (ranking M.Distance.Ranked.precedes (M.dist measure.now) (M.bound measure.now)) (S.table store.old) (place_at x y) own k) (nearest_openings (ranking M.Distance.Ranked.precedes (M.dist measure.now) (M.bound measure.now)) (S.table store.old) (place_at x y) own k) (length answers.old) }
    ensures answers { answers.new ≡ filled (refused_nearest (S.table store.old) x y k (length work.old)) (nearest_answers (ranking M.Distance.Ranked.precedes (M.dist measure.now) (M.bound measure.now)) (S.table store.old) (place_at x y) own k) answers.old }
    ensures metered { IfOk result (λ t. S.metered store.new ≡ nearest_openings (ranking M.Distance.Ranked.precedes (M.dist measure.now) (M.bound measure.now)) (S.table store.old) (place_at x y) own k) }
    ensures table { S.table store.new ≡ S.table store.old }
    ensures frames { S.frames store.new ≡ S.frames store.old }
    ensures opened { Inside (S.table store.new) (S.opened store.new) }
    ensures bounded { S.metered store.new ≤ 2000000 }
    ensures work { length work.new ≡ length work.old }
    ensures step { Step (asking_nearest k (length work.old) (record { near = ranking M.Distance.Ranked.precedes (M.dist measure.now) (M.bound measure.now); x = x; y = y; own = own; list = answers.old }) (record { told = result; list = answers.new })) (state_of ⟦<S as NodeStore>⟧ store.old) (state_of ⟦<S as NodeStore>⟧ store.new) }
    ensures sound { Sound (ranking M.Distance.Ranked.precedes (M.dist measure.now) (M.bound measure.now)) }
{
    let query = Query {
        measure,
        from: admit(store, &[k], x, y, work.len())?,
        own,
        k,
        confirming: None,
    };
    let mut none: [Item<M::Distance>; 0] = [];
    store.zero();
    query.answer(store, work, &mut none, answers)
}

// The labels near to a place to which the place is near in turn: of the candidates under `k1`, those p for which fewer
// than `k2` of the others are nearer to p than the place is. The label of the query's own number is left out.
pub fn mutual<S: NodeStore, M: Measure>(
    store: &mut S,
    measure: &M,
    x: i32,
    y: i32,
    own: Option<u32>,
    k1: u32,
    k2: u32,
    work: &mut [Item<M::Distance>],
    second: &mut [Item<M::Distance>],
    answers: &mut [u32],
) -> Result<Told, Refusal>
    ensures told { result ≡ outcome (refused_mutual (S.table store.old) x y k1 k2 (length work.old) (length second.old)) (mutual_answers (ranking M.Distance.Ranked.precedes (M.dist measure.now) (M.bound measure.now)) (S.table store.old) (place_at x y) own k1 k2) (mutual_openings (ranking M.Distance.Ranked.precedes (M.dist measure.now) (M.bound measure.now)) (S.table store.old) (place_at x y) own k1 k2) (length answers.old) }
    ensures answers { answers.new ≡ filled (refused_mutual (S.table store.old) x y k1 k2 (length work.old) (length second.old)) (mutual_answers (ranking M.Distance.Ranked.precedes (M.dist measure.now) (M.bound measure.now)) (S.table store.old) (place_at x y) own k1 k2) answers.old }
    ensures metered { IfOk result (λ t. S.metered store.new ≡ mutual_openings (ranking M.Distance.Ranked.precedes (M.dist measure.now) (M.bound measure.now)) (S.table store.old) (place_at x y) own k1 k2) }
    ensures links { Links (ranking M.Distance.Ranked.precedes (M.dist measure.now) (M.bound measure.now)) (S.table store.old) }
    ensures table { S.table store.new ≡ S.table store.old }
    ensures frames { S.frames store.new ≡ S.frames store.old }
    ensures opened { Inside (S.table store.new) (S.opened store.new) }
    ensures bounded { S.metered store.new ≤ 2000000 }
    ensures work { (length work.new ≡ length work.old) × (length second.new ≡ length second.old) }
    ensures step { Step (asking_mutual k1 k2 (length work.old) (length second.old) (record { near = ranking M.Distance.Ranked.precedes (M.dist measure.now) (M.bound measure.now); x = x; y = y; own = own; list = answers.old }) (record { told = result; list = answers.new })) (state_of ⟦<S as NodeStore>⟧ store.old) (state_of ⟦<S as NodeStore>⟧ store.new) }
    ensures sound { Sound (ranking M.Distance.Ranked.precedes (M.dist measure.now) (M.bound measure.now)) }
{
    let shortest = work.len().min(second.len());
    let query = Query {
        measure,
        from: admit(store, &[k1, k2], x, y, shortest)?,
        own,
        k: k1,
        confirming: Some(k2),
    };
    store.zero();
    query.answer(store, work, second, answers)
}
