// Queries over a store, with lists made for each. That a query keeps the plan's table is said in each contract: no type
// can say it of a store that is lent.
ghost use Rattle.std.specs.Prelude.{◌≡◌, ◌*◌, length, take, fold, IfOk, OnOk, string_bytes, ◌==◌};
ghost use Rattle.std.specs.List.{find};
ghost use Rattle.std.specs.List.Sorted.{IsPermutation};
ghost use Rattle.index.specs.Table.{node_count, plan};
ghost use Rattle.neighbours.specs.Ranking.{ranking};
ghost use Rattle.neighbours.specs.Scene.{work_places};
ghost use Rattle.labelplan.specs.Asked.{work_length, answer_length, NearestEnds, MutualEnds, LinkedEnds, NumberEnds};
ghost use Rattle.script.specs.Report.{line_after, answers_line, opened_line, link_line};

use crate::plan::labels_of;
use geometry::{Label, Reason};
use index::{NodeStore, SLOTS};
use listing::Failure;
use measure::Measure;
use neighbours::{Item, Told};
use script::Query;
use script::report::{answers_line, link_line, links_line, opened_line, push_line};
use search::{mutual, nearest, spare_item, work_places};
use std::alloc::{AllocError, Global};

// How many places the lists have that are lent to a query: as many as it can need, unless a number is set.
#[derive(Clone, Copy)]
pub struct Lengths {
    pub answers: Option<usize>,
    pub work: Option<usize>,
}

// What an accepted query told: its answers, and how many nodes it opened.
#[derive(Drop)]
pub struct Answered {
    pub numbers: Vec<u32>,
    pub opened: u32,
}

// How a query is made: where its lists come from, by which measure it goes, and how long the lists are.
#[derive(Drop)]
pub struct Terms<'a, M> {
    pub heap: Global,
    pub measure: &'a M,
    pub lengths: Lengths,
}

// The answers at the front of the list.
fn take_front(mut numbers: Vec<u32>, told: Told) -> Answered
    ensures numbers { result.numbers.items ≡ take told.count numbers.items }
    ensures opened { result.opened ≡ told.opened }
{
    numbers.truncate(told.count);
    Answered {
        numbers,
        opened: told.opened,
    }
}

// The label of that number, if there is one.
fn labelled(labels: &[Label], number: u32) -> Option<Label>
    ensures { result ≡ find (λ q. q.number == number) labels.now }
{
    labels.iter().copied().find(|l| l.number() == number)
}

// The labels of a store, by number.
fn labels_by_number<S: NodeStore>(heap: Global, store: &mut S) -> Result<Vec<Label>, AllocError>
    ensures table { S.table store.new ≡ S.table store.old }
    ensures labels { IfOk result (λ labels. IsPermutation (plan (S.table store.old)) labels.items) }
{
    let mut labels = labels_of(heap, store)?;
    labels.sort_unstable();
    Ok(labels)
}

// Adds a line for each label that is linked to a label.
fn push_links(
    lines: &mut String,
    heap: Global,
    label: Label,
    linked: &[u32],
) -> Result<(), AllocError>
    ensures { OnOk result (string_bytes lines.new ≡ fold (λ bs p. line_after bs (link_line p label.number)) (string_bytes lines.old) linked.now) }
{
    for p in linked {
        push_line(lines, link_line(heap, *p, label.number())?.as_str())?;
    }
    Ok(())
}

// The answers in a line, and the openings in another.
fn lines_of(heap: Global, answered: &Answered) -> Result<String, AllocError>
    ensures { IfOk result (λ s. string_bytes s ≡ line_after (answers_line answered.now.numbers.items) (opened_line answered.now.opened)) }
{
    let mut lines = answers_line(heap, answered.numbers.as_slice())?;
    push_line(&mut lines, opened_line(heap, answered.opened)?.as_str())?;
    Ok(lines)
}

// A query's numbers come one by one, as `nearest` and `mutual` take them: a struct of them would be taken apart at once.
impl<M: Measure> Terms<'_, M> {
    // A work list for a query over the store.
    fn work_list<S: NodeStore>(&self, store: &S) -> Result<Vec<Item<M::Distance>>, AllocError>
        ensures { IfOk result (λ v. length v.items ≡ work_length self.now.lengths (S.table store.now)) }
    {
        let places = self.lengths.work.unwrap_or(work_places(store));
        vec![in self.heap; spare_item(self.measure); places]
    }

    // An answer list for a query over the store: as long as there are slots, where no length is set.
    fn answer_list<S: NodeStore>(&self, store: &S) -> Result<Vec<u32>, AllocError>
        ensures { IfOk result (λ v. length v.items ≡ answer_length self.now.lengths (S.table store.now)) }
    {
        let places = self.lengths.answers.unwrap_or(SLOTS * store.node_count());
        vec![in self.heap; 0; places]
    }

    // The labels near to a place.
    pub fn nearest_to<S: NodeStore>(
        &self,
        store: &mut S,
        x: i32,
        y: i32,
        own: Option<u32>,
        k: u32,
    ) -> Result<Answered, Failure>
        ensures table { S.table store.new ≡ S.table store.old }
        ensures ends { NearestEnds (ranking M.Distance.Ranked.precedes (M.dist self.now.measure.now) (M.bound self.now.measure.now)) (S.table store.old) self.now.lengths x y own k result }
    {
        let mut work = self.work_list(store)?;
        let mut answers = self.answer_list(store)?;
        let told = nearest(
            store,
            self.measure,
            x,
            y,
            own,
            k,
            work.as_mut_slice(),
            answers.as_mut_slice(),
        )?;
        Ok(take_front(answers, told))
    }

    // The labels near to a place to which the place is near in turn.
    pub fn mutual_to<S: NodeStore>(
        &self,
        store: &mut S,
        x: i32,
        y: i32,
        own: Option<u32>,
        k1: u32,
        k2: u32,
    ) -> Result<Answered, Failure>
        ensures table { S.table store.new ≡ S.table store.old }
        ensures ends { MutualEnds (ranking M.Distance.Ranked.precedes (M.dist self.now.measure.now) (M.bound self.now.measure.now)) (S.table store.old) self.now.lengths x y own k1 k2 result }
    {
        let mut work = self.work_list(store)?;
        let mut second = self.work_list(store)?;
        let mut answers = self.answer_list(store)?;
        let told = mutual(
            store,
            self.measure,
            x,
            y,
            own,
            k1,
            k2,
            work.as_mut_slice(),
            second.as_mut_slice(),
            answers.as_mut_slice(),
        )?;
        Ok(take_front(answers, told))
    }

    // The labels that are linked to a label: those near to its place, and its place to them, without itself.
    fn linked_with<S: NodeStore>(
        &self,
        store: &mut S,
        label: Label,
        k1: u32,
        k2: u32,
    ) -> Result<Answered, Failure>
        ensures table { S.table store.new ≡ S.table store.old }
        ensures ends { LinkedEnds (ranking M.Distance.Ranked.precedes (M.dist self.now.measure.now) (M.bound self.now.measure.now)) (S.table store.old) self.now.lengths k1 k2 label result }
    {
        let place = label.place();
        let own = Some(label.number());
        self.mutual_to(store, place.x(), place.y(), own, k1, k2)
    }

    // The labels that are linked to the label of that number.
    fn linked_to<S: NodeStore>(
        &self,
        store: &mut S,
        number: u32,
        k1: u32,
        k2: u32,
    ) -> Result<Answered, Failure>
        ensures table { S.table store.new ≡ S.table store.old }
        ensures ends { NumberEnds (ranking M.Distance.Ranked.precedes (M.dist self.now.measure.now) (M.bound self.now.measure.now)) (S.table store.old) self.now.lengths k1 k2 number result }
    {
        let labels = labels_of(self.heap, store)?;
        let Some(label) = labelled(labels.as_slice(), number) else {
            return Err(Failure::Refused(Reason::NumberAbsent.into()));
        };
        self.linked_with(store, label, k1, k2)
    }

    // A line for each link, by the number of the label that is answered, and how many there are.
    fn links<S: NodeStore>(&self, store: &mut S, k1: u32, k2: u32) -> Result<String, Failure>
        ensures table { S.table store.new ≡ S.table store.old }
    {
        let mut lines = String::new(self.heap);
        let mut count: usize = 0;
        for label in labels_by_number(self.heap, store)? {
            let linked = self.linked_with(store, label, k1, k2)?;
            push_links(&mut lines, self.heap, label, linked.numbers.as_slice())?;
            count = count.saturating_add(linked.numbers.len());
        }
        push_line(&mut lines, links_line(self.heap, count)?.as_str())?;
        Ok(lines)
    }

    // What a query prints.
    pub fn answer<S: NodeStore>(&self, store: &mut S, query: Query) -> Result<String, Failure>
        ensures table { S.table store.new ≡ S.table store.old }
    {
        let answered = match query {
            Query::Nearest { x, y, k, own } => self.nearest_to(store, x, y, own, k)?,
            Query::Mutual { x, y, k1, k2, own } => self.mutual_to(store, x, y, own, k1, k2)?,
            Query::Linked { number, k1, k2 } => self.linked_to(store, number, k1, k2)?,
            Query::Links { k1, k2 } => return self.links(store, k1, k2),
        };
        Ok(lines_of(self.heap, &answered)?)
    }
}
