// A rehearsal: changes that are tried in two edits, one over the other, and cancelled.
ghost use Rattle.std.specs.Prelude.{◌≡◌, [], ◌∷◌, length, ℕ, ℤ};
ghost use Rattle.neighbours.specs.Ranking.{ranking};
ghost use Rattle.runs.specs.Runs.{Run, state_of, fresh, first_pages, recorded};
ghost use Rattle.edit.specs.Rehearsal.{rehearsed};

use crate::edit::Edit;
use geometry::Refusal;
use index::NodeStore;
use measure::Measure;
use neighbours::{Item, Told};
use search::mutual;

// What a rehearsal told: how adding, withdrawing and asking ended. The store is as it was.
#[derive(Drop)]
pub struct Rehearsal<S> {
    pub store: S,
    pub added: Result<(), Refusal>,
    pub withdrawn: Result<(), Refusal>,
    pub told: Result<Told, Refusal>,
}

// Adds a label in an edit, withdraws a number in an edit over it, asks who is near to the label's place and it to them,
// and cancels both edits.
pub fn rehearse<S: NodeStore, M: Measure>(
    store: S,
    measure: &M,
    number: u32,
    x: i32,
    y: i32,
    gone: u32,
    k1: u32,
    k2: u32,
    work: &mut [Item<M::Distance>],
    second: &mut [Item<M::Distance>],
    answers: &mut [u32],
) -> Rehearsal<S>
    ensures table { S.table result.store ≡ S.table store }
    ensures frames { S.frames result.store ≡ S.frames store }
    ensures run { let calls = rehearsed (ranking M.Distance.Ranked.precedes (M.dist measure.now) (M.bound measure.now)) number x y gone k1 k2 (length work.old) (length second.old) answers.old answers.new result.added result.withdrawn result.told in let start = state_of ⟦<S as NodeStore>⟧ store in Run (fresh start) (first_pages (S.table store)) calls (state_of ⟦<S as NodeStore>⟧ result.store) (recorded calls (first_pages (S.table store))) }
{
    let mut edit = Edit::over(store);
    let added = edit.add(number, x, y);
    let mut upper = Edit::over(edit);
    let withdrawn = upper.withdraw(gone);
    let told = mutual(
        &mut upper,
        measure,
        x,
        y,
        Some(number),
        k1,
        k2,
        work,
        second,
        answers,
    );
    Rehearsal {
        store: upper.cancel().cancel(),
        added,
        withdrawn,
        told,
    }
}
