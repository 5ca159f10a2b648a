// Queries over the worked plan of docs/QUERIES.md, and over edits of it.
use crate::shared::Change::{Add, Withdraw};
use crate::shared::{labels, make, refused, work_list};
use edit::{Edit, rehearse};
use image::ImageStore;
use index::NodeStore;
use measure::Straight;
use search::{mutual, nearest, work_places};
use std::alloc::{AllocError, Global};
use std::process::Abort;
use std::test::Fail;

// The worked plan as an image: the sizes, the nodes, the boxes and the targets, as docs/IMAGE.md has them.
const WORKED: [u8; 170] = [
    0, 3, 0, 8, // 3 nodes, 8 entries
    1, 2, 0, 3, 0, 2, // levels and counts
    0, 0, 0, 0, 0, 0, 0, 0, 0, 0, 0, 24, 0, 0, 0, 0, // the root box
    0, 0, 0, 0, 0, 0, 0, 0, 0, 0, 0, 4, 0, 0, 0, 0, // node 1
    0, 0, 0, 20, 0, 0, 0, 0, 0, 0, 0, 24, 0, 0, 0, 0, // node 2
    0, 0, 0, 0, 0, 0, 0, 0, 0, 0, 0, 0, 0, 0, 0, 0, // label 1
    0, 0, 0, 3, 0, 0, 0, 0, 0, 0, 0, 3, 0, 0, 0, 0, // label 2
    0, 0, 0, 4, 0, 0, 0, 0, 0, 0, 0, 4, 0, 0, 0, 0, // label 3
    0, 0, 0, 20, 0, 0, 0, 0, 0, 0, 0, 20, 0, 0, 0, 0, // label 4
    0, 0, 0, 24, 0, 0, 0, 0, 0, 0, 0, 24, 0, 0, 0, 0, // label 5
    0, 0, 0, 0, 0, 0, 0, 1, 0, 0, 0, 2, // the targets
    0, 0, 0, 1, 0, 0, 0, 2, 0, 0, 0, 3, 0, 0, 0, 4, 0, 0, 0, 5,
];

// A store with the worked plan.
fn worked(heap: Global) -> Result<ImageStore, Fail> {
    let mut store = ImageStore::new(heap)?;
    store.open_image(&WORKED, &mut [0; 5])?;
    Ok(store)
}

// A mutual query at (x, 0) with two counts, what it answers, and how many nodes it opens.
#[derive(Clone, Copy, Debug)]
struct Row<'a> {
    x: i32,
    own: Option<u32>,
    counts: [u32; 2],
    answers: &'a [u32],
    opened: u32,
}

// A row from its parts.
fn row_at(x: i32, own: Option<u32>, counts: [u32; 2], answers: &[u32], opened: u32) -> Row<'_> {
    Row {
        x,
        own,
        counts,
        answers,
        opened,
    }
}

// Asks a row's query, and compares.
fn ask<S: NodeStore>(
    rt: &impl Abort,
    heap: Global,
    store: &mut S,
    row: &Row<'_>,
) -> Result<(), Fail> {
    let mut work = work_list(heap, work_places(store))?;
    let mut second = work_list(heap, work_places(store))?;
    let mut answers = [0; 5];
    let told = mutual(
        store,
        &Straight,
        row.x,
        0,
        row.own,
        row.counts[0],
        row.counts[1],
        work.as_mut_slice(),
        second.as_mut_slice(),
        &mut answers,
    )?;
    assert_eq!(rt; answers.get(..told.count), Some(row.answers), "{row:?}");
    assert_eq!(rt; told.opened, row.opened, "{row:?}");
    assert_eq!(rt; store.meter(), row.opened, "{row:?}");
    Ok(())
}

// Over the plan itself, or through a new edit over it with some changes.
#[test]
fn the_worked_plan_is_answered(rt: HostRuntime) -> Result<(), Fail> {
    let heap = rt.alloc();
    let added = (Add(6, 12), None);
    let withdrawn = (Withdraw(2), None);
    for (changes, row) in [
        (None, row_at(4, Some(3), [1, 1], &[2], 4)),
        (None, row_at(0, Some(1), [1, 1], &[], 4)),
        (None, row_at(0, Some(1), [1, 2], &[2], 4)),
        (None, row_at(3, Some(2), [2, 1], &[3, 1], 6)),
        (None, row_at(12, None, [1, 1], &[], 7)),
        (None, row_at(12, None, [1, 2], &[4], 7)),
        (None, row_at(12, None, [1, 3], &[3, 4], 7)),
        (Some([].as_slice()), row_at(12, None, [1, 3], &[3, 4], 13)),
        (
            Some([added].as_slice()),
            row_at(12, Some(6), [1, 3], &[3, 4], 11),
        ),
        (
            Some([added, withdrawn].as_slice()),
            row_at(0, Some(1), [1, 1], &[3], 6),
        ),
    ] {
        let mut plan = worked(heap)?;
        if let Some(changes) = changes {
            let mut edit = Edit::over(plan);
            make(&rt, &mut edit, changes);
            ask(&rt, heap, &mut edit, &row)?;
        } else {
            ask(&rt, heap, &mut plan, &row)?;
        }
    }
    Ok(())
}

// How a mutual query at (x, 0) ends whose lists have so many places: the count of answers and the openings, or the number
// and the place of the refusal.
fn told_of(
    heap: Global,
    store: &mut ImageStore,
    x: i32,
    counts: [u32; 2],
    places: [usize; 2],
    room: usize,
) -> Result<Result<(usize, u32), (u32, usize)>, AllocError> {
    let mut work = work_list(heap, places[0])?;
    let mut second = work_list(heap, places[1])?;
    let mut answers = vec![in heap; 0; room]?;
    let told = mutual(
        store,
        &Straight,
        x,
        0,
        None,
        counts[0],
        counts[1],
        work.as_mut_slice(),
        second.as_mut_slice(),
        answers.as_mut_slice(),
    );
    Ok(
        told.map(|t| (t.count, t.opened))
            .map_err(|e| (e.number(), e.place)),
    )
}

#[test]
fn queries_are_refused_at_their_edges(rt: HostRuntime) -> Result<(), Fail> {
    let heap = rt.alloc();
    let mut plan = worked(heap)?;
    for (x, counts, places, room, end) in [
        (12, [1, 3], [37, 37], 2, Ok((2, 7))),
        (12, [1, 3], [36, 37], 2, Err((7, 37))),
        (12, [1, 3], [37, 36], 2, Err((7, 37))),
        (12, [1, 3], [37, 37], 1, Err((8, 0))),
        (12, [64, 64], [37, 37], 5, Ok((5, 13))),
        (12, [65, 1], [37, 37], 5, Err((9, 0))),
        (12, [1, 65], [37, 37], 5, Err((9, 0))),
        (12, [0, 1], [37, 37], 5, Err((9, 0))),
        (12, [1, 0], [37, 37], 5, Err((9, 0))),
        (1_000_000, [1, 5], [37, 37], 1, Ok((1, 5))),
        (1_000_001, [1, 5], [0, 0], 0, Err((10, 0))),
        (1_000_001, [65, 5], [0, 0], 0, Err((9, 0))),
    ] {
        let told = told_of(heap, &mut plan, x, counts, places, room)?;
        assert_eq!(rt; told, end, "{x} {counts:?} {places:?}");
    }
    let mut answers = [0; 3];
    let told = nearest(
        &mut plan,
        &Straight,
        12,
        0,
        None,
        1,
        work_list(heap, 37)?.as_mut_slice(),
        &mut answers,
    )?;
    assert_eq!(rt; (told.count, told.opened), (2, 3));
    assert_eq!(rt; answers, [3, 4, 0]);
    Ok(())
}

// Label 6 is added in an edit and label 2 withdrawn in another over that, whose table has seven nodes. Of the openings
// 7 are of nodes of the plan.
#[test]
fn a_rehearsal_leaves_the_labels(rt: HostRuntime) -> Result<(), Fail> {
    let heap = rt.alloc();
    let mut answers = [0; 3];
    let mut rehearsal = rehearse(
        worked(heap)?,
        &Straight,
        6,
        12,
        0,
        2,
        1,
        3,
        work_list(heap, 85)?.as_mut_slice(),
        work_list(heap, 85)?.as_mut_slice(),
        &mut answers,
    );
    let told = rehearsal.told?;
    assert_eq!(rt; (told.count, told.opened), (2, 17));
    assert_eq!(rt; answers, [3, 4, 0]);
    assert_eq!(rt; refused(rehearsal.added), None);
    assert_eq!(rt; refused(rehearsal.withdrawn), None);
    assert_eq!(rt; rehearsal.store.meter(), 7);
    let found = labels(heap, &mut rehearsal.store)?;
    let plan = [(1, 0), (2, 3), (3, 4), (4, 20), (5, 24)];
    assert_eq!(rt; found.as_slice(), plan.as_slice());
    Ok(())
}
