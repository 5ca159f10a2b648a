// Edits, over stores with room for a layer and without.
use crate::chain::Chain;
use crate::shared::Change::{Add, Withdraw};
use crate::shared::{labels, make};
use edit::{Edit, Kept};
use geometry::{Label, Refusal};
use index::{NodeStore, Slot};
use lattice::Lattice;
use std::alloc::Global;
use std::process::Abort;
use std::test::Fail;

// Labels from (0, 0) on, a metre apart, numbered from 1 in the first row and from 13 in the second.
fn rows_of_labels(rows: u32, columns: u32) -> Result<Lattice, Refusal> {
    Lattice::new(rows, columns, 1, 0, 0, 1)
}

#[test]
fn changes_are_refused_in_order(rt: HostRuntime) -> Result<(), Fail> {
    let mut edit = Edit::over(rows_of_labels(2, 12)?);
    for i in 1..13 {
        make(
            &rt,
            &mut edit,
            &[(Add(100 + i, 0), None), (Withdraw(i), None)],
        );
    }
    make(
        &rt,
        &mut edit,
        &[
            (Add(0, 1_000_001), Some(6)),
            (Add(13, 1_000_001), Some(10)),
            (Add(13, 0), Some(11)),
            (Add(101, 0), Some(11)),
            (Add(113, 0), Some(13)),
            (Add(1, 0), Some(13)),
            (Withdraw(0), Some(12)),
            (Withdraw(1), Some(12)),
            (Withdraw(13), Some(13)),
            (Withdraw(101), None),
            (Withdraw(101), Some(12)),
            (Add(1, 5), None),
            (Add(1, 6), Some(11)),
            (Add(101, 0), Some(13)),
            (Withdraw(1), None),
            (Withdraw(1), Some(12)),
        ],
    );
    assert_eq!(rt; labels(rt.alloc(), &mut edit)?.len(), 12 + 11);
    Ok(())
}

#[test]
fn a_label_is_moved_and_dropped(rt: HostRuntime) -> Result<(), Fail> {
    let mut edit = Edit::over(rows_of_labels(1, 3)?);
    for (change, told, plan) in [
        (Withdraw(2), None, [(1, 0), (3, 2)].as_slice()),
        (Add(2, 50), None, [(1, 0), (2, 50), (3, 2)].as_slice()),
        (Add(2, 60), Some(11), [(1, 0), (2, 50), (3, 2)].as_slice()),
        (Withdraw(2), None, [(1, 0), (3, 2)].as_slice()),
        (Withdraw(2), Some(12), [(1, 0), (3, 2)].as_slice()),
        (Add(2, 1), None, [(1, 0), (2, 1), (3, 2)].as_slice()),
        (Add(4, 9), None, [(1, 0), (2, 1), (3, 2), (4, 9)].as_slice()),
        (Withdraw(4), None, [(1, 0), (2, 1), (3, 2)].as_slice()),
    ] {
        make(&rt, &mut edit, &[(change, told)]);
        assert_eq!(rt;
            labels(rt.alloc(), &mut edit)?.as_slice(),
            plan,
            "{change:?}"
        );
    }
    Ok(())
}

// Ends an edit, and gives the labels then.
fn end<S: NodeStore + Drop>(
    heap: Global,
    edit: Edit<S>,
    keeps: bool,
) -> Result<Vec<(u32, i32)>, Fail> {
    if keeps {
        labels(heap, &mut edit.keep())
    } else {
        labels(heap, &mut edit.cancel())
    }
}

// Adds label 5 in an edit over a store, ends the edit, and gives the labels then.
fn once_more<S: NodeStore + Drop>(
    heap: Global,
    store: S,
    keeps: bool,
) -> Result<Vec<(u32, i32)>, Fail> {
    let mut edit = Edit::over(store);
    edit.add(5, 50, 0)?;
    end(heap, edit, keeps)
}

// Adds label 4 in an edit over a store, ends the edit, and then once more.
fn twice_more<S: NodeStore + Drop>(
    heap: Global,
    store: S,
    first: bool,
    second: bool,
) -> Result<Vec<(u32, i32)>, Fail> {
    let mut edit = Edit::over(store);
    edit.add(4, 40, 0)?;
    if first {
        once_more(heap, edit.keep(), second)
    } else {
        once_more(heap, edit.cancel(), second)
    }
}

// Makes three endings: of the edits from the top on, and of new ones once one is kept.
fn end_three<S: NodeStore + Drop>(
    heap: Global,
    top: Edit<Edit<Edit<S>>>,
    keeps: [bool; 3],
) -> Result<Vec<(u32, i32)>, Fail> {
    if keeps[0] {
        return twice_more(heap, top.keep(), keeps[1], keeps[2]);
    }
    let middle = top.cancel();
    if keeps[1] {
        return once_more(heap, middle.keep(), keeps[2]);
    }
    end(heap, middle.cancel(), keeps[2])
}

#[test]
fn edits_end_in_every_order(rt: HostRuntime) -> Result<(), Fail> {
    for (keeps, plan) in [
        (
            [true, true, true],
            [(2, 1), (3, 30), (4, 40), (5, 50)].as_slice(),
        ),
        ([true, true, false], [(2, 1), (3, 30), (4, 40)].as_slice()),
        ([true, false, true], [(2, 1), (3, 30), (5, 50)].as_slice()),
        ([true, false, false], [(2, 1), (3, 30)].as_slice()),
        ([false, true, true], [(1, 20), (2, 1), (5, 50)].as_slice()),
        ([false, true, false], [(1, 20), (2, 1)].as_slice()),
        ([false, false, true], [(2, 1), (3, 10)].as_slice()),
        ([false, false, false], [(1, 0), (2, 1)].as_slice()),
    ] {
        let mut lower = Edit::over(rows_of_labels(1, 2)?);
        make(&rt, &mut lower, &[(Withdraw(1), None), (Add(3, 10), None)]);
        let mut middle = Edit::over(lower);
        make(&rt, &mut middle, &[(Add(1, 20), None), (Withdraw(3), None)]);
        let mut upper = Edit::over(middle);
        make(&rt, &mut upper, &[(Withdraw(1), None), (Add(3, 30), None)]);
        let found = end_three(rt.alloc(), upper, keeps)?;
        assert_eq!(rt; found.as_slice(), plan, "{keeps:?}");
    }
    Ok(())
}

// A new edit over a store with its root open and its meter at 1.
fn over_open<S: NodeStore + Drop>(rt: &impl Abort, mut store: S) -> Result<Edit<S>, Fail> {
    store.zero();
    store.open(0)?;
    assert_ne!(rt; store.slot(0), Slot::Empty);
    assert_eq!(rt; store.meter(), 1);
    let edit = Edit::over(store);
    assert_eq!(rt; edit.slot(0), Slot::Empty);
    assert_eq!(rt; edit.meter(), 1);
    Ok(edit)
}

#[test]
fn a_new_edit_has_no_node_open(rt: HostRuntime) -> Result<(), Fail> {
    let label = Label::new(1, 0, 0)?;
    let open = over_open(&rt, Chain::new(298, label)?)?;
    assert_eq!(rt; open.node_count(), 300);
    let closed = over_open(&rt, open)?;
    assert_eq!(rt; closed.node_count(), 300);
    let kept: Kept<Edit<Chain>> = closed.keep();
    over_open(&rt, kept)?;
    Ok(())
}
