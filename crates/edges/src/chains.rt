// Edits over chains of 298 nodes, where there is room for a layer, and of 299, where there is none.
use crate::chain::Chain;
use crate::shared::Change::{Add, Withdraw};
use crate::shared::{labels, make, refused, work_list};
use edit::Edit;
use geometry::{Label, Rect};
use index::{NodeStore, Slot};
use measure::Straight;
use search::{nearest, work_places};
use std::alloc::Global;
use std::test::Fail;

// The labels nearest to (1, 0), of which there are up to two, and how many nodes were opened.
fn near<S: NodeStore>(heap: Global, store: &mut S, k: u32) -> Result<([u32; 2], u32), Fail> {
    let mut answers = [0; 2];
    let mut work = work_list(heap, work_places(store))?;
    let told = nearest(
        store,
        &Straight,
        1,
        0,
        None,
        k,
        work.as_mut_slice(),
        &mut answers,
    )?;
    Ok((answers, told.opened))
}

// Opens nodes in turn, and gives the first slot of the last of them and the meter.
fn opened<S: NodeStore>(store: &mut S, nodes: &[usize]) -> Result<(Slot, u32), Fail> {
    store.zero();
    for node in nodes {
        store.open(*node)?;
    }
    Ok((store.slot(0), store.meter()))
}

#[test]
fn over_298_nodes_an_edit_is_open(rt: HostRuntime) -> Result<(), Fail> {
    let heap = rt.alloc();
    let label = Label::new(1, 0, 0)?;
    let mut edit = Edit::over(Chain::new(298, label)?);
    assert_eq!(rt; edit.node_count(), 300);
    make(&rt, &mut edit, &[(Add(1, 0), Some(11)), (Add(2, 5), None)]);
    assert_eq!(rt; near(heap, &mut edit, 1)?, ([1, 0], 299));
    assert_eq!(rt; near(heap, &mut edit, 2)?, ([1, 2], 300));
    make(
        &rt,
        &mut edit,
        &[(Withdraw(1), None), (Withdraw(1), Some(12))],
    );
    assert_eq!(rt; near(heap, &mut edit, 1)?, ([2, 0], 300));
    assert_eq!(rt; labels(heap, &mut edit)?.as_slice(), [(2, 5)].as_slice());
    assert_eq!(rt; refused(edit.open(300)), Some(15));
    let around = Rect::spot(label.place());
    assert_eq!(rt; opened(&mut edit, &[0, 1, 2])?, (Slot::Leads(around, 3), 3));
    assert_eq!(rt; edit.cancel().meter(), 1);
    Ok(())
}

#[test]
fn over_299_nodes_an_edit_is_closed(rt: HostRuntime) -> Result<(), Fail> {
    let heap = rt.alloc();
    let label = Label::new(1, 0, 0)?;
    let mut edit = Edit::over(Chain::new(299, label)?);
    make(
        &rt,
        &mut edit,
        &[
            (Add(2, 5), Some(14)),
            (Add(0, 1_000_001), Some(14)),
            (Add(1, 0), Some(14)),
            (Withdraw(1), Some(14)),
            (Withdraw(2), Some(14)),
        ],
    );
    assert_eq!(rt; edit.node_count(), 299);
    assert_eq!(rt; edit.root_box(), Rect::spot(label.place()));
    assert_eq!(rt; near(heap, &mut edit, 2)?, ([1, 0], 299));
    assert_eq!(rt; labels(heap, &mut edit)?.as_slice(), [(1, 0)].as_slice());
    assert_eq!(rt; refused(edit.open(299)), Some(15));
    assert_eq!(rt; opened(&mut edit, &[298])?, (Slot::Holds(label), 1));
    let around = Rect::spot(label.place());
    assert_eq!(rt; opened(&mut edit, &[1, 0])?, (Slot::Leads(around, 1), 2));
    assert_eq!(rt; edit.cancel().meter(), 2);
    Ok(())
}
