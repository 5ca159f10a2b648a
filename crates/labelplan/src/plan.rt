// The plan at hand: a node store, read through its nodes.
ghost use Rattle.std.specs.Prelude.{◌≡◌, ◌++◌, not, map, IfOk, OnOk, string_bytes, vec_items};
ghost use Rattle.std.specs.List.{range_with_len};
ghost use Rattle.index.specs.Table.{slot_at, labels_in, plan};
ghost use Rattle.index.specs.Laws.{is_leaf};
ghost use Rattle.labelplan.specs.Nodes.{node_text};

use geometry::{Label, Rect};
use image::ImageStore;
use index::{NodeStore, SLOTS, Slot, open_slots};
use lattice::Lattice;
use script::report::{node_line, push_line, slot_entry};
use std::alloc::{AllocError, Global};

pub mod store;

// The box keeps a plan small, which is moved through every level of a pile.
#[derive(Drop)]
pub enum Plan<G, I> {
    Grid(G),
    Image(Box<I>),
}

// What the program's commands make.
pub type MapPlan = Plan<Lattice, ImageStore>;

// Adds the labels of the open node.
fn add_labels<S: NodeStore>(store: &S, labels: &mut Vec<Label>) -> Result<(), AllocError>
    ensures { OnOk result (vec_items labels.new ≡ vec_items labels.old ++ labels_in (map (slot_at (S.table store.now) (S.opened store.now)) (range_with_len 0 SLOTS))) }
{
    // A store lends no list of slots, and one made for each node would take longer than to read them.
    for j in 0..SLOTS {
        if let Slot::Holds(label) = store.slot(j) {
            labels.push(label)?;
        }
    }
    Ok(())
}

// The labels of a store, from node to node.
pub fn labels_of<S: NodeStore>(heap: Global, store: &mut S) -> Result<Vec<Label>, AllocError>
    ensures table { S.table store.new ≡ S.table store.old }
    ensures labels { IfOk result (λ labels. vec_items labels ≡ plan (S.table store.old)) }
{
    let mut labels = Vec::new(heap);
    store.zero();
    // A store opens a node by its number, and lends no list of nodes.
    for i in 0..store.node_count() {
        // There are at most 300 nodes, which the meter can count.
        let Ok(()) = store.open(i) else {
            unreachable!()
        };
        add_labels(store, &mut labels)?;
    }
    Ok(labels)
}

// Whether a node has a branch.
fn is_inner(slots: &[Slot]) -> bool
    ensures { result ≡ not (is_leaf slots.now) }
{
    slots.iter().any(|slot| matches!(slot, Slot::Leads(_, _)))
}

// Notes the boxes of the nodes that a node leads to.
fn note_boxes(slots: &[Slot], boxes: &mut [Rect]) {
    for slot in slots {
        if let Slot::Leads(around, node) = slot {
            if let Some(place) = boxes.get_mut(*node) {
                *place = *around;
            }
        }
    }
}

// The line of a node, which has that number and that box.
fn node_of(heap: Global, slots: &[Slot], number: usize, around: Rect) -> Result<String, AllocError>
    ensures { IfOk result (λ line. string_bytes line ≡ node_text number slots.now around) }
{
    let mut line = node_line(heap, number, is_inner(slots), around)?;
    for (j, slot) in slots.iter().enumerate() {
        line.push_str(slot_entry(heap, j, *slot)?.as_str())?;
    }
    Ok(line)
}

// A line for each node of a store. It goes over the nodes as `labels_of` does, but needs the slots of each three times. A
// branch leads to a greater node, whose box is known when its turn comes.
pub fn nodes_of<S: NodeStore>(heap: Global, store: &mut S) -> Result<String, AllocError>
    ensures { S.table store.new ≡ S.table store.old }
{
    let root = store.root_box();
    let mut boxes = vec![in heap; root; store.node_count()]?;
    let mut lines = String::new(heap);
    store.zero();
    // A store opens a node by its number, and lends no list of nodes.
    for i in 0..store.node_count() {
        // There are at most 300 nodes, which the meter can count.
        let Ok(()) = store.open(i) else {
            unreachable!()
        };
        let slots = open_slots(store);
        let around = boxes.get(i).copied().unwrap_or(root);
        push_line(&mut lines, node_of(heap, &slots, i, around)?.as_str())?;
        note_boxes(&slots, &mut boxes);
    }
    Ok(lines)
}
