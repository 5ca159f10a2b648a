// The search of a whole store for a number.
ghost use Rattle.std.specs.Prelude.{◌≡◌, ◌+◌, ◌≤◌};
ghost use Rattle.std.specs.List.{list_any};
ghost use Rattle.geometry.specs.Numbers.{present};
ghost use Rattle.index.specs.Table.{node_count, label_in, plan};

use index::{NodeStore, Slot, open_slots};

// Whether a slot has the label of the number.
fn is_labelled(slot: Slot, number: u32) -> bool
    ensures { result ≡ present number (label_in slot) }
{
    match slot {
        Slot::Holds(label) => label.number() == number,
        _ => false,
    }
}

// Whether a node with these slots has a label of the number.
fn is_here(slots: &[Slot], number: u32) -> bool
    ensures { result ≡ list_any (λ s. present number (label_in s)) slots.now }
{
    slots.iter().any(|slot| is_labelled(*slot, number))
}

// Whether the plan has a label of the number. Opens nodes in turn until it is found.
pub(crate) fn has_number<S: NodeStore>(store: &mut S, number: u32) -> bool
    requires { S.metered store.old + node_count (S.table store.old) ≤ 2000000 }
    ensures table { S.table store.new ≡ S.table store.old }
    ensures frames { S.frames store.new ≡ S.frames store.old }
    ensures value { result ≡ present number (plan (S.table store.old)) }
{
    for i in 0..store.node_count() {
        let Ok(()) = store.open(i) else {
            unreachable!()
        };
        if is_here(&open_slots(store), number) {
            return true;
        }
    }
    false
}
