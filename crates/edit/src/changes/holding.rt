ghost use Rattle.std.specs.Prelude.{◌≡◌, ◌++◌, [], ◌∷◌, false, length, Some, Ok, Err, if◌then◌else◌, slice_index_or, nat_le};
ghost use Rattle.geometry.specs.Numbers.{present};
ghost use Rattle.index.specs.declared.slot.Slot.TheVariants.{Empty};
ghost use Rattle.runs.specs.Layers.{bare, withdrawn, hides, around_labels, added_box, added_slots};
ghost use Rattle.neighbours.specs.Neighbours.{others};
ghost use Rattle.runs.specs.Changes.{withdraw_layer};
ghost use Rattle.edit.specs.Showing.{layer_of, held};

use super::Changes;
use arrayvec::ArrayVec;
use geometry::{Label, Reason, Rect, Refusal};
use index::Slot;

// The smallest box around a box and labels.
fn around_labels(start: Rect, labels: &[Label]) -> Rect
    ensures { result ≡ around_labels start labels.now }
{
    let mut around = start;
    for label in labels {
        around = Rect::around(&around, &Rect::spot(label.place()));
    }
    around
}

impl Changes {
    // No changes.
    pub(crate) fn new() -> Changes
        ensures { layer_of result ≡ bare }
    {
        Changes {
            added: ArrayVec::new(),
            withdrawn: ArrayVec::new(),
        }
    }

    // Whether an added label has the number.
    pub(crate) fn adds(&self, number: u32) -> bool
        ensures { result ≡ present number (layer_of self.now).added }
    {
        self.added.iter().any(|l| l.number() == number)
    }

    // Whether the number is withdrawn below.
    fn withdraws(&self, number: u32) -> bool
        ensures { result ≡ withdrawn number (layer_of self.now) }
    {
        self.withdrawn.iter().any(|n| number == *n)
    }

    // Whether a label below of that number is hidden.
    pub(crate) fn hides(&self, number: u32) -> bool
        ensures { result ≡ hides (layer_of self.now) number }
    {
        self.withdraws(number) || self.adds(number)
    }

    // What the leaf of added labels has in slot `j`.
    pub(crate) fn slot(&self, j: usize) -> Slot
        ensures { result ≡ slice_index_or (added_slots (layer_of self.now).added) j Empty }
    {
        self.added.get(j).map_or(Slot::Empty, |l| Slot::Holds(*l))
    }

    // The smallest box around the added labels, or the root box below if there are none.
    pub(crate) fn around(&self, below: Rect) -> Rect
        ensures { result ≡ added_box (layer_of self.now).added below }
    {
        match self.added.as_slice() {
            [] => below,
            [first, rest @ ..] => around_labels(Rect::spot(first.place()), rest),
        }
    }

    // Whether twelve labels are added.
    pub(crate) fn is_full(&self) -> bool
        ensures { result ≡ nat_le 12 (length (layer_of self.now).added) }
    {
        self.added.is_full()
    }

    // Adds a label whose number is not among the added, behind the others, unless there are twelve.
    pub(crate) fn add(&mut self, label: Label) -> Result<(), Refusal>
        requires { present label.number (layer_of self.old).added ≡ false }
        ensures told { result ≡ held (layer_of self.old).added }
        ensures layer { layer_of self.new ≡ elim result [ Ok _ ↦ record { added = (layer_of self.old).added ++ label ∷ []; withdrawn = (layer_of self.old).withdrawn } | Err _ ↦ layer_of self.old ] }
    {
        if self.is_full() {
            return Err(Reason::TwelveHeld.into());
        }
        self.added.push(label);
        Ok(())
    }

    // Drops the added label of the number, if there is one.
    fn drop_added(&mut self, number: u32)
        ensures { layer_of self.new ≡ record { added = others (Some number) (layer_of self.old).added; withdrawn = (layer_of self.old).withdrawn } }
    {
        self.added.retain(|l| l.number() != number);
    }

    // Withdraws the number: an added label is dropped, and else the number is one more of those withdrawn below, unless
    // there are twelve.
    pub(crate) fn withdraw(&mut self, number: u32) -> Result<(), Refusal>
        ensures told { result ≡ (if present number (layer_of self.old).added then Ok tt else held (layer_of self.old).withdrawn) }
        ensures layer { layer_of self.new ≡ withdraw_layer (layer_of self.old) number result }
    {
        if self.adds(number) {
            self.drop_added(number);
            return Ok(());
        }
        if self.withdrawn.is_full() {
            return Err(Reason::TwelveHeld.into());
        }
        self.withdrawn.push(number);
        Ok(())
    }
}
