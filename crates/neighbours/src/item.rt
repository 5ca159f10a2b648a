ghost use Rattle.neighbours.specs.Items.{subject_before, ahead};
ghost use Rattle.neighbours.specs.Ordering.{subject-order, item-order};

use geometry::Label;
use queue::{Ranked, by_first};

// What an item of a search is: a node of the tree, or a label. Nodes come before labels, each kind by number; the place
// comes last, so that labels that are level are the same.
#[derive(Clone, Copy, Debug, PartialEq, Eq, PartialOrd, Ord)]
pub enum Subject {
    OfNode(usize),
    OfLabel(Label),
}

// An item of a search: a node with its near bound, or a label with its distance.
#[derive(Clone, Copy, Debug, PartialEq, Eq)]
pub struct Item<D> {
    pub distance: D,
    pub subject: Subject,
}

impl Ranked for Subject {
    ghost precedes = { subject_before };

    ghost ordered = { subject-order };

    fn before(&self, other: &Subject) -> bool {
        *self < *other
    }
}

// By distance, and then by what the items are.
impl<D: Ranked> Ranked for Item<D> {
    ghost precedes = { ahead D.Ranked.precedes };

    ghost ordered = { item-order D.Ranked.ordered };

    fn before(&self, other: &Item<D>) -> bool {
        let (own, others) = (
            (self.distance, self.subject),
            (other.distance, other.subject),
        );
        by_first(own, others)
    }
}
