use geometry::Label;

// A label that a search came to: the label with its distance, and how many items are waiting in the queue then.
#[derive(Clone, Copy, Debug, PartialEq, Eq)]
pub struct Arrival<D> {
    pub distance: D,
    pub label: Label,
    pub waiting: usize,
}
