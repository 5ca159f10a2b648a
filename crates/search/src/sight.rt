use neighbours::View;

// How a search sees: by which measure, and in which view.
#[derive(Drop)]
pub(crate) struct Sight<'a, M> {
    pub measure: &'a M,
    pub view: View,
}
