use crate::edit::Edit;

pub mod store;

// An edit that is kept: a store with its table, which takes no changes.
#[derive(Drop)]
pub struct Kept<S> {
    pub(crate) edit: Edit<S>,
}
