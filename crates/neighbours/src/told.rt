// What an accepted query tells: how many answers there are, and how many nodes it opened.
#[derive(Clone, Copy, Debug, PartialEq, Eq)]
pub struct Told {
    pub count: usize,
    pub opened: u32,
}
