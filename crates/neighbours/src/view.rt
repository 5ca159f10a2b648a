ghost use Rattle.std.specs.Prelude.{◌≡◌};
ghost use Rattle.neighbours.specs.Scene.{shows};

use geometry::Place;

// Where a search stands, and whom it leaves out: the query's own label, and the candidate that is being checked.
#[derive(Clone, Copy, Debug, PartialEq, Eq)]
pub struct View {
    pub from: Place,
    pub own: Option<u32>,
    pub candidate: Option<u32>,
}

impl View {
    // Whether the view shows a label of that number.
    pub fn shows(&self, number: u32) -> bool
        ensures { result ≡ shows self.now number }
    {
        self.own != Some(number) && self.candidate != Some(number)
    }
}
