ghost use Rattle.std.specs.Prelude.{◌≡◌};
ghost use Rattle.neighbours.specs.Limits.{admits};

use queue::Ranked;

// How far a search goes: anywhere, up to a distance and what ties with it, or only before a distance.
#[derive(Clone, Copy, Debug, PartialEq, Eq)]
pub enum Limit<D> {
    Anywhere,
    UpTo(D),
    Before(D),
}

impl<D: Ranked> Limit<D> {
    // Whether the search goes as far as `d`.
    pub fn admits(&self, d: &D) -> bool
        ensures { result ≡ admits D.Ranked.precedes self.now d.now }
    {
        match *self {
            Limit::Anywhere => true,
            Limit::UpTo(last) => !last.before(d),
            Limit::Before(end) => d.before(&end),
        }
    }
}
