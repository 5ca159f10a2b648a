ghost use Rattle.std.specs.Prelude.{◌≡◌};
ghost use Rattle.listing.specs.Neighbours.{closer};
ghost use Rattle.listing.specs.Walking.{found-order};

use queue::{Ranked, by_first};

// A label found: its distance from where the query stands, and its number.
#[derive(Clone, Copy, Debug, PartialEq, Eq)]
pub struct Found<D> {
    pub distance: D,
    pub number: u32,
}

impl<D: Ranked> Ranked for Found<D> {
    ghost precedes = { closer D.Ranked.precedes };

    ghost ordered = { found-order D.Ranked.ordered };

    fn before(&self, other: &Found<D>) -> bool {
        let (own, others) = ((self.distance, self.number), (other.distance, other.number));
        by_first(own, others)
    }
}
