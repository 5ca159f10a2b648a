ghost use Rattle.std.specs.Prelude.{◌≡◌};
ghost use Rattle.listing.specs.Lists.{labels_of};

use super::LabelList;
use geometry::Label;

impl LabelList {
    // The labels, in the order of adding.
    pub fn labels(&self) -> &[Label]
        ensures { result.now ≡ labels_of self.now }
    {
        self.labels.as_slice()
    }
}
