ghost use Rattle.std.specs.Prelude.{◌≡◌, []};
ghost use Rattle.geometry.specs.Numbers.{present};
ghost use Rattle.listing.specs.Lists.{labels_of, Added};

use super::LabelList;
use crate::failure::Failure;
use geometry::{Label, Reason};
use std::alloc::Global;

// Whether one of the labels has the number. By a `for`: compiled into a caller, `any` goes through the labels more
// slowly.
fn is_present(labels: &[Label], number: u32) -> bool
    ensures { result ≡ present number labels.now }
{
    for l in labels {
        if l.number() == number {
            return true;
        }
    }
    false
}

impl LabelList {
    pub fn new(heap: Global) -> LabelList
        ensures { labels_of result ≡ [] }
    {
        LabelList {
            labels: Vec::new(heap),
        }
    }

    // One label more, at the end.
    pub fn add(&mut self, number: u32, x: i32, y: i32) -> Result<(), Failure>
        ensures { Added (labels_of self.old) (labels_of self.new) number x y result }
    {
        let label = Label::new(number, x, y)?;
        if is_present(self.labels.as_slice(), number) {
            return Err(Failure::Refused(Reason::NumberPresent.into()));
        }
        self.labels.push(label)?;
        Ok(())
    }
}
