ghost use Rattle.std.specs.Prelude.{◌+◌};
ghost use Rattle.labelplan.specs.declared.pile.Layered.TheVariants.{Bare, Edited, Kept};

use super::{Editable, Layered};
use crate::plan::{MapPlan, labels_of, nodes_of};
use edit::Edit;
use geometry::{Label, Refusal};
use std::alloc::{AllocError, Global};

// An edit is opened in the lowest level that is bare, so that all levels above the edit that was opened last are bare.
impl<S: Editable> Editable for Layered<S> {
    ghost depth = { S.depth + 1 };

    ghost room = { elim [ Bare s ↦ S.room s + 1 | Edited _ ↦ 0 | Kept _ ↦ 0 ] };

    fn on(plan: MapPlan) -> Layered<S> {
        Layered::Bare(S::on(plan))
    }

    fn labels(&mut self, heap: Global) -> Result<Vec<Label>, AllocError> {
        match self {
            Layered::Bare(store) => store.labels(heap),
            Layered::Edited(edit) => labels_of(heap, &mut **edit),
            Layered::Kept(kept) => labels_of(heap, &mut **kept),
        }
    }

    fn nodes(&mut self, heap: Global) -> Result<String, AllocError> {
        match self {
            Layered::Bare(store) => store.nodes(heap),
            Layered::Edited(edit) => nodes_of(heap, &mut **edit),
            Layered::Kept(kept) => nodes_of(heap, &mut **kept),
        }
    }

    fn has_room(&self) -> bool {
        matches!(self, Layered::Bare(_))
    }

    fn is_open(&self) -> bool {
        match self {
            Layered::Bare(store) => store.is_open(),
            Layered::Edited(_) => true,
            Layered::Kept(_) => false,
        }
    }

    fn begin(self, heap: Global) -> Result<Layered<S>, AllocError> {
        Ok(match self {
            Layered::Bare(store) => {
                if store.has_room() {
                    Layered::Bare(store.begin(heap)?)
                } else {
                    Layered::Edited(Box::new(heap, Edit::over(store))?)
                }
            }
            full => full,
        })
    }

    fn add(&mut self, number: u32, x: i32, y: i32) -> Option<Result<(), Refusal>> {
        match self {
            Layered::Bare(store) => store.add(number, x, y),
            Layered::Edited(edit) => Some(edit.add(number, x, y)),
            Layered::Kept(_) => None,
        }
    }

    fn withdraw(&mut self, number: u32) -> Option<Result<(), Refusal>> {
        match self {
            Layered::Bare(store) => store.withdraw(number),
            Layered::Edited(edit) => Some(edit.withdraw(number)),
            Layered::Kept(_) => None,
        }
    }

    fn keep(self, heap: Global) -> Result<Layered<S>, AllocError> {
        Ok(match self {
            Layered::Bare(store) => Layered::Bare(store.keep(heap)?),
            Layered::Edited(edit) => {
                Layered::Kept(Box::new(heap, Box::into_inner(edit).keep())?)
            }
            kept => kept,
        })
    }

    fn cancel(self) -> Layered<S> {
        match self {
            Layered::Bare(store) => Layered::Bare(store.cancel()),
            Layered::Edited(edit) => Layered::Bare(Box::into_inner(edit).cancel()),
            kept => kept,
        }
    }
}
