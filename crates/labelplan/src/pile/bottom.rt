use super::Editable;
use crate::plan::{MapPlan, Plan, labels_of, nodes_of};
use geometry::{Label, Refusal};
use std::alloc::{AllocError, Global};

// The plan itself takes no edit.
impl Editable for MapPlan {
    ghost depth = { 0 };

    ghost room = { λ _. 0 };

    fn on(plan: MapPlan) -> MapPlan {
        plan
    }

    fn labels(&mut self, heap: Global) -> Result<Vec<Label>, AllocError> {
        match self {
            Plan::Grid(store) => labels_of(heap, store),
            Plan::Image(store) => labels_of(heap, &mut **store),
        }
    }

    fn nodes(&mut self, heap: Global) -> Result<String, AllocError> {
        match self {
            Plan::Grid(store) => nodes_of(heap, store),
            Plan::Image(store) => nodes_of(heap, &mut **store),
        }
    }

    fn has_room(&self) -> bool {
        false
    }

    fn is_open(&self) -> bool {
        false
    }

    fn begin(self, _heap: Global) -> Result<MapPlan, AllocError> {
        Ok(self)
    }

    fn add(&mut self, _number: u32, _x: i32, _y: i32) -> Option<Result<(), Refusal>> {
        None
    }

    fn withdraw(&mut self, _number: u32) -> Option<Result<(), Refusal>> {
        None
    }

    fn keep(self, _heap: Global) -> Result<MapPlan, AllocError> {
        Ok(self)
    }

    fn cancel(self) -> MapPlan {
        self
    }
}
