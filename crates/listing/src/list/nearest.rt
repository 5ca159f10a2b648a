ghost use Rattle.std.specs.Prelude.{◌≡◌, ◌-◌, ◌≤◌, map, IfOk, Some, None, MatchResult, slice_index_or};
ghost use Rattle.geometry.specs.Plane.{place_at};
ghost use Rattle.listing.specs.declared.failure.Failure.TheVariants.{Refused, NoMemory};
ghost use Rattle.listing.specs.Neighbours.{found, nearer, nearest, listing};
ghost use Rattle.listing.specs.Lists.{labels_of, counted, refused_listing};

use super::LabelList;
use crate::failure::Failure;
use crate::found::Found;
use geometry::{Label, Place, Reason};
use measure::Measure;
use queue::{Ranked, heapify, pop};
use std::alloc::{AllocError, Global};

// Every label with its distance from a place.
fn find_all<M: Measure>(
    heap: Global,
    measure: &M,
    from: Place,
    labels: &[Label],
) -> Result<Vec<Found<M::Distance>>, AllocError>
    ensures { IfOk result (λ v. v.items ≡ map (found (M.dist measure.now from)) labels.now) }
{
    labels
        .iter()
        .map(|l| Found {
            distance: measure.distance(from, l.place()),
            number: l.number(),
        })
        .collect(heap)
}

// Whether `x` is farther than the `k`-th of `nearest`, if there is a `k`-th.
fn is_past<D: Ranked>(nearest: &[Found<D>], k: usize, x: &Found<D>) -> bool
    requires { 1 ≤ k }
    ensures { result ≡ nearer D.Ranked.precedes (slice_index_or nearest.now (k - 1) x.now) x.now }
{
    nearest
        .get(k - 1)
        .is_some_and(|kth| kth.distance.before(&x.distance))
}

// The candidates of a list, in order; the list is left as a queue of the others.
fn take_nearest<D: Ranked>(
    heap: Global,
    items: &mut [Found<D>],
    k: usize,
) -> Result<Vec<Found<D>>, AllocError>
    requires { 1 ≤ k }
    ensures { IfOk result (λ v. v.items ≡ nearest D.Ranked.precedes k items.old) }
{
    heapify(items);
    let mut nearest = Vec::new(heap);
    let mut len = items.len();
    while let Some((x, rest)) = pop(items, len) {
        if is_past(nearest.as_slice(), k, &x) {
            break;
        }
        nearest.push(x)?;
        len = rest;
    }
    Ok(nearest)
}

// Whether as many neighbours may be asked for: from 1 to 64.
pub fn counted(k: u32) -> bool
    ensures { result ≡ counted k }
{
    (1..=64).contains(&k)
}

// The labels among the `k` nearest to a place, ties let in, by distance and then by number.
pub fn nearest_of<M: Measure>(
    heap: Global,
    labels: &[Label],
    measure: &M,
    x: i32,
    y: i32,
    k: u32,
) -> Result<Vec<Found<M::Distance>>, Failure>
    ensures refusal { MatchResult result (λ _. refused_listing x y k ≡ None) (λ f. elim f [ Refused e ↦ refused_listing x y k ≡ Some e | NoMemory ↦ refused_listing x y k ≡ None ]) }
    ensures listing { IfOk result (λ v. v.items ≡ listing M.Distance.Ranked.precedes (M.dist measure.now (place_at x y)) k labels.now) }
{
    if !counted(k) {
        return Err(Failure::Refused(Reason::BadCount.into()));
    }
    let from = Place::new(x, y)?;
    let mut all = find_all(heap, measure, from, labels)?;
    // No `From` takes a `u32` to a `usize`.
    Ok(take_nearest(heap, all.as_mut_slice(), k as usize)?)
}

impl LabelList {
    // The labels of the list among the `k` nearest to a place.
    pub fn nearest<M: Measure>(
        &self,
        heap: Global,
        measure: &M,
        x: i32,
        y: i32,
        k: u32,
    ) -> Result<Vec<Found<M::Distance>>, Failure>
        ensures refusal { MatchResult result (λ _. refused_listing x y k ≡ None) (λ f. elim f [ Refused e ↦ refused_listing x y k ≡ Some e | NoMemory ↦ refused_listing x y k ≡ None ]) }
        ensures listing { IfOk result (λ v. v.items ≡ listing M.Distance.Ranked.precedes (M.dist measure.now (place_at x y)) k (labels_of self.now)) }
    {
        nearest_of(heap, self.labels.as_slice(), measure, x, y, k)
    }
}
