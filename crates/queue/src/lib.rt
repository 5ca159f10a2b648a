// A priority queue: a binary heap in the front of a slice that is lent. The length stands beside the slice, since it is
// a rule of the project that the queue is generic functions over a list that their caller lends.
#![tactic(auto)]

ghost use Rattle.std.specs.Prelude.{◌≡◌, ℕ, ◌+◌, ◌-◌, ◌*◌, ◌/◌, ◌<◌, ◌≤◌, Bool, true, false, length, take, drop, nat_lt, slice_index_or};
ghost use Rattle.queue.specs.Order.{Order, insert, sorted, by_first, smaller};
ghost use Rattle.queue.specs.Shape.{up, Heap, Loose, Least};
ghost use Rattle.queue.specs.Calls.{pushed, popped, Pushed, Popped};
ghost use Rattle.queue.specs.Numbers.{number-order, pair-order};

// A kind of item with a strict total order: two items neither of which is before the other are equal.
pub trait Ranked: Copy {
    ghost precedes: { Self → Self → Bool };

    fn before(&self, other: &Self) -> bool
        ensures { result ≡ precedes self.now other.now };

    ghost ordered: { Order precedes };
}

// The impls for two kinds of numbers are alike: one for every kind that has `Ord` would overlap that for pairs.
impl Ranked for u64 {
    ghost precedes = { nat_lt };

    ghost ordered = { number-order };

    fn before(&self, other: &u64) -> bool {
        *self < *other
    }
}

impl Ranked for u32 {
    ghost precedes = { nat_lt };

    ghost ordered = { number-order };

    fn before(&self, other: &u32) -> bool {
        *self < *other
    }
}

// Whether one pair comes before another: by the first, and by the second where neither first comes before the other.
pub fn by_first<A: Ranked, B: Ranked>(a: (A, B), b: (A, B)) -> bool
    ensures { result ≡ by_first A.precedes B.precedes a b }
{
    a.0.before(&b.0) || !b.0.before(&a.0) && a.1.before(&b.1)
}

// Of pairs only those of two `u32` are items themselves, so that a call on pairs of plain numbers tells their type. What
// is ordered by one thing and then by another is compared as the pair of both.
impl Ranked for (u32, u32) {
    ghost precedes = { smaller };

    ghost ordered = { pair-order };

    fn before(&self, other: &(u32, u32)) -> bool {
        by_first(*self, *other)
    }
}

fn is_before<T: Ranked>(items: &[T], a: usize, b: usize) -> bool
    requires { (a < length items.now) × (b < length items.now) }
    ensures { (d : T) → T.precedes (slice_index_or items.now a d) (slice_index_or items.now b d) ≡ result }
{
    items[a].before(&items[b])
}

// Moves the item at `len` up to its place; the items before it are a heap.
fn sift_up<T: Ranked>(items: &mut [T], len: usize)
    requires { len < length items.old }
    ensures shape { Heap T.precedes items.old len → Heap T.precedes items.new (len + 1) }
    ensures contents { sorted T.precedes (take (len + 1) items.new) ≡ sorted T.precedes (take (len + 1) items.old) }
    ensures rest { drop (len + 1) items.new ≡ drop (len + 1) items.old }
{
    let mut at = len;
    while at > 0 {
        let parent = (at - 1) / 2;
        if !is_before(items, at, parent) {
            return;
        }
        items.swap(at, parent);
        at = parent;
    }
}

// The child of `at` that comes before the other, or the only one.
fn least_child<T: Ranked>(items: &[T], at: usize, len: usize) -> usize
    requires { (2 * at + 1 < len) × (len ≤ length items.now) }
    ensures bound { (result < len) × (2 * at + 1 ≤ result) × (result ≤ 2 * at + 2) }
    ensures least { Least T.precedes items.now len at result }
{
    let left = 2 * at + 1;
    if left + 1 == len {
        return left;
    }
    if is_before(items, left + 1, left) {
        return left + 1;
    }
    left
}

// Moves the item at the root down to its place; the first `len` items are a heap but for it.
fn sift_down<T: Ranked>(items: &mut [T], len: usize)
    requires { len ≤ length items.old }
    ensures shape { Loose T.precedes items.old len → Heap T.precedes items.new len }
    ensures contents { sorted T.precedes (take len items.new) ≡ sorted T.precedes (take len items.old) }
    ensures rest { drop len items.new ≡ drop len items.old }
{
    let mut at = 0;
    while at < len / 2 {
        let child = least_child(items, at, len);
        if !is_before(items, child, at) {
            return;
        }
        items.swap(at, child);
        at = child;
    }
}

// Puts `x` into the queue in the first `len` of `items`, and gives the new length; `None` where the list is full.
pub fn push<T: Ranked>(items: &mut [T], len: usize, x: T) -> Option<usize>
    ensures told { result ≡ pushed items.old len }
    ensures queue { Pushed T.precedes items.old items.new len x }
{
    if len >= items.len() {
        return None;
    }
    items[len] = x;
    sift_up(items, len);
    Some(len + 1)
}

// Takes the first item out of the queue in the first `len` of `items`, and gives it with the new length; `None` where
// the queue is empty, or longer than the list.
pub fn pop<T: Ranked>(items: &mut [T], len: usize) -> Option<(T, usize)>
    ensures told { result ≡ popped items.old len }
    ensures queue { Popped T.precedes items.old items.new len result }
{
    if len == 0 || len > items.len() {
        return None;
    }
    let first = items[0];
    let last = len - 1;
    items.swap(0, last);
    sift_down(items, last);
    Some((first, last))
}

// Makes a queue of the whole list, in place.
pub fn heapify<T: Ranked>(items: &mut [T])
    ensures shape { Heap T.precedes items.new (length items.new) }
    ensures contents { sorted T.precedes items.new ≡ sorted T.precedes items.old }
{
    // What counts up is the queue's length, which no iterator over the items gives.
    for len in 0..items.len() {
        let x = items[len];
        let _ = push(items, len, x);
    }
}
