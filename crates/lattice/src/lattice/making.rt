ghost use Rattle.std.specs.Prelude.{◌≡◌, ◌≤◌, IfOk, Some, None, MatchResult, OnOk};
ghost use Rattle.lattice.specs.Grid.{is_up_to, is_sized, is_reach, is_numbered, refused_grid, grid_table, Exact};
ghost use Rattle.lattice.specs.Shown.{Fresh};

use super::Lattice;
use super::crossings::{STRIDE, advance};
use geometry::{Reason, Refusal, in_range, numbered};
use index::{Openings, SLOTS};

// A root leads to twelve leaves, and a leaf has twelve labels.
const MOST_LINES: u32 = SLOTS as u32;

const LONGEST_STEP: u32 = 100_000;

// Whether `n` is from 1 to `most`.
fn is_up_to(most: u32, n: u32) -> bool
    ensures { result ≡ is_up_to most n }
{
    (1..=most).contains(&n)
}

// Whether the sizes are in range.
fn is_sized(rows: u32, columns: u32, step: u32) -> bool
    ensures { result ≡ is_sized rows columns step }
{
    is_up_to(MOST_LINES, rows) && is_up_to(MOST_LINES, columns) && is_up_to(LONGEST_STEP, step)
}

// Whether `n` places from `z` on lie on the map.
fn is_reach(z: i32, step: u32, n: u32) -> bool
    requires { (1 ≤ n) × ((n ≤ 12) × (step ≤ 100000)) }
    ensures { result ≡ is_reach z step n }
{
    in_range(z) && in_range(advance(z, step, n - 1))
}

// Whether all labels have numbers in range.
fn is_numbered(rows: u32, columns: u32, first: u32) -> bool
    requires { (1 ≤ rows) × ((rows ≤ 12) × ((1 ≤ columns) × (columns ≤ 12))) }
    ensures { result ≡ is_numbered rows columns first }
{
    numbered(first) && numbered(first + STRIDE * (rows - 1) + (columns - 1))
}

// Whether the numbers of a lattice are in range, or else why not. They are the fields of a lattice: a struct for them
// alone would be a lattice again, not yet checked.
fn check(rows: u32, columns: u32, step: u32, x: i32, y: i32, first: u32) -> Result<(), Refusal>
    ensures { MatchResult result (λ _. refused_grid rows columns step x y first ≡ None) (λ e. refused_grid rows columns step x y first ≡ Some e) }
{
    if !is_sized(rows, columns, step) {
        return Err(Reason::BadSize.into());
    }
    if !is_reach(x, step, columns) || !is_reach(y, step, rows) {
        return Err(Reason::BadPlace.into());
    }
    if !is_numbered(rows, columns, first) {
        return Err(Reason::BadNumber.into());
    }
    Ok(())
}

impl Lattice {
    // A lattice from its corner and its first number, with no node open.
    pub fn new(
        rows: u32,
        columns: u32,
        step: u32,
        x: i32,
        y: i32,
        first: u32,
    ) -> Result<Lattice, Refusal>
        ensures refusal { MatchResult result (λ _. refused_grid rows columns step x y first ≡ None) (λ e. refused_grid rows columns step x y first ≡ Some e) }
        ensures fresh { IfOk result (λ l. Fresh (grid_table rows columns step x y first) l) }
        ensures exact { OnOk result (Exact rows columns step x y first) }
    {
        check(rows, columns, step, x, y, first)?;
        Ok(Lattice {
            rows,
            columns,
            step,
            x,
            y,
            first,
            openings: Openings::new(),
        })
    }
}
