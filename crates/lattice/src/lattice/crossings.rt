ghost use Rattle.std.specs.Prelude.{◌≡◌, ◌<◌, ◌≤◌, true, slice_index_or, unsigned_abs};
ghost use Rattle.geometry.specs.Plane.{span};
ghost use Rattle.index.specs.declared.slot.Slot.TheVariants.{Empty};
ghost use Rattle.lattice.specs.Grid.{along, grid_label, grid_box, grid_leaf, grid_root};

use super::Lattice;
use geometry::{Label, Rect};
use index::{SLOTS, Slot};

// The numbers here cross between the types of sizes, of slots and of coordinates by `as`: no `From` takes one of these
// types to another, and the bounds of a lattice show that each number fits.

// The numbers from one row to the next: as many as a leaf has slots.
pub(crate) const STRIDE: u32 = SLOTS as u32;

// The coordinate `k` steps on from `z`.
pub(crate) fn advance(z: i32, step: u32, k: u32) -> i32
    requires { (unsigned_abs z ≤ 1000000) × ((step ≤ 100000) × (k ≤ 12)) }
    ensures { result ≡ along z step k }
{
    z + (k * step) as i32
}

impl Lattice {
    // The box around all columns from `south` to `north`.
    pub(crate) fn box_between(&self, south: i32, north: i32) -> Rect
        requires { span south north ≡ true }
        ensures { result ≡ grid_box self.now.columns self.now.step self.now.x south north }
    {
        let east = advance(self.x, self.step, self.columns - 1);
        Rect::new(self.x, south, east, north).unwrap()
    }

    // The label in row `i` and column `j`.
    fn label(&self, i: u32, j: u32) -> Label
        requires { (i < self.now.rows) × (j < self.now.columns) }
        ensures { result ≡ grid_label self.now.step self.now.x self.now.y self.now.first i j }
    {
        let x = advance(self.x, self.step, j);
        let y = advance(self.y, self.step, i);
        Label::new(self.first + STRIDE * i + j, x, y).unwrap()
    }

    // Slot `j` of the root.
    pub(crate) fn root_slot(&self, j: usize) -> Slot
        ensures { result ≡ slice_index_or (grid_root self.now.rows self.now.columns self.now.step self.now.x self.now.y) j Empty }
    {
        if j >= self.rows as usize {
            return Slot::Empty;
        }
        let y = advance(self.y, self.step, j as u32);
        Slot::Leads(self.box_between(y, y), j + 1)
    }

    // Slot `j` of the leaf of row `i`.
    pub(crate) fn leaf_slot(&self, i: usize, j: usize) -> Slot
        requires { i < self.now.rows }
        ensures { result ≡ slice_index_or (grid_leaf self.now.columns self.now.step self.now.x self.now.y self.now.first i) j Empty }
    {
        if j >= self.columns as usize {
            return Slot::Empty;
        }
        Slot::Holds(self.label(i as u32, j as u32))
    }
}
