// A node store made from the crossings of rows and columns.
#![tactic(auto)]

pub mod lattice;

pub use lattice::Lattice;
