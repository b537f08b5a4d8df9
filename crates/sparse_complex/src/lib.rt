//! One slice of a graded complex over F2: live codes with their degrees, and arrows between them.
//!
//! Read `AlexSlice` first. Its type keeps the two rules of a complex: each arrow lowers the degree by
//! one, and the border of a border is empty. Contracts see it as a finite map from live codes to degrees
//! and targets: `build` as the part of the grid complex at one Alexander degree, and `cancel` as the
//! cancelling of an arrow (`f2_algebra`, specs/Cancel.antt). In memory a code that was live at the start
//! has a key, its place in the order by Maslov degree and then by code; an arrow is a node of a pool that
//! stands in two doubly linked lists, that of its source and that of its target. Stands on `rectangles`,
//! `gradings` and `node_pool`.
//!
//! Example: of the grid with its O in rows 2 1 0 and its X in rows 1 0 2, `AlexSlice::build(alloc, &g, -1)?`
//! has the codes 0, 2, 3 and 4, and an arrow to 2 from each of the others.
#![tactic(auto)]

mod builds;
mod links;
mod slices;

pub use slices::{AlexSlice, Arrow, Cell};
