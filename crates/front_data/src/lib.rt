//! The front of a grid: its classical invariants, and the Legendrian grid states.
//!
//! Read `front` first. Its contract says that the answer is the Thurston-Bennequin number, the rotation
//! number and the number of components of the Legendrian link that the grid gives, and that there are
//! as many NE as SW corners and the rotation number is whole, for every grid.
//! `plus_state` and `minus_state` give the states x+ and x-, with the laws that they are cycles and what
//! their Maslov degrees are.
//! Stands on `torus_geom`, where the definitions are. Nothing here asks for memory.
//!
//! Example: of the grid with its O in rows 0 1 2 3 4 and its X in rows 2 3 4 0 1, `front(&g)` has tb 1, rot 0
//! and 1 component.
#![tactic(auto)]

mod classes;
mod fronts;

pub use classes::{minus_state, plus_state};
pub use fronts::{FrontNumbers, front};
