//! The way back of a commutation: hexagons, and the homotopy between the identity and the image there and back.
//!
//! Read `homotopy` first, and specs/Hexagon.antt, which has a picture. Its contract says that a chain and its image
//! there and back are together the border of its homotopy and the homotopy of its border, and what follows: both grids
//! have one table, and a cycle bounds in the one if its image bounds in the other. `hexagon_targets` is the homotopy
//! at one state and asks for no memory. Contracts see a chain as a set of states by their indices. Stands on
//! `pentagon_map` and what that stands on.
//!
//! Example: in the grid with its O in rows 0 2 1 3 and its X in rows 1 3 2 0, columns 0 and 1 commute, and
//! `homotopy(alloc, &g, Axis::Cols, 1, Corner::Over, &z)?` of the chain of the state 0 3 1 2 is the chain of the
//! state 3 0 1 2.
#![tactic(auto)]

mod hexagons;
mod homotopies;
mod sums;

pub use homotopies::{hexagon_targets, homotopy};
