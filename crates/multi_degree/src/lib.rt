//! The degrees of states at the components of a link.
//!
//! Read `component_degrees` first. Its contract says that the answer is the degrees by their definition, which counts
//! pairs of points; that each of them is whole; that they add up to twice the Alexander degree; and that the border
//! keeps each of them, for every grid and state. No call asks for memory.
//! Stands on `torus_geom` and `hat_division`, which has lists of degrees; `rectangles` and `gradings` serve its proofs.
//!
//! Example: in the grid of the Hopf link with its O in rows 0 1 2 3 and its X in rows 2 3 0 1, the state 2 3 0 1 has
//! the degrees 1 and 1, and the state 0 2 1 3 the degrees -3 and -1.
#![tactic(auto)]

mod components;

pub use components::{component_degrees, component_exponents};
