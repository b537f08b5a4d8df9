//! The degrees of states: Maslov and Alexander.
//!
//! Read `degree` first. Contracts say that the answers are the degrees by their definitions, which count
//! pairs of points, and that the Alexander degree is whole, for every grid and state. A state's degree
//! is found in one sweep of its columns. For many states of one grid make its `DegreeTables` once: they
//! give the same degrees faster. `PossibleSums` says which degrees are still possible when the first rows of a
//! state are known; it alone asks for memory.
//! Stands on `torus_geom`, where the definitions are, `state_rank` and `grid_ports`.
//!
//! Example: in the grid with its O in rows 2 1 0 and its X in rows 1 0 2, `degree(&g, &x)` of the state 1 0 2
//! has the Maslov degree -2 and the Alexander degree -1.
#![tactic(auto)]

mod degrees;
mod sums;
mod tables;

pub use degrees::{Bidegree, alexander, degree, maslov_o, maslov_x};
pub use sums::PossibleSums;
pub use tables::DegreeTables;
