//! Symmetries of a grid diagram: transposing, the turn by half, the mirror image, and the exchange of the marks.
//!
//! Read `apply` first, then `apply_state`. The contract of `apply` says what each does to the table of ranks;
//! that of `apply_state` what it does to borders of chains, and to x+ and x-. Nothing here asks for memory. Stands
//! on `torus_geom`, `rectangles` and `gradings`, and on lemmas of `grid_moves` and `pentagon_map` on states that
//! are carried and transposed.
//!
//! Example: of the grid with its O in rows 2 1 0 and its X in rows 1 0 2, `apply(&g, Symmetry::Mirror)` is the grid
//! with its O in rows 0 1 2 and its X in rows 2 0 1.
#![tactic(auto)]

mod symmetries;

pub use symmetries::{Symmetry, apply, apply_state};
