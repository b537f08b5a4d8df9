//! The chain map of a commutation: pentagons, and the image of a chain under the exchange of two columns or
//! rows side by side.
//!
//! Read `image` first, and specs/Pentagon.antt, which has a picture. `pentagon_targets` is the image of one
//! state and asks for no memory. Contracts see a chain as a set of states by their indices. Stands on
//! `rectangles`, `grid_moves`, `f2_chain` and what these stand on.
//!
//! Example: in the grid with its O in rows 0 1 2 3 and its X in rows 2 0 3 1, columns 1 and 2 commute, and
//! `image(alloc, &g, Axis::Cols, 2, Corner::Over, &z)?` of the chain of the state 2 3 1 0 is the chain of the
//! state 2 3 0 1.
#![tactic(auto)]

pub mod exchanges;
pub mod images;
pub mod pentagons;

pub use images::{image, pentagon_targets};

/// Which of the two crossings of the old circle and the new one a commutation's pentagons have as their corner.
#[derive(Clone, Copy, PartialEq, Eq, Debug)]
pub enum Corner {
    /// In the first row of the right column that is met on the way up from the rows of the left one.
    Over,
    /// In the last row of the left column that is met on the way up from the rows of the right one.
    Under,
}
