//! Grid diagrams on the torus, their ranges and rectangles.
//!
//! Read `Grid` first: contracts see a grid as its two lists of marks. `Grid::of` accepts exactly the
//! marks of a grid, and `components` counts the cycles of its walk. Nothing here asks for memory. A
//! grid keeps its marks as two states.
//!
//! The definitions of specs/ are those on which the whole project stands: marks, components, ranges,
//! rectangles, the border, degrees, fronts and the grid complex.
//!
//! Example: `Grid::of(&[0, 1, 2, 3, 4], &[2, 3, 4, 0, 1])` is a grid with one component, a trefoil, and
//! `Grid::of(&[0, 1], &[0, 1])` is the error `SameSquare`.
#![tactic(auto)]

mod grids;
mod ranges;
mod rects;

pub use grids::{Grid, GridFault};
pub use ranges::{in_range, offset, one_down, one_up};
pub use rects::{Rect, is_empty, is_unmarked};
