//! Moves of a grid diagram that keep its link: cyclic turns, and the exchange of neighbouring columns or
//! rows that commute.
//!
//! Read `turn` first, then `turn_state`, `commutes` and `swap`. Nothing here asks for memory.
//!
//! Example: of the grid with its O in rows 2 1 0 and its X in rows 1 0 2, `turn(&g, Side::Left)` is the grid
//! with its O in rows 1 0 2 and its X in rows 0 2 1.
#![tactic(auto)]

mod commutations;
mod turns;

pub use commutations::{Axis, commutes, swap};
pub use turns::{Side, turn, turn_state};
