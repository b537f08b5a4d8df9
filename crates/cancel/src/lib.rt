//! Cancelling all arrows of a slice, with a log of what was cancelled.
//!
//! Read `reduce` first. Its contract says that the slice is then what cancelling the entries of the log
//! in order gives, and has no arrow; and that each log that stands so has the laws of its lifts, rests,
//! pulls and corrections (`f2_algebra`, specs/Laws.antt). `lift`, `push` and `pull` are these maps, and
//! `lift_before` and `pull_before` those of the first entries alone.
//! Contracts see a log as its list of entries, and the sources and targets of an entry as lists of codes,
//! each code once. In memory a log lies in an arena, which is given up as a whole. Stands on
//! `sparse_complex` and `f2_chain`.
//!
//! Example: in the grid with its O in rows 2 1 0 and its X in rows 1 0 2, the slice at the Alexander degree -1 has
//! four codes, and arrows from three of them to the fourth; `reduce` logs one entry and leaves two codes.
#![tactic(auto)]

mod logs;
mod maps;
mod reductions;
mod steps;

pub use logs::{CancelLog, LogEntry};
pub use maps::{Pushed, lift, lift_before, pull, pull_before, push};
pub use reductions::reduce;
