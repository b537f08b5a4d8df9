//! Verdicts of chains of a grid, each with its evidence, and a chain that is followed.
//!
//! Read `verdict` first. Its contract says that the answer is a verdict of the chain: no cycle, null or
//! alive, with evidence that can be checked by hand; and that each chain of each grid has one of the three
//! verdicts with some evidence, and no two (specs/Verdicts.antt). A `Follower` is a grid with a chain of
//! its states.
//! Stands on `sparse_complex` and `cancel`: at each Alexander degree of the chain one slice is built and
//! its arrows are cancelled, and the part of the chain at this degree is pushed along the log.
//!
//! Example: in the grid with its O in rows 2 1 0 and its X in rows 1 0 2, `verdict(alloc, &g, &z)?` of the chain
//! of the state 1 0 2 (code 2) is `Null`, with a bound such as the chain of the state 0 1 2 (code 0).
#![tactic(auto)]

mod followers;
mod parts;
mod verdicts;

pub use followers::Follower;
pub use verdicts::{ClassVerdict, verdict};
