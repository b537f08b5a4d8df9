//! Lines of words: numbers and sets of states as they are printed, and the parts of a list of bytes.
//!
//! Read `push_number` and `push_set_line` first: each appends bytes to a text, and its contract says which.
//! `first_part` cuts a list of bytes at the first that ends a part.
//! Stands on `f2_chain` and `state_rank`, whose sets and states it prints.
//!
//! Example: `push_set_line` with the word `bound`, size 3 and the set of the indices 0 and 3 appends the line
//! `bound 012 120` with its line feed.
#![tactic(auto)]

mod numbers;
mod parts;
mod sets;

pub use numbers::push_number;
pub use parts::first_part;
pub use sets::push_set_line;
