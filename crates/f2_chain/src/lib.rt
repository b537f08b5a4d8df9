//! Chains over the field of two elements, as finite sets of codes. A code is the index of a state.
//!
//! Read `CodeSet` first; a `Builder` makes one from codes that come in any order, and any number of
//! times. Contracts see both as chains (`f2_algebra`, specs/Chain.antt), and each answer is an equation
//! of chains: two sets with the same codes are equal in every clause. A `CodeSet` keeps its codes in
//! ascending order, a `Builder` keeps a hashed set.
//!
//! Example: for z with the codes 3 and 7 and w with the codes 7 and 9, `z.add(&w)?` has the codes 3 and 9.
#![tactic(auto)]

mod builders;
mod code_sets;

pub use builders::Builder;
pub use code_sets::{Chain, Cochain, CodeSet};
