//! The border of chains: the differential of the fully blocked grid complex over F2.
//!
//! Read `border` first. Its contract says that the answer is the border, and that the border of a
//! border is empty (proofs/Square/BorderLemmas.antt). `targets` lists the states of the border of one state,
//! in order, and asks for no memory; `target_indices` lists their indices, made from that of the state
//! (proofs/Sweep/ExchangeIndexLemmas.antt). Contracts see a chain as a set of states by their indices. Stands on
//! `torus_geom`, `state_rank` and `f2_chain`.
//!
//! Example: in the grid with its O in rows 2 1 0 and its X in rows 1 0 2, `border(alloc, &g, &z)?` of the chain
//! of the state 0 1 2 (code 0) is the chain of the state 1 0 2 (code 2).
#![tactic(auto)]

mod borders;
mod exchange_indices;
mod first_marks;
pub mod laws;
mod target_states;

pub use borders::{border, border_of_state};
pub use first_marks::FirstMarks;
pub use target_states::{TargetIndices, TargetStates, target_indices, targets};
