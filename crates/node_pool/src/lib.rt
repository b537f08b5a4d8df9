//! A pool of nodes: a finite map from ids to nodes, with room that is asked for ahead.
//!
//! Read `Pool` first. Contracts see it as the map and a number, `spare`: so many calls of `take` need no
//! memory and are not refused. Nodes lie in chunks of 4,096 on the heap, and a chunk never moves, so a
//! growth copies no node. Ids that were given back are a list through `next_out` of their own nodes. Each
//! chunk is behind one raw pointer, which only four functions touch: `Block::of` (a chunk is added),
//! `as_ref` (a node is read), `as_mut` (a node is written) and `into_box` (a chunk is freed). Stands on
//! `grid_ports`.
//!
//! Example: after `pool.reserve(1)?` the call `pool.take(node)` needs no memory, and `pool.get` of the id that
//! it answers is the node.
#![tactic(auto)]

mod blocks;
mod chunks;
mod nodes;
mod pools;

pub use pools::Pool;

/// No node has this id.
pub const NO_NODE: u64 = u64::MAX;

// How many nodes a chunk holds.
pub(crate) const CHUNK_NODES: usize = 4096;

/// An arrow between two keys, and the ids of its neighbours in the list of the arrows out of `from` and in that of
/// the arrows into `to`.
///
/// The pool keeps a live node as it is, and reads none of it.
#[derive(Clone, Copy, PartialEq, Eq, Debug)]
pub struct Node {
    pub from: u32,
    pub to: u32,
    pub next_out: u64,
    pub prev_out: u64,
    pub next_in: u64,
    pub prev_in: u64,
}

// What lies where no node is. It is all zeros, so that a new chunk is zeroed where it lies and never stands on the
// stack.
pub(crate) const BLANK: Node = Node {
    from: 0,
    to: 0,
    next_out: 0,
    prev_out: 0,
    next_in: 0,
    prev_in: 0,
};
