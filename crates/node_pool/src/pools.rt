//! The pool: a map from ids to nodes, with room that is asked for ahead.
ghost use Rattle.std.specs.Prelude.{◌≡◌, ◌≢◌, ℕ, ◌+◌, ◌^◌, ◌<◌, ◌≤◌, IsTrue, IsOk, OnOk, OnErr, Some, None, length, take};
ghost use Rattle.std.specs.FinMap as map;
ghost use Rattle.node_pool.specs.Inner.FreeList.{pool};

use crate::nodes::Nodes;
use crate::{BLANK, NO_NODE, Node};
use grid_ports::NoMemory;
use std::alloc::Global;
use std::marker::Model;

/// A map from ids to nodes, and beside it `spare`, how many more nodes can be taken with no more memory, and `granted`,
/// for how many more there is memory.
///
/// An id is below 2^49, so none is `NO_NODE`. One that was given back may come again. A dropped pool frees its chunks.
//
// A place below `fresh` has a node, or was given back and is one of the `free` places that begin with `head` and lead
// on through `next_out`. A place from `fresh` on, and below `limit`, was never taken. What lies from `limit` on was not
// promised.
#[derive(Drop)]
pub struct Pool {
    nodes: Nodes,
    head: u64,
    free: u64,
    fresh: u64,
    limit: u64,
}

impl Model for Pool {
    ghost use Rattle.node_pool.specs.Pool.{PoolValue, pool_code};
    ghost use Rattle.node_pool.specs.Inner.FreeList.{pool, IsPool};
    ghost use Rattle.std.specs.Prelude.{◌+◌, ◌-◌};

    ghost Value = { PoolValue };

    ghost coded = { pool_code };

    ghost view = { λ p. pool p.nodes p.head p.free p.fresh p.limit };

    ghost invariant = { λ p. IsPool p.nodes p.head p.free p.fresh p.limit };
}

impl Pool {
    /// A pool with no node and nothing to spare. It asks for no memory.
    pub fn new(alloc: Global) -> Pool
        ensures empty { (result.nodes ≡ map.empty) × (map.len result.nodes ≡ 0) }
        ensures spare { (result.spare ≡ 0) × (result.granted ≡ 0) }
    {
        Pool {
            nodes: Nodes::new(alloc),
            head: NO_NODE,
            free: 0,
            fresh: 0,
            limit: 0,
        }
    }

    /// How many nodes there are.
    #[inline]
    pub fn live(&self) -> u64
        ensures count { result ≡ map.len self.now.nodes }
        ensures bound { result < 2 ^ 49 }
    {
        self.fresh - self.free
    }

    /// How many more nodes can be taken with no more memory.
    #[inline]
    pub fn spare(&self) -> u64
        ensures count { result ≡ self.now.spare }
        ensures bound { result < 2 ^ 50 }
    {
        self.free + (self.limit - self.fresh)
    }

    /// The node of `id`.
    #[inline]
    pub fn get(&self, id: u64) -> Node
        requires { IsTrue (map.contains_key self.now.nodes id) }
        ensures node { map.get self.now.nodes id ≡ Some result }
        ensures id { id < 2 ^ 49 }
    {
        self.nodes.read(id)
    }

    /// Puts another node at `id`.
    #[inline]
    pub fn set(&mut self, id: u64, node: Node)
        requires { IsTrue (map.contains_key self.old.nodes id) }
        ensures nodes { self.new.nodes ≡ map.insert self.old.nodes id node }
        ensures spare { (self.new.spare ≡ self.old.spare) × (self.new.granted ≡ self.old.granted) }
    {
        self.nodes.write(id, node);
    }

    /// Puts the node at an id that was not live, and answers the id. It asks for no memory.
    #[inline]
    pub fn take(&mut self, node: Node) -> u64
        requires { 0 < self.old.spare }
        ensures new { map.get self.old.nodes result ≡ None }
        ensures id { result < 2 ^ 49 }
        ensures apart { result ≢ NO_NODE }
        ensures nodes { self.new.nodes ≡ map.insert self.old.nodes result node }
        ensures spare { (self.new.spare + 1 ≡ self.old.spare) × (self.new.granted + 1 ≡ self.old.granted) }
    {
        if self.free > 0 {
            let last = self.head;
            self.head = self.nodes.read(last).next_out;
            self.free -= 1;
            self.nodes.write(last, node);
            return last;
        }
        let next = self.fresh;
        self.fresh += 1;
        self.nodes.write(next, node);
        next
    }

    /// Takes the node of `id` out, and answers it. The id may come again.
    #[inline]
    pub fn give(&mut self, id: u64) -> Node
        requires { IsTrue (map.contains_key self.old.nodes id) }
        ensures node { map.get self.old.nodes id ≡ Some result }
        ensures nodes { self.new.nodes ≡ map.remove self.old.nodes id }
        ensures spare { (self.new.spare ≡ self.old.spare + 1) × (self.new.granted ≡ self.old.granted + 1) }
    {
        let node = self.get(id);
        self.nodes.write(
            id,
            Node {
                next_out: self.head,
                ..BLANK
            },
        );
        self.head = id;
        self.free += 1;
        node
    }

    /// Asks for memory ahead, so that `spare` is at least `k`. No node moves, and each keeps its id.
    ///
    /// # Errors
    ///
    /// `NoMemory` if the allocator refuses. The chunks that it granted before are kept, and serve a later call.
    pub fn reserve(&mut self, k: u64) -> Result<(), NoMemory>
        requires { map.len self.old.nodes + k < 2 ^ 48 }
        ensures nodes { self.new.nodes ≡ self.old.nodes }
        ensures room { OnOk result ((k ≤ self.new.spare) × (self.old.spare ≤ self.new.spare)) }
        ensures refused { OnErr result (self.new.spare ≡ self.old.spare) }
        ensures ready { k ≤ self.old.spare → IsOk result × (self.new.spare ≡ self.old.spare) }

        // What was granted before is enough, or less than one chunk more than `k` is granted then.
        ensures enough { k ≤ self.old.granted → IsOk result × (self.new.granted ≡ self.old.granted) }
        ensures few { self.old.granted < self.new.granted → self.new.granted < k + 4096 }
        ensures kept { self.old.granted ≤ self.new.granted }
    {
        let spare = self.free + (self.limit - self.fresh);
        if k <= spare {
            return Ok(());
        }
        grow_to(&mut self.nodes, self.limit + (k - spare))?;
        self.limit = self.nodes.len();
        Ok(())
    }
}

// Adds chunks until there are `wanted` places.
fn grow_to(nodes: &mut Nodes, wanted: u64) -> Result<(), NoMemory>
    requires { (length nodes.old ≤ 2 ^ 48 + 4096) × (wanted < 2 ^ 48) }
    ensures kept { take (length nodes.old) nodes.new ≡ nodes.old }
    ensures bound { length nodes.new ≤ 2 ^ 48 + 4096 }
    ensures grown { OnOk result (wanted ≤ length nodes.new) }
    ensures enough { wanted ≤ length nodes.old → IsOk result × (nodes.new ≡ nodes.old) }
    ensures few { length nodes.old < length nodes.new → length nodes.new < wanted + 4096 }
{
    while nodes.len() < wanted {
        nodes.grow()?;
    }
    Ok(())
}
