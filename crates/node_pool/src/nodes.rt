//! Chunks side by side, seen as one list of nodes.
ghost use Rattle.std.specs.Prelude.{◌≡◌, ◌+◌, ◌*◌, ◌^◌, ◌<◌, ◌≤◌, [], ◌++◌, length, slice_set, OnOk, OnErr, take};
ghost use Rattle.node_pool.specs.Inner.Chunks.{node_at};

use crate::chunks::Chunk;
use crate::{CHUNK_NODES, Node};
use std::alloc::{AllocError, Global};
use std::marker::Model;

#[derive(Drop)]
pub(crate) struct Nodes {
    chunks: Vec<Chunk>,
    alloc: Global,
}

impl Model for Nodes {
    ghost use Rattle.std.specs.Prelude.{List, ◌≤◌, ◌^◌, length};
    ghost use Rattle.node_pool.specs.declared.Node.{Node as NodeValue};
    ghost use Rattle.node_pool.specs.Inner.Chunks.{joined, AreWhole};

    ghost Value = { List NodeValue };

    ghost view = { λ n. joined n.chunks.items };

    ghost invariant = { λ n. AreWhole n.chunks.items × (length n.chunks.items ≤ 2 ^ 37) };
}

impl Nodes {
    // No nodes. It asks for no memory.
    pub(crate) fn new(alloc: Global) -> Nodes
        ensures { result ≡ [] }
    {
        Nodes {
            chunks: Vec::new(alloc),
            alloc,
        }
    }

    // How many nodes lie in the chunks.
    pub(crate) fn len(&self) -> u64
        ensures count { result ≡ length self.now }
        ensures bound { result ≤ 2 ^ 50 }
    {
        self.chunks.len() as u64 * CHUNK_NODES as u64
    }

    // Adds a chunk. No node moves: the vector moves at most the pointers to the chunks.
    pub(crate) fn grow(&mut self) -> Result<(), AllocError>
        requires { length self.old < 2 ^ 49 }
        ensures kept { take (length self.old) self.new ≡ self.old }
        ensures grown { OnOk result (length self.new ≡ length self.old + 4096) }
        ensures same { OnErr result (self.new ≡ self.old) }
    {
        let chunk = Chunk::new(self.alloc)?;
        self.chunks.push(chunk)?;
        Ok(())
    }

    #[inline]
    pub(crate) fn read(&self, id: u64) -> Node
        requires { id < length self.now }
        ensures { result ≡ node_at self.now id }
    {
        let chunk = &self.chunks[id as usize / CHUNK_NODES];
        chunk.read(id as usize % CHUNK_NODES)
    }

    #[inline]
    pub(crate) fn write(&mut self, id: u64, node: Node)
        requires { id < length self.old }
        ensures { self.new ≡ slice_set self.old id node }
    {
        let chunk = &mut self.chunks[id as usize / CHUNK_NODES];
        chunk.write(id as usize % CHUNK_NODES, node);
    }
}
