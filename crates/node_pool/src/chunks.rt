//! A chunk of 4,096 nodes, seen as their list.
ghost use Rattle.std.specs.Prelude.{◌≡◌, ◌<◌, length, slice_set, IfOk};
ghost use Rattle.node_pool.specs.Inner.Chunks.{node_at};

use crate::blocks::Block;
use crate::{BLANK, CHUNK_NODES, Node};
use std::alloc::{AllocError, Global};
use std::marker::Model;

#[derive(Drop)]
pub(crate) struct Chunk {
    nodes: Block<[Node; CHUNK_NODES], Global>,
}

impl Model for Chunk {
    ghost use Rattle.std.specs.Prelude.{List};
    ghost use Rattle.node_pool.specs.declared.Node.{Node as NodeValue};

    ghost Value = { List NodeValue };

    ghost view = { λ c. c.nodes.value };
}

impl Chunk {
    // A chunk of blank nodes.
    pub(crate) fn new(alloc: Global) -> Result<Chunk, AllocError>
        ensures { IfOk result (λ c. length c ≡ 4096) }
    {
        Ok(Chunk {
            nodes: Block::of(Box::new(alloc, [BLANK; CHUNK_NODES])?),
        })
    }

    #[inline]
    pub(crate) fn read(&self, at: usize) -> Node
        requires { (at < 4096) × (length self.now ≡ 4096) }
        ensures { result ≡ node_at self.now at }
    {
        let nodes = self.nodes.as_ref();
        nodes[at]
    }

    #[inline]
    pub(crate) fn write(&mut self, at: usize, node: Node)
        requires { (at < 4096) × (length self.old ≡ 4096) }
        ensures { self.new ≡ slice_set self.old at node }
    {
        let nodes = self.nodes.as_mut();
        nodes[at] = node;
    }
}
