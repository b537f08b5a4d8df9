//! Arrows between keys, each a node of a pool that stands in two lists.
ghost use Rattle.std.specs.Prelude.{◌≡◌, ◌≢◌, ℕ, ◌+◌, ◌*◌, ◌^◌, ◌<◌, ◌≤◌, true, false, not, ◌&&◌, eqb, length, map, ◌++◌, IsOk, OnOk, IfOk, IfSome, IsNone, OnErr};
ghost use Rattle.std.specs.FinMap as fin;
ghost use Rattle.sparse_complex.specs.Inner.Lists.{no_id, among, is_node, node_at, head_at, with_next_out, with_prev_out, with_next_in, with_prev_in, with_first_out, with_first_in};
ghost use Rattle.sparse_complex.specs.Inner.Graph.{IsArrow, code_at, AreListed, width, outs_of, ins_of, targets, sources, has_arrow, others, IsPrefix, IsLinked, IsUnlinked, IsToggled, IsToggledFrom, IsFilled, IsCleared};

use crate::slices::Cell;
use grid_ports::NoMemory;
use node_pool::{NO_NODE, Node, Pool};
use std::alloc::Global;

/// Where the lists of a key begin.
#[derive(Clone, Copy)]
pub(crate) struct Head {
    pub(crate) first_out: u64,
    pub(crate) first_in: u64,
}

/// The arrows between the keys below the number of heads.
#[derive(Drop)]
pub(crate) struct Links {
    pub(crate) heads: Vec<Head>,
    pub(crate) pool: Pool,
}

impl Links {
    // No arrows between `keys` keys.
    pub(crate) fn new(alloc: Global, keys: usize) -> Result<Links, NoMemory>
        ensures { IfOk result (λ l.
            AreListed l × (width l ≡ keys) × ((s t : ℕ) → has_arrow l s t ≡ false)) }
    {
        let none = Head {
            first_out: NO_NODE,
            first_in: NO_NODE,
        };
        Ok(Links {
            heads: vec![in alloc; none; keys]?,
            pool: Pool::new(alloc),
        })
    }

    // Makes room for more arrows.
    pub(crate) fn reserve(&mut self, room: u64) -> Result<(), NoMemory>
        requires few { fin.len self.old.pool.nodes + room < 2 ^ 48 }
        ensures room { OnOk result (room ≤ self.new.pool.spare) }
        ensures refused { OnErr result (self.new.pool.spare ≡ self.old.pool.spare) }
        ensures enough { room ≤ self.old.pool.granted → IsOk result }
        ensures few { self.old.pool.granted < self.new.pool.granted → self.new.pool.granted < room + 4096 }
        ensures kept { self.old.pool.granted ≤ self.new.pool.granted }
        ensures nodes { self.new.pool.nodes ≡ self.old.pool.nodes }
        ensures heads { self.new.heads.items ≡ self.old.heads.items }
    {
        self.pool.reserve(room)
    }

    // Puts an arrow in, at the head of both lists.
    pub(crate) fn link(&mut self, from: u32, to: u32)
        requires listed { AreListed self.old }
        requires ends { (from < width self.old) × (to < width self.old) }
        requires absent { has_arrow self.old from to ≡ false }
        requires room { 0 < self.old.pool.spare }
        ensures linked { IsLinked from to self.old self.new }
        ensures listed { AreListed self.new }
        ensures room { self.new.pool.spare + 1 ≡ self.old.pool.spare }
    {
        let first_out = self.heads[from as usize].first_out;
        let first_in = self.heads[to as usize].first_in;
        let id = self.pool.take(Node {
            from,
            to,
            next_out: first_out,
            prev_out: NO_NODE,
            next_in: first_in,
            prev_in: NO_NODE,
        });
        self.write_prev_out(first_out, id);
        self.write_prev_in(first_in, id);
        self.write_next_out(NO_NODE, from, id);
        self.write_next_in(NO_NODE, to, id);
    }

    // Takes the arrow of an id out of both lists.
    pub(crate) fn unlink(&mut self, id: u64)
        requires listed { AreListed self.old }
        requires live { is_node self.old.pool.nodes id ≡ true }
        ensures unlinked { IsUnlinked id self.old self.new }
        ensures listed { AreListed self.new }
        ensures room { self.new.pool.spare ≡ self.old.pool.spare + 1 }
    {
        let node = self.pool.get(id);
        self.write_next_out(node.prev_out, node.from, node.next_out);
        self.write_prev_out(node.next_out, node.prev_out);
        self.write_next_in(node.prev_in, node.to, node.next_in);
        self.write_prev_in(node.next_in, node.prev_in);
        self.pool.give(id);
    }

    // The id of the arrow, if there is one.
    pub(crate) fn find(&self, from: u32, to: u32) -> Option<u64>
        requires listed { AreListed self.now }
        requires key { from < width self.now }
        ensures found { IfSome result (IsArrow self.now from to) }
        ensures none { IsNone result → has_arrow self.now from to ≡ false }
    {
        let mut at = self.heads[from as usize].first_out;
        while at != NO_NODE {
            let node = self.pool.get(at);
            if node.to == to {
                return Some(at);
            }
            at = node.next_out;
        }
        None
    }

    // Takes the arrow out if it is there, and else puts it in.
    pub(crate) fn toggle(&mut self, from: u32, to: u32)
        requires listed { AreListed self.old }
        requires ends { (from < width self.old) × (to < width self.old) }
        requires room { 0 < self.old.pool.spare }
        ensures { IsToggled from to self.old self.new }
    {
        match self.find(from, to) {
            Some(id) => self.unlink(id),
            None => self.link(from, to),
        }
    }

    // Toggles the arrows from `from` to each target of `x` other than `y`.
    fn toggle_from(&mut self, from: u32, x: u32, y: u32)
        requires listed { AreListed self.old }
        requires ends { (from < width self.old) × (x < width self.old) }
        requires distinct { eqb from x ≡ false }
        requires room { length (others y (targets self.old x)) ≤ self.old.pool.spare }
        ensures { IsToggledFrom from x y self.old self.new }
    {
        let mut at = self.heads[x as usize].first_out;
        while at != NO_NODE {
            let node = self.pool.get(at);
            if node.to != y {
                self.toggle(from, node.to);
            }
            at = node.next_out;
        }
    }

    // Toggles the arrows from each source of `y` other than `x` to each target of `x` other than `y`.
    pub(crate) fn fill(&mut self, x: u32, y: u32)
        requires listed { AreListed self.old }
        requires ends { (x < width self.old) × (y < width self.old) }
        requires room { length (others x (sources self.old y)) * length (others y (targets self.old x))
            ≤ self.old.pool.spare }
        ensures { IsFilled x y self.old self.new }
    {
        let mut at = self.heads[y as usize].first_in;
        while at != NO_NODE {
            let node = self.pool.get(at);
            if node.from != x {
                self.toggle_from(node.from, x, y);
            }
            at = node.next_in;
        }
    }

    // Takes all arrows out of a key out.
    pub(crate) fn clear_out(&mut self, key: u32)
        requires listed { AreListed self.old }
        requires key { key < width self.old }
        ensures { IsCleared (λ s _. eqb s key) self.old self.new }
    {
        let mut at = self.heads[key as usize].first_out;
        while at != NO_NODE {
            self.unlink(at);
            at = self.heads[key as usize].first_out;
        }
    }

    // Takes all arrows into a key out.
    pub(crate) fn clear_in(&mut self, key: u32)
        requires listed { AreListed self.old }
        requires key { key < width self.old }
        ensures { IsCleared (λ _ t. eqb t key) self.old self.new }
    {
        let mut at = self.heads[key as usize].first_in;
        while at != NO_NODE {
            self.unlink(at);
            at = self.heads[key as usize].first_in;
        }
    }

    // The number of arrows out of a key, but for that to `target`.
    pub(crate) fn count_out(&self, key: u32, target: u32) -> u64
        requires listed { AreListed self.now }
        requires key { key < width self.now }
        ensures { result ≡ length (others target (targets self.now key)) }
    {
        let _most = self.pool.live();
        let mut count = 0;
        let mut at = self.heads[key as usize].first_out;
        while at != NO_NODE {
            let node = self.pool.get(at);
            count += u64::from(node.to != target);
            at = node.next_out;
        }
        count
    }

    // The number of arrows into a key, but for that from `source`.
    pub(crate) fn count_in(&self, key: u32, source: u32) -> u64
        requires listed { AreListed self.now }
        requires key { key < width self.now }
        ensures { result ≡ length (others source (sources self.now key)) }
    {
        let _most = self.pool.live();
        let mut count = 0;
        let mut at = self.heads[key as usize].first_in;
        while at != NO_NODE {
            let node = self.pool.get(at);
            count += u64::from(node.from != source);
            at = node.next_in;
        }
        count
    }

    // The largest target of a key that has one.
    pub(crate) fn last_target(&self, key: u32) -> u32
        requires listed { AreListed self.now }
        requires key { key < width self.now }
        requires some { eqb (head_at self.now.heads.items key).first_out no_id ≡ false }
        ensures { has_arrow self.now key result ≡ true }
    {
        let first = self.pool.get(self.heads[key as usize].first_out);
        let mut last = first.to;
        let mut at = first.next_out;
        while at != NO_NODE {
            let node = self.pool.get(at);
            last = last.max(node.to);
            at = node.next_out;
        }
        last
    }

    // Appends the codes of the targets of a key.
    pub(crate) fn push_targets(
        &self,
        key: u32,
        cells: &[Cell],
        into: &mut Vec<u32>,
    ) -> Result<(), NoMemory>
        requires listed { AreListed self.now }
        requires key { key < width self.now }
        requires cells { length cells.now ≡ width self.now }
        ensures all { OnOk result (into.new.items
            ≡ into.old.items ++ map (code_at cells.now) (targets self.now key)) }
        ensures some { OnErr result (IsPrefix into.new.items
            (into.old.items ++ map (code_at cells.now) (targets self.now key))) }
    {
        let mut at = self.heads[key as usize].first_out;
        while at != NO_NODE {
            let node = self.pool.get(at);
            into.push(cells[node.to as usize].code)?;
            at = node.next_out;
        }
        Ok(())
    }

    // Appends the codes of the sources of a key.
    pub(crate) fn push_sources(
        &self,
        key: u32,
        cells: &[Cell],
        into: &mut Vec<u32>,
    ) -> Result<(), NoMemory>
        requires listed { AreListed self.now }
        requires key { key < width self.now }
        requires cells { length cells.now ≡ width self.now }
        ensures all { OnOk result (into.new.items
            ≡ into.old.items ++ map (code_at cells.now) (sources self.now key)) }
        ensures some { OnErr result (IsPrefix into.new.items
            (into.old.items ++ map (code_at cells.now) (sources self.now key))) }
    {
        let mut at = self.heads[key as usize].first_in;
        while at != NO_NODE {
            let node = self.pool.get(at);
            into.push(cells[node.from as usize].code)?;
            at = node.next_in;
        }
        Ok(())
    }

    // Writes what follows `at` in the out-list of `key`, or what is first there if `at` is `NO_NODE`.
    fn write_next_out(&mut self, at: u64, key: u32, next: u64)
        requires key { key < length self.old.heads.items }
        requires at { eqb at no_id ≡ false → is_node self.old.pool.nodes at ≡ true }
        ensures nodes { self.new.pool.nodes ≡ with_next_out self.old.pool.nodes at next }
        ensures heads { self.new.heads.items ≡ with_first_out self.old.heads.items at key next }
        ensures spare { self.new.pool.spare ≡ self.old.pool.spare }
    {
        if at == NO_NODE {
            self.heads[key as usize].first_out = next;
            return;
        }
        let node = self.pool.get(at);
        self.pool.set(
            at,
            Node {
                next_out: next,
                ..node
            },
        );
    }

    // Writes what stands before `at` in its out-list, unless `at` is `NO_NODE`.
    fn write_prev_out(&mut self, at: u64, prev: u64)
        requires { eqb at no_id ≡ false → is_node self.old.pool.nodes at ≡ true }
        ensures nodes { self.new.pool.nodes ≡ with_prev_out self.old.pool.nodes at prev }
        ensures heads { self.new.heads.items ≡ self.old.heads.items }
        ensures spare { self.new.pool.spare ≡ self.old.pool.spare }
    {
        if at == NO_NODE {
            return;
        }
        let node = self.pool.get(at);
        self.pool.set(
            at,
            Node {
                prev_out: prev,
                ..node
            },
        );
    }

    // Writes what follows `at` in the in-list of `key`, or what is first there if `at` is `NO_NODE`.
    fn write_next_in(&mut self, at: u64, key: u32, next: u64)
        requires key { key < length self.old.heads.items }
        requires at { eqb at no_id ≡ false → is_node self.old.pool.nodes at ≡ true }
        ensures nodes { self.new.pool.nodes ≡ with_next_in self.old.pool.nodes at next }
        ensures heads { self.new.heads.items ≡ with_first_in self.old.heads.items at key next }
        ensures spare { self.new.pool.spare ≡ self.old.pool.spare }
    {
        if at == NO_NODE {
            self.heads[key as usize].first_in = next;
            return;
        }
        let node = self.pool.get(at);
        self.pool.set(
            at,
            Node {
                next_in: next,
                ..node
            },
        );
    }

    // Writes what stands before `at` in its in-list, unless `at` is `NO_NODE`.
    fn write_prev_in(&mut self, at: u64, prev: u64)
        requires { eqb at no_id ≡ false → is_node self.old.pool.nodes at ≡ true }
        ensures nodes { self.new.pool.nodes ≡ with_prev_in self.old.pool.nodes at prev }
        ensures heads { self.new.heads.items ≡ self.old.heads.items }
        ensures spare { self.new.pool.spare ≡ self.old.pool.spare }
    {
        if at == NO_NODE {
            return;
        }
        let node = self.pool.get(at);
        self.pool.set(
            at,
            Node {
                prev_in: prev,
                ..node
            },
        );
    }
}
