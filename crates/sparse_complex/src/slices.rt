//! Slices, their queries, and the cancelling of an arrow.
ghost use Rattle.std.specs.Prelude.{◌≡◌, ◌≢◌, ◌≤◌, ◌<◌, ◌+◌, ◌*◌, ℕ, ℤ, true, false, not, eqb, length, get_or, is_some, IfSome, IsNone, IsOk, IfOk, OnOk, OnErr};
ghost use Rattle.f2_algebra.specs.Complex.{Complex, arrow, IsComplex};
ghost use Rattle.f2_algebra.specs.Cancel.{Entry, IsEntry, cancelled};
ghost use Rattle.f2_algebra.specs.Slice.{slice_complex, IsSlice};
ghost use Rattle.sparse_complex.specs.Slices.{ListsOnce, ListsSome, ListsCells, fill};
ghost use Rattle.sparse_complex.specs.Inner.Lists.{no_id, head_at};
ghost use Rattle.sparse_complex.specs.Inner.Graph.{width};
ghost use Rattle.sparse_complex.specs.Inner.Stored.{key_of, no_key, slice_of, IsStoredByKey, ListsLive};

use crate::links::Links;
use grid_ports::NoMemory;
use node_pool::NO_NODE;
use std::alloc::Global;
use std::marker::Model;

/// The key of a code that is not live.
pub(crate) const NO_KEY: u32 = u32::MAX;

/// A code with its Maslov degree.
#[derive(Clone, Copy, PartialEq, Eq, Debug)]
pub struct Cell {
    pub code: u32,
    pub maslov: i32,
}

/// An arrow from the code `x` to the code `y`.
#[derive(Clone, Copy, PartialEq, Eq, Debug)]
pub struct Arrow {
    pub x: u32,
    pub y: u32,
}

/// The part of a grid complex at one Alexander degree, or what is left of it after arrows were cancelled.
///
/// It keeps the two rules of a complex. `keys` has the key of each code (`NO_KEY` for a code that is not
/// live), `cells` the code and the degree of each key, and `links` the arrows between keys. No key before
/// `cursor` has an arrow that leaves it.
#[derive(Drop)]
pub struct AlexSlice {
    keys: Vec<u32>,
    cells: Vec<Cell>,
    links: Links,
    cursor: u32,
}

// Clauses see the slice, and the room for more arrows.
impl Model for AlexSlice {
    ghost use Rattle.sparse_complex.specs.Slices.{SliceState, state_code};

    ghost Value = { SliceState };

    ghost coded = { state_code };

    ghost use Rattle.sparse_complex.specs.Inner.Stored.{slice_of, IsStored};

    ghost view = { λ s. record {
      slice = slice_of s.keys.items s.cells.items s.links;
      spare = s.links.pool.spare;
      granted = s.links.pool.granted;
    } };

    ghost invariant = { λ s. IsStored s.keys.items s.cells.items s.links s.cursor };
}

impl AlexSlice {
    // The slice of these parts.
    pub(crate) fn of_parts(keys: Vec<u32>, cells: Vec<Cell>, links: Links) -> AlexSlice
        requires by_key { IsStoredByKey keys.items cells.items links }
        requires rules { IsSlice (slice_of keys.items cells.items links) }
        ensures { result.slice ≡ slice_of keys.items cells.items links }
    {
        let cursor = first_with_arrow(&links, 0);
        AlexSlice {
            keys,
            cells,
            links,
            cursor,
        }
    }

    /// Whether `code` is live.
    pub fn is_live(&self, code: u32) -> bool
        ensures { result ≡ is_some ((slice_complex self.now.slice).degree code) }
    {
        self.maslov_of(code).is_some()
    }

    /// The Maslov degree of `code`, if it is live.
    pub fn maslov_of(&self, code: u32) -> Option<i32>
        ensures degree { result ≡ (slice_complex self.now.slice).degree code }

        // Every slice keeps the two rules of a complex.
        ensures rules { IsComplex (slice_complex self.now.slice) }
    {
        let key = find_key(&self.keys, code);
        if key == NO_KEY {
            return None;
        }
        Some(self.cells[key as usize].maslov)
    }

    /// The live codes with their Maslov degrees, each code once, in no order that is promised.
    ///
    /// # Errors
    ///
    /// `NoMemory` if the allocator refuses.
    pub fn live_cells(&self, alloc: Global) -> Result<Vec<Cell>, NoMemory>
        ensures { IfOk result (λ cells. ListsCells (slice_complex self.now.slice) cells.items) }
    {
        live_among(alloc, &self.keys, &self.cells)
    }

    /// Whether there is an arrow from `x` to `y`.
    pub fn is_arrow(&self, x: u32, y: u32) -> bool
        ensures { result ≡ arrow (slice_complex self.now.slice) x y }
    {
        let from = find_key(&self.keys, x);
        if from == NO_KEY {
            return false;
        }
        let to = find_key(&self.keys, y);
        if to == NO_KEY {
            return false;
        }
        self.links.find(from, to).is_some()
    }

    /// An arrow, if there is one.
    ///
    /// Its source is the first key that has an arrow, and its target the greatest among the targets of
    /// this key. The order has no part in what is promised, but in the time: with this one few arrows are
    /// added while all are cancelled.
    pub fn any_arrow(&self) -> Option<Arrow>
        ensures arrow { IfSome result (λ a. arrow (slice_complex self.now.slice) a.x a.y ≡ true) }
        ensures none { IsNone result → (s t : ℕ) → arrow (slice_complex self.now.slice) s t ≡ false }
    {
        if self.cursor as usize >= self.cells.len() {
            return None;
        }
        let to = self.links.last_target(self.cursor);
        Some(Arrow {
            x: self.cells[self.cursor as usize].code,
            y: self.cells[to as usize].code,
        })
    }

    /// Writes the codes from which there are arrows to `y` into `into`, each once, in place of what
    /// was there.
    ///
    /// # Errors
    ///
    /// `NoMemory` if the allocator refuses; `into` then holds some of them and nothing else.
    pub fn sources_of(&self, y: u32, into: &mut Vec<u32>) -> Result<(), NoMemory>
        ensures all { OnOk result (ListsOnce into.new.items
            (λ s. arrow (slice_complex self.now.slice) s y)) }
        ensures some { OnErr result (ListsSome into.new.items
            (λ s. arrow (slice_complex self.now.slice) s y)) }
    {
        into.clear();
        let key = find_key(&self.keys, y);
        if key == NO_KEY {
            return Ok(());
        }
        self.links.push_sources(key, &self.cells, into)
    }

    /// Writes the codes to which there are arrows from `x` into `into`, each once, in place of what was
    /// there.
    ///
    /// # Errors
    ///
    /// `NoMemory` if the allocator refuses; `into` then holds some of them and nothing else.
    pub fn targets_of(&self, x: u32, into: &mut Vec<u32>) -> Result<(), NoMemory>
        ensures all { OnOk result (ListsOnce into.new.items (arrow (slice_complex self.now.slice) x)) }
        ensures some { OnErr result (ListsSome into.new.items (arrow (slice_complex self.now.slice) x)) }
    {
        into.clear();
        let key = find_key(&self.keys, x);
        if key == NO_KEY {
            return Ok(());
        }
        self.links.push_targets(key, &self.cells, into)
    }

    /// Makes room for the arrows that cancelling the arrow from `x` to `y` may add.
    ///
    /// # Errors
    ///
    /// `NoMemory` if the allocator refuses.
    pub fn reserve_for(&mut self, x: u32, y: u32) -> Result<(), NoMemory>
        ensures room { OnOk result (fill self.old.slice x y ≤ self.new.spare) }
        ensures same { self.new.slice ≡ self.old.slice }
        ensures refused { OnErr result (self.new.spare ≡ self.old.spare) }

        // What was granted before is enough, or there is room for less than 4,096 arrows more than these then.
        ensures enough { fill self.old.slice x y ≤ self.old.granted → IsOk result }
        ensures few { self.old.granted < self.new.granted → self.new.granted < fill self.old.slice x y + 4096 }
    {
        let from = find_key(&self.keys, x);
        if from == NO_KEY {
            return Ok(());
        }
        let to = find_key(&self.keys, y);
        if to == NO_KEY {
            return Ok(());
        }
        let sources = self.links.count_in(to, from);
        let targets = self.links.count_out(from, to);
        self.links.reserve(sources * targets)
    }

    /// Cancels the arrow from `x` to `y`: both leave with their arrows, and from each other source of `y`
    /// to each other target of `x` the arrow is toggled. It takes no memory.
    pub fn cancel(&mut self, x: u32, y: u32)
        requires arrow { arrow (slice_complex self.old.slice) x y ≡ true }
        requires room { fill self.old.slice x y ≤ self.old.spare }
        ensures cancelled { slice_complex self.new.slice
            ≡ cancelled (slice_complex self.old.slice) x y }

        // What is left keeps the two rules.
        ensures rules { IsComplex (cancelled (slice_complex self.old.slice) x y) }

        // Cancelling an arrow keeps them in every complex. An entry is an arrow with the other sources of
        // its target and the other targets of its source.
        ensures law { (C : Complex ℤ) (e : Entry) → IsComplex C → IsEntry C e
            → IsComplex (cancelled C e.x e.y) }
    {
        let from = find_key(&self.keys, x);
        let to = find_key(&self.keys, y);
        self.links.fill(from, to);
        self.links.clear_out(from);
        self.links.clear_in(from);
        self.links.clear_out(to);
        self.links.clear_in(to);
        self.keys[x as usize] = NO_KEY;
        self.keys[y as usize] = NO_KEY;
        // A toggle adds arrows only at sources that had one, so the cursor never goes back.
        self.cursor = first_with_arrow(&self.links, self.cursor);
    }
}

// The cells whose codes have the keys of these cells.
fn live_among(alloc: Global, keys: &[u32], cells: &[Cell]) -> Result<Vec<Cell>, NoMemory>
    ensures { IfOk result (λ live. ListsLive keys.now cells.now (length cells.now) live.items) }
{
    let mut live = Vec::new(alloc);
    for key in 0..cells.len() {
        let cell = cells[key];
        if find_key(keys, cell.code) as usize == key {
            live.push(cell)?;
        }
    }
    Ok(live)
}

// The key of a code, or `NO_KEY`.
fn find_key(keys: &[u32], code: u32) -> u32
    ensures { result ≡ key_of keys.now code }
{
    match keys.get(code as usize) {
        Some(key) => *key,
        None => NO_KEY,
    }
}

// The first key from `from` on that has an arrow out, or the number of keys.
fn first_with_arrow(links: &Links, from: u32) -> u32
    requires { (from ≤ width links.now) × (width links.now ≤ no_key) }
    ensures within { (from ≤ result) × (result ≤ width links.now) }
    ensures none_before { (k : ℕ) → from ≤ k → k < result
        → (head_at links.now.heads.items k).first_out ≡ no_id }
    ensures some_here { result < width links.now
        → eqb (head_at links.now.heads.items result).first_out no_id ≡ false }
{
    let mut key = from;
    while (key as usize) < links.heads.len() {
        if links.heads[key as usize].first_out != NO_NODE {
            return key;
        }
        key += 1;
    }
    key
}
