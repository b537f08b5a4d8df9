//! The sums of weights that the states of a grid can have.
ghost use Rattle.std.specs.Prelude.{◌≡◌, ◌≢◌, ◌<◌, ◌≤◌, ◌+◌, ◌^◌, ℕ, pos, ◌+ℤ◌, ◌≤ℤ◌, List, length, slice_index, slice_index_or, IsTrue, IfOk};
ghost use Rattle.std.specs.Int.{bit_at};
ghost use Rattle.std.specs.Int.Count.{ones};
ghost use Rattle.state_rank.specs.Bijection.{IsBijection};
ghost use Rattle.torus_geom.specs.Marks.{size};
ghost use Rattle.torus_geom.specs.Degrees.{alexander as alexander_of};
ghost use Rattle.gradings.specs.Sums.{weight as weight_of, least as least_of, sum_before, rows_used, HoldsSums};
ghost use Rattle.gradings.specs.Inner.Columns.{HoldsSumsOf, IsColumnDone};

use crate::tables::DegreeTables;
use grid_ports::NoMemory;
use state_rank::MAX_SIZE;
use std::alloc::Global;
use std::marker::Model;
use torus_geom::Grid;

// A sum of weights is below this: there is a bit for it in a number.
const SUMS: i64 = 128;

/// Which sums of weights the states of a grid can still have when the rows on their first columns are known.
///
/// Contracts see the grid. The Alexander degree of a state is `least` and the sum of its weights, one for each column.
/// For each set of rows there is a set of sums as bits: those that the other rows give on the columns that are left. It
/// is made once, from the set of all rows down.
#[derive(Drop)]
pub struct PossibleSums {
    tables: DegreeTables,
    sets: Vec<u128>,
}

impl Model for PossibleSums {
    ghost use Rattle.torus_geom.specs.Marks.{Marks, IsGrid};
    ghost use Rattle.gradings.specs.Sums.{HoldsSums};

    ghost Value = { Marks };

    ghost view = { λ s. s.tables };

    ghost invariant = { λ s. IsGrid s.tables × HoldsSums s.tables 0 s.sets.items };
}

impl PossibleSums {
    /// The sums of the states of the grid.
    ///
    /// # Errors
    ///
    /// `NoMemory` if the allocator refuses.
    pub fn of(alloc: Global, g: &Grid) -> Result<PossibleSums, NoMemory>
        ensures { IfOk result (λ s. s ≡ g.now) }
    {
        let tables = DegreeTables::of(g);
        let mut sets = vec![in alloc; 1u128; 1usize << g.size()]?;
        for c in (0..g.size()).rev() {
            add_column(&tables, c, g.size(), &mut sets);
        }
        Ok(PossibleSums { tables, sets })
    }

    /// The tables of the degrees of the grid.
    #[inline]
    pub fn tables(&self) -> &DegreeTables
        ensures { result.now ≡ self.now }
    {
        &self.tables
    }

    /// The weight of a point on column `c` and row `row`.
    #[inline]
    pub fn weight(&self, c: u8, row: u8) -> u8
        requires column { c < size self.now }
        requires row { row < size self.now }
        ensures value { pos result ≡ weight_of self.now c row }
        ensures small { result ≤ 20 }
    {
        self.tables.weight(c, row)
    }

    /// Whether the sum of the weights from some column on can be `sum`, for a state that uses the rows of the bits
    /// `used` on the columns before it.
    #[inline]
    pub fn can_give(&self, used: usize, sum: i64) -> bool
        // It can if it is so for some state.
        ensures complete { (z : List ℕ) (c : ℕ) → IsBijection (size self.now) z → c ≤ size self.now
            → rows_used c z ≡ used
            → sum +ℤ sum_before self.now c z ≡ sum_before self.now (size self.now) z → IsTrue result }
        ensures small { IsTrue result → (pos 0 ≤ℤ sum) × (sum ≤ℤ pos 127) }
    {
        let sets = self.sets.as_slice();
        if sum < 0 || sum >= SUMS {
            return false;
        }
        match sets.get(used) {
            Some(set) => has_sum(*set, sum as u32),
            None => false,
        }
    }
}

// Whether the bit of the sum is set.
#[inline]
fn has_sum(set: u128, sum: u32) -> bool
    requires { sum < 128 }
    ensures { bit_at set sum ≡ 1 → IsTrue result }
{
    set >> sum & 1 == 1
}

// Makes the sets of all rows that are used before column `c`.
fn add_column(tables: &DegreeTables, c: u8, n: u8, sets: &mut Vec<u128>)
    requires size { (n ≡ size tables.now) × (c < n) × (n ≤ MAX_SIZE) }
    requires long { length sets.old.items ≡ 2 ^ n }
    requires after { HoldsSums tables.now (c + 1) sets.old.items }
    ensures long { length sets.new.items ≡ 2 ^ n }
    ensures sums { HoldsSums tables.now c sets.new.items }
{
    for used in 0..sets.len() {
        sets[used] = column_set(tables, c, n, used, sets);
    }
}

// The set of sums from column `c` on, if so many rows are used; else the set that is there.
fn column_set(tables: &DegreeTables, c: u8, n: u8, used: usize, sets: &[u128]) -> u128
    requires size { (n ≡ size tables.now) × (c < n) × (n ≤ MAX_SIZE) }
    requires long { length sets.now ≡ 2 ^ n }
    requires within { used < 2 ^ n }
    requires after { HoldsSums tables.now (c + 1) sets.now }
    ensures other { ones used ≢ c → result ≡ slice_index_or sets.now used 0 }
    ensures sums { ones used ≡ c → HoldsSumsOf tables.now c used (size tables.now) result }
{
    if used.count_ones() != u32::from(c) {
        return sets[used];
    }
    let mut sums = 0;
    for row in 0..n {
        sums |= row_set(tables, c, n, row, used, sets);
    }
    sums
}

// The sums from column `c` on of the states that have the row `row` there.
fn row_set(tables: &DegreeTables, c: u8, n: u8, row: u8, used: usize, sets: &[u128]) -> u128
    requires size { (n ≡ size tables.now) × (c < n) × (row < n) × (n ≤ MAX_SIZE) }
    requires long { length sets.now ≡ 2 ^ n }
    requires within { used < 2 ^ n }
    requires after { HoldsSums tables.now (c + 1) sets.now }
    ensures { (z : List ℕ) (k : ℕ) → IsBijection (size tables.now) z → rows_used c z ≡ used
        → slice_index z c ≡ row → pos k +ℤ sum_before tables.now c z ≡ sum_before tables.now (size tables.now) z
        → bit_at result k ≡ 1 }
{
    if used >> row & 1 == 1 {
        return 0;
    }
    sets[used | 1 << row] << tables.weight(c, row)
}
