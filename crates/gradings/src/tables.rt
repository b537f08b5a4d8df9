//! The degrees of all states of a grid, by tables.
ghost use Rattle.std.specs.Prelude.{◌≡◌, ◌≤◌, ◌<◌, ℕ, ◌*◌, pos, neg_ℤ, ◌+ℤ◌, ◌-ℤ◌, ◌≤ℤ◌, List, [], length, slice_index, slice_index_or, nat_lt};
ghost use Rattle.state_rank.specs.Bijection.{IsBijection};
ghost use Rattle.torus_geom.specs.Counts.{sum_below, count_below};
ghost use Rattle.torus_geom.specs.Marks.{IsGrid, size};
ghost use Rattle.torus_geom.specs.Degrees.{maslov_o as maslov_o_of, alexander as alexander_of};
ghost use Rattle.gradings.specs.Degrees.{greatest_degree};
ghost use Rattle.gradings.specs.Sums.{weight as weight_of, least as least_of, sum_before};
ghost use Rattle.gradings.specs.Inner.Tables.{left_below, pairs_of, weight};

use crate::degrees::{Bidegree, below, half};
use state_rank::{MAX_SIZE, ROOM, State};
use std::marker::Model;
use torus_geom::Grid;

// What is added to each weight, so that none is below 0.
const SHIFT: i32 = MAX_SIZE as i32;

/// The degrees of all states of a grid, by tables that are made once.
///
/// Contracts see the grid. The degrees are those of `degree`, faster: the Alexander degree is a number of
/// the grid and a sum over the columns of numbers that depend on the column and the row alone. So is the
/// Maslov degree but for the pairs of columns c < d of the state with x(c) < x(d), which are counted.
#[derive(Debug, Drop)]
pub struct DegreeTables {
    grid: Grid,
    // how many O are left of and below the point of a state at each column and row
    o_below: [[u8; ROOM]; ROOM],
    // how many X are there less how many O, and `MAX_SIZE` more
    weights: [[u8; ROOM]; ROOM],
    maslov_of_marks: i32,
    alexander_of_marks: i32,
}

impl Model for DegreeTables {
    ghost use Rattle.torus_geom.specs.Marks.{Marks};
    ghost use Rattle.gradings.specs.Degrees.{greatest_degree};
    ghost use Rattle.gradings.specs.Inner.Tables.{IsTables};

    ghost Value = { Marks };

    ghost view = { λ t. t.grid };

    ghost invariant = { IsTables };
}

impl DegreeTables {
    /// The tables of the grid.
    pub fn of(g: &Grid) -> DegreeTables
        ensures { result ≡ g.now }
    {
        let o = g.o_rows();
        let x = g.x_rows();
        let n = o.len() as i32;
        let o_pairs = pairs(o);
        let exponent = n - i32::from(g.components());
        DegreeTables {
            grid: *g,
            o_below: o_table(o),
            weights: weight_table(o, x),
            maslov_of_marks: o_pairs + 1 - n,
            alexander_of_marks: half(o_pairs - pairs(x) - exponent) - SHIFT * n,
        }
    }

    /// The Maslov degree of `x` by the O of the grid.
    #[inline]
    pub fn maslov(&self, x: &State) -> i32
        requires one_size { length x.now ≡ size self.now }
        ensures degree { result ≡ maslov_o_of self.now x.now }
        ensures low { neg_ℤ greatest_degree ≤ℤ result }
        ensures high { result ≤ℤ greatest_degree }
    {
        let points = x.rows();
        let o_below = table_sum(&self.o_below, points) as i32;
        self.maslov_of_marks + pairs(points) - 2 * o_below
    }

    /// The Alexander degree of `x`.
    #[inline]
    pub fn alexander(&self, x: &State) -> i32
        requires one_size { length x.now ≡ size self.now }
        ensures degree { result ≡ alexander_of self.now x.now }
        ensures low { neg_ℤ greatest_degree ≤ℤ result }
        ensures high { result ≤ℤ greatest_degree }
    {
        self.alexander_of_marks + table_sum(&self.weights, x.rows()) as i32
    }

    /// The Maslov degree of `x` by the O of the grid, and its Alexander degree.
    #[inline]
    pub fn degree(&self, x: &State) -> Bidegree
        requires one_size { length x.now ≡ size self.now }
        ensures maslov { result.m ≡ maslov_o_of self.now x.now }
        ensures alexander { result.a ≡ alexander_of self.now x.now }
        ensures low { (neg_ℤ greatest_degree ≤ℤ result.m) × (neg_ℤ greatest_degree ≤ℤ result.a) }
        ensures high { (result.m ≤ℤ greatest_degree) × (result.a ≤ℤ greatest_degree) }
    {
        Bidegree {
            m: self.maslov(x),
            a: self.alexander(x),
        }
    }
}

impl DegreeTables {
    /// What the marks alone give to the Alexander degree of a state, which is this and the sum of its weights.
    pub fn least(&self) -> i32
        ensures value { result ≡ least_of self.now }
        ensures low { neg_ℤ (pos 2000) ≤ℤ result }
        ensures high { result ≤ℤ pos 2000 }
        ensures law { (x : List ℕ) → IsBijection (size self.now) x
            → alexander_of self.now x ≡ least_of self.now +ℤ sum_before self.now (size self.now) x }
        ensures sums { (x : List ℕ) → IsBijection (size self.now) x
            → (pos 0 ≤ℤ sum_before self.now (size self.now) x) × (sum_before self.now (size self.now) x ≤ℤ pos 127) }
    {
        self.alexander_of_marks + columns_below(self.grid.size()) as i32
    }

    /// The weight of a point on column `c` and row `row`.
    #[inline]
    pub fn weight(&self, c: u8, row: u8) -> u8
        requires column { c < size self.now }
        requires row { row < size self.now }
        ensures value { pos result ≡ weight_of self.now c row }
        ensures small { result ≤ 20 }
    {
        self.weights[c as usize][row as usize] - (MAX_SIZE - c)
    }
}

// How much more `MAX_SIZE` is than the columns below `n`, in all.
fn columns_below(n: u8) -> u32
    requires { n ≤ MAX_SIZE }
    ensures value { pos result ≡ sum_below n (λ c. pos MAX_SIZE -ℤ pos c) }
    ensures high { result ≤ MAX_SIZE * n }
{
    let mut sum = 0;
    for c in 0..n {
        sum += u32::from(MAX_SIZE - c);
    }
    sum
}

// How many O are left of each column and below each row.
fn o_table(o: &[u8]) -> [[u8; ROOM]; ROOM]
    requires { length o.now ≤ MAX_SIZE }
    ensures { (c r : ℕ) → c < length o.now → r < MAX_SIZE
        → pos (slice_index (slice_index_or result c []) r) ≡ left_below (length o.now) o.now c r }
{
    let mut table = [[0; ROOM]; ROOM];
    for c in 0..o.len() {
        table[c] = counts_below(&o[..c]);
    }
    table
}

// How many X are left of each column and below each row less how many O, and `MAX_SIZE` more.
fn weight_table(o: &[u8], x: &[u8]) -> [[u8; ROOM]; ROOM]
    requires room { length o.now ≤ MAX_SIZE }
    requires one_size { length x.now ≡ length o.now }
    ensures { (c r : ℕ) → c < length o.now → r < MAX_SIZE
        → pos (slice_index (slice_index_or result c []) r) ≡ weight (length o.now) o.now x.now c r }
{
    let mut table = [[0; ROOM]; ROOM];
    for c in 0..o.len() {
        table[c] = column_weights(&o[..c], &x[..c]);
    }
    table
}

// How many of the rows are below each row.
fn counts_below(rows: &[u8]) -> [u8; ROOM]
    requires { length rows.now ≤ MAX_SIZE }
    ensures { (r : ℕ) → r < MAX_SIZE
        → pos (slice_index result r) ≡ count_below (length rows.now) (λ d. nat_lt (slice_index rows.now d) r) }
{
    let mut counts = [0; ROOM];
    for r in 0..MAX_SIZE {
        counts[r as usize] = below(rows, r) as u8;
    }
    counts
}

// How many of the rows `x` are below each row, less how many of the rows `o`, and `MAX_SIZE` more.
fn column_weights(o: &[u8], x: &[u8]) -> [u8; ROOM]
    requires o { length o.now ≤ MAX_SIZE }
    requires x { length x.now ≤ MAX_SIZE }
    ensures { (r : ℕ) → r < MAX_SIZE
        → pos (slice_index result r) ≡ pos MAX_SIZE
        +ℤ (count_below (length x.now) (λ d. nat_lt (slice_index x.now d) r)
        -ℤ count_below (length o.now) (λ d. nat_lt (slice_index o.now d) r)) }
{
    let mut weights = [0; ROOM];
    for r in 0..MAX_SIZE {
        weights[r as usize] = (SHIFT + below(x, r) - below(o, r)) as u8;
    }
    weights
}

// The pairs of columns c < d whose rows are in order too.
#[inline]
fn pairs(rows: &[u8]) -> i32
    requires { length rows.now ≤ MAX_SIZE }
    ensures value { result ≡ pairs_of (length rows.now) rows.now }
    ensures low { pos 0 ≤ℤ result }
    ensures high { result ≤ℤ pos (MAX_SIZE * MAX_SIZE) }
{
    let mut count = 0;
    for (d, row) in rows.iter().enumerate() {
        count += below(&rows[..d], *row);
    }
    count
}

// The sum of the entries at the points of a state.
#[inline]
fn table_sum(table: &[[u8; ROOM]; ROOM], rows: &[u8]) -> u32
    requires state { IsBijection (length rows.now) rows.now }
    requires room { length rows.now ≤ MAX_SIZE }
    ensures value { pos result
        ≡ sum_below (length rows.now) (λ c.
        pos (slice_index (slice_index_or table.now c []) (slice_index rows.now c))) }
    ensures high { result ≤ 256 * MAX_SIZE }
{
    let mut sum = 0;
    for (c, row) in rows.iter().enumerate() {
        sum += u32::from(table[c][*row as usize]);
    }
    sum
}
