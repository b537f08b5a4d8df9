//! The degrees of a state.
ghost use Rattle.std.specs.Prelude.{◌≡◌, ◌≤◌, ◌<◌, ℕ, ◌*◌, pos, neg_ℤ, ◌+ℤ◌, ◌-ℤ◌, ◌*ℤ◌, ◌≤ℤ◌, length, slice_index, nat_lt, ℤ};
ghost use Rattle.state_rank.specs.Bijection.{IsBijection};
ghost use Rattle.torus_geom.specs.Counts.{count_below};
ghost use Rattle.torus_geom.specs.Marks.{size};
ghost use Rattle.torus_geom.specs.Degrees.{maslov as maslov_of, maslov_o as maslov_o_of, maslov_x as maslov_x_of, alexander as alexander_of, doubled_alexander};
ghost use Rattle.gradings.specs.Degrees.{greatest_degree, bidegree_cmp};
ghost use Rattle.f2_algebra.specs.Bigraded.{stands_before as stands_before_of};
ghost use Rattle.std.proofs.Common.{rules};
ghost use Rattle.std.specs.Cmp.{partial_order_from_own_ties};
ghost use Rattle.std.specs.Cmp.Rules.{comparing};
ghost use Rattle.std.specs.Ordering.{as_partial_cmp};

use state_rank::{MAX_SIZE, State};
use std::cmp::Ordering;
use torus_geom::Grid;

/// The two degrees of a state. They are ordered as in a table: the higher Alexander degree comes first, then the
/// higher Maslov degree.
#[derive(Clone, Copy, PartialEq, Eq, Debug)]
pub struct Bidegree {
    /// The Maslov degree, by the O.
    pub m: i32,
    /// The Alexander degree.
    pub a: i32,
}

impl Bidegree {
    /// Whether this bidegree stands before `other`.
    pub fn stands_before(&self, other: &Bidegree) -> bool
        ensures { result ≡ stands_before_of (self.now.m, self.now.a) (other.now.m, other.now.a) }
    {
        self < other
    }
}

impl Ord for Bidegree {
    ghost cmp = { bidegree_cmp };

    ghost total = { Prim.search (comparing, rules) };

    ghost matches_partial_cmp = { Prim.search (comparing, rules) };

    ghost matches_eq = { Prim.search (comparing, rules) };

    fn cmp(&self, other: &Bidegree) -> Ordering {
        other.a.cmp(&self.a).then(other.m.cmp(&self.m))
    }
}

impl PartialOrd for Bidegree {
    ghost partial_cmp = { as_partial_cmp bidegree_cmp };

    ghost laws = { partial_order_from_own_ties (Prim.search (comparing, rules)) (Prim.search (comparing, rules)) };

    fn partial_cmp(&self, other: &Bidegree) -> Option<Ordering> {
        Some(self.cmp(other))
    }
}

/// The Maslov degree of `x` by the O of `g`: I(x,x) - I(x,O) - I(O,x) + I(O,O) + 1.
///
/// I(P,Q) is the number of pairs of a point of P and a point of Q, the first strictly left of the
/// second and strictly below it. The points of a state have whole coordinates, a mark is a half further
/// in both (Ozsváth, Stipsicz and Szabó, "Grid Homology for Knots and Links", chapter 4).
pub fn maslov_o(g: &Grid, x: &State) -> i32
    requires one_size { length x.now ≡ size g.now }
    ensures degree { result ≡ maslov_o_of g.now x.now }
    ensures low { neg_ℤ greatest_degree ≤ℤ result }
    ensures high { result ≤ℤ greatest_degree }
{
    maslov(g.o_rows(), x.rows())
}

/// The Maslov degree of `x` by the X of `g`: the same with X in the place of O.
pub fn maslov_x(g: &Grid, x: &State) -> i32
    requires one_size { length x.now ≡ size g.now }
    ensures degree { result ≡ maslov_x_of g.now x.now }
    ensures low { neg_ℤ greatest_degree ≤ℤ result }
    ensures high { result ≤ℤ greatest_degree }
{
    maslov(g.x_rows(), x.rows())
}

/// The Alexander degree of `x`: half of the Maslov degree by the O, less that by the X, less n - l.
///
/// Here n is the size of `g` and l the number of its components. For a knot it is the degree of the
/// same book; for several components the convention is this project's own.
pub fn alexander(g: &Grid, x: &State) -> i32
    requires one_size { length x.now ≡ size g.now }
    ensures degree { result ≡ alexander_of g.now x.now }
    ensures low { neg_ℤ greatest_degree ≤ℤ result }
    ensures high { result ≤ℤ greatest_degree }

    // The Alexander degree is whole.
    ensures whole { pos 2 *ℤ alexander_of g.now x.now ≡ doubled_alexander g.now x.now }
{
    degree(g, x).a
}

/// The Maslov degree of `x` by the O of `g`, and its Alexander degree.
pub fn degree(g: &Grid, x: &State) -> Bidegree
    requires one_size { length x.now ≡ size g.now }
    ensures maslov { result.m ≡ maslov_o_of g.now x.now }
    ensures alexander { result.a ≡ alexander_of g.now x.now }
    ensures whole { pos 2 *ℤ alexander_of g.now x.now ≡ doubled_alexander g.now x.now }
    ensures low { (neg_ℤ greatest_degree ≤ℤ result.m) × (neg_ℤ greatest_degree ≤ℤ result.a) }
    ensures high { (result.m ≤ℤ greatest_degree) × (result.a ≤ℤ greatest_degree) }
{
    let points = x.rows();
    let by_o = maslov(g.o_rows(), points);
    let by_x = maslov(g.x_rows(), points);
    let exponent = i32::from(g.size()) - i32::from(g.components());
    Bidegree {
        m: by_o,
        a: half(by_o - by_x - exponent),
    }
}

// Half of an even number.
pub(crate) fn half(doubled: i32) -> i32
    ensures { (a : ℤ) → doubled ≡ a +ℤ a → result ≡ a }
{
    doubled / 2
}

// The Maslov degree of the points by these marks. By the order of columns, each mark and point is set
// against those left of it: the pairs of a point and a mark right of it are the pairs of that mark and
// the points right of it, and n more.
fn maslov(marks: &[u8], points: &[u8]) -> i32
    requires size { length marks.now ≤ MAX_SIZE }
    requires marks { IsBijection (length marks.now) marks.now }
    requires points { IsBijection (length marks.now) points.now }
    ensures degree { result ≡ maslov_of (length marks.now) marks.now points.now }
    ensures low { neg_ℤ (pos (3 * MAX_SIZE * MAX_SIZE)) ≤ℤ result }
    ensures high { result ≤ℤ pos (3 * MAX_SIZE * MAX_SIZE) }
{
    let mut sum = 0;
    for c in 0..marks.len() {
        sum += gain(&marks[..c], marks[c], &points[..c], points[c]);
    }
    sum + 1 - marks.len() as i32
}

// What a column adds to the degree: the points and the marks left of it are given, and its own.
fn gain(marks: &[u8], mark: u8, points: &[u8], point: u8) -> i32
    requires marks { length marks.now ≤ MAX_SIZE }
    requires points { length points.now ≤ MAX_SIZE }
    ensures value { result ≡ count_below (length points.now) (λ c. nat_lt (slice_index points.now c) point)
        +ℤ count_below (length marks.now) (λ c. nat_lt (slice_index marks.now c) mark)
        -ℤ pos 2 *ℤ count_below (length marks.now) (λ c. nat_lt (slice_index marks.now c) point) }
    ensures low { neg_ℤ (pos (2 * MAX_SIZE)) ≤ℤ result }
    ensures high { result ≤ℤ pos (2 * MAX_SIZE) }
{
    below(points, point) + below(marks, mark) - 2 * below(marks, point)
}

// How many of the rows are below `row`.
#[inline]
pub(crate) fn below(rows: &[u8], row: u8) -> i32
    requires { length rows.now ≤ MAX_SIZE }
    ensures value { result ≡ count_below (length rows.now) (λ c. nat_lt (slice_index rows.now c) row) }
    ensures low { pos 0 ≤ℤ result }
    ensures high { result ≤ℤ pos MAX_SIZE }
{
    let mut count = 0;
    for r in rows {
        if *r < row {
            count += 1;
        }
    }
    count
}
