//! The degrees of a state at the components of the link of a grid.
ghost use Rattle.std.specs.Prelude.{◌≡◌, ℕ, ◌+◌, ◌-◌, ◌<◌, ◌≤◌, true, ◌&&◌, List, length, slice_index, ℤ, pos, neg_ℤ, ◌+ℤ◌, ◌*ℤ◌, ◌≤ℤ◌};
ghost use Rattle.std.specs.List.{All};
ghost use Rattle.gradings.specs.Degrees.{IsSmallDegree};
ghost use Rattle.torus_geom.specs.Border.{border};
ghost use Rattle.torus_geom.specs.Chains.{single};
ghost use Rattle.torus_geom.specs.Components.{components, is_first};
ghost use Rattle.torus_geom.specs.Counts.{one_if};
ghost use Rattle.torus_geom.specs.Degrees.{alexander};
ghost use Rattle.torus_geom.specs.Marks.{size};
ghost use Rattle.multi_degree.specs.ComponentDegrees.{is_on_cycle as is_on_cycle_of, component_size as component_size_of, component_degree as component_degree_of, doubled_component_degree, component_degrees as component_degrees_of, component_exponents, total_degree};
ghost use Rattle.multi_degree.specs.Inner.Around.{beside as beside_of, points_around as points_around_of, marks_around as marks_around_of, mark_part as mark_part_of, column_part as column_part_of};

use hat_division::{DegreeList, MAX_COMPONENTS};
use state_rank::{MAX_SIZE, State};
use torus_geom::Grid;

/// The degrees of `x` at the components of the link of `g`, doubled Alexander degrees, one for each component.
///
/// The components are in the order of their least columns. For one component it is twice the Alexander degree
/// (Ozsváth, Stipsicz and Szabó, "Grid Homology for Knots and Links", chapter 11; that these degrees are
/// counted so that they add up to twice the Alexander degree is this project's own).
pub fn component_degrees(g: &Grid, x: &State) -> DegreeList
    requires one_size { length x.now ≡ size g.now }
    ensures degrees { result ≡ component_degrees_of g.now x.now }
    ensures count { length result ≡ components g.now }
    ensures small { All IsSmallDegree result }

    // Each degree is whole.
    ensures whole { (f : ℕ) → f < size g.now
        → pos 2 *ℤ component_degree_of g.now f x.now ≡ doubled_component_degree g.now f x.now }

    // They add up to twice the Alexander degree.
    ensures sum { total_degree (component_degrees_of g.now x.now) ≡ pos 2 *ℤ alexander g.now x.now }

    // The border keeps each of them.
    ensures border { (y : List ℕ) → border g.now (single x.now) y ≡ true
        → component_degrees_of g.now x.now ≡ component_degrees_of g.now y }
{
    let _ = x.size();
    let mut degrees = [0; MAX_COMPONENTS];
    let mut count = 0;
    for f in 0..g.size() {
        if is_first_column(g, f) {
            degrees[count] = component_degree(g, x, f);
            count += 1;
        }
    }
    DegreeList::of(&degrees[..count]).unwrap()
}

/// The number of columns of component `i` of the link of `g`, less one. The components are counted from 1.
pub fn component_exponents(g: &Grid, i: u8) -> u8
    requires first { 1 ≤ i }
    requires last { i ≤ components g.now }
    ensures { result ≡ slice_index (component_exponents g.now) (i - 1) }
{
    let mut seen = 0;
    for f in 0..g.size() {
        if is_first_column(g, f) {
            seen += 1;
            if seen == i {
                return component_size(g, f) - 1;
            }
        }
    }
    unreachable!()
}

// The degree at the component of column `f`.
fn component_degree(g: &Grid, x: &State, f: u8) -> i32
    requires one_size { length x.now ≡ size g.now }
    requires column { f < size g.now }
    ensures degree { result ≡ component_degree_of g.now f x.now }
    ensures small { IsSmallDegree result }
{
    let mut sum = 0;
    for d in 0..g.size() {
        sum += column_part(g, x, f, d);
    }
    half(sum + 2)
}

// Half of an even number.
fn half(doubled: i32) -> i32
    ensures { (a : ℤ) → doubled ≡ a +ℤ a → result ≡ a }
{
    doubled / 2
}

// What column `d` gives to twice the degree at the component of column `f`.
fn column_part(g: &Grid, x: &State, f: u8, d: u8) -> i32
    requires one_size { length x.now ≡ size g.now }
    requires from { f < size g.now }
    requires column { d < size g.now }
    ensures value { result ≡ column_part_of g.now f x.now d }
    ensures low { neg_ℤ (pos 150) ≤ℤ result }
    ensures high { result ≤ℤ pos 150 }
{
    if is_on_cycle(g, f, d) {
        return mark_part(g, x, d, g.x(d)) - mark_part(g, x, d, g.o(d)) - 2;
    }
    0
}

// Twice the points around a mark, less the marks around it.
fn mark_part(g: &Grid, x: &State, d: u8, r: u8) -> i32
    requires one_size { length x.now ≡ size g.now }
    ensures value { result ≡ mark_part_of g.now x.now d r }
    ensures low { neg_ℤ (pos 70) ≤ℤ result }
    ensures high { result ≤ℤ pos 70 }
{
    2 * points_around(x.rows(), d, r)
        - marks_around(g.o_rows(), d, r)
        - marks_around(g.x_rows(), d, r)
}

// How many points are lower left or upper right of a mark.
fn points_around(points: &[u8], d: u8, r: u8) -> i32
    requires { length points.now ≤ MAX_SIZE }
    ensures value { result ≡ points_around_of (length points.now) (slice_index points.now) d r }
    ensures low { neg_ℤ (pos 10) ≤ℤ result }
    ensures high { result ≤ℤ pos 10 }
{
    let mut count = 0;
    for c in 0..points.len() as u8 {
        count += beside(d < c, r < points[c as usize]);
    }
    count
}

// How many marks are lower left or upper right of a mark.
fn marks_around(marks: &[u8], d: u8, r: u8) -> i32
    requires { length marks.now ≤ MAX_SIZE }
    ensures value { result ≡ marks_around_of (length marks.now) (slice_index marks.now) d r }
    ensures low { neg_ℤ (pos 20) ≤ℤ result }
    ensures high { result ≤ℤ pos 20 }
{
    let mut count = 0;
    for c in 0..marks.len() as u8 {
        let row = marks[c as usize];
        count += passes(c < d, row < r, d < c, r < row);
    }
    count
}

// 1 if both tests pass or neither, else 0.
fn beside(u: bool, v: bool) -> i32
    ensures value { result ≡ beside_of u v }
    ensures low { pos 0 ≤ℤ result }
    ensures high { result ≤ℤ pos 1 }
{
    if u == v { 1 } else { 0 }
}

// How many of two pairs of tests pass.
fn passes(left: bool, below: bool, right: bool, above: bool) -> i32
    ensures value { result ≡ one_if (left && below) +ℤ one_if (right && above) }
    ensures low { pos 0 ≤ℤ result }
    ensures high { result ≤ℤ pos 2 }
{
    if left && below {
        if right && above { 2 } else { 1 }
    } else {
        if right && above { 1 } else { 0 }
    }
}

// The number of columns of the component of column `f`.
#[tactic(auto, using(crate::proofs::WalkLemmas::size_below_more))]
fn component_size(g: &Grid, f: u8) -> u8
    requires { f < size g.now }
    ensures size { result ≡ component_size_of g.now f }
    ensures some { 1 ≤ result }
{
    let mut count = 0;
    for d in 0..g.size() {
        if is_on_cycle(g, f, d) {
            count += 1;
        }
    }
    count
}

// Whether the walk from column `f` comes to column `c`.
fn is_on_cycle(g: &Grid, f: u8, c: u8) -> bool
    requires { f < size g.now }
    ensures { result ≡ is_on_cycle_of g.now f c }
{
    let mut on = f;
    for _ in 0..g.size() {
        if on == c {
            return true;
        }
        on = g.o_column(g.x(on));
    }
    false
}

// Whether no column of the cycle of `c` is left of `c`.
fn is_first_column(g: &Grid, c: u8) -> bool
    requires { c < size g.now }
    ensures { result ≡ is_first g.now c }
{
    let mut on = c;
    for _ in 0..g.size() {
        if on < c {
            return false;
        }
        on = g.o_column(g.x(on));
    }
    true
}
