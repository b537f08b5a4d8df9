//! Which rectangles that leave a state are pentagons.
ghost use Rattle.std.specs.Prelude.{◌≡◌, ◌≢◌, ℕ, ◌<◌, ◌≤◌, ◌==◌, ◌&&◌, ◌||◌, not, length, nat_lt, if◌then◌else◌};
ghost use Rattle.std.specs.Int.{bit_at};
ghost use Rattle.state_rank.specs.States.{IsState};
ghost use Rattle.torus_geom.specs.Range.{one_up as one_up_of, one_down as one_down_of};
ghost use Rattle.torus_geom.specs.Marks.{size, IsGrid};
ghost use Rattle.torus_geom.specs.Range.{offset as offset_of, in_range as in_range_of};
ghost use Rattle.torus_geom.specs.Rectangle.{IsProper};
ghost use Rattle.pentagon_map.specs.Pentagon.{crossing_row as crossing_row_of, has_mark_in_rows as has_mark_in_rows_of, has_row, is_unmarked_beside as is_unmarked_beside_of, is_pentagonal as is_pentagonal_of};
ghost use Rattle.pentagon_map.specs.Inner.Exchanges.{is_pentagon_at as is_pentagon_at_of, is_odd_circle};

use crate::Corner;
use state_rank::State;
use torus_geom::{Grid, Rect, in_range, is_empty, offset, one_down, one_up};

/// The row of the crossing that pentagons have as their corner.
pub fn crossing_row(g: &Grid, c: u8, corner: Corner) -> u8
    requires { c < size g.now }
    ensures row { result ≡ crossing_row_of g.now c corner }
    ensures below { result < size g.now }
{
    let n = g.size();
    let b = one_down(n, c);
    match corner {
        Corner::Over => first_met(n, g.o(b), g.o(c), g.x(c)),
        Corner::Under => last_met(n, g.o(c), g.o(b), g.x(b)),
    }
}

// Of the rows `j` and `k` the one that is met first on the way up from `i`.
fn first_met(n: u8, i: u8, j: u8, k: u8) -> u8
    requires i_below { i < n }
    requires j_below { j < n }
    requires k_below { k < n }
    ensures row { result ≡ (if nat_lt (offset_of n i j) (offset_of n i k) then j else k) }
    ensures below { result < n }
{
    if offset(n, i, j) < offset(n, i, k) {
        j
    } else {
        k
    }
}

// Of the rows `j` and `k` the one that is met last.
fn last_met(n: u8, i: u8, j: u8, k: u8) -> u8
    requires i_below { i < n }
    requires j_below { j < n }
    requires k_below { k < n }
    ensures row { result ≡ (if nat_lt (offset_of n i j) (offset_of n i k) then k else j) }
    ensures below { result < n }
{
    if offset(n, i, j) < offset(n, i, k) {
        k
    } else {
        j
    }
}

// The circles b for which exactly one of the two rectangles between `c` and b is a pentagon, as bits.
pub(crate) fn odd_circles(g: &Grid, c: u8, w: u8, x: &State) -> u16
    requires size { length x.now ≡ size g.now }
    requires c_below { c < size g.now }
    requires w_below { w < size g.now }
    ensures odd { (b : ℕ) → b < size g.now
        → bit_at result b ≡ (if is_odd_circle g.now c w x.now b then 1 else 0) }
    ensures grid { IsGrid g.now }
{
    let mut odd = 0u16;
    for b in 0..g.size() {
        if is_odd(g, c, w, x, b) {
            odd |= 1 << b;
        }
    }
    odd
}

// Whether exactly one of the two rectangles between the circles `c` and `b` of `x` is a pentagon.
#[tactic(auto, unfolding(crate::specs::Inner::Exchanges::is_odd_circle))]
fn is_odd(g: &Grid, c: u8, w: u8, x: &State, b: u8) -> bool
    requires size { length x.now ≡ size g.now }
    requires c_below { c < size g.now }
    requires w_below { w < size g.now }
    requires b_below { b < size g.now }
    ensures { result ≡ is_odd_circle g.now c w x.now b }
{
    b != c && is_pentagon_at(g, c, w, x, c, b) != is_pentagon_at(g, c, w, x, b, c)
}

// Whether the rectangle from the point of `x` on the circle `left` up to its point on the circle `right` is
// a pentagon. What takes no loop is tested first.
fn is_pentagon_at(g: &Grid, c: u8, w: u8, x: &State, left: u8, right: u8) -> bool
    requires size { length x.now ≡ size g.now }
    requires c_below { c < size g.now }
    requires w_below { w < size g.now }
    requires left_below { left < size g.now }
    requires right_below { right < size g.now }
    requires apart { left ≢ right }
    ensures { result ≡ is_pentagon_at_of g.now c w x.now left right }
{
    let r = Rect::leaving(x, left, right);
    crosses(g, c, w, &r) && is_unmarked_beside(g, c, &r) && is_empty(x, &r)
}

// Whether `r` is on the circle `c`, has row `w`, and keeps to its side of both circles.
fn crosses(g: &Grid, c: u8, w: u8, r: &Rect) -> bool
    requires c_below { c < size g.now }
    requires w_below { w < size g.now }
    requires proper { IsProper (size g.now) r.now }
    ensures { result ≡ ((r.now.left == c || r.now.right == c)
        && (has_row (size g.now) r.now w
        && (not (has_mark_in_rows_of g.now c r.now.low w)
        && not (has_mark_in_rows_of g.now (one_down_of (size g.now) c) (one_up_of (size g.now) w) r.now.high)))) }
{
    let n = g.size();
    (r.left == c || r.right == c)
        && in_range(n, r.low, r.high, w)
        && !has_mark_in_rows(g, c, r.low, w)
        && !has_mark_in_rows(g, one_down(n, c), one_up(n, w), r.high)
}

/// Whether no column of `r` other than `c - 1` and `c` has a mark in a row of `r`.
pub fn is_unmarked_beside(g: &Grid, c: u8, r: &Rect) -> bool
    requires c_below { c < size g.now }
    requires proper { IsProper (size g.now) r.now }
    ensures { result ≡ is_unmarked_beside_of g.now c r.now }
{
    for d in 0..g.size() {
        if is_in_the_way(g, c, r, d) {
            return false;
        }
    }
    true
}

// Whether column `d` is one of `r`, is neither `c - 1` nor `c`, and has a mark in a row of `r`.
fn is_in_the_way(g: &Grid, c: u8, r: &Rect, d: u8) -> bool
    requires c_below { c < size g.now }
    requires d_below { d < size g.now }
    requires proper { IsProper (size g.now) r.now }
    ensures { result ≡ not ((d == one_down_of (size g.now) c || d == c)
        || not (in_range_of (size g.now) r.now.left r.now.right d
        && has_mark_in_rows_of g.now d r.now.low r.now.high)) }
{
    let n = g.size();
    d != one_down(n, c)
        && d != c
        && in_range(n, r.left, r.right, d)
        && has_mark_in_rows(g, d, r.low, r.high)
}

// Whether column `d` has a mark in the rows from `low` up to `high`; there is no row from a row up to itself.
fn has_mark_in_rows(g: &Grid, d: u8, low: u8, high: u8) -> bool
    requires d_below { d < size g.now }
    requires low_below { low < size g.now }
    requires high_below { high < size g.now }
    ensures { result ≡ has_mark_in_rows_of g.now d low high }
{
    let n = g.size();
    low != high && (in_range(n, low, high, g.o(d)) || in_range(n, low, high, g.x(d)))
}
