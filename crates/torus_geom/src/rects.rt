//! Rectangles on the torus, and when they are empty and unmarked.

ghost use Rattle.std.specs.Prelude.{◌≡◌, ◌≢◌, ◌<◌, ◌==◌, ◌&&◌, ◌||◌, not, length, slice_index};
ghost use Rattle.torus_geom.specs.Marks.{size};
ghost use Rattle.torus_geom.specs.Range.{in_range as in_range_of, is_inside as is_inside_of};
ghost use Rattle.torus_geom.specs.Rectangle.{IsProper, is_empty as is_empty_of, is_unmarked as is_unmarked_of};

use crate::Grid;
use crate::ranges::{in_range, is_inside};
use state_rank::State;

/// A rectangle on the torus: its columns are the range from `left` up to `right`, its rows the range
/// from `low` up to `high`, both mod the size of the grid.
#[derive(Clone, Copy, PartialEq, Eq, Debug)]
pub struct Rect {
    pub left: u8,
    pub right: u8,
    pub low: u8,
    pub high: u8,
}

impl Rect {
    /// The rectangle whose lower left corner is the point of `x` on the circle `left`, and whose upper
    /// right corner is its point on the circle `right`.
    pub fn leaving(x: &State, left: u8, right: u8) -> Rect
        requires left_below { left < length x.now }
        requires right_below { right < length x.now }
        requires apart { left ≢ right }
        ensures columns { (result.left ≡ left) × (result.right ≡ right) }
        ensures low { result.low ≡ slice_index x.now left }
        ensures high { result.high ≡ slice_index x.now right }
        ensures proper { IsProper (length x.now) result }
    {
        Rect {
            left,
            right,
            low: x.row(left),
            high: x.row(right),
        }
    }
}

/// Whether no point of `x` is strictly inside the rectangle `r`.
pub fn is_empty(x: &State, r: &Rect) -> bool
    requires { IsProper (length x.now) r.now }
    ensures { result ≡ is_empty_of x.now r.now }
{
    for c in 0..x.size() {
        if is_point_inside(x, r, c) {
            return false;
        }
    }
    true
}

/// Whether no mark of `g` is in the rectangle `r`.
pub fn is_unmarked(g: &Grid, r: &Rect) -> bool
    requires { IsProper (size g.now) r.now }
    ensures { result ≡ is_unmarked_of g.now r.now }
{
    for c in 0..g.size() {
        if is_marked_column(g, r, c) {
            return false;
        }
    }
    true
}

// Whether the point of `x` on the circle `c` is strictly inside `r`.
fn is_point_inside(x: &State, r: &Rect, c: u8) -> bool
    requires proper { IsProper (length x.now) r.now }
    requires below { c < length x.now }
    ensures { result ≡ (is_inside_of (length x.now) r.now.left r.now.right c
        && is_inside_of (length x.now) r.now.low r.now.high (slice_index x.now c)) }
{
    let n = x.size();
    is_inside(n, r.left, r.right, c) && is_inside(n, r.low, r.high, x.row(c))
}

// Whether column `c` is one of `r` and has a mark in a row of `r`.
fn is_marked_column(g: &Grid, r: &Rect, c: u8) -> bool
    requires proper { IsProper (size g.now) r.now }
    requires below { c < size g.now }
    ensures { result ≡ (in_range_of (size g.now) r.now.left r.now.right c
        && (in_range_of (size g.now) r.now.low r.now.high (slice_index g.now.o c)
        || in_range_of (size g.now) r.now.low r.now.high (slice_index g.now.x c))) }
{
    let n = g.size();
    in_range(n, r.left, r.right, c)
        && (in_range(n, r.low, r.high, g.o(c)) || in_range(n, r.low, r.high, g.x(c)))
}
