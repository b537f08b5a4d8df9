//! Which rectangles that leave a state are hexagons.
ghost use Rattle.std.specs.Prelude.{◌≡◌, ◌≢◌, ℕ, ◌<◌, ◌≤◌, ◌==◌, ◌&&◌, ◌||◌, length, if◌then◌else◌, IsTrue};
ghost use Rattle.std.specs.Int.{bit_at};
ghost use Rattle.torus_geom.specs.Marks.{size, IsGrid};
ghost use Rattle.torus_geom.specs.Range.{in_range as in_range_of};
ghost use Rattle.torus_geom.specs.Rectangle.{IsProper};
ghost use Rattle.grid_moves.specs.Moves.{are_commuting_columns};
ghost use Rattle.hexagon_map.specs.Hexagon.{crossing_row_back as crossing_row_back_of};
ghost use Rattle.hexagon_map.specs.Inner.Hexagons.{is_hexagon_at as is_hexagon_at_of, is_odd_circle};

use grid_moves::{Axis, swap};
use pentagon_map::Corner;
use pentagon_map::pentagons::{crossing_row, is_unmarked_beside};
use state_rank::{MAX_SIZE, State};
use torus_geom::{Grid, Rect, in_range, is_empty};

// The row of the crossing on the way back.
pub(crate) fn crossing_row_back(g: &Grid, c: u8, corner: Corner) -> u8
    requires below { c < size g.now }
    requires commutes { IsTrue (are_commuting_columns g.now c) }
    ensures row { result ≡ crossing_row_back_of g.now c corner }
    ensures below { result < size g.now }
{
    crossing_row(&swap(g, Axis::Cols, c), c, corner)
}

// The circles b for which exactly one of the two rectangles between `c` and b is a hexagon, as bits.
pub(crate) fn odd_circles(g: &Grid, c: u8, w: u8, v: u8, x: &State) -> u16
    requires size { length x.now ≡ size g.now }
    requires c_below { c < size g.now }
    requires w_below { w < size g.now }
    requires v_below { v < size g.now }
    ensures odd { (b : ℕ) → b < size g.now
        → bit_at result b ≡ (if is_odd_circle g.now c w v x.now b then 1 else 0) }
    ensures grid { IsGrid g.now }
{
    let mut odd = 0u16;
    for b in 0..g.size() {
        if is_odd(g, c, w, v, x, b) {
            odd |= 1 << b;
        }
    }
    odd
}

// Whether exactly one of the two rectangles between the circles `c` and `b` of `x` is a hexagon.
#[tactic(auto, unfolding(crate::specs::Inner::Hexagons::is_odd_circle))]
fn is_odd(g: &Grid, c: u8, w: u8, v: u8, x: &State, b: u8) -> bool
    requires size { length x.now ≡ size g.now }
    requires c_below { c < size g.now }
    requires w_below { w < size g.now }
    requires v_below { v < size g.now }
    requires b_below { b < size g.now }
    ensures { result ≡ is_odd_circle g.now c w v x.now b }
{
    b != c && is_hexagon_at(g, c, w, v, x, c, b) != is_hexagon_at(g, c, w, v, x, b, c)
}

// Whether the rectangle from the point of `x` on the circle `left` up to its point on the circle `right` is
// a hexagon. What takes no loop is tested first.
fn is_hexagon_at(g: &Grid, c: u8, w: u8, v: u8, x: &State, left: u8, right: u8) -> bool
    requires size { length x.now ≡ size g.now }
    requires c_below { c < size g.now }
    requires w_below { w < size g.now }
    requires v_below { v < size g.now }
    requires left_below { left < size g.now }
    requires right_below { right < size g.now }
    requires apart { left ≢ right }
    ensures { result ≡ is_hexagon_at_of g.now c w v x.now left right }
{
    let r = Rect::leaving(x, left, right);
    crosses(g, c, w, v, &r) && is_unmarked_beside(g, c, &r) && is_empty(x, &r)
}

// Whether `r` is on the circle `c`, and has rows `w` and `v`, in the order that its side asks for.
fn crosses(g: &Grid, c: u8, w: u8, v: u8, r: &Rect) -> bool
    requires c_below { c < size g.now }
    requires w_below { w < size g.now }
    requires v_below { v < size g.now }
    requires proper { IsProper (size g.now) r.now }
    ensures { result ≡ (((r.now.right == c && in_range_of (size g.now) r.now.low w v)
        || (r.now.left == c && in_range_of (size g.now) r.now.low v w))
        && (in_range_of (size g.now) r.now.low r.now.high v && in_range_of (size g.now) r.now.low r.now.high w)) }
{
    let n = g.size();
    is_side(n, c, w, v, r) && in_range(n, r.low, r.high, v) && in_range(n, r.low, r.high, w)
}

// Whether the right of `r` is the circle `c` and `v` is met first, or its left is and `w` is met first.
fn is_side(n: u8, c: u8, w: u8, v: u8, r: &Rect) -> bool
    requires size { n ≤ MAX_SIZE }
    requires w_below { w < n }
    requires v_below { v < n }
    requires proper { IsProper n r.now }
    ensures { result ≡ ((r.now.right == c && in_range_of n r.now.low w v)
        || (r.now.left == c && in_range_of n r.now.low v w)) }
{
    (r.right == c && is_met_before(n, r.low, v, w))
        || (r.left == c && is_met_before(n, r.low, w, v))
}

// Whether row `i` is met before row `j` on the way up from `low`; none is met before `low`.
fn is_met_before(n: u8, low: u8, i: u8, j: u8) -> bool
    requires size { n ≤ MAX_SIZE }
    requires low_below { low < n }
    requires i_below { i < n }
    requires j_below { j < n }
    ensures { result ≡ in_range_of n low j i }
{
    low != j && in_range(n, low, j, i)
}
