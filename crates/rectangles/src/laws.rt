//! Laws of rectangles, each the contract of a call that answers nothing.
ghost use Rattle.std.specs.Prelude.{◌≡◌, ◌≢◌, ◌↔◌, ◌<◌, ℕ, ℤ, length, slice_index, swap, pos, ◌+ℤ◌, ◌-ℤ◌, ◌*ℤ◌};
ghost use Rattle.torus_geom.specs.Marks.{size};
ghost use Rattle.torus_geom.specs.Degrees.{maslov_o, maslov_x, marks_in, points_inside};
ghost use Rattle.torus_geom.specs.Homology.{IsHomologyRank};
ghost use Rattle.rectangles.specs.Coranks.{IsCorank};

use state_rank::State;
use torus_geom::{Grid, Rect};

/// The rectangle law: what a rectangle that leaves `x` changes of its Maslov degrees.
///
/// The rectangle is any with points of `x` at its lower left and upper right corners, empty or not,
/// across the seam of the torus or not; it leads to the state in which these two points are at the
/// other corners (Ozsváth, Stipsicz and Szabó, "Grid Homology for Knots and Links", chapter 4).
pub fn rect_degrees(g: &Grid, x: &State, r: &Rect)
    requires one_size { length x.now ≡ size g.now }
    requires left { r.now.left < size g.now }
    requires right { r.now.right < size g.now }
    requires apart { r.now.left ≢ r.now.right }
    requires low { slice_index x.now r.now.left ≡ r.now.low }
    requires high { slice_index x.now r.now.right ≡ r.now.high }

    // By the O: the degree falls by one, less twice the O in the rectangle, and twice the points inside.
    ensures by_o { let y = swap x.now r.now.left r.now.right in
        maslov_o g.now x.now -ℤ maslov_o g.now y
        ≡ pos 1 -ℤ pos 2 *ℤ marks_in (size g.now) g.now.o r.now
        +ℤ pos 2 *ℤ points_inside (size g.now) x.now r.now }

    // By the X: the same with X.
    ensures by_x { let y = swap x.now r.now.left r.now.right in
        maslov_x g.now x.now -ℤ maslov_x g.now y
        ≡ pos 1 -ℤ pos 2 *ℤ marks_in (size g.now) g.now.x r.now
        +ℤ pos 2 *ℤ points_inside (size g.now) x.now r.now }
{
    let _ = g.size();
    let _ = x.size();
    let _ = r;
}

/// Cohomology has the ranks of homology: in each degree of each grid, as many cocycles modulo coboundaries
/// as cycles modulo boundaries.
///
/// The coborder of a cochain has the states whose border pairs oddly with it, and raises the Maslov degree.
pub fn coranks(g: &Grid)
    ensures corank { (m a : ℤ) (d : ℕ) → IsCorank g.now m a d ↔ IsHomologyRank g.now m a d }
{
    let _ = g.size();
}
