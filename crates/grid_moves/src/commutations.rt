//! Commutations: the exchange of neighbouring columns or rows.
ghost use Rattle.std.specs.Prelude.{◌≡◌, ℕ, ◌<◌, ◌≤◌, ◌&&◌, ◌||◌, not, ◌==◌, length, slice_index, take, swap as swap_list, IsTrue};
ghost use Rattle.state_rank.specs.Bijection.{IsBijection};
ghost use Rattle.torus_geom.specs.Marks.{Marks, IsGrid, size};
ghost use Rattle.grid_moves.specs.Moves.{are_commuting_columns as are_commuting_columns_of, swapped_columns as swapped_columns_of, are_commuting, swapped};

use torus_geom::{Grid, in_range, one_down};

/// Whether columns or rows are exchanged.
#[derive(Clone, Copy, PartialEq, Eq, Debug)]
pub enum Axis {
    Cols,
    Rows,
}

// Whether columns c - 1 and c commute.
fn are_commuting_columns(g: &Grid, c: u8) -> bool
    requires { c < size g.now }
    ensures { result ≡ are_commuting_columns_of g.now c }
{
    let n = g.size();
    let b = one_down(n, c);
    let (low, high) = (g.o(b), g.x(b));
    let (o, x) = (g.o(c), g.x(c));
    if o == low || o == high || x == low || x == high {
        return false;
    }
    in_range(n, low, high, o) == in_range(n, low, high, x)
}

// The grid with columns c - 1 and c exchanged.
fn swapped_columns(g: &Grid, c: u8) -> Grid
    requires { c < size g.now }
    ensures { result ≡ swapped_columns_of g.now c }
{
    let n = g.size();
    let b = one_down(n, c);
    Grid::from_states(g.o_state().exchange(b, c), g.x_state().exchange(b, c))
}

/// Whether columns (or rows) `c - 1` and `c` of `g` commute: their four marks are in four different rows,
/// and going round the circle of rows the marks of the one column do not separate those of the other.
///
/// `c` is from 0 to n - 1; at 0 they are the last and the first, across the seam of the torus. Rows commute
/// if they do as columns of the transposed grid (Ozsváth, Stipsicz and Szabó, "Grid Homology for Knots
/// and Links", chapter 3; the seam is this project's own).
pub fn commutes(g: &Grid, axis: Axis, c: u8) -> bool
    requires { c < size g.now }
    ensures { result ≡ are_commuting axis g.now c }
{
    match axis {
        Axis::Cols => are_commuting_columns(g, c),
        Axis::Rows => are_commuting_columns(&g.transpose(), c),
    }
}

/// The grid with columns (or rows) `c - 1` and `c` exchanged, if they commute.
pub fn swap(g: &Grid, axis: Axis, c: u8) -> Grid
    requires below { c < size g.now }
    requires commutes { IsTrue (are_commuting axis g.now c) }
    ensures grid { result ≡ swapped axis g.now c }

    // The exchanged grid commutes there, and a second exchange gives the grid back.
    ensures twice { swapped axis (swapped axis g.now c) c ≡ g.now }
    ensures commutes_again { IsTrue (are_commuting axis (swapped axis g.now c) c) }
{
    let _ = g.size();
    match axis {
        Axis::Cols => swapped_columns(g, c),
        Axis::Rows => swapped_columns(&g.transpose(), c).transpose(),
    }
}
