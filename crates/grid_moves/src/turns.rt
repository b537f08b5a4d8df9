//! Cyclic turns of a grid.
ghost use Rattle.std.specs.Prelude.{◌≡◌, ℕ, List, ◌<◌, length, slice_index};
ghost use Rattle.state_rank.specs.States.{IsState};
ghost use Rattle.torus_geom.specs.Border.{border};
ghost use Rattle.torus_geom.specs.Chains.{Chain, IsChain};
ghost use Rattle.torus_geom.specs.Components.{components};
ghost use Rattle.torus_geom.specs.Degrees.{maslov_o, alexander};
ghost use Rattle.torus_geom.specs.Marks.{Marks, IsGrid, size};
ghost use Rattle.grid_moves.specs.Carried.{turned_state as turned_state_of, turned_chain};
ghost use Rattle.grid_moves.specs.Moves.{source_column as source_column_of, moved_row as moved_row_of, turned};

use state_rank::{ROOM, State};
use torus_geom::{Grid, one_down, one_up};

/// The side to which a grid is turned by one column or row.
#[derive(Clone, Copy, PartialEq, Eq, Debug)]
pub enum Side {
    Left,
    Right,
    Up,
    Down,
}

// The column whose marks come to column `c`.
fn source_column(side: Side, n: u8, c: u8) -> u8
    requires { c < n }
    ensures value { result ≡ source_column_of side n c }
    ensures below { result < n }
{
    match side {
        Side::Left => one_up(n, c),
        Side::Right => one_down(n, c),
        Side::Up | Side::Down => c,
    }
}

// The row that row `r` becomes.
fn moved_row(side: Side, n: u8, r: u8) -> u8
    requires { r < n }
    ensures value { result ≡ moved_row_of side n r }
    ensures below { result < n }
{
    match side {
        Side::Up => one_up(n, r),
        Side::Down => one_down(n, r),
        Side::Left | Side::Right => r,
    }
}

/// The grid turned by one column or row to `side`: to the left each column takes the marks of the next
/// one, up each mark stands one row higher, all mod n.
///
/// It is a cyclic permutation of the grid diagram, which keeps its link (Ozsváth, Stipsicz and Szabó,
/// "Grid Homology for Knots and Links", chapter 3).
pub fn turn(g: &Grid, side: Side) -> Grid
    ensures grid { result ≡ turned side g.now }

    // It keeps the number of components, and the degrees of each state, which turns with the grid.
    ensures keeps_components { components (turned side g.now) ≡ components g.now }
    ensures keeps_maslov { (x : List ℕ) → IsState x → length x ≡ size g.now
        → maslov_o (turned side g.now) (turned_state_of side x) ≡ maslov_o g.now x }
    ensures keeps_alexander { (x : List ℕ) → IsState x → length x ≡ size g.now
        → alexander (turned side g.now) (turned_state_of side x) ≡ alexander g.now x }

    // It carries the border of any chain to the border of the turned chain.
    ensures carries_border { (z : Chain) → IsChain (size g.now) z
        → border (turned side g.now) (turned_chain side (size g.now) z)
        ≡ turned_chain side (size g.now) (border g.now z) }
{
    let n = g.size();
    let mut o = [0; ROOM];
    let mut x = [0; ROOM];
    for c in 0..n {
        let source = source_column(side, n, c);
        o[c as usize] = moved_row(side, n, g.o(source));
        x[c as usize] = moved_row(side, n, g.x(source));
    }
    Grid::from_marks(&o[..n as usize], &x[..n as usize])
}

/// The state `x` after a turn of its grid to `side`: to the left each circle takes the point of the next one,
/// up each point is one circle higher, all mod n.
pub fn turn_state(x: &State, side: Side) -> State
    ensures state { result ≡ turned_state_of side x.now }
    ensures size { length result ≡ length x.now }
{
    let n = x.size();
    let mut rows = [0; ROOM];
    for c in 0..n {
        rows[c as usize] = moved_row(side, n, x.row(source_column(side, n, c)));
    }
    State::of(&rows[..n as usize]).unwrap()
}
