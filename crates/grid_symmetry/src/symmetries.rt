//! The symmetries of a grid, and what its states become.
ghost use Rattle.std.specs.Prelude.{◌≡◌, ◌≢◌, ◌↔◌, ◌<◌, ℕ, ℤ, pos, ◌-ℤ◌, ◌*ℤ◌, List, length};
ghost use Rattle.state_rank.specs.States.{transpose};
ghost use Rattle.torus_geom.specs.Border.{border};
ghost use Rattle.torus_geom.specs.Chains.{Chain, IsChain};
ghost use Rattle.torus_geom.specs.Components.{components};
ghost use Rattle.torus_geom.specs.Front.{minus_state, plus_state};
ghost use Rattle.torus_geom.specs.Homology.{IsHomologyRank, IsHomologyTable, Row};
ghost use Rattle.torus_geom.specs.Marks.{IsGrid, Marks, size};
ghost use Rattle.torus_geom.specs.Transposed.{transposed};
ghost use Rattle.rectangles.specs.Coranks.{coborder};
ghost use Rattle.grid_symmetry.specs.Symmetries.{half_turned as half_turned_of, half_turned_rows as half_turned_rows_of, half_turned_state as half_turned_state_of, marks_exchanged, opposite as opposite_of, reflected as reflected_of, reflected_rows as reflected_rows_of, reflected_state as reflected_state_of, symmetric, symmetric_chain, symmetric_state};

use state_rank::{ROOM, State};
use torus_geom::Grid;

/// A symmetry of grid diagrams. Each is its own inverse.
#[derive(Clone, Copy, PartialEq, Eq, Debug)]
pub enum Symmetry {
    /// Columns and rows change places: the grid is transposed.
    Flip,
    /// The grid is turned by half, about its middle.
    Half,
    /// The columns come in the order from right to left.
    Mirror,
    /// O and X change names.
    Marks,
}

// The circle - c, mod n.
fn opposite(n: u8, c: u8) -> u8
    requires { c < n }
    ensures value { result ≡ opposite_of n c }
    ensures below { result < n }
{
    if c == 0 { 0 } else { n - c }
}

// The rows from the last column to the first.
fn reflected_rows(o: &State) -> State
    ensures { result ≡ reflected_rows_of o.now }
{
    let n = o.size();
    let mut rows = [0; ROOM];
    for c in 0..n {
        rows[c as usize] = o.row(n - 1 - c);
    }
    State::of(&rows[..n as usize]).unwrap()
}

// The rows from the last column to the first, each counted from the top.
fn half_turned_rows(o: &State) -> State
    ensures { result ≡ half_turned_rows_of o.now }
{
    let n = o.size();
    let mut rows = [0; ROOM];
    for c in 0..n {
        rows[c as usize] = n - 1 - o.row(n - 1 - c);
    }
    State::of(&rows[..n as usize]).unwrap()
}

// The points on the opposite vertical circles.
fn reflected_state(x: &State) -> State
    ensures { result ≡ reflected_state_of x.now }
{
    let n = x.size();
    let mut rows = [0; ROOM];
    for c in 0..n {
        rows[c as usize] = x.row(opposite(n, c));
    }
    State::of(&rows[..n as usize]).unwrap()
}

// The points on the opposite circles, vertical and horizontal.
fn half_turned_state(x: &State) -> State
    ensures { result ≡ half_turned_state_of x.now }
{
    let n = x.size();
    let mut rows = [0; ROOM];
    for c in 0..n {
        rows[c as usize] = opposite(n, x.row(opposite(n, c)));
    }
    State::of(&rows[..n as usize]).unwrap()
}

// The grid with its columns from right to left.
fn reflected(g: &Grid) -> Grid
    ensures { result ≡ reflected_of g.now }
{
    Grid::from_states(reflected_rows(&g.o_state()), reflected_rows(&g.x_state()))
}

// The grid turned by half.
fn half_turned(g: &Grid) -> Grid
    ensures { result ≡ half_turned_of g.now }
{
    Grid::from_states(
        half_turned_rows(&g.o_state()),
        half_turned_rows(&g.x_state()),
    )
}

// The grid after the symmetry.
fn symmetric_grid(g: &Grid, s: Symmetry) -> Grid
    ensures { result ≡ symmetric s g.now }
{
    match s {
        Symmetry::Flip => g.transpose(),
        Symmetry::Half => half_turned(g),
        Symmetry::Mirror => reflected(g),
        Symmetry::Marks => Grid::from_states(g.x_state(), g.o_state()),
    }
}

// The state that the state becomes.
fn symmetric_points(x: &State, s: Symmetry) -> State
    ensures { result ≡ symmetric_state s x.now }
{
    match s {
        Symmetry::Flip => x.transpose(),
        Symmetry::Half => half_turned_state(x),
        Symmetry::Mirror => reflected_state(x),
        Symmetry::Marks => *x,
    }
}

/// The grid after the symmetry `s`.
///
/// `Half` keeps the link with its orientation; `Flip` and `Marks` keep it and reverse the orientation of each
/// component; `Mirror` makes its mirror image (Ozsváth, Stipsicz and Szabó, "Grid Homology for Knots and Links",
/// chapters 3 and 5). No clause speaks of links.
pub fn apply(g: &Grid, s: Symmetry) -> Grid
    ensures grid { result ≡ symmetric s g.now }
    ensures size { size result ≡ size g.now }

    // Twice is nothing.
    ensures twice { symmetric s (symmetric s g.now) ≡ g.now }

    ensures keeps_components { components (symmetric s g.now) ≡ components g.now }

    // The transposed grid and the grid turned by half have the table of the grid.
    ensures flip_table { (rows : List Row) → IsHomologyTable (transposed g.now) rows ↔ IsHomologyTable g.now rows }
    ensures half_table { (rows : List Row) → IsHomologyTable (half_turned_of g.now) rows ↔ IsHomologyTable g.now rows }

    // Of n columns and l components: the rank in degrees m and a is that of the reflected grid in the degrees
    // 1 - n - m and - (n - l) - a.
    ensures mirror_ranks { (m a : ℤ) (d : ℕ) → let rest = pos (size g.now) -ℤ pos (components g.now) in
        IsHomologyRank (reflected_of g.now) (pos 1 -ℤ pos (size g.now) -ℤ m) (pos 0 -ℤ rest -ℤ a) d
        ↔ IsHomologyRank g.now m a d }

    // It is that of the grid with marks exchanged in the degrees m - 2a - (n - l) and - a - (n - l).
    ensures marks_ranks { (m a : ℤ) (d : ℕ) → let rest = pos (size g.now) -ℤ pos (components g.now) in
        IsHomologyRank (marks_exchanged g.now) (m -ℤ pos 2 *ℤ a -ℤ rest) (pos 0 -ℤ a -ℤ rest) d
        ↔ IsHomologyRank g.now m a d }
{
    let _ = g.size();
    symmetric_grid(g, s)
}

/// What the state `x` becomes after the symmetry `s` of its grid.
///
/// The points are on circles, and circle 0 is the left side, or the lower side, of column 0, or of row 0: so
/// the grid has column n - 1 - c in the place of column c, and the state has circle - c mod n in the place of
/// circle c.
pub fn apply_state(x: &State, s: Symmetry) -> State
    ensures state { result ≡ symmetric_state s x.now }
    ensures size { length result ≡ length x.now }

    // Twice is nothing.
    ensures twice { symmetric_state s (symmetric_state s x.now) ≡ x.now }

    // All but `Mirror` carry the border of any chain of any grid to the border of the chain that it becomes.
    ensures carries_border { (g : Marks) → IsGrid g → (z : Chain) → IsChain (size g) z → s ≢ Symmetry.Mirror
        → border (symmetric s g) (symmetric_chain s (size g) z) ≡ symmetric_chain s (size g) (border g z) }

    // `Mirror` carries the coborder of any cochain to the border of the chain that it becomes.
    ensures mirror_border { (g : Marks) → IsGrid g → (f : Chain) → IsChain (size g) f
        → border (reflected_of g) (symmetric_chain Symmetry.Mirror (size g) f)
        ≡ symmetric_chain Symmetry.Mirror (size g) (coborder g f) }

    // `Flip` carries x+ to x+ and x- to x-; `Half` carries each of them to the other.
    ensures flip_plus { (g : Marks) → IsGrid g → transpose (plus_state g) ≡ plus_state (transposed g) }
    ensures flip_minus { (g : Marks) → IsGrid g → transpose (minus_state g) ≡ minus_state (transposed g) }
    ensures half_plus { (g : Marks) → IsGrid g → half_turned_state_of (plus_state g) ≡ minus_state (half_turned_of g) }
    ensures half_minus { (g : Marks) → IsGrid g → half_turned_state_of (minus_state g) ≡ plus_state (half_turned_of g) }
{
    let _ = x.size();
    symmetric_points(x, s)
}
