//! Grid diagrams.
ghost use Rattle.std.specs.Prelude.{◌≡◌, ◌≤◌, ◌<◌, ◌↔◌, length, slice_index, IfOk, OnOk, IsTrue};
ghost use Rattle.state_rank.specs.Bijection.{column_of as column_of_row};
ghost use Rattle.torus_geom.specs.Marks.{AreBijections, SharesSquare, IsGrid, size};
ghost use Rattle.torus_geom.specs.Components.{HasOneOfEachCycle, is_first, components};
ghost use Rattle.torus_geom.specs.Front.{o_column, x_column};
ghost use Rattle.torus_geom.specs.Transposed.{transposed};

use state_rank::{MAX_SIZE, State};
use std::marker::Model;

/// A grid diagram: in each column and in each row one O and one X, in different squares.
///
/// Its size is from 2 to `MAX_SIZE`. Columns are counted from the left and rows from the bottom, both
/// from 0 (Ozsváth, Stipsicz and Szabó, "Grid Homology for Knots and Links", chapter 3).
#[derive(Clone, Copy, PartialEq, Eq, Debug)]
pub struct Grid {
    o: State,
    x: State,
    components: u8,
}

// Clauses see the rows of the marks. The number of components is kept too, since each Alexander degree
// asks for it.
impl Model for Grid {
    ghost use Rattle.std.proofs.Common.{sym};
    ghost use Rattle.torus_geom.specs.Marks.{Marks};
    ghost use Rattle.torus_geom.specs.Components.{components as number_of_components};
    ghost use Rattle.torus_geom.specs.Inner.Stored.{marks, IsStored};

    ghost Value = { Marks };

    ghost view = { marks };

    ghost invariant = { IsStored };

    ghost inverse = { λ g. record { o = g.o; x = g.x; components = number_of_components g } };

    ghost inverse_ok = { λ g stored i. record { o = g.o; x = g.x; components = sym stored.counted i } };
}

/// Why two lists are not the marks of a grid.
#[derive(Clone, Copy, PartialEq, Eq, Debug)]
pub enum GridFault {
    /// The rows of the O and those of the X are not both bijections of one size from 2 to `MAX_SIZE`.
    NotPermutation,
    /// Some column has its O and its X in one square.
    SameSquare,
}

impl Grid {
    /// The grid whose column `c` has its O in row `o[c]` and its X in row `x[c]`.
    ///
    /// # Errors
    ///
    /// `NotPermutation` unless both lists are bijections of 0 to n - 1, for one n from 2 to `MAX_SIZE`;
    /// else `SameSquare` if the two agree at some column.
    pub fn of(o: &[u8], x: &[u8]) -> Result<Grid, GridFault>
        ensures marks { IfOk result (λ g. g ≡ record { o = o.now; x = x.now }) }
        ensures grid { OnOk result (IsGrid (record { o = o.now; x = x.now })) }
        ensures not_permutation { (result ≡ Err GridFault.NotPermutation)
            ↔ ¬ AreBijections (record { o = o.now; x = x.now }) }
        ensures same_square { (result ≡ Err GridFault.SameSquare)
            ↔ (AreBijections (record { o = o.now; x = x.now })
            × SharesSquare (record { o = o.now; x = x.now })) }
    {
        let Some(o) = State::of(o) else {
            return Err(GridFault::NotPermutation);
        };
        let Some(x) = State::of(x) else {
            return Err(GridFault::NotPermutation);
        };
        if o.size() != x.size() {
            return Err(GridFault::NotPermutation);
        }
        if shares_square(o.rows(), x.rows()) {
            return Err(GridFault::SameSquare);
        }
        Ok(Grid::from_states(o, x))
    }

    /// The grid whose O are in the rows of the state `o`, and whose X are in those of the state `x`.
    pub fn from_states(o: State, x: State) -> Grid
        requires { IsGrid (record { o = o; x = x }) }
        ensures { result ≡ record { o = o; x = x } }
    {
        let components = components(o.rows(), x.rows());
        Grid { o, x, components }
    }

    /// The grid with these marks, if they are those of a grid.
    pub fn from_marks(o: &[u8], x: &[u8]) -> Grid
        requires { IsGrid (record { o = o.now; x = x.now }) }
        ensures { result ≡ record { o = o.now; x = x.now } }
    {
        match Grid::of(o, x) {
            Ok(grid) => grid,
            Err(_) => unreachable!(),
        }
    }

    /// The number of columns, which is that of rows.
    #[inline]
    pub fn size(&self) -> u8
        ensures size { result ≡ size self.now }
        ensures grid { IsGrid self.now }
    {
        self.o.size()
    }

    /// The row of the O of column `c`.
    #[inline]
    pub fn o(&self, c: u8) -> u8
        requires { c < size self.now }
        ensures row { result ≡ slice_index self.now.o c }
        ensures below { result < size self.now }
    {
        self.o.row(c)
    }

    /// The row of the X of column `c`.
    #[inline]
    pub fn x(&self, c: u8) -> u8
        requires { c < size self.now }
        ensures row { result ≡ slice_index self.now.x c }
        ensures below { result < size self.now }
    {
        self.x.row(c)
    }

    /// The rows of the O, from column 0 on.
    #[inline]
    pub fn o_rows(&self) -> &[u8]
        ensures rows { result.now ≡ self.now.o }
        ensures grid { IsGrid self.now }
    {
        self.o.rows()
    }

    /// The rows of the X, from column 0 on.
    #[inline]
    pub fn x_rows(&self) -> &[u8]
        ensures rows { result.now ≡ self.now.x }
        ensures grid { IsGrid self.now }
    {
        self.x.rows()
    }

    /// The rows of the O, as a state.
    pub fn o_state(&self) -> State
        ensures rows { result ≡ self.now.o }
        ensures grid { IsGrid self.now }
    {
        self.o
    }

    /// The rows of the X, as a state.
    pub fn x_state(&self) -> State
        ensures rows { result ≡ self.now.x }
        ensures grid { IsGrid self.now }
    {
        self.x
    }

    /// The column of the O in row `r`.
    pub fn o_column(&self, r: u8) -> u8
        requires { r < size self.now }
        ensures column { result ≡ o_column self.now r }
        ensures marked { slice_index self.now.o result ≡ r }
        ensures below { result < size self.now }
    {
        column_of(self.o.rows(), r)
    }

    /// The column of the X in row `r`.
    pub fn x_column(&self, r: u8) -> u8
        requires { r < size self.now }
        ensures column { result ≡ x_column self.now r }
        ensures marked { slice_index self.now.x result ≡ r }
        ensures below { result < size self.now }
    {
        column_of(self.x.rows(), r)
    }

    /// The number of components of the link of the grid.
    ///
    /// They are the cycles of the walk from a column to the row of its X, and from there to the column
    /// whose O is in that row (the same book, chapters 3 and 11).
    #[inline]
    pub fn components(&self) -> u8
        ensures number { result ≡ components self.now }

        // What is counted is one column of each cycle.
        ensures cycles { HasOneOfEachCycle self.now (is_first self.now) }
    {
        self.components
    }

    /// The transposed grid: columns and rows change places, so that the O of column r is in the row that
    /// was the column of the O of row r, and so the X.
    pub fn transpose(&self) -> Grid
        ensures { result ≡ transposed self.now }
    {
        Grid::from_states(self.o.transpose(), self.x.transpose())
    }
}

// The number of columns that are the first of their cycle.
#[tactic(auto, using(crate::proofs::Cycles::WalkLemmas::firsts_below_more), unfolding(crate::specs::Components::components))]
fn components(o: &[u8], x: &[u8]) -> u8
    requires { IsGrid (record { o = o.now; x = x.now }) }
    ensures { result ≡ components (record { o = o.now; x = x.now }) }
{
    let mut count = 0;
    for c in 0..o.len() as u8 {
        if is_first(o, x, c) {
            count += 1;
        }
    }
    count
}

// Whether no column of the cycle of `c` is left of `c`.
fn is_first(o: &[u8], x: &[u8], c: u8) -> bool
    requires grid { IsGrid (record { o = o.now; x = x.now }) }
    requires column { c < length o.now }
    ensures { result ≡ is_first (record { o = o.now; x = x.now }) c }
{
    let mut on = c;
    for _ in 0..o.len() {
        if on < c {
            return false;
        }
        on = column_of(o, x[usize::from(on)]);
    }
    true
}

// Whether the two lists agree at some place.
fn shares_square(o: &[u8], x: &[u8]) -> bool
    requires { length o.now ≡ length x.now }
    ensures { IsTrue result ↔ SharesSquare (record { o = o.now; x = x.now }) }
{
    for (c, row) in o.iter().enumerate() {
        if *row == x[c] {
            return true;
        }
    }
    false
}

// The last column with this row, or 0 if there is none.
fn column_of(rows: &[u8], r: u8) -> u8
    requires { length rows.now ≤ MAX_SIZE }
    ensures column { result ≡ column_of_row (length rows.now) (slice_index rows.now) r }
    ensures below { 0 < length rows.now → result < length rows.now }
{
    let mut column = 0;
    for (c, row) in rows.iter().enumerate() {
        if *row == r {
            column = c as u8;
        }
    }
    column
}
