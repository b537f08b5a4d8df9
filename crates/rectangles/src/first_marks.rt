//! How far up the first marks of a grid are.

ghost use Rattle.std.specs.Prelude.{◌≡◌, ◌<◌, ℕ, List, [], slice_index, slice_index_or};
ghost use Rattle.torus_geom.specs.Marks.{IsGrid, size};
ghost use Rattle.rectangles.specs.FirstMarks.{first_mark_height};

use state_rank::ROOM;
use std::marker::Model;
use torus_geom::{Grid, offset};

/// How far up the first mark of each column is from each row of a grid.
///
/// Contracts see the grid. The numbers are in a table that is made once for a grid and stays inline.
#[derive(Drop)]
pub struct FirstMarks {
    grid: Grid,
    // by rows, and in each row by columns
    heights: [[u8; ROOM]; ROOM],
}

impl Model for FirstMarks {
    ghost use Rattle.torus_geom.specs.Marks.{Marks};
    ghost use Rattle.rectangles.specs.Inner.Heights.{IsFirstMarks};

    ghost Value = { Marks };

    ghost view = { λ t. t.grid };

    ghost invariant = { IsFirstMarks };
}

impl FirstMarks {
    /// The first marks of the grid.
    pub fn of(g: &Grid) -> FirstMarks
        ensures { result ≡ g.now }
    {
        FirstMarks {
            grid: *g,
            heights: height_table(g),
        }
    }

    /// The size of the grid.
    #[inline]
    pub fn size(&self) -> u8
        ensures size { result ≡ size self.now }
        ensures grid { IsGrid self.now }
    {
        self.grid.size()
    }

    /// How many steps up it is from row `row` to the first mark of column `c`, its O or its X.
    #[inline]
    pub fn height(&self, row: u8, c: u8) -> u8
        requires row { row < size self.now }
        requires column { c < size self.now }
        ensures { result ≡ first_mark_height self.now row c }
    {
        self.heights[row as usize][c as usize]
    }
}

// How far up the first mark of each column is from each row.
fn height_table(g: &Grid) -> [[u8; ROOM]; ROOM]
    ensures heights { (r c : ℕ) → r < size g.now → c < size g.now
        → slice_index (slice_index_or result r []) c ≡ first_mark_height g.now r c }
    ensures grid { IsGrid g.now }
{
    let mut table = [[0; ROOM]; ROOM];
    for row in 0..g.size() {
        table[row as usize] = heights_from(g, row);
    }
    table
}

// How far up the first mark of each column is from the row `row`.
fn heights_from(g: &Grid, row: u8) -> [u8; ROOM]
    requires { row < size g.now }
    ensures { (c : ℕ) → c < size g.now → slice_index result c ≡ first_mark_height g.now row c }
{
    let n = g.size();
    let mut heights = [0; ROOM];
    for c in 0..n {
        heights[c as usize] = offset(n, row, g.o(c)).min(offset(n, row, g.x(c)));
    }
    heights
}
