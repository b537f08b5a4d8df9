//! Tables of ranks.
ghost use Rattle.std.specs.Prelude.{◌≡◌, ◌↔◌, ◌<◌, ◌^◌, ℕ, ℤ, List, map, All, IfOk};
ghost use Rattle.torus_geom.specs.Homology.{Row, IsHomologyRank, IsHomologyTable};
ghost use Rattle.torus_geom.specs.Inner.CodeHomology.{IsHomologyTable as IsCodeTable};
ghost use Rattle.rectangles.specs.Coranks.{IsCorank, IsCorankTable};
ghost use Rattle.hat_division.specs.Table.{homology_row};
ghost use Rattle.homology_cert.specs.Tables.{HasSmallDegrees, HasSmallRank};

use crate::degrees::alexander_degrees;
use crate::left_cells::cells_left;
use crate::ranks::count_cells;
use grid_ports::NoMemory;
use hat_division::{Ranks, Table, rows_of};
use std::alloc::Global;
use torus_geom::Grid;

/// The table of the grid: each bidegree in which its homology has a rank above 0, with this rank.
///
/// The homology is that of the fully blocked grid complex over F2: cycles modulo boundaries, of all
/// states of the grid and all empty unmarked rectangles (Ozsváth, Stipsicz and Szabó, "Grid Homology for
/// Knots and Links", chapter 4). It is not an invariant of the link: for a knot and size n it is that
/// of the hat version, tensored n - 1 times with a space of dimension two. A state takes part by itself,
/// and the time grows with their number, n!.
///
/// # Errors
///
/// `NoMemory` if the allocator refuses.
pub fn rank_table(alloc: Global, g: &Grid) -> Result<Table, NoMemory>
    ensures table { IfOk result (λ t. IsHomologyTable g.now (map homology_row t)) }
    ensures degrees { IfOk result (λ t. All HasSmallDegrees t) }
    ensures ranks { IfOk result (λ t. All HasSmallRank t) }

    // Whatever the call answers: in each bidegree some number is the rank, and at most one is.
    ensures some_rank { (m a : ℤ) → (d : ℕ) × IsHomologyRank g.now m a d }
    ensures one_rank { (m a : ℤ) (d e : ℕ)
        → IsHomologyRank g.now m a d → IsHomologyRank g.now m a e → d ≡ e }

    // A grid has at most one table.
    ensures one_table { (s t : List Row) → IsHomologyTable g.now s → IsHomologyTable g.now t → s ≡ t }
{
    let _size = g.size();
    table_of(alloc, g)
}

/// The table of the coranks of the grid: each bidegree in which its cohomology has a rank above 0, with this rank.
///
/// A cochain is a finite set of states, and its coborder has the states whose border pairs oddly with it. No
/// coborder is made: the corank is the rank (`rectangles::laws::coranks`), so the table is that of the ranks.
///
/// # Errors
///
/// `NoMemory` if the allocator refuses.
pub fn corank_table(alloc: Global, g: &Grid) -> Result<Table, NoMemory>
    ensures table { IfOk result (λ t. IsCorankTable g.now (map homology_row t)) }
    ensures degrees { IfOk result (λ t. All HasSmallDegrees t) }
    ensures ranks { IfOk result (λ t. All HasSmallRank t) }

    // Whatever the call answers: in each bidegree the corank is the rank.
    ensures coranks { (m a : ℤ) (d : ℕ) → IsCorank g.now m a d ↔ IsHomologyRank g.now m a d }
{
    let _size = g.size();
    rank_table(alloc, g)
}

// The table of the grid.
fn table_of(alloc: Global, g: &Grid) -> Result<Table, NoMemory>
    ensures table { IfOk result (λ t. IsCodeTable g.now (map homology_row t)) }
    ensures degrees { IfOk result (λ t. All HasSmallDegrees t) }
    ensures ranks { IfOk result (λ t. All HasSmallRank t) }
{
    let degrees = alexander_degrees(alloc, g)?;
    let mut ranks = Ranks::new(alloc);
    for a in degrees.iter() {
        let cells = cells_left(alloc, g, *a)?;
        count_cells(*a, &cells, &mut ranks)?;
    }
    let rows = rows_of(alloc, &ranks)?;
    Ok(Table::of(rows).unwrap())
}
