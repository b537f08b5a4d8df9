//! Tables of ranks by the Maslov degree and a degree for each component.
ghost use Rattle.std.specs.Prelude.{◌≡◌, ◌^◌, ◌<◌, ℕ, ℤ, List, length, map, IfOk, OnOk};
ghost use Rattle.std.specs.List.{All};
ghost use Rattle.torus_geom.specs.Components.{components};
ghost use Rattle.torus_geom.specs.Homology.{IsHomologyRank};
ghost use Rattle.homology_cert.specs.ComponentHomology.{ComponentRow, IsComponentRank, IsComponentTable, added_rank};
ghost use Rattle.homology_cert.specs.ComponentRows.{component_row, HasSmallComponentRank};
ghost use Rattle.homology_cert.specs.Inner.CodeComponents.{IsComponentTable as IsCodeTable};
ghost use Rattle.homology_cert.specs.Inner.Left.{IsCell, AreCounted};
ghost use Rattle.hat_division.specs.MultiTable.{component_rank_at, ArePositive, HasLength, IsSmallByComponent};

use crate::degrees::alexander_degrees;
use crate::left_cells::cells_left;
use grid_ports::NoMemory;
use hat_division::{MultiRow, MultiTable, count_cell};
use multi_degree::component_degrees;
use sparse_complex::Cell;
use state_rank::State;
use std::alloc::Global;
use torus_geom::Grid;

/// The table of the grid by component: each Maslov degree with degrees at all components in which its homology has a
/// rank above 0, with this rank.
///
/// The homology is that of the fully blocked grid complex over F2, as for the table by Alexander degree, and each
/// degree of that table is taken apart here: the degrees at the components add up to twice the Alexander degree. A
/// state takes part by itself, and the time grows with their number, n!.
///
/// # Errors
///
/// `NoMemory` if the allocator refuses.
pub fn rank_table_multi(alloc: Global, g: &Grid) -> Result<MultiTable, NoMemory>
    ensures table { IfOk result (λ t. IsComponentTable g.now (map component_row t)) }
    ensures lengths { IfOk result (λ t. All (HasLength (components g.now)) t) }
    ensures degrees { IfOk result (λ t. All IsSmallByComponent t) }
    ensures ranks { IfOk result (λ t. All HasSmallComponentRank t) }

    // Whatever the call answers: in all degrees some number is the rank, and at most one is.
    ensures some_rank { (m : ℤ) (ds : List ℤ) → (d : ℕ) × IsComponentRank g.now m ds d }
    ensures one_rank { (m : ℤ) (ds : List ℤ) (d e : ℕ)
        → IsComponentRank g.now m ds d → IsComponentRank g.now m ds e → d ≡ e }

    // A grid has one table.
    ensures some_table { (rows : List ComponentRow) × IsComponentTable g.now rows }
    ensures one_table { (s t : List ComponentRow) → IsComponentTable g.now s → IsComponentTable g.now t → s ≡ t }

    // Its rows, added up by what their degrees add up to, are the ranks by Alexander degree.
    ensures sums { (rows : List ComponentRow) → IsComponentTable g.now rows → (m a : ℤ)
        → IsHomologyRank g.now m a (added_rank rows m a) }
{
    let _size = g.size();
    table_of(alloc, g)
}

// The table of the grid.
fn table_of(alloc: Global, g: &Grid) -> Result<MultiTable, NoMemory>
    ensures table { IfOk result (λ t. IsCodeTable g.now (map component_row t)) }
    ensures lengths { IfOk result (λ t. All (HasLength (components g.now)) t) }
    ensures degrees { IfOk result (λ t. All IsSmallByComponent t) }
    ensures ranks { IfOk result (λ t. All HasSmallComponentRank t) }
{
    let _size = g.size();
    let degrees = alexander_degrees(alloc, g)?;
    let mut rows = Vec::new(alloc);
    for a in degrees.iter() {
        let cells = cells_left(alloc, g, *a)?;
        count_states(g, &cells, &mut rows)?;
    }
    Ok(MultiTable::of(rows).unwrap())
}

// Counts cells by the degrees of their states, one after another.
fn count_states(g: &Grid, cells: &[Cell], rows: &mut Vec<MultiRow>) -> Result<(), NoMemory>
    requires states { All (IsCell g.now) cells.now }
    requires few { length cells.now < 2 ^ 32 }
    requires positive { ArePositive rows.old.items }
    requires small { (k : ℤ × List ℤ) → component_rank_at rows.old.items k < 2 ^ 32 }
    ensures { OnOk result (AreCounted g.now cells.now rows.old.items rows.new.items) }
{
    for cell in cells {
        let x = State::unrank(g.size(), cell.code);
        count_cell(rows, cell.maslov, component_degrees(g, &x))?;
    }
    Ok(())
}
