//! The Euler numbers of grids.
ghost use Rattle.std.specs.Prelude.{IfOk};
ghost use Rattle.grid_job.specs.Report.{IsEulerText};
ghost use Rattle.grid_job.specs.Inner.Tables.{IsTableOf};

use grid_euler::euler_of_table;
use grid_ports::NoMemory;
use hat_division::Table;
use report_text::euler_lines;
use std::alloc::Global;
use torus_geom::Grid;

/// The lines of the Euler numbers of the grid with this table.
pub(crate) fn euler_text(alloc: Global, g: &Grid, table: &Table) -> Result<Vec<u8>, NoMemory>
    requires { IsTableOf g.now table.now }
    ensures { IfOk result (λ text. IsEulerText g.now text.items) }
{
    let _ = g.size();
    let numbers = euler_of_table(alloc, table)?;
    euler_lines(alloc, &numbers)
}
