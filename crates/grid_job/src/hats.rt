//! The hats of grids.
ghost use Rattle.std.specs.Prelude.{IfOk};
ghost use Rattle.grid_job.specs.Hat.{HasHat, IsHatText};
ghost use Rattle.grid_job.specs.Inner.Tables.{IsTableOf};

use grid_ports::NoMemory;
use hat_division::{Table, divide};
use report_text::hat_lines;
use std::alloc::Global;
use torus_geom::Grid;

/// The hat of the grid with this table, if it has one.
pub(crate) fn find_hat(alloc: Global, g: &Grid, table: &Table) -> Result<Option<Table>, NoMemory>
    requires { IsTableOf g.now table.now }
    ensures { IfOk result (HasHat g.now) }
{
    let exponent = g.size() - g.components();
    divide(alloc, table, exponent)
}

/// The lines of the hat of the grid with this table.
pub(crate) fn hat_text(alloc: Global, g: &Grid, table: &Table) -> Result<Vec<u8>, NoMemory>
    requires { IsTableOf g.now table.now }
    ensures { IfOk result (λ text. IsHatText g.now text.items) }
{
    let exponent = g.size() - g.components();
    let hat = divide(alloc, table, exponent)?;
    hat_lines(alloc, exponent, hat.as_ref())
}
