//! Tables and hats by the degrees at the components of a link.
ghost use Rattle.std.specs.Prelude.{◌≡◌, IfOk, IfSome};
ghost use Rattle.multi_degree.specs.ComponentDegrees.{component_exponents as component_exponents_of};
ghost use Rattle.grid_job.specs.Hat.{IsComponentHatText};
ghost use Rattle.grid_job.specs.Report.{IsComponentTableText};
ghost use Rattle.grid_job.specs.Inner.Tables.{IsComponentTableOf};

use crate::tables::make_component_table;
use grid_ports::NoMemory;
use hat_division::{MultiTable, divide_multi};
use multi_degree::component_exponents;
use report_text::{multi_hat_lines, multi_lines};
use std::alloc::Global;
use torus_geom::Grid;

/// The lines of the table by component.
pub(crate) fn component_table_lines(
    alloc: Global,
    g: &Grid,
    table: &mut Option<MultiTable>,
) -> Result<Vec<u8>, NoMemory>
    requires { IfSome table.old (IsComponentTableOf g.now) }
    ensures lines { IfOk result (λ text. IsComponentTableText g.now text.items) }
    ensures table { IfSome table.new (IsComponentTableOf g.now) }
{
    make_component_table(alloc, g, table)?;
    match table {
        Some(known) => multi_lines(alloc, known),
        None => unreachable!(),
    }
}

/// The lines of the hat by component.
pub(crate) fn component_hat_lines(
    alloc: Global,
    g: &Grid,
    table: &mut Option<MultiTable>,
) -> Result<Vec<u8>, NoMemory>
    requires { IfSome table.old (IsComponentTableOf g.now) }
    ensures lines { IfOk result (λ text. IsComponentHatText g.now text.items) }
    ensures table { IfSome table.new (IsComponentTableOf g.now) }
{
    make_component_table(alloc, g, table)?;
    match table {
        Some(known) => component_hat_text(alloc, g, known),
        None => unreachable!(),
    }
}

// The lines of the hat by component of the grid with this table by component.
fn component_hat_text(alloc: Global, g: &Grid, table: &MultiTable) -> Result<Vec<u8>, NoMemory>
    requires { IsComponentTableOf g.now table.now }
    ensures { IfOk result (λ text. IsComponentHatText g.now text.items) }
{
    let exponents = exponents_of(alloc, g)?;
    let hat = divide_multi(alloc, table, &exponents)?;
    multi_hat_lines(alloc, &exponents, hat.as_ref())
}

// The number of columns of each component of the link of the grid, less one.
fn exponents_of(alloc: Global, g: &Grid) -> Result<Vec<u8>, NoMemory>
    ensures { IfOk result (λ exponents. exponents.items ≡ component_exponents_of g.now) }
{
    let mut exponents = Vec::new(alloc);
    for i in 0..g.components() {
        exponents.push(component_exponents(g, i + 1))?;
    }
    Ok(exponents)
}
