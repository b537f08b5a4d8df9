//! The tables of the grid in force, each of which is made once.
ghost use Rattle.std.specs.Prelude.{IfOk, IfSome, IsSome, OnOk};
ghost use Rattle.grid_text.specs.Commands.{grid_after};
ghost use Rattle.torus_geom.specs.Marks.{Marks};
ghost use Rattle.grid_job.specs.Inner.Tables.{IsTableOf, IsComponentTableOf, AreTablesOf};

use grid_ports::NoMemory;
use grid_text::Command;
use hat_division::{MultiTable, Table};
use homology_cert::{rank_table, rank_table_multi};
use std::alloc::Global;
use torus_geom::Grid;

/// The table of the grid in force, and its table by component, if they were made.
#[derive(Drop)]
pub(crate) struct Tables {
    pub(crate) whole: Option<Table>,
    pub(crate) by_component: Option<MultiTable>,
}

impl Tables {
    /// None was made.
    pub(crate) fn none() -> Tables
        ensures { (g : Marks) → AreTablesOf g result }
    {
        Tables {
            whole: None,
            by_component: None,
        }
    }
}

/// Makes the table of the grid, if there is none yet.
pub(crate) fn make_table(alloc: Global, g: &Grid, table: &mut Option<Table>) -> Result<(), NoMemory>
    requires { IfSome table.old (IsTableOf g.now) }
    ensures made { OnOk result (IsSome table.new) }
    ensures table { IfSome table.new (IsTableOf g.now) }
{
    if table.is_none() {
        *table = Some(table_of(alloc, g)?);
    }
    Ok(())
}

/// The table of the grid.
pub(crate) fn table_of(alloc: Global, g: &Grid) -> Result<Table, NoMemory>
    ensures { IfOk result (IsTableOf g.now) }
{
    rank_table(alloc, g)
}

/// Makes the table of the grid by component, if there is none yet.
pub(crate) fn make_component_table(
    alloc: Global,
    g: &Grid,
    table: &mut Option<MultiTable>,
) -> Result<(), NoMemory>
    requires { IfSome table.old (IsComponentTableOf g.now) }
    ensures made { OnOk result (IsSome table.new) }
    ensures table { IfSome table.new (IsComponentTableOf g.now) }
{
    if table.is_none() {
        *table = Some(component_table_of(alloc, g)?);
    }
    Ok(())
}

// The table of the grid by component.
fn component_table_of(alloc: Global, g: &Grid) -> Result<MultiTable, NoMemory>
    ensures { IfOk result (IsComponentTableOf g.now) }
{
    rank_table_multi(alloc, g)
}

/// Drops the tables if the command has moved their grid.
pub(crate) fn forget_if_moved(tables: &mut Tables, command: &Command)
    ensures { (g : Marks) → AreTablesOf g tables.old
        → AreTablesOf (grid_after g command.now) tables.new }
{
    if let Command::Turn(_)
    | Command::Commute(_, _, _)
    | Command::Stab(_, _)
    | Command::Destab(_, _, _)
    | Command::Symm(_) = command
    {
        *tables = Tables::none();
    }
}
