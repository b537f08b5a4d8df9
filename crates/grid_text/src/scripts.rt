//! Scripts: a version, a grid and the commands that are carried out on it.
ghost use Rattle.std.specs.Prelude.{◌≡◌, ◌<◌, [], length, OnOk, OnErr};
ghost use Rattle.torus_geom.specs.Marks.{IsGrid};
ghost use Rattle.grid_text.specs.Limits.{max_commands};
ghost use Rattle.grid_text.specs.Commands.{IsAllowed, grid_after as grid_after_command};
ghost use Rattle.grid_text.specs.Script.{GridScript, IsVersion, IsScript, grid_in_force, with_command};

use crate::commands::Command;
use grid_moves::{swap, turn};
use grid_ports::NoMemory;
use grid_symmetry::apply;
use stabilise::{destabilise, stabilise};
use std::alloc::Global;
use std::marker::Model;
use torus_geom::Grid;

/// A version, 1 or 2, a grid and at most `MAX_COMMANDS` commands, each of which may stand where it does.
///
/// A command may stand if its states have the size of the grid in force there, which is the grid after the moves
/// before it, and if its columns or rows commute in that grid, it has room for one column more, or it has the block.
#[derive(Drop)]
pub struct Script {
    version: u8,
    grid: Grid,
    commands: Vec<Command>,
    in_force: Grid,
}

impl Model for Script {
    ghost use Rattle.std.specs.Prelude.{◌≡◌};
    ghost use Rattle.grid_text.specs.Script.{GridScript};

    ghost Value = { GridScript };

    ghost use Rattle.grid_text.specs.Inner.Stored.{script, IsStored};

    ghost view = { script };

    ghost invariant = { IsStored };
}

impl Script {
    /// The script of version 1 of this grid with no command. It asks for no memory.
    pub fn new(alloc: Global, g: &Grid) -> Script
        ensures script { result ≡ record { version = 1; grid = g.now; commands = [] } }
        ensures is_script { IsScript result }
    {
        Script::of_version(alloc, 1, g)
    }

    /// The script of version 2 of this grid with no command. It asks for no memory.
    pub fn new_two(alloc: Global, g: &Grid) -> Script
        ensures script { result ≡ record { version = 2; grid = g.now; commands = [] } }
        ensures is_script { IsScript result }
    {
        Script::of_version(alloc, 2, g)
    }

    // The script of this version and this grid with no command.
    pub(crate) fn of_version(alloc: Global, version: u8, g: &Grid) -> Script
        requires { IsVersion version }
        ensures script { result ≡ record { version = version; grid = g.now; commands = [] } }
        ensures is_script { IsScript result }
    {
        let _size = g.size();
        Script {
            version,
            grid: *g,
            commands: Vec::new(alloc),
            in_force: *g,
        }
    }

    /// Appends a command.
    pub fn push(&mut self, c: Command) -> Result<(), NoMemory>
        requires few { length self.old.commands < max_commands }
        requires allowed { IsAllowed (grid_in_force self.old) c }
        ensures ok { OnOk result (self.new ≡ with_command self.old c) }
        ensures err { OnErr result (self.new ≡ self.old) }
    {
        let in_force = grid_after(&self.in_force, &c);
        self.commands.push(c)?;
        self.in_force = in_force;
        Ok(())
    }

    /// The version.
    pub fn version(&self) -> u8
        ensures version { result ≡ self.now.version }
        ensures script { IsScript self.now }
    {
        self.version
    }

    /// The grid before the first command.
    pub fn grid(&self) -> &Grid
        ensures grid { result.now ≡ self.now.grid }
        ensures script { IsScript self.now }
    {
        &self.grid
    }

    /// The commands, in order.
    pub fn commands(&self) -> &[Command]
        ensures commands { result.now ≡ self.now.commands }
        ensures script { IsScript self.now }
    {
        &self.commands
    }

    /// The grid in force after the commands.
    pub fn in_force(&self) -> &Grid
        ensures grid { result.now ≡ grid_in_force self.now }
        ensures script { IsScript self.now }
    {
        &self.in_force
    }
}

// The grid in force after a command.
fn grid_after(g: &Grid, command: &Command) -> Grid
    requires { IsAllowed g.now command.now }
    ensures { result ≡ grid_after_command g.now command.now }
{
    match command {
        Command::Turn(side) => turn(g, *side),
        Command::Commute(axis, c, _) => swap(g, *axis, *c),
        Command::Stab(c, empty) => stabilise(g, *c, *empty),
        Command::Destab(c, r, empty) => destabilise(g, *c, *r, *empty),
        Command::Symm(s) => apply(g, *s),
        _ => *g,
    }
}
