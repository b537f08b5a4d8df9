//! The writer of reports, one command at a time.
ghost use Rattle.std.specs.Prelude.{◌≡◌, ◌↔◌, ℕ, List, length, IfOk, OnOk, IsErrOf, IfSome, IsTrue, All, codes};
ghost use Rattle.std.specs.Io.KnownBytes.{Appends};
ghost use Rattle.grid_ports.specs.Bytes.{AppendsPrefix};
ghost use Rattle.grid_ports.specs.Faults.{count_up};
ghost use Rattle.text_lines.specs.Lines.{line, chain_line};
ghost use Rattle.torus_geom.specs.Border.{border as border_of};
ghost use Rattle.torus_geom.specs.Chains.{single};
ghost use Rattle.legendrian_class.specs.FollowedCodes.{followed_of};
ghost use Rattle.torus_geom.specs.Marks.{size};
ghost use Rattle.grid_text.specs.Commands.{IsAllowed};
ghost use Rattle.grid_text.specs.Script.{AreAllowed, IsVersion};
ghost use Rattle.grid_job.specs.InForce.{at_start};
ghost use Rattle.grid_job.specs.Hat.{IsHatText};
ghost use Rattle.grid_job.specs.Inner.Tables.{IsTableOf, AreTablesOf};
ghost use Rattle.grid_job.specs.Report.{IsAnswer, AreAnswers, IsRanksText, IsHatTextIn, IsCorankText, IsTableText, IsEulerText};

use crate::classes::{bounds_lines, class_lines};
use crate::components::{component_hat_lines, component_table_lines};
use crate::euler_numbers::euler_text;
use crate::hats::hat_text;
use crate::in_force::follow;
use crate::inversions::invert_lines;
use crate::tables::{Tables, forget_if_moved, make_table};
use front_data::front;
use grid_ports::{NoMemory, Sink, WriteFault, write_all};
use grid_text::Command;
use hat_division::Table;
use homology_cert::corank_table;
use legendrian_class::Follower;
use rectangles::border_of_state;
use report_text::{corank_lines, front_line, set_line, table_lines};
use state_rank::State;
use std::alloc::Global;
use torus_geom::Grid;

/// Why a report was not written to its end.
#[derive(Clone, Copy, PartialEq, Eq, Debug)]
pub enum ReportEnd {
    /// A write failed.
    WriteFault,
    /// The allocator refused.
    NoMemory,
}

impl From<WriteFault> for ReportEnd {
    ghost use Rattle.grid_job.specs.declared.reports.ReportEnd.TheVariants.{WriteFault};

    ghost from_gives = { λ _ e. e ≡ WriteFault };

    fn from(_: WriteFault) -> Self {
        ReportEnd::WriteFault
    }
}

impl From<NoMemory> for ReportEnd {
    ghost use Rattle.grid_job.specs.declared.reports.ReportEnd.TheVariants.{NoMemory};

    ghost from_gives = { λ _ e. e ≡ NoMemory };

    fn from(_: NoMemory) -> Self {
        ReportEnd::NoMemory
    }
}

/// Writes a report of the commands on the grid, in this version. If it ends early, a prefix of a report is written.
pub fn write_report<K: Sink>(
    alloc: Global,
    version: u8,
    g: &Grid,
    commands: &[Command],
    out: &mut K,
) -> Result<(), ReportEnd>
    requires version { IsVersion version }
    requires allowed { AreAllowed g.now commands.now }
    ensures report { OnOk result ((text : List ℕ) × AreAnswers version (at_start g.now) commands.now text
        × Appends (K.written out.old) (K.written out.new) text) }
    ensures part { (text : List ℕ) × AreAnswers version (at_start g.now) commands.now text
        × AppendsPrefix (K.written out.old) (K.written out.new) text }
    ensures fault { IsErrOf result ReportEnd.WriteFault
        → K.faults out.new ≡ count_up (K.faults out.old) }
    ensures no_fault { OnOk result (K.faults out.new ≡ K.faults out.old) }
    ensures no_memory { IsErrOf result ReportEnd.NoMemory → K.faults out.new ≡ K.faults out.old }
{
    let _ = g.size();
    let mut in_force = Follower::new(alloc, g);
    let mut tables = Tables::none();
    for command in commands {
        let text = answer_to(alloc, version, &in_force, &mut tables, command)?;
        write_all(out, &text)?;
        follow(alloc, &mut in_force, command)?;
        forget_if_moved(&mut tables, command);
    }
    Ok(())
}

// An answer to a command. A table that is made for it is kept in `tables`.
fn answer_to(
    alloc: Global,
    version: u8,
    p: &Follower,
    tables: &mut Tables,
    command: &Command,
) -> Result<Vec<u8>, NoMemory>
    requires version { IsVersion version }
    requires allowed { IsAllowed p.now.grid command.now }
    requires tables { AreTablesOf p.now.grid tables.old }
    ensures answer { IfOk result (λ text. IsAnswer version (followed_of p.now) command.now text.items) }
    ensures tables { AreTablesOf p.now.grid tables.new }
{
    let g = p.grid();
    match command {
        Command::Front => front_line(alloc, &front(g)),
        Command::Ranks => ranks_lines(alloc, version, g, tables),
        Command::Hat => hat_of(alloc, version, g, tables),
        Command::Border(state) => border_line(alloc, g, state),
        Command::Class(sign) => class_lines(alloc, g, *sign),
        Command::Show => set_line(alloc, "chain", g.size(), p.chain()),
        Command::Bounds => bounds_lines(alloc, g, p.chain()),
        Command::Invert(axis, c, corner) => invert_lines(alloc, g, *axis, *c, *corner, p.chain()),
        Command::Chain(_)
        | Command::Turn(_)
        | Command::Commute(_, _, _)
        | Command::Stab(_, _)
        | Command::Destab(_, _, _)
        | Command::Symm(_) => Ok(Vec::new(alloc)),
        Command::Coranks => coranks_lines(alloc, g),
        Command::Euler => euler_of(alloc, g, &mut tables.whole),
    }
}

// The lines of the table of ranks in this version.
fn ranks_lines(
    alloc: Global,
    version: u8,
    g: &Grid,
    tables: &mut Tables,
) -> Result<Vec<u8>, NoMemory>
    requires version { IsVersion version }
    requires tables { AreTablesOf g.now tables.old }
    ensures lines { IfOk result (λ text. IsRanksText version g.now text.items) }
    ensures tables { AreTablesOf g.now tables.new }
{
    if version == 2 {
        component_table_lines(alloc, g, &mut tables.by_component)
    } else {
        whole_table_lines(alloc, g, &mut tables.whole)
    }
}

// The lines of the table of ranks by Alexander degree.
fn whole_table_lines(
    alloc: Global,
    g: &Grid,
    table: &mut Option<Table>,
) -> Result<Vec<u8>, NoMemory>
    requires { IfSome table.old (IsTableOf g.now) }
    ensures lines { IfOk result (λ text. IsTableText g.now text.items) }
    ensures table { IfSome table.new (IsTableOf g.now) }
{
    make_table(alloc, g, table)?;
    match table {
        Some(known) => table_lines(alloc, known),
        None => unreachable!(),
    }
}

// The lines of the table of coranks.
fn coranks_lines(alloc: Global, g: &Grid) -> Result<Vec<u8>, NoMemory>
    ensures { IfOk result (λ text. IsCorankText g.now text.items) }
{
    let table = corank_table(alloc, g)?;
    corank_lines(alloc, &table)
}

// The lines of the hat in this version.
fn hat_of(alloc: Global, version: u8, g: &Grid, tables: &mut Tables) -> Result<Vec<u8>, NoMemory>
    requires version { IsVersion version }
    requires tables { AreTablesOf g.now tables.old }
    ensures lines { IfOk result (λ text. IsHatTextIn version g.now text.items) }
    ensures tables { AreTablesOf g.now tables.new }
{
    if version == 2 {
        component_hat_lines(alloc, g, &mut tables.by_component)
    } else {
        whole_hat_lines(alloc, g, &mut tables.whole)
    }
}

// The lines of the hat by Alexander degree.
fn whole_hat_lines(alloc: Global, g: &Grid, table: &mut Option<Table>) -> Result<Vec<u8>, NoMemory>
    requires { IfSome table.old (IsTableOf g.now) }
    ensures lines { IfOk result (λ text. IsHatText g.now text.items) }
    ensures table { IfSome table.new (IsTableOf g.now) }
{
    make_table(alloc, g, table)?;
    match table {
        Some(known) => hat_text(alloc, g, known),
        None => unreachable!(),
    }
}

// The lines of the Euler numbers.
fn euler_of(alloc: Global, g: &Grid, table: &mut Option<Table>) -> Result<Vec<u8>, NoMemory>
    requires { IfSome table.old (IsTableOf g.now) }
    ensures lines { IfOk result (λ text. IsEulerText g.now text.items) }
    ensures table { IfSome table.new (IsTableOf g.now) }
{
    make_table(alloc, g, table)?;
    match table {
        Some(known) => euler_text(alloc, g, known),
        None => unreachable!(),
    }
}

// The line of the states of the border of a state.
fn border_line(alloc: Global, g: &Grid, x: &State) -> Result<Vec<u8>, NoMemory>
    requires { length x.now ≡ size g.now }
    ensures { IfOk result (λ text.
        text.items ≡ line (chain_line (codes "border") (size g.now) (border_of g.now (single x.now)))) }
{
    let border = border_of_state(alloc, g, x)?;
    set_line(alloc, "border", g.size(), &border)
}
