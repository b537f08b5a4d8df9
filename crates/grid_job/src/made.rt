//! What `make` writes.
ghost use Rattle.std.specs.Prelude.{◌≡◌, ◌≢◌, ◌^◌, ◌<◌, IfOk};
ghost use Rattle.state_rank.specs.Bijection.{IsSize};
ghost use Rattle.grid_job.specs.Inner.Written.{HasWritten};
ghost use Rattle.grid_job.specs.Made.{HasClassVerdict, summary_line as summary_line_of, IsSummary, IsMade};

use crate::classes::class_state;
use crate::make_script;
use crate::statuses::Status;
use f2_chain::CodeSet;
use front_data::{FrontNumbers, front};
use grid_ports::{NoMemory, Sink, write_all};
use grid_text::{Sign, print};
use homology_cert::rank_table;
use legendrian_class::{ClassVerdict, verdict};
use report_text::verdict_word;
use std::alloc::Global;
use text_lines::push_number;
use torus_geom::Grid;

/// Writes the script of this size and seed, and the summary of its grid.
pub(crate) fn make<K: Sink>(alloc: Global, n: u8, seed: u32, out: &mut K) -> Status
    requires size { IsSize n }
    requires seed { seed < 2 ^ 31 }
    ensures written { HasWritten (λ status answer. (status ≡ Status.Done) × IsMade n seed answer)
        result (K.faults out.old) (K.faults out.new) (K.written out.old) (K.written out.new) }
    ensures not_usage { result ≢ Status.Usage }
    ensures not_no { result ≢ Status.No }
    ensures not_refused { result ≢ Status.Refused }
    ensures not_read_fault { result ≢ Status.ReadFault }
    ensures memory { result ≡ Status.NoMemory → out.new ≡ out.old }
{
    let Ok(text) = made_text(alloc, n, seed) else {
        return Status::NoMemory;
    };
    match write_all(out, &text) {
        Ok(()) => Status::Done,
        Err(_) => Status::WriteFault,
    }
}

// The plain form of the script of this size and seed, and a line that sums up its grid.
fn made_text(alloc: Global, n: u8, seed: u32) -> Result<Vec<u8>, NoMemory>
    requires size { IsSize n }
    requires seed { seed < 2 ^ 31 }
    ensures { IfOk result (λ text. IsMade n seed text.items) }
{
    let script = make_script(alloc, n, seed)?;
    let mut text = print(alloc, &script)?;
    let summary = summary(alloc, script.grid())?;
    text.extend_from_slice(&summary)?;
    Ok(text)
}

// The line that sums up a grid.
fn summary(alloc: Global, g: &Grid) -> Result<Vec<u8>, NoMemory>
    ensures { IfOk result (λ text. IsSummary g.now text.items) }
{
    let table = rank_table(alloc, g)?;
    let plus = is_alive(alloc, g, Sign::Plus)?;
    let minus = is_alive(alloc, g, Sign::Minus)?;
    summary_line(alloc, &front(g), table.total(), plus, minus)
}

// Whether the class of x+ or x- is alive, and not null.
pub(crate) fn is_alive(alloc: Global, g: &Grid, sign: Sign) -> Result<bool, NoMemory>
    ensures { IfOk result (λ alive. HasClassVerdict g.now sign alive) }
{
    let _ = g.size();
    let x = class_state(g, sign);
    let z = CodeSet::single(alloc, x.rank())?;
    match verdict(alloc, g, &z)? {
        ClassVerdict::NotCycle { state: _ } => unreachable!(),
        ClassVerdict::Null { bound: _ } => Ok(false),
        ClassVerdict::Alive { cocycle: _ } => Ok(true),
    }
}

// The line of these numbers and verdicts.
fn summary_line(
    alloc: Global,
    f: &FrontNumbers,
    total: u128,
    plus: bool,
    minus: bool,
) -> Result<Vec<u8>, NoMemory>
    ensures { IfOk result (λ line.
        line.items ≡ summary_line_of f.now.tb f.now.rot total plus minus) }
{
    let mut line = Vec::from_slice(alloc, b"# tb ")?;
    push_number(&mut line, f.tb)?;
    line.extend_from_slice(b" rot ")?;
    push_number(&mut line, f.rot)?;
    line.extend_from_slice(b" rank ")?;
    push_number(&mut line, total)?;
    line.extend_from_slice(b" plus ")?;
    line.extend_from_slice(verdict_word(plus).as_bytes())?;
    line.extend_from_slice(b" minus ")?;
    line.extend_from_slice(verdict_word(minus).as_bytes())?;
    line.push(b'\n')?;
    Ok(line)
}
