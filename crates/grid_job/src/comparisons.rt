//! Comparisons of the grids of two documents.
ghost use Rattle.std.specs.Prelude.{◌≡◌, ◌≢◌, ◌+◌, ◌≤◌, Some, length, drop, IfOk, IfSome};
ghost use Rattle.grid_ports.specs.Bytes.{TakesAtMost};
ghost use Rattle.grid_ports.specs.Faults.{count_up};
ghost use Rattle.grid_text.specs.Limits.{max_text};
ghost use Rattle.grid_text.specs.Script.{grid_in_force};
ghost use Rattle.grid_job.specs.Compared.{IsFacts, IsComparison};
ghost use Rattle.grid_job.specs.Outcome.{IsOutcome, IsEnd};
ghost use Rattle.grid_job.specs.Inner.Written.{HasWritten, Tells};

use crate::hats::find_hat;
use crate::made::is_alive;
use crate::modes::Mode;
use crate::refusals::refuse;
use crate::statuses::Status;
use crate::tables::table_of;
use front_data::front;
use grid_ports::{NoMemory, ReadEnd, Sink, Source, read_all, write_all};
use grid_text::{JudgedPair, MAX_TEXT, PairEnd, Sign, fault_word, judge_pair};
use report_text::{Facts, compare_lines};
use std::alloc::Global;
use torus_geom::Grid;

/// Reads two documents, and writes which of the facts on the grids in force at their ends agree.
pub(crate) fn compare<S: Source, K: Sink>(alloc: Global, src: &mut S, out: &mut K) -> Status
    ensures read { IsEnd result → IfSome (S.left src.old) (λ text.
        S.left src.new ≡ Some (drop (max_text + 1) text)) }
    ensures written { result ≢ Status.ReadFault → HasWritten
        (Tells (S.left src.old) (IsOutcome Mode.Compare)) result
        (K.faults out.old) (K.faults out.new) (K.written out.old) (K.written out.new) }
    ensures read_fault { result ≡ Status.ReadFault
        → (S.faults src.new ≡ count_up (S.faults src.old)) × (out.new ≡ out.old) }
    ensures no_read_fault { result ≢ Status.ReadFault → S.faults src.new ≡ S.faults src.old }
    ensures not_others { (result ≢ Status.Usage) × (result ≢ Status.No) }
    ensures taken { TakesAtMost (max_text + 1) (S.left src.old) (S.left src.new) }
    ensures memory { result ≡ Status.NoMemory → out.new ≡ out.old }
{
    match read_all(alloc, src, MAX_TEXT) {
        Ok(text) => compare_text(alloc, &text, out),
        Err(ReadEnd::ReadFault) => Status::ReadFault,
        Err(ReadEnd::TooLong) => refuse(alloc, "TooLong", 0, out),
        Err(ReadEnd::NoMemory) => Status::NoMemory,
    }
}

// Writes the comparison of the two documents of the text, or the refusal of the text.
fn compare_text<K: Sink>(alloc: Global, text: &[u8], out: &mut K) -> Status
    requires within { length text.now ≤ max_text }
    ensures written { HasWritten (IsOutcome Mode.Compare text.now) result
        (K.faults out.old) (K.faults out.new) (K.written out.old) (K.written out.new) }
    ensures memory { result ≡ Status.NoMemory → out.new ≡ out.old }
{
    match judge_pair(alloc, text) {
        Ok(pair) => compare_pair(alloc, &pair, out),
        Err(PairEnd::Refused { fault, line }) => refuse(alloc, fault_word(fault), line, out),
        Err(PairEnd::NoNext { line }) => refuse(alloc, "NoNext", line, out),
        Err(PairEnd::NoMemory) => Status::NoMemory,
    }
}

// Writes the comparison of the grids in force after the commands of two documents.
fn compare_pair<K: Sink>(alloc: Global, pair: &JudgedPair, out: &mut K) -> Status
    ensures written { HasWritten (λ status answer. (status ≡ Status.Done)
        × IsComparison (grid_in_force pair.now.first) (grid_in_force pair.now.second) answer) result
        (K.faults out.old) (K.faults out.new) (K.written out.old) (K.written out.new) }
    ensures memory { result ≡ Status.NoMemory → out.new ≡ out.old }
{
    write_comparison(alloc, pair.first.in_force(), pair.second.in_force(), out)
}

// Writes the comparison of two grids.
fn write_comparison<K: Sink>(alloc: Global, g: &Grid, h: &Grid, out: &mut K) -> Status
    ensures written { HasWritten
        (λ status answer. (status ≡ Status.Done) × IsComparison g.now h.now answer) result
        (K.faults out.old) (K.faults out.new) (K.written out.old) (K.written out.new) }
    ensures memory { result ≡ Status.NoMemory → out.new ≡ out.old }
{
    let _of_first = g.size();
    let _of_second = h.size();
    let Ok(text) = comparison(alloc, g, h) else {
        return Status::NoMemory;
    };
    match write_all(out, &text) {
        Ok(()) => Status::Done,
        Err(_) => Status::WriteFault,
    }
}

// The lines that compare two grids.
fn comparison(alloc: Global, g: &Grid, h: &Grid) -> Result<Vec<u8>, NoMemory>
    ensures { IfOk result (λ text. IsComparison g.now h.now text.items) }
{
    let first = facts_of(alloc, g)?;
    let second = facts_of(alloc, h)?;
    compare_lines(alloc, &first, &second)
}

// What a grid is compared by.
fn facts_of(alloc: Global, g: &Grid) -> Result<Facts, NoMemory>
    ensures { IfOk result (IsFacts g.now) }
{
    let table = table_of(alloc, g)?;
    let hat = find_hat(alloc, g, &table)?;
    let plus_alive = is_alive(alloc, g, Sign::Plus)?;
    let minus_alive = is_alive(alloc, g, Sign::Minus)?;
    Ok(Facts {
        front: front(g),
        table,
        hat,
        plus_alive,
        minus_alive,
    })
}
