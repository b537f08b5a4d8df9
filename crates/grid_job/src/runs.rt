//! Reports of documents.
ghost use Rattle.std.specs.Prelude.{◌≡◌, ◌≢◌, ◌⊎◌, ℕ, ◌+◌, ◌≤◌, List, Some, length, drop, IfSome};
ghost use Rattle.grid_ports.specs.Bytes.{TakesAtMost};
ghost use Rattle.grid_ports.specs.Faults.{count_up};
ghost use Rattle.grid_text.specs.Faults.{IsFirstFault};
ghost use Rattle.grid_text.specs.Limits.{max_text};
ghost use Rattle.grid_job.specs.Report.{IsReport};
ghost use Rattle.grid_job.specs.Outcome.{IsRefusal, IsOutcome, IsEnd};
ghost use Rattle.grid_job.specs.Inner.Written.{HasWritten, Tells};

use crate::modes::Mode;
use crate::refusals::refuse;
use crate::reports::{ReportEnd, write_report};
use crate::statuses::Status;
use grid_ports::{ReadEnd, Sink, Source, read_all};
use grid_text::{MAX_TEXT, Script, TextEnd, TextFault, fault_word, judge};
use std::alloc::Global;

/// Reads a document and writes a report of it.
pub(crate) fn run<S: Source, K: Sink>(alloc: Global, src: &mut S, out: &mut K) -> Status
    ensures read { IsEnd result → IfSome (S.left src.old) (λ text.
        S.left src.new ≡ Some (drop (max_text + 1) text)) }
    ensures written { result ≢ Status.ReadFault → HasWritten
        (Tells (S.left src.old) (IsOutcome Mode.Run)) result
        (K.faults out.old) (K.faults out.new) (K.written out.old) (K.written out.new) }
    ensures read_fault { result ≡ Status.ReadFault
        → (S.faults src.new ≡ count_up (S.faults src.old)) × (out.new ≡ out.old) }
    ensures no_read_fault { result ≢ Status.ReadFault → S.faults src.new ≡ S.faults src.old }
    ensures not_others { (result ≢ Status.Usage) × (result ≢ Status.No) }
    ensures taken { TakesAtMost (max_text + 1) (S.left src.old) (S.left src.new) }
    ensures memory { result ≡ Status.NoMemory
        → IfSome (S.left src.old) (λ text. (answer : List ℕ) → IsRefusal text answer
        → out.new ≡ out.old) }
{
    match read_all(alloc, src, MAX_TEXT) {
        Ok(text) => answer_text(alloc, &text, out),
        Err(ReadEnd::ReadFault) => Status::ReadFault,
        Err(ReadEnd::TooLong) => refuse(alloc, "TooLong", 0, out),
        Err(ReadEnd::NoMemory) => Status::NoMemory,
    }
}

// Writes a report of the text, or its refusal.
fn answer_text<K: Sink>(alloc: Global, text: &[u8], out: &mut K) -> Status
    requires within { length text.now ≤ max_text }
    ensures written { HasWritten (IsOutcome Mode.Run text.now) result
        (K.faults out.old) (K.faults out.new) (K.written out.old) (K.written out.new) }
    ensures memory { result ≡ Status.NoMemory → (fault : TextFault) (line : ℕ)
        → IsFirstFault text.now fault line → out.new ≡ out.old }
{
    match judge(alloc, text) {
        Ok(judged) => answer_script(alloc, &judged.script, out),
        Err(TextEnd::Refused { fault, line }) => refuse(alloc, fault_word(fault), line, out),
        Err(TextEnd::NoMemory) => Status::NoMemory,
    }
}

// Writes a report of a script.
fn answer_script<K: Sink>(alloc: Global, script: &Script, out: &mut K) -> Status
    ensures { HasWritten
        (λ status answer. (status ≡ Status.Done) × IsReport script.now answer) result
        (K.faults out.old) (K.faults out.new) (K.written out.old) (K.written out.new) }
{
    match write_report(
        alloc,
        script.version(),
        script.grid(),
        script.commands(),
        out,
    ) {
        Ok(()) => Status::Done,
        Err(ReportEnd::WriteFault) => Status::WriteFault,
        Err(ReportEnd::NoMemory) => Status::NoMemory,
    }
}
