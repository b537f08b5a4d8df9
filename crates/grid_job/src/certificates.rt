//! Certificates of the grid of a document.
ghost use Rattle.std.specs.Prelude.{◌≡◌, ◌≢◌, ◌+◌, ◌≤◌, Some, length, drop, IfOk, IfSome};
ghost use Rattle.grid_ports.specs.Bytes.{TakesAtMost};
ghost use Rattle.grid_ports.specs.Faults.{count_up};
ghost use Rattle.grid_text.specs.Limits.{max_text};
ghost use Rattle.torus_geom.specs.Marks.{size};
ghost use Rattle.homology_cert.specs.CertificateLimits.{max_certified_size};
ghost use Rattle.grid_job.specs.Certified.{IsCertificateText};
ghost use Rattle.grid_job.specs.Outcome.{IsOutcome, IsEnd};
ghost use Rattle.grid_job.specs.Inner.Written.{HasWritten, Tells, IsAnswerOfGrid};

use crate::modes::Mode;
use crate::refusals::refuse;
use crate::statuses::Status;
use grid_ports::{NoMemory, ReadEnd, Sink, Source, read_all, write_all};
use grid_text::{Judged, MAX_TEXT, TextEnd, fault_word, judge};
use homology_cert::{MAX_CERTIFIED_SIZE, make_cert, print_cert};
use std::alloc::Global;
use torus_geom::Grid;

/// Reads a document, and writes a certificate of the grid in force at its end.
pub(crate) fn cert<S: Source, K: Sink>(alloc: Global, src: &mut S, out: &mut K) -> Status
    ensures read { IsEnd result → IfSome (S.left src.old) (λ text.
        S.left src.new ≡ Some (drop (max_text + 1) text)) }
    ensures written { result ≢ Status.ReadFault → HasWritten
        (Tells (S.left src.old) (IsOutcome Mode.Cert)) result
        (K.faults out.old) (K.faults out.new) (K.written out.old) (K.written out.new) }
    ensures read_fault { result ≡ Status.ReadFault
        → (S.faults src.new ≡ count_up (S.faults src.old)) × (out.new ≡ out.old) }
    ensures no_read_fault { result ≢ Status.ReadFault → S.faults src.new ≡ S.faults src.old }
    ensures not_others { (result ≢ Status.Usage) × (result ≢ Status.No) }
    ensures taken { TakesAtMost (max_text + 1) (S.left src.old) (S.left src.new) }
    ensures memory { result ≡ Status.NoMemory → out.new ≡ out.old }
{
    match read_all(alloc, src, MAX_TEXT) {
        Ok(text) => certify_text(alloc, &text, out),
        Err(ReadEnd::ReadFault) => Status::ReadFault,
        Err(ReadEnd::TooLong) => refuse(alloc, "TooLong", 0, out),
        Err(ReadEnd::NoMemory) => Status::NoMemory,
    }
}

// Writes a certificate of the grid of the text, or the refusal of the text.
fn certify_text<K: Sink>(alloc: Global, text: &[u8], out: &mut K) -> Status
    requires within { length text.now ≤ max_text }
    ensures written { HasWritten (IsOutcome Mode.Cert text.now) result
        (K.faults out.old) (K.faults out.new) (K.written out.old) (K.written out.new) }
    ensures memory { result ≡ Status.NoMemory → out.new ≡ out.old }
{
    match judge(alloc, text) {
        Ok(judged) => certify_script(alloc, &judged, out),
        Err(TextEnd::Refused { fault, line }) => refuse(alloc, fault_word(fault), line, out),
        Err(TextEnd::NoMemory) => Status::NoMemory,
    }
}

// Writes a certificate of the grid in force after the commands of a document, or the refusal of a grid too large.
fn certify_script<K: Sink>(alloc: Global, judged: &Judged, out: &mut K) -> Status
    ensures written { HasWritten (IsAnswerOfGrid judged.now.script judged.now.grid_line) result
        (K.faults out.old) (K.faults out.new) (K.written out.old) (K.written out.new) }
    ensures memory { result ≡ Status.NoMemory → out.new ≡ out.old }
{
    let g = judged.script.in_force();
    if g.size() > MAX_CERTIFIED_SIZE {
        return refuse(alloc, "TooLarge", judged.grid_line, out);
    }
    write_certificate(alloc, g, out)
}

// Writes a certificate of a grid.
fn write_certificate<K: Sink>(alloc: Global, g: &Grid, out: &mut K) -> Status
    requires { size g.now ≤ max_certified_size }
    ensures written { HasWritten
        (λ status answer. (status ≡ Status.Done) × IsCertificateText g.now answer) result
        (K.faults out.old) (K.faults out.new) (K.written out.old) (K.written out.new) }
    ensures memory { result ≡ Status.NoMemory → out.new ≡ out.old }
{
    let _ = g.size();
    let Ok(text) = certificate_text(alloc, g) else {
        return Status::NoMemory;
    };
    match write_all(out, &text) {
        Ok(()) => Status::Done,
        Err(_) => Status::WriteFault,
    }
}

// The text of a certificate of a grid.
fn certificate_text(alloc: Global, g: &Grid) -> Result<Vec<u8>, NoMemory>
    requires { size g.now ≤ max_certified_size }
    ensures { IfOk result (λ text. IsCertificateText g.now text.items) }
{
    let certificate = make_cert(alloc, g)?;
    let _ = certificate.grid();
    print_cert(alloc, &certificate)
}
