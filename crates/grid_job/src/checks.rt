//! Whether a certificate passes.
ghost use Rattle.std.specs.Prelude.{◌≡◌, ◌≢◌, ◌+◌, ◌≤◌, Some, length, drop, IfOk, IfSome};
ghost use Rattle.grid_ports.specs.Bytes.{TakesAtMost};
ghost use Rattle.grid_ports.specs.Faults.{count_up};
ghost use Rattle.homology_cert.specs.CertificateCodes.{certificate_of};
ghost use Rattle.homology_cert.specs.CertificateTests.{verdict_of};
ghost use Rattle.homology_cert.specs.CertificateLimits.{max_certificate};
ghost use Rattle.grid_job.specs.Checked.{test_word as test_word_of, no_line as no_line_of};
ghost use Rattle.grid_job.specs.Outcome.{IsOutcome, IsEnd};
ghost use Rattle.grid_job.specs.Inner.Written.{HasWritten, Tells, TellsVerdict};

use crate::modes::Mode;
use crate::refusals::refuse;
use crate::statuses::Status;
use grid_ports::{NoMemory, ReadEnd, Sink, Source, read_all, write_all};
use homology_cert::{Cert, CertEnd, CertTest, CertVerdict, MAX_CERTIFICATE, check_cert, read_cert};
use std::alloc::Global;
use text_lines::push_number;

/// Reads a certificate, and writes whether it passes or the first test that it fails.
pub(crate) fn check<S: Source, K: Sink>(alloc: Global, src: &mut S, out: &mut K) -> Status
    ensures read { IsEnd result → IfSome (S.left src.old) (λ text.
        S.left src.new ≡ Some (drop (max_certificate + 1) text)) }
    ensures written { result ≢ Status.ReadFault → HasWritten
        (Tells (S.left src.old) (IsOutcome Mode.Check)) result
        (K.faults out.old) (K.faults out.new) (K.written out.old) (K.written out.new) }
    ensures read_fault { result ≡ Status.ReadFault
        → (S.faults src.new ≡ count_up (S.faults src.old)) × (out.new ≡ out.old) }
    ensures no_read_fault { result ≢ Status.ReadFault → S.faults src.new ≡ S.faults src.old }
    ensures not_usage { result ≢ Status.Usage }
    ensures taken { TakesAtMost (max_certificate + 1) (S.left src.old) (S.left src.new) }
    ensures memory { result ≡ Status.NoMemory → out.new ≡ out.old }
{
    match read_all(alloc, src, MAX_CERTIFICATE) {
        Ok(text) => answer_certificate(alloc, &text, out),
        Err(ReadEnd::ReadFault) => Status::ReadFault,
        Err(ReadEnd::TooLong) => refuse(alloc, "TooLong", 0, out),
        Err(ReadEnd::NoMemory) => Status::NoMemory,
    }
}

// Writes whether the certificate of the text passes, or the refusal of the text.
fn answer_certificate<K: Sink>(alloc: Global, text: &[u8], out: &mut K) -> Status
    requires within { length text.now ≤ max_certificate }
    ensures written { HasWritten (IsOutcome Mode.Check text.now) result
        (K.faults out.old) (K.faults out.new) (K.written out.old) (K.written out.new) }
    ensures memory { result ≡ Status.NoMemory → out.new ≡ out.old }
{
    match read_cert(alloc, text) {
        Ok(certificate) => {
            let _ = certificate.grid();
            tell_verdict(alloc, &certificate, out)
        }
        Err(CertEnd::BadLine { line }) => refuse(alloc, "BadLine", line, out),
        Err(CertEnd::NoMemory) => Status::NoMemory,
    }
}

// Writes the verdict of a certificate.
fn tell_verdict<K: Sink>(alloc: Global, certificate: &Cert, out: &mut K) -> Status
    ensures written { HasWritten (TellsVerdict (verdict_of (certificate_of certificate.now))) result
        (K.faults out.old) (K.faults out.new) (K.written out.old) (K.written out.new) }
    ensures memory { result ≡ Status.NoMemory → out.new ≡ out.old }
{
    match check_cert(alloc, certificate) {
        Ok(CertVerdict::Yes) => tell_yes(out),
        Ok(CertVerdict::No { entry, test }) => tell_no(alloc, entry, test, out),
        Err(NoMemory) => Status::NoMemory,
    }
}

// Writes the line of a certificate that passes.
fn tell_yes<K: Sink>(out: &mut K) -> Status
    ensures written { HasWritten (TellsVerdict CertVerdict.Yes) result
        (K.faults out.old) (K.faults out.new) (K.written out.old) (K.written out.new) }
    ensures memory { result ≡ Status.NoMemory → out.new ≡ out.old }
{
    match write_all(out, b"yes\n") {
        Ok(()) => Status::Done,
        Err(_) => Status::WriteFault,
    }
}

// Writes the line of a certificate that fails: its first entry that does not pass, and the test.
fn tell_no<K: Sink>(alloc: Global, entry: u32, test: CertTest, out: &mut K) -> Status
    ensures written { HasWritten (TellsVerdict (CertVerdict.No entry test)) result
        (K.faults out.old) (K.faults out.new) (K.written out.old) (K.written out.new) }
    ensures memory { result ≡ Status.NoMemory → out.new ≡ out.old }
{
    let Ok(text) = no_line(alloc, entry, test) else {
        return Status::NoMemory;
    };
    match write_all(out, &text) {
        Ok(()) => Status::No,
        Err(_) => Status::WriteFault,
    }
}

// The line of a test that an entry fails.
fn no_line(alloc: Global, entry: u32, test: CertTest) -> Result<Vec<u8>, NoMemory>
    ensures { IfOk result (λ line. line.items ≡ no_line_of entry test) }
{
    let mut line = Vec::from_slice(alloc, b"no ")?;
    push_number(&mut line, entry)?;
    line.push(b' ')?;
    line.extend_from_slice(test_word(test).as_bytes())?;
    line.push(b'\n')?;
    Ok(line)
}

fn test_word(test: CertTest) -> &'static str
    ensures { result.now ≡ test_word_of test }
{
    match test {
        CertTest::Count => "count",
        CertTest::Degree => "degree",
        CertTest::Cycle => "cycle",
        CertTest::Cocycle => "cocycle",
        CertTest::Pairing => "pairing",
        CertTest::Probe => "probe",
        CertTest::Missing => "missing",
    }
}
