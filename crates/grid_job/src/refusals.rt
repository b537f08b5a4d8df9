//! Refusals.
ghost use Rattle.std.specs.Prelude.{◌≡◌};
ghost use Rattle.report_text.specs.Lines.{refused_line as refused_line_of};
ghost use Rattle.grid_job.specs.Inner.Written.{HasWritten};

use crate::statuses::Status;
use grid_ports::{Sink, write_all};
use report_text::refused_line;
use std::alloc::Global;

/// Writes the line of a refusal.
pub(crate) fn refuse<K: Sink>(alloc: Global, fault: &str, line: u32, out: &mut K) -> Status
    ensures written { HasWritten
        (λ status answer. (status ≡ Status.Refused) × (answer ≡ refused_line_of fault.now line)) result
        (K.faults out.old) (K.faults out.new) (K.written out.old) (K.written out.new) }
    ensures memory { result ≡ Status.NoMemory → out.new ≡ out.old }
{
    let Ok(text) = refused_line(alloc, fault, line) else {
        return Status::NoMemory;
    };
    match write_all(out, &text) {
        Ok(()) => Status::Refused,
        Err(_) => Status::WriteFault,
    }
}
