//! Whole texts: all that a source has left, and a piece written to its end.
ghost use Rattle.std.specs.Prelude.{◌≡◌, ◌+◌, ◌^◌, ◌≤◌, length, IfOk, OnOk, OnErr, IsErrOf, vec_len};
ghost use Rattle.std.specs.Io.KnownBytes.{Consumes, Appends, IsAtEnd};
ghost use Rattle.grid_ports.specs.Bytes.{Takes, TakesAtMost, AppendsPrefix};
ghost use Rattle.grid_ports.specs.Faults.{count_up};

use crate::errors::{ReadEnd, WriteFault};
use crate::ports::{Sink, Source};
use std::alloc::Global;

/// The most that is asked of a source at once.
const BUFFER_SIZE: usize = 4096;

/// All bytes that `src` has left, to its end, at most `limit` of them.
///
/// A read that gives less than was asked for is followed by another; each gives at least one byte or
/// is the last.
///
/// # Errors
///
/// - `ReadFault` if a read failed.
/// - `TooLong` if more than `limit` bytes are left; `limit + 1` of them are gone then.
/// - `NoMemory` if the allocator refuses. At most `limit + 1` bytes are gone then.
pub fn read_all<S: Source>(alloc: Global, src: &mut S, limit: usize) -> Result<Vec<u8>, ReadEnd>
    requires { limit ≤ 2 ^ 30 }

    ensures bytes { IfOk result (λ v. Consumes (S.left src.old) (S.left src.new) v.items) }
    ensures to_the_end { OnOk result (IsAtEnd (S.left src.new)) }
    ensures within { IfOk result (λ v. vec_len v ≤ limit) }
    ensures no_fault { OnOk result (S.faults src.new ≡ S.faults src.old) }

    // One read that failed in this call is the only cause, and no other answer tells of it.
    ensures fault { IsErrOf result ReadEnd.ReadFault
        → S.faults src.new ≡ count_up (S.faults src.old) }
    ensures fault_takes { IsErrOf result ReadEnd.ReadFault
        → TakesAtMost limit (S.left src.old) (S.left src.new) }

    ensures too_long { IsErrOf result ReadEnd.TooLong
        → Takes (limit + 1) (S.left src.old) (S.left src.new) }
    ensures too_long_no_fault { IsErrOf result ReadEnd.TooLong
        → S.faults src.new ≡ S.faults src.old }

    ensures no_memory_takes { IsErrOf result ReadEnd.NoMemory
        → TakesAtMost (limit + 1) (S.left src.old) (S.left src.new) }
    ensures no_memory_no_fault { IsErrOf result ReadEnd.NoMemory
        → S.faults src.new ≡ S.faults src.old }
    ensures count { S.faults src.old ≤ S.faults src.new }
{
    let mut bytes = Vec::new(alloc);
    let mut buf = [0u8; BUFFER_SIZE];
    loop {
        let asked = BUFFER_SIZE.min(limit + 1 - bytes.len());
        let taken = src.read(&mut buf[..asked])?;
        if taken == 0 {
            return Ok(bytes);
        }
        if bytes.len() + taken > limit {
            return Err(ReadEnd::TooLong);
        }
        bytes.extend_from_slice(&buf[..taken])?;
    }
}

/// Writes `piece` to its end.
///
/// # Errors
///
/// `WriteFault` if a write failed. A prefix of `piece` is written then.
pub fn write_all<K: Sink>(out: &mut K, piece: &[u8]) -> Result<(), WriteFault>
    ensures all { OnOk result (Appends (K.written out.old) (K.written out.new) piece.now) }
    ensures no_fault { OnOk result (K.faults out.new ≡ K.faults out.old) }

    // One write that failed in this call is the only cause.
    ensures fault { OnErr result (K.faults out.new ≡ count_up (K.faults out.old)) }
    ensures prefix { AppendsPrefix (K.written out.old) (K.written out.new) piece.now }
    ensures count { K.faults out.old ≤ K.faults out.new }
{
    let mut done = 0;
    while done < piece.len() {
        done += out.write(&piece[done..])?;
    }
    Ok(())
}
