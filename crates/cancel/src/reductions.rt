//! Cancelling the arrows of a slice, one after another.
ghost use Rattle.std.specs.Prelude.{◌≡◌, ◌≢◌, ◌<◌, ℕ, ℤ, Bool, true, not, ◌&&◌, nat_eq, List, IfOk, OnErr};
ghost use Rattle.std.specs.List.{All, AllPairs};
ghost use Rattle.f2_algebra.specs.Chain.{holds, of_codes};
ghost use Rattle.f2_algebra.specs.Complex.{Complex, arrow as has_arrow, IsComplex};
ghost use Rattle.f2_algebra.specs.Cancel.{Entry, IsEntry, IsLog, cancelled};
ghost use Rattle.f2_algebra.specs.Slice.{slice_complex, IsReduced};
ghost use Rattle.f2_algebra.specs.Laws.{LogLaws};
ghost use Rattle.sparse_complex.specs.Slices.{ListsOnce};
ghost use Rattle.cancel.specs.Logs.{entry_of, log_of, HasEachOnce, IsPartlyCancelled};

use crate::logs::{CancelLog, LogEntry};
use bumpalo::Bump;
use bumpalo::collections::into_bump_slice;
use grid_ports::NoMemory;
use sparse_complex::{AlexSlice, Arrow};
use std::alloc::Global;

/// Cancels arrows of `slice` until it has none, and gives the log of what was cancelled, which lies in
/// `bump`.
///
/// The cancelling of an arrow is a step of Gaussian elimination over F2. Which arrow comes next is left
/// open.
///
/// # Errors
///
/// `NoMemory` if the allocator refuses; some arrows of `slice` are then cancelled.
pub fn reduce<'a>(
    alloc: Global,
    slice: &mut AlexSlice,
    bump: &'a Bump,
) -> Result<CancelLog<'a>, NoMemory>
    ensures reduced { IfOk result (λ log. IsReduced slice.old.slice slice.new.slice (log_of log)) }
    ensures once { IfOk result (λ log. All HasEachOnce log) }
    ensures left { OnErr result (IsPartlyCancelled slice.old.slice slice.new.slice) }

    // Each log that stands so has the laws of a log, whatever the call answers.
    ensures laws { (C : Complex ℤ) (log : List Entry) → IsComplex C → IsLog C log → LogLaws C log }
{
    cancel_all(alloc, slice, bump)
}

// Cancels arrows until there is none.
fn cancel_all<'a>(
    alloc: Global,
    slice: &mut AlexSlice,
    bump: &'a Bump,
) -> Result<CancelLog<'a>, NoMemory>
    ensures reduced { IfOk result (λ log. IsReduced slice.old.slice slice.new.slice (log_of log)) }
    ensures once { IfOk result (λ log. All HasEachOnce log) }
    ensures left { OnErr result (IsPartlyCancelled slice.old.slice slice.new.slice) }
{
    let mut entries = Vec::new(bump);
    let mut codes = Vec::new(alloc);
    while let Some(arrow) = slice.any_arrow() {
        let entry = cancel_arrow(slice, arrow, &mut codes, bump)?;
        entries.push(entry)?;
    }
    Ok(CancelLog::of(into_bump_slice(entries)))
}

// Cancels one arrow. `codes` is a list to write into.
fn cancel_arrow<'a>(
    slice: &mut AlexSlice,
    gone: Arrow,
    codes: &mut Vec<u32>,
    bump: &'a Bump,
) -> Result<LogEntry<'a>, NoMemory>
    requires { has_arrow (slice_complex slice.old.slice) gone.x gone.y ≡ true }
    ensures entry { IfOk result (λ e. IsEntry (slice_complex slice.old.slice) (entry_of e)) }
    ensures once { IfOk result HasEachOnce }
    ensures cancelled { IfOk result (λ e. slice_complex slice.new.slice
        ≡ cancelled (slice_complex slice.old.slice) e.x e.y) }
    ensures same { OnErr result (slice.new.slice ≡ slice.old.slice) }
{
    let sources = other_sources(slice, gone, codes, bump)?;
    let targets = other_targets(slice, gone, codes, bump)?;
    slice.reserve_for(gone.x, gone.y)?;
    slice.cancel(gone.x, gone.y);
    Ok(LogEntry {
        x: gone.x,
        y: gone.y,
        sources,
        targets,
    })
}

// The codes that have arrows to the target of `gone`, but for its source.
fn other_sources<'a>(
    slice: &AlexSlice,
    gone: Arrow,
    codes: &mut Vec<u32>,
    bump: &'a Bump,
) -> Result<&'a [u32], NoMemory>
    ensures codes { IfOk result (λ list. (s : ℕ) → holds (of_codes list.now) s
        ≡ (has_arrow (slice_complex slice.now.slice) s gone.y && not (nat_eq s gone.x))) }
    ensures once { IfOk result (λ list. AllPairs (λ b c. b ≢ c) list.now) }
{
    slice.sources_of(gone.y, codes)?;
    remove_code(codes, gone.x);
    placed(codes, bump)
}

// The codes to which the source of `gone` has arrows, but for its target.
fn other_targets<'a>(
    slice: &AlexSlice,
    gone: Arrow,
    codes: &mut Vec<u32>,
    bump: &'a Bump,
) -> Result<&'a [u32], NoMemory>
    ensures codes { IfOk result (λ list. (t : ℕ) → holds (of_codes list.now) t
        ≡ (has_arrow (slice_complex slice.now.slice) gone.x t && not (nat_eq t gone.y))) }
    ensures once { IfOk result (λ list. AllPairs (λ b c. b ≢ c) list.now) }
{
    slice.targets_of(gone.x, codes)?;
    remove_code(codes, gone.y);
    placed(codes, bump)
}

// Takes `code` out of the list.
fn remove_code(list: &mut Vec<u32>, code: u32)
    ensures { (test : ℕ → Bool) → ListsOnce list.old.items test
        → ListsOnce list.new.items (λ other. test other && not (nat_eq other code)) }
{
    list.retain(|other| *other != code);
}

// A copy of the list in the arena.
fn placed<'a>(list: &[u32], bump: &'a Bump) -> Result<&'a [u32], NoMemory>
    ensures { IfOk result (λ copy. copy.now ≡ list.now) }
{
    Ok(bump.try_alloc_slice_copy(list)?)
}
