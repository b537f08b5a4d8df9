//! Chains carried along a log, and cochains carried back.
ghost use Rattle.std.specs.Prelude.{◌≡◌, ◌≤◌, ℤ, List, [], length, take, IfOk, OnOk};
ghost use Rattle.std.specs.List.{All};
ghost use Rattle.f2_algebra.specs.Chain.{single as single_of};
ghost use Rattle.f2_algebra.specs.Complex.{Complex, IsComplex};
ghost use Rattle.f2_algebra.specs.Cancel.{Entry, IsLog, IsPull, rest as rest_of, lift as lift_of, correction as correction_of, pull as pull_of};
ghost use Rattle.f2_algebra.specs.Laws.{LiftsBorders, RestsBorders, RestsLifts, SplitsCycles, KeepsLiftDegrees, KeepsPullDegrees, KeepsRestDegrees, RaisesDegrees};
ghost use Rattle.cancel.specs.Logs.{log_of, HasEachOnce};
ghost use Rattle.cancel.specs.Inner.Passes.{held, correction_by_marks};

use crate::logs::{CancelLog, LogEntry};
use crate::steps::{lift_over, pull_over, rest_over, toggle_all};
use f2_chain::{Builder, Chain, Cochain};
use grid_ports::NoMemory;
use std::alloc::Global;

/// What a log makes of a chain: what is left of it after the log, and a chain of the first slice. If
/// the chain is a cycle, it is the sum of the lifts of `rest` and the border of `correction`.
#[derive(Drop, Debug)]
pub struct Pushed {
    pub rest: Chain,
    pub correction: Chain,
}

/// The lift of `code`: the chain of the first slice that stands for the cell `code` of the last.
///
/// # Errors
///
/// `NoMemory` if the allocator refuses.
pub fn lift(alloc: Global, log: &CancelLog, code: u32) -> Result<Chain, NoMemory>
    ensures lift { IfOk result (λ z. z ≡ lift_of (log_of log.now) (single_of code)) }

    // Laws of each log that stands, whatever the call answers.
    ensures borders { (C : Complex ℤ) (entries : List Entry) → IsComplex C → IsLog C entries
        → LiftsBorders C entries }
    ensures rests { (C : Complex ℤ) (entries : List Entry) → IsComplex C → IsLog C entries
        → RestsLifts C entries }
    ensures degrees { (C : Complex ℤ) (entries : List Entry) → IsComplex C → IsLog C entries
        → KeepsLiftDegrees C entries }
{
    lift_along(alloc, log.entries(), code)
}

/// What is left of `z` after the log, and the correction of `z`.
///
/// The rest takes one pass over the log, and the correction one pass back.
///
/// # Errors
///
/// `NoMemory` if the allocator refuses.
pub fn push(alloc: Global, log: &CancelLog, z: &Chain) -> Result<Pushed, NoMemory>
    ensures rest { IfOk result (λ p. p.rest ≡ rest_of (log_of log.now) z.now) }
    ensures correction { IfOk result (λ p. p.correction ≡ correction_of (log_of log.now) z.now) }

    // Laws of each log that stands, whatever the call answers.
    ensures borders { (C : Complex ℤ) (entries : List Entry) → IsComplex C → IsLog C entries
        → RestsBorders C entries }
    ensures lifts { (C : Complex ℤ) (entries : List Entry) → IsComplex C → IsLog C entries
        → RestsLifts C entries }
    ensures cycles { (C : Complex ℤ) (entries : List Entry) → IsComplex C → IsLog C entries
        → SplitsCycles C entries }
    ensures rest_degrees { (C : Complex ℤ) (entries : List Entry) → IsComplex C → IsLog C entries
        → KeepsRestDegrees C entries }
    ensures correction_degrees { (C : Complex ℤ) (entries : List Entry) → IsComplex C → IsLog C entries
        → RaisesDegrees C entries }
{
    push_along(alloc, log.entries(), z)
}

/// The pull of `code`: the cochain of the first slice that pairs oddly with exactly those chains whose
/// rest holds `code`.
///
/// # Errors
///
/// `NoMemory` if the allocator refuses.
pub fn pull(alloc: Global, log: &CancelLog, code: u32) -> Result<Cochain, NoMemory>
    ensures map { IfOk result (λ f. f ≡ pull_of (log_of log.now) (single_of code)) }
    ensures pull { IfOk result (λ f. IsPull (log_of log.now) code f) }

    // A law of each log that stands, whatever the call answers.
    ensures degrees { (C : Complex ℤ) (entries : List Entry) → IsComplex C → IsLog C entries
        → KeepsPullDegrees C entries }
{
    pull_along(alloc, log.entries(), code)
}

/// The lift of `code` by the first `k` entries of the log alone: the chain of the first slice that stands
/// for the cell `code` of the slice before the entry with the number `k`, from 0.
///
/// # Errors
///
/// `NoMemory` if the allocator refuses.
pub fn lift_before(alloc: Global, log: &CancelLog, k: usize, code: u32) -> Result<Chain, NoMemory>
    requires { k ≤ length log.now }
    ensures lift { IfOk result (λ z. z ≡ lift_of (take k (log_of log.now)) (single_of code)) }
{
    let entries = log.entries();
    lift_along(alloc, &entries[..k], code)
}

/// The pull of `code` by the first `k` entries of the log alone: the cochain of the first slice that pairs
/// oddly with exactly those chains whose rest after these entries holds `code`.
///
/// # Errors
///
/// `NoMemory` if the allocator refuses.
pub fn pull_before(alloc: Global, log: &CancelLog, k: usize, code: u32) -> Result<Cochain, NoMemory>
    requires { k ≤ length log.now }
    ensures map { IfOk result (λ f. f ≡ pull_of (take k (log_of log.now)) (single_of code)) }
    ensures pull { IfOk result (λ f. IsPull (take k (log_of log.now)) code f) }
{
    let entries = log.entries();
    pull_along(alloc, &entries[..k], code)
}

// The lift of a code, from the last of the entries to the first.
fn lift_along(alloc: Global, entries: &[LogEntry], code: u32) -> Result<Chain, NoMemory>
    requires { All HasEachOnce entries.now }
    ensures { IfOk result (λ z. z ≡ lift_of (log_of entries.now) (single_of code)) }
{
    let mut chain = Builder::new(alloc);
    chain.toggle(code)?;
    for k in (0..entries.len()).rev() {
        lift_over(&entries[k], &mut chain)?;
    }
    chain.finish()
}

// The pull of a code, from the last of the entries to the first.
fn pull_along(alloc: Global, entries: &[LogEntry], code: u32) -> Result<Cochain, NoMemory>
    requires { All HasEachOnce entries.now }
    ensures { IfOk result (λ f. f ≡ pull_of (log_of entries.now) (single_of code)) }
{
    let mut cochain = Builder::new(alloc);
    cochain.toggle(code)?;
    for k in (0..entries.len()).rev() {
        pull_over(&entries[k], &mut cochain)?;
    }
    cochain.finish()
}

// The rest of a chain, and its correction.
fn push_along(alloc: Global, entries: &[LogEntry], z: &Chain) -> Result<Pushed, NoMemory>
    requires { All HasEachOnce entries.now }
    ensures rest { IfOk result (λ p. p.rest ≡ rest_of (log_of entries.now) z.now) }
    ensures correction { IfOk result (λ p. p.correction ≡ correction_of (log_of entries.now) z.now) }
{
    let mut chain = builder_of(alloc, z)?;
    let mut marks = Vec::new(alloc);
    rest_along(entries, &mut chain, &mut marks)?;
    let rest = chain.finish()?;
    let correction = correct_along(alloc, entries, &marks)?;
    Ok(Pushed { rest, correction })
}

// A builder that holds this chain.
fn builder_of(alloc: Global, z: &Chain) -> Result<Builder, NoMemory>
    ensures { IfOk result (λ chain. chain ≡ z.now) }
{
    let mut chain = Builder::new(alloc);
    toggle_all(z.codes(), &mut chain)?;
    Ok(chain)
}

// Goes on to what is left of the chain after the entries. `marks` then says of each entry whether its
// target was held when its turn came.
fn rest_along(
    entries: &[LogEntry],
    chain: &mut Builder,
    marks: &mut Vec<bool>,
) -> Result<(), NoMemory>
    requires once { All HasEachOnce entries.now }
    requires empty { marks.old.items ≡ [] }
    ensures rest { OnOk result (chain.new ≡ rest_of (log_of entries.now) chain.old) }
    ensures marks { OnOk result (marks.new.items ≡ held (log_of entries.now) chain.old) }
{
    for entry in entries {
        let mark = rest_over(entry, chain)?;
        marks.push(mark)?;
    }
    Ok(())
}

// The correction of a chain whose rest has left these marks.
fn correct_along(alloc: Global, entries: &[LogEntry], marks: &[bool]) -> Result<Chain, NoMemory>
    requires once { All HasEachOnce entries.now }
    requires long { length marks.now ≡ length entries.now }
    ensures { IfOk result (λ z. z ≡ correction_by_marks (log_of entries.now) marks.now) }
{
    let mut chain = Builder::new(alloc);
    for k in (0..entries.len()).rev() {
        lift_over(&entries[k], &mut chain)?;
        if marks[k] {
            chain.toggle(entries[k].x)?;
        }
    }
    chain.finish()
}
