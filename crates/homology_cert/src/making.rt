//! Making certificates.
ghost use Rattle.std.specs.Prelude.{◌≡◌, ◌≤◌, ◌<◌, [], length, map, IfOk};
ghost use Rattle.f2_algebra.specs.Bigraded.{at_alexander};
ghost use Rattle.f2_algebra.specs.Cancel.{IsLog};
ghost use Rattle.f2_algebra.specs.Slice.{slice_complex};
ghost use Rattle.cancel.specs.Logs.{log_of};
ghost use Rattle.state_rank.specs.States.{factorial};
ghost use Rattle.torus_geom.specs.Inner.GridComplex.{grid_complex};
ghost use Rattle.torus_geom.specs.Marks.{Marks, size, IsGrid};
ghost use Rattle.homology_cert.specs.CertificateLimits.{max_certified_size, max_certificate};
ghost use Rattle.homology_cert.specs.CertificateCodes.{certificate_of as states_certificate};
ghost use Rattle.homology_cert.specs.Certificates.{Certificate, IsCertificate};
ghost use Rattle.homology_cert.specs.CertificateTests.{verdict_of};
ghost use Rattle.homology_cert.specs.CertificateText.{certificate_text};
ghost use Rattle.homology_cert.specs.Inner.CodeCertificates.{IsCertificate as IsCodeCertificate};
ghost use Rattle.homology_cert.specs.Inner.CodeTests.{has_bidegree as has_bidegree_of, verdict_of as code_verdict};
ghost use Rattle.homology_cert.specs.Inner.CodeText.{certificate_text as code_text};
ghost use Rattle.homology_cert.specs.Inner.Making.{HasBidegrees, HasState, AreMade, IsMadeCell, cycle_pair, degree_is, left_codes, steps_after};

use crate::certificates::{Cert, CertCell, CyclePair, StepPair};
use crate::checks::has_bidegree;
use crate::verdicts::CertVerdict;
use bumpalo::Bump;
use cancel::{CancelLog, lift, lift_before, pull, pull_before, reduce};
use gradings::{Bidegree, DegreeTables};
use grid_ports::NoMemory;
use sparse_complex::AlexSlice;
use state_rank::{State, state_count};
use std::alloc::Global;
use std::collections::BTreeSet;
use torus_geom::Grid;

/// The greatest size of a grid that has certificates.
pub const MAX_CERTIFIED_SIZE: u8 = 6;

/// A certificate of the table of the grid, which passes all its tests.
///
/// The arrows of each bidegree's slice are cancelled with a log. A state that is left gives a cycle pair, its
/// lift and its pull; an arrow that was cancelled gives a step pair, the lift of its source and the pull of its
/// target by the arrows cancelled before it. The grid has size at most six, so there are at most 720 states.
///
/// # Errors
///
/// `NoMemory` if the allocator refuses.
pub fn make_cert(alloc: Global, g: &Grid) -> Result<Cert, NoMemory>
    requires { size g.now ≤ max_certified_size }
    ensures grid { IfOk result (λ c. c.grid ≡ g.now) }
    ensures passes { IfOk result (λ c. verdict_of (states_certificate c) ≡ CertVerdict.Yes) }
    ensures short { IfOk result (λ c. length (certificate_text (states_certificate c)) < max_certificate) }

    // Whatever the call answers: each grid of this size has a certificate that passes.
    ensures some_certificate { (h : Marks) → IsGrid h → size h ≤ max_certified_size
        → (c : Certificate) × IsCertificate c
        × (c.grid ≡ h) × (verdict_of c ≡ CertVerdict.Yes) × (length (certificate_text c) < max_certificate) }

    // The limit is that of the definitions.
    ensures limit { MAX_CERTIFIED_SIZE ≡ max_certified_size }
{
    let _size = g.size();
    certificate_of(alloc, g)
}

// A certificate of the table of the grid.
fn certificate_of(alloc: Global, g: &Grid) -> Result<Cert, NoMemory>
    requires { size g.now ≤ max_certified_size }
    ensures grid { IfOk result (λ c. c.grid ≡ g.now) }
    ensures certificate { IfOk result IsCodeCertificate }
    ensures passes { IfOk result (λ c. code_verdict c ≡ CertVerdict.Yes) }
    ensures short { IfOk result (λ c. length (code_text c) < max_certificate) }
{
    let _size = g.size();
    let cells = cells_of(alloc, g)?;
    Ok(Cert::of(*g, cells))
}

// The cells of a certificate, in order.
fn cells_of(alloc: Global, g: &Grid) -> Result<Vec<CertCell>, NoMemory>
    ensures { IfOk result (λ cells. AreMade g.now cells.items) }
{
    let degrees = bidegrees(alloc, g)?;
    let mut cells = Vec::new(alloc);
    for degree in degrees.iter() {
        let cell = cell_at(alloc, g, degree.m, degree.a)?;
        cells.push(cell)?;
    }
    Ok(cells)
}

// The bidegrees of the states of the grid.
fn bidegrees(alloc: Global, g: &Grid) -> Result<BTreeSet<Bidegree>, NoMemory>
    ensures { IfOk result (λ degrees. HasBidegrees g.now (factorial (size g.now)) degrees) }
{
    let tables = DegreeTables::of(g);
    let mut degrees = BTreeSet::new(alloc);
    let mut x = State::unrank(g.size(), 0);
    for _code in 0..state_count(g.size()) {
        degrees.insert(tables.degree(&x))?;
        x.advance();
    }
    Ok(degrees)
}

// The cell of a bidegree that some state has. The slice of its Alexander degree is reduced for this cell alone.
fn cell_at(alloc: Global, g: &Grid, m: i32, a: i32) -> Result<CertCell, NoMemory>
    requires { HasState g.now (m, a) }
    ensures { IfOk result (λ cell. IsMadeCell g.now cell × (cell.at ≡ (m, a))) }
{
    cell_of_slice(alloc, g, m, a, AlexSlice::build(alloc, g, a)?)
}

// The cell of a Maslov degree, from the slice of its Alexander degree.
fn cell_of_slice(
    alloc: Global,
    g: &Grid,
    m: i32,
    a: i32,
    mut slice: AlexSlice,
) -> Result<CertCell, NoMemory>
    requires state { HasState g.now (m, a) }
    requires built { slice_complex slice.slice ≡ at_alexander a (grid_complex g.now) }
    ensures { IfOk result (λ cell. IsMadeCell g.now cell × (cell.at ≡ (m, a))) }
{
    let _size = g.size();
    let bump = Bump::new(alloc);
    let log = reduce(alloc, &mut slice, &bump)?;
    let cycles = cycles_of(alloc, g, m, &slice, &log)?;
    let steps = steps_of(alloc, g, m, a, &log)?;
    drop(log);
    Ok(CertCell {
        degree: Bidegree { m, a },
        cycles,
        steps,
    })
}

// The cycle pairs of the states of a Maslov degree that are left of a slice.
fn cycles_of(
    alloc: Global,
    g: &Grid,
    m: i32,
    slice: &AlexSlice,
    log: &CancelLog,
) -> Result<Vec<CyclePair>, NoMemory>
    ensures { IfOk result (λ pairs. pairs.items
        ≡ map (cycle_pair (log_of log.now)) (left_codes g.now (slice_complex slice.now.slice) m)) }
{
    let mut pairs = Vec::new(alloc);
    for code in 0..state_count(g.size()) {
        if is_left(slice, m, code) {
            let cycle = lift(alloc, log, code)?;
            let cocycle = pull(alloc, log, code)?;
            pairs.push(CyclePair { cycle, cocycle })?;
        }
    }
    Ok(pairs)
}

// Whether the slice has this state, with this Maslov degree.
fn is_left(slice: &AlexSlice, m: i32, code: u32) -> bool
    ensures { result ≡ degree_is m ((slice_complex slice.now.slice).degree code) }
{
    match slice.maslov_of(code) {
        Some(degree) => degree == m,
        None => false,
    }
}

// The step pairs of the entries of a log whose source has this bidegree.
fn steps_of(
    alloc: Global,
    g: &Grid,
    m: i32,
    a: i32,
    log: &CancelLog,
) -> Result<Vec<StepPair>, NoMemory>
    requires { IsLog (at_alexander a (grid_complex g.now)) (log_of log.now) }
    ensures { IfOk result (λ pairs. pairs.items ≡ steps_after (has_bidegree_of g.now (m, a)) [] (log_of log.now)) }
{
    let _size = g.size();
    let entries = log.entries();
    let degree = Bidegree { m, a };
    let mut pairs = Vec::new(alloc);
    for k in 0..entries.len() {
        let entry = entries[k];
        if has_bidegree(g, &degree, entry.x) {
            let step = lift_before(alloc, log, k, entry.x)?;
            let probe = pull_before(alloc, log, k, entry.y)?;
            pairs.push(StepPair { step, probe })?;
        }
    }
    Ok(pairs)
}
