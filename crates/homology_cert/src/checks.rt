//! Checking certificates.
ghost use Rattle.std.specs.Prelude.{◌≡◌, ◌+◌, ◌^◌, ◌<◌, ℕ, List, [], length, ◌++◌, map, not, ◌&&◌, All, IfOk};
ghost use Rattle.std.specs.List.{list_all, list_any};
ghost use Rattle.f2_algebra.specs.Chain.{pairs_oddly, codes as codes_of};
ghost use Rattle.f2_algebra.specs.Bigraded.{up_m};
ghost use Rattle.f2_algebra.specs.Certificate.{CyclePair as Pair, StepPair as Step, steps_at};
ghost use Rattle.state_rank.specs.Bijection.{ascending};
ghost use Rattle.state_rank.specs.States.{factorial, unrank};
ghost use Rattle.torus_geom.specs.Marks.{size};
ghost use Rattle.torus_geom.specs.Degrees.{bidegree};
ghost use Rattle.torus_geom.specs.Inner.CodeBorder.{border_of_state as border_of, border as border_of_chain};
ghost use Rattle.torus_geom.specs.Homology.{IsHomologyTable};
ghost use Rattle.homology_cert.specs.Certificates.{Certificate, IsCertificate};
ghost use Rattle.homology_cert.specs.CertificateCodes.{Cell, certificate_of};
ghost use Rattle.homology_cert.specs.Inner.CodeCertificates.{AreStates, HasCycleStates, HasStepStates, HasPairStates, entry_count};
ghost use Rattle.homology_cert.specs.Certificates.{AreSmallDegrees};
ghost use Rattle.homology_cert.specs.Inner.Checks.{AreBorders, step_borders};
ghost use Rattle.homology_cert.specs.Inner.Questions.{at_entry};
ghost use Rattle.homology_cert.specs.Inner.CodeTests.{verdict_of as code_verdict, is_empty_chain, is_cocycle as is_cocycle_of, count_passes as count_passes_of, none_missing as none_missing_of, has_bidegree as has_bidegree_of, all_have as all_have_of, state_count_at as count_at};
ghost use Rattle.homology_cert.specs.CertificateTests.{same_degree, one_below as one_below_of, verdict_of, certified_rows};
ghost use Rattle.homology_cert.specs.Inner.Questions.{first_failing, cycle_pair_questions, cycle_questions, step_pair_questions, step_questions, cell_questions};

use crate::certificates::{Cert, CertCell, CyclePair, StepPair};
use crate::verdicts::{CertTest, CertVerdict};
use f2_chain::{Chain, Cochain};
use gradings::{Bidegree, degree};
use grid_ports::NoMemory;
use rectangles::{border, border_of_state};
use state_rank::{State, state_count};
use std::alloc::Global;
use torus_geom::Grid;

/// Checks the certificate: whether it passes all its tests, and else the first that fails.
///
/// A yes implies the table of ranks of the grid, whoever made the certificate: each bidegree with cycle pairs has their
/// number as its rank, and any other the rank 0. The tests are of degrees, borders, pairings and numbers; no rank is
/// computed. The tests and their order are those of docs/FORMATS.md.
///
/// # Errors
///
/// `NoMemory` if the allocator refuses.
pub fn check_cert(alloc: Global, c: &Cert) -> Result<CertVerdict, NoMemory>
    ensures verdict { IfOk result (λ v. v ≡ verdict_of (certificate_of c.now)) }

    // Whatever the call answers: a certificate that passes implies the table of ranks of its grid.
    ensures table { (d : Certificate) → IsCertificate d → verdict_of d ≡ CertVerdict.Yes
        → IsHomologyTable d.grid (certified_rows d.cells) }
{
    let _ = c.cells();
    verdict_on(alloc, c)
}

// What the check of a certificate says.
fn verdict_on(alloc: Global, c: &Cert) -> Result<CertVerdict, NoMemory>
    ensures { IfOk result (λ v. v ≡ code_verdict c.now) }
{
    let borders = borders_of_states(alloc, c.grid())?;
    let mut entry = 1;
    for cell in c.cells() {
        if let Some((entry, test)) = cell_failure(alloc, c, &borders, cell, entry)? {
            return Ok(CertVerdict::No { entry, test });
        }
        entry += 1 + cell.cycles().len() as u32 + cell.steps().len() as u32;
    }
    if none_missing(c) {
        Ok(CertVerdict::Yes)
    } else {
        Ok(CertVerdict::No {
            entry,
            test: CertTest::Missing,
        })
    }
}

// The first test that a cell or one of its pairs fails. The cell is the entry with the number `entry`.
fn cell_failure(
    alloc: Global,
    c: &Cert,
    borders: &[Chain],
    cell: &CertCell,
    entry: u32,
) -> Result<Option<(u32, CertTest)>, NoMemory>
    requires small { AreSmallDegrees cell.now.at }
    requires states { HasPairStates c.now.grid cell.now }
    requires borders { AreBorders c.now.grid borders.now }
    requires few { entry + 1 + length cell.now.cycles + length cell.now.steps < 2 ^ 32 }
    ensures { IfOk result (λ failure. failure ≡ first_failing (cell_questions c.now entry cell.now)) }
{
    if !count_passes(c, cell) {
        return Ok(Some((entry, CertTest::Count)));
    }
    let first = entry + 1 + cell.cycles().len() as u32;
    match cycles_failure(
        alloc,
        c.grid(),
        borders,
        cell.degree(),
        cell.cycles(),
        entry + 1,
    )? {
        Some(failure) => Ok(Some(failure)),
        None => steps_failure(alloc, c.grid(), cell.degree(), cell.steps(), first),
    }
}

// Whether there are as many states of the bidegree of the cell as its pairs and the step pairs of the cell above
// ask for, and at least one.
fn count_passes(c: &Cert, cell: &CertCell) -> bool
    requires small { AreSmallDegrees cell.now.at }
    requires few { length cell.now.cycles + length cell.now.steps < 2 ^ 32 }
    ensures { result ≡ count_passes_of c.now cell.now }
{
    let count = u64::from(state_count_at(c.grid(), &cell.degree));
    let above = steps_above(c.cells(), &cell.degree);
    count != 0 && count == cell.cycles.len() as u64 + cell.steps.len() as u64 + above
}

// The number of step pairs of the cell one Maslov degree above, 0 if there is none.
fn steps_above(cells: &[CertCell], d: &Bidegree) -> u64
    requires small { AreSmallDegrees (d.now.m, d.now.a) }
    requires few { entry_count cells.now < 2 ^ 32 }
    ensures steps { result ≡ length (steps_at same_degree cells.now (up_m (d.now.m, d.now.a))) }
    ensures few { result < 2 ^ 32 }
{
    for cell in cells {
        if is_above(cell, d) {
            return cell.steps.len() as u64;
        }
    }
    0
}

// Whether the cell is one Maslov degree above `d`.
fn is_above(cell: &CertCell, d: &Bidegree) -> bool
    requires small { AreSmallDegrees (d.now.m, d.now.a) }
    ensures { result ≡ same_degree cell.now.at (up_m (d.now.m, d.now.a)) }
{
    cell.degree.m == d.m + 1 && cell.degree.a == d.a
}

// Whether each degree of a state has a cell.
fn none_missing(c: &Cert) -> bool
    ensures { result ≡ none_missing_of c.now }
{
    let g = c.grid();
    for code in 0..state_count(g.size()) {
        if !has_cell(g, c.cells(), code) {
            return false;
        }
    }
    true
}

// Whether one of the cells is at the bidegree of the state of index `code`.
fn has_cell(g: &Grid, cells: &[CertCell], code: u32) -> bool
    requires { code < factorial (size g.now) }
    ensures { result ≡ list_any (λ (cell : Cell). has_bidegree_of g.now cell.at code) cells.now }
{
    cells.iter().any(|cell| has_bidegree(g, &cell.degree, code))
}

// The first test that the cycle pairs of a cell fail. The first of them is the entry with the number `entry`.
fn cycles_failure(
    alloc: Global,
    g: &Grid,
    borders: &[Chain],
    d: &Bidegree,
    pairs: &[CyclePair],
    entry: u32,
) -> Result<Option<(u32, CertTest)>, NoMemory>
    requires states { All (HasCycleStates g.now) pairs.now }
    requires borders { AreBorders g.now borders.now }
    requires few { entry + length pairs.now < 2 ^ 32 }
    ensures { IfOk result (λ failure. failure
        ≡ first_failing (cycle_questions g.now (d.now.m, d.now.a) entry [] pairs.now)) }
{
    for k in 0..pairs.len() {
        let failure = cycle_pair_failure(
            alloc,
            g,
            borders,
            d,
            &pairs[k],
            &pairs[..k],
            &pairs[k + 1..],
        )?;
        if let Some(test) = failure {
            return Ok(Some((entry + k as u32, test)));
        }
    }
    Ok(None)
}

// The first test that a cycle pair of a cell fails. `earlier` and `later` are the other pairs of the cell.
fn cycle_pair_failure(
    alloc: Global,
    g: &Grid,
    borders: &[Chain],
    d: &Bidegree,
    pair: &CyclePair,
    earlier: &[CyclePair],
    later: &[CyclePair],
) -> Result<Option<CertTest>, NoMemory>
    requires states { HasCycleStates g.now pair.now }
    requires borders { AreBorders g.now borders.now }
    ensures { (entry : ℕ) → IfOk result (λ failure. at_entry entry failure
        ≡ first_failing (cycle_pair_questions g.now (d.now.m, d.now.a) entry pair.now (earlier.now ++ later.now))) }
{
    if !all_have(g, d, &pair.cycle) || !all_have(g, d, &pair.cocycle) {
        return Ok(Some(CertTest::Degree));
    }
    if !is_cycle(alloc, g, &pair.cycle)? {
        return Ok(Some(CertTest::Cycle));
    }
    if !is_cocycle(g, borders, &pair.cocycle) {
        return Ok(Some(CertTest::Cocycle));
    }
    if !pairs_with_own_alone(pair, earlier, later) {
        return Ok(Some(CertTest::Pairing));
    }
    Ok(None)
}

// Whether the border of the chain is empty.
fn is_cycle(alloc: Global, g: &Grid, z: &Chain) -> Result<bool, NoMemory>
    requires { AreStates g.now z.now }
    ensures { IfOk result (λ empty. empty ≡ is_empty_chain (border_of_chain g.now z.now)) }
{
    let border = border(alloc, g, z)?;
    Ok(border.codes().is_empty())
}

// Whether the cochain pairs evenly with the border of every state.
fn is_cocycle(g: &Grid, borders: &[Chain], f: &Cochain) -> bool
    requires { AreBorders g.now borders.now }
    ensures { result ≡ is_cocycle_of g.now f.now }
{
    pairs_evenly(borders, f)
}

// Whether the cocycle of a pair pairs oddly with its own cycle, and evenly with those of the others.
fn pairs_with_own_alone(pair: &CyclePair, earlier: &[CyclePair], later: &[CyclePair]) -> bool
    ensures { result ≡ (pairs_oddly pair.now.cycle pair.now.cocycle
        && list_all (λ (q : Pair). not (pairs_oddly q.cycle pair.now.cocycle)) (earlier.now ++ later.now)) }
{
    pair.cycle.pair(&pair.cocycle)
        && cycles_pair_evenly(earlier, &pair.cocycle)
        && cycles_pair_evenly(later, &pair.cocycle)
}

// Whether the cocycle pairs evenly with the cycle of each of these pairs.
fn cycles_pair_evenly(pairs: &[CyclePair], f: &Cochain) -> bool
    ensures { result ≡ list_all (λ (p : Pair). not (pairs_oddly p.cycle f.now)) pairs.now }
{
    pairs.iter().all(|p| !p.cycle.pair(f))
}

// The first test that the step pairs of a cell fail. The first of them is the entry with the number `entry`.
fn steps_failure(
    alloc: Global,
    g: &Grid,
    d: &Bidegree,
    pairs: &[StepPair],
    entry: u32,
) -> Result<Option<(u32, CertTest)>, NoMemory>
    requires small { AreSmallDegrees (d.now.m, d.now.a) }
    requires states { All (HasStepStates g.now) pairs.now }
    requires few { entry + length pairs.now < 2 ^ 32 }
    ensures { IfOk result (λ failure. failure
        ≡ first_failing (step_questions g.now (d.now.m, d.now.a) entry pairs.now)) }
{
    let borders = borders_of_steps(alloc, g, pairs)?;
    for k in 0..pairs.len() {
        if let Some(test) = step_pair_failure(g, d, &pairs[k], &borders[k], &borders[k + 1..]) {
            return Ok(Some((entry + k as u32, test)));
        }
    }
    Ok(None)
}

// The borders of the steps.
fn borders_of_steps(alloc: Global, g: &Grid, pairs: &[StepPair]) -> Result<Vec<Chain>, NoMemory>
    requires { All (HasStepStates g.now) pairs.now }
    ensures { IfOk result (λ borders. borders.items ≡ step_borders g.now pairs.now) }
{
    let mut borders = Vec::new(alloc);
    for pair in pairs {
        borders.push(border(alloc, g, &pair.step)?)?;
    }
    Ok(borders)
}

// The first test that a step pair of a cell fails. `own` is the border of its step, and `later` are those of the
// later steps of the cell.
fn step_pair_failure(
    g: &Grid,
    d: &Bidegree,
    pair: &StepPair,
    own: &Chain,
    later: &[Chain],
) -> Option<CertTest>
    requires small { AreSmallDegrees (d.now.m, d.now.a) }
    requires states { HasStepStates g.now pair.now }
    requires own { own.now ≡ border_of_chain g.now pair.now.step }
    ensures { (entry : ℕ) (pairs : List Step) → later.now ≡ step_borders g.now pairs → at_entry entry result
        ≡ first_failing (step_pair_questions g.now (d.now.m, d.now.a) entry pair.now pairs) }
{
    if !has_step_degrees(g, d, pair) {
        return Some(CertTest::Degree);
    }
    if !is_probe(own, later, &pair.probe) {
        return Some(CertTest::Probe);
    }
    None
}

// Whether the states of the step have the bidegree of its cell, and those of the probe one Maslov degree less.
fn has_step_degrees(g: &Grid, d: &Bidegree, pair: &StepPair) -> bool
    requires small { AreSmallDegrees (d.now.m, d.now.a) }
    requires states { HasStepStates g.now pair.now }
    ensures { result ≡ (all_have_of g.now (d.now.m, d.now.a) pair.now.step
        && all_have_of g.now (one_below_of (d.now.m, d.now.a)) pair.now.probe) }
{
    all_have(g, d, &pair.step) && all_have(g, &one_below(d), &pair.probe)
}

// The bidegree with a Maslov degree one lower.
fn one_below(d: &Bidegree) -> Bidegree
    requires { AreSmallDegrees (d.now.m, d.now.a) }
    ensures { (result.m, result.a) ≡ one_below_of (d.now.m, d.now.a) }
{
    Bidegree { m: d.m - 1, a: d.a }
}

// Whether the probe pairs oddly with one chain, and evenly with each of the others.
fn is_probe(own: &Chain, others: &[Chain], probe: &Cochain) -> bool
    ensures { result ≡ (pairs_oddly own.now probe.now
        && list_all (λ z. not (pairs_oddly z probe.now)) others.now) }
{
    own.pair(probe) && pairs_evenly(others, probe)
}

// Whether the cochain pairs evenly with each of these chains.
fn pairs_evenly(chains: &[Chain], f: &Cochain) -> bool
    ensures { result ≡ list_all (λ z. not (pairs_oddly z f.now)) chains.now }
{
    chains.iter().all(|z| !z.pair(f))
}

// The borders of all states of the grid, by index.
fn borders_of_states(alloc: Global, g: &Grid) -> Result<Vec<Chain>, NoMemory>
    ensures { IfOk result (λ borders. AreBorders g.now borders.items) }
{
    let n = g.size();
    let mut borders = Vec::new(alloc);
    for code in 0..state_count(n) {
        borders.push(border_of_state(alloc, g, &State::unrank(n, code))?)?;
    }
    Ok(borders)
}

// The number of states of this bidegree.
fn state_count_at(g: &Grid, d: &Bidegree) -> u32
    ensures { result ≡ count_at g.now (d.now.m, d.now.a) }
{
    let mut count = 0;
    for code in 0..state_count(g.size()) {
        count += u32::from(has_bidegree(g, d, code));
    }
    count
}

// Whether each state of the set has this bidegree.
fn all_have(g: &Grid, d: &Bidegree, z: &Chain) -> bool
    requires { AreStates g.now z.now }
    ensures { result ≡ all_have_of g.now (d.now.m, d.now.a) z.now }
{
    z.codes().iter().all(|code| has_bidegree(g, d, *code))
}

/// Whether the state of index `code` has this bidegree.
pub(crate) fn has_bidegree(g: &Grid, d: &Bidegree, code: u32) -> bool
    requires { code < factorial (size g.now) }
    ensures { result ≡ has_bidegree_of g.now (d.now.m, d.now.a) code }
{
    let here = degree(g, &State::unrank(g.size(), code));
    here.m == d.m && here.a == d.a
}
