//! Places of the text of a certificate, and where a line leads.
ghost use Rattle.std.specs.Prelude.{◌≡◌, ◌≢◌, ℕ, ℤ, List, [], ◌⊎◌, length, codes as codes_of_text, ◌↔◌, IsTrue, IfOk, MatchOption};
ghost use Rattle.f2_algebra.specs.Chain.{Chain as Codes};
ghost use Rattle.state_rank.specs.Bijection.{IsBijection};
ghost use Rattle.torus_geom.specs.Marks.{Marks, size, IsGrid};
ghost use Rattle.homology_cert.specs.CertificateCodes.{Cell};
ghost use Rattle.homology_cert.specs.Certificates.{AreSmallDegrees};
ghost use Rattle.homology_cert.specs.Inner.CodeCertificates.{AreStates};
ghost use Rattle.homology_cert.specs.CertificateText.{marks_line, degree_line};
ghost use Rattle.text_lines.specs.Inner.CodeLines.{set_line};
ghost use Rattle.homology_cert.specs.Inner.Reading.{size_line, IsSmallSize, LeadsTo, IsAt, new_cell, with_cycle, with_step};

use crate::certificates::CertCell;
use crate::making::MAX_CERTIFIED_SIZE;
use crate::words::{after_prefix, degree_of, marks_of, set_of};
use f2_chain::Chain;
use gradings::Bidegree;
use grid_ports::NoMemory;
use state_rank::State;
use std::alloc::Global;
use torus_geom::{Grid, GridFault};

/// Where a line of a certificate stands: what came before it.
#[derive(Drop)]
pub(crate) enum Place {
    /// Nothing.
    Start,
    /// The first line.
    Size,
    /// The line of the size.
    OLine(u8),
    /// The line of the O.
    XLine(State),
    /// The grid.
    NoCell(Grid),
    /// A cell, or one of its pairs.
    InCell(Grid, CertCell),
    /// The line of a cycle.
    InCycle(Grid, CertCell, Chain),
    /// The line of a step.
    InStep(Grid, CertCell, Chain),
    /// The last line.
    End(Grid),
}

/// The place after the line, if it may stand at the place.
pub(crate) fn next_place(
    alloc: Global,
    place: Place,
    cells: &mut Vec<CertCell>,
    line: &[u8],
) -> Result<Option<Place>, NoMemory>
    requires at { IsAt place cells.old.items }
    ensures { IfOk result (λ next. MatchOption next
        ((q : Place) (es : List Cell) → ¬ LeadsTo place cells.old.items line.now q es)
        (λ q. LeadsTo place cells.old.items line.now q cells.new.items)) }
{
    match place {
        Place::Start => Ok(first_place(line)),
        Place::Size => Ok(size_place(line)),
        Place::OLine(n) => Ok(o_place(n, line)),
        Place::XLine(o) => Ok(x_place(o, line)),
        Place::NoCell(g) => Ok(first_cell(alloc, g, line)),
        Place::InCell(g, cell) => cell_place(alloc, g, cell, cells, line),
        Place::InCycle(g, cell, cycle) => cycle_place(alloc, g, cell, cycle, line),
        Place::InStep(g, cell, step) => step_place(alloc, g, cell, step, line),
        Place::End(_) => Ok(None),
    }
}

// After the start.
fn first_place(line: &[u8]) -> Option<Place>
    ensures { MatchOption result (line.now ≢ codes_of_text "gridcert 1")
        (λ q. (line.now ≡ codes_of_text "gridcert 1") × (q ≡ Place.Size)) }
{
    if line == b"gridcert 1".as_slice() {
        Some(Place::Size)
    } else {
        None
    }
}

// After the first line.
fn size_place(line: &[u8]) -> Option<Place>
    ensures { MatchOption result ((n : ℕ) → IsSmallSize n → line.now ≢ size_line n)
        (λ q. (n : ℕ) × IsSmallSize n × (line.now ≡ size_line n) × (q ≡ Place.OLine n)) }
{
    let Some(digits) = after_prefix(line, b"grid ".as_slice()) else {
        return None;
    };
    if digits.len() != 1 || digits[0] < b'2' || b'0' + MAX_CERTIFIED_SIZE < digits[0] {
        return None;
    }
    Some(Place::OLine(digits[0] - b'0'))
}

// After the line of the size.
fn o_place(n: u8, line: &[u8]) -> Option<Place>
    requires { IsSmallSize n }
    ensures { MatchOption result ((o : List ℕ) → IsBijection n o → line.now ≢ marks_line (codes_of_text "O") o)
        (λ q. (o : List ℕ) × IsBijection n o × (line.now ≡ marks_line (codes_of_text "O") o) × (q ≡ Place.XLine o)) }
{
    marks_of(b'O', n, line).map(Place::XLine)
}

// After the line of the O.
fn x_place(o: State, line: &[u8]) -> Option<Place>
    requires { IsSmallSize (length o) }
    ensures { MatchOption result
        ((x : List ℕ) → IsGrid (record { o = o; x = x }) → line.now ≢ marks_line (codes_of_text "X") x)
        (λ q. (x : List ℕ) × IsGrid (record { o = o; x = x }) × (line.now ≡ marks_line (codes_of_text "X") x)
        × (q ≡ Place.NoCell (record { o = o; x = x }))) }
{
    let Some(x) = marks_of(b'X', o.size(), line) else {
        return None;
    };
    match Grid::of(o.rows(), x.rows()) {
        Ok(grid) => Some(Place::NoCell(grid)),
        Err(GridFault::NotPermutation) => None,
        Err(GridFault::SameSquare) => None,
    }
}

// After the grid.
fn first_cell(alloc: Global, g: Grid, line: &[u8]) -> Option<Place>
    ensures { MatchOption result ((q : Place) (es : List Cell) → ¬ LeadsTo (Place.NoCell g) [] line.now q es)
        (λ q. LeadsTo (Place.NoCell g) [] line.now q []) }
{
    if is_last_line(line) {
        return Some(Place::End(g));
    }
    let Some(d) = degree_of(line) else {
        return None;
    };
    Some(Place::InCell(g, CertCell::new(alloc, d)))
}

// After the line of a cell, or of one of its pairs.
fn cell_place(
    alloc: Global,
    g: Grid,
    cell: CertCell,
    cells: &mut Vec<CertCell>,
    line: &[u8],
) -> Result<Option<Place>, NoMemory>
    ensures { IfOk result (λ next. MatchOption next
        ((q : Place) (es : List Cell) → ¬ LeadsTo (Place.InCell g cell) cells.old.items line.now q es)
        (λ q. LeadsTo (Place.InCell g cell) cells.old.items line.now q cells.new.items)) }
{
    if is_last_line(line) {
        cells.push(cell)?;
        return Ok(Some(Place::End(g)));
    }
    let Some(d) = degree_of(line) else {
        return pair_place(alloc, g, cell, line);
    };
    if !cell.degree().stands_before(&d) {
        return Ok(None);
    }
    cells.push(cell)?;
    Ok(Some(Place::InCell(g, CertCell::new(alloc, d))))
}

// After the line of a cell or of one of its pairs, if the line is neither the last nor that of a bidegree.
fn pair_place(
    alloc: Global,
    g: Grid,
    cell: CertCell,
    line: &[u8],
) -> Result<Option<Place>, NoMemory>
    ensures { IfOk result (λ next. MatchOption next
        (((z : Codes) → AreStates g z → cell.steps ≡ [] → line.now ≢ set_line (codes_of_text "cycle") (size g) z)
        × ((z : Codes) → AreStates g z → line.now ≢ set_line (codes_of_text "step") (size g) z))
        (λ q. ((z : Codes) × AreStates g z × (cell.steps ≡ [])
        × (line.now ≡ set_line (codes_of_text "cycle") (size g) z) × (q ≡ Place.InCycle g cell z))
        ⊎ ((z : Codes) × AreStates g z
        × (line.now ≡ set_line (codes_of_text "step") (size g) z) × (q ≡ Place.InStep g cell z)))) }
{
    let step = set_of(alloc, b"step", &g, line)?;
    if let Some(step) = step {
        return Ok(Some(Place::InStep(g, cell, step)));
    }
    if !cell.steps().is_empty() {
        return Ok(None);
    }
    let cycle = set_of(alloc, b"cycle", &g, line)?;
    match cycle {
        Some(cycle) => Ok(Some(Place::InCycle(g, cell, cycle))),
        None => Ok(None),
    }
}

// After the line of a cycle.
fn cycle_place(
    alloc: Global,
    g: Grid,
    cell: CertCell,
    cycle: Chain,
    line: &[u8],
) -> Result<Option<Place>, NoMemory>
    ensures { IfOk result (λ next. MatchOption next
        ((f : Codes) → AreStates g f → line.now ≢ set_line (codes_of_text "cocycle") (size g) f)
        (λ q. (f : Codes) × AreStates g f × (line.now ≡ set_line (codes_of_text "cocycle") (size g) f)
        × (q ≡ Place.InCell g (with_cycle cell cycle f)))) }
{
    match set_of(alloc, b"cocycle", &g, line)? {
        Some(cocycle) => Ok(Some(Place::InCell(g, cell.with_cycle(cycle, cocycle)?))),
        None => Ok(None),
    }
}

// After the line of a step.
fn step_place(
    alloc: Global,
    g: Grid,
    cell: CertCell,
    step: Chain,
    line: &[u8],
) -> Result<Option<Place>, NoMemory>
    ensures { IfOk result (λ next. MatchOption next
        ((f : Codes) → AreStates g f → line.now ≢ set_line (codes_of_text "probe") (size g) f)
        (λ q. (f : Codes) × AreStates g f × (line.now ≡ set_line (codes_of_text "probe") (size g) f)
        × (q ≡ Place.InCell g (with_step cell step f)))) }
{
    match set_of(alloc, b"probe", &g, line)? {
        Some(probe) => Ok(Some(Place::InCell(g, cell.with_step(step, probe)?))),
        None => Ok(None),
    }
}

// Whether the line is the last of a certificate.
fn is_last_line(line: &[u8]) -> bool
    ensures { IsTrue result ↔ (line.now ≡ codes_of_text "end") }
{
    line == b"end".as_slice()
}
