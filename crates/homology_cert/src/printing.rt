//! The text of a certificate.
ghost use Rattle.std.specs.Prelude.{◌≡◌, ◌∷◌, [], ◌++◌, IfOk, OnOk, All};
ghost use Rattle.std.specs.List.{flat_map};
ghost use Rattle.torus_geom.specs.Marks.{size};
ghost use Rattle.homology_cert.specs.CertificateCodes.{certificate_of};
ghost use Rattle.homology_cert.specs.Inner.CodeCertificates.{AreStates, HasCycleStates, HasStepStates, HasPairStates};
ghost use Rattle.homology_cert.specs.CertificateText.{certificate_text, text_of_lines, certificate_head_lines, degree_line, marks_line};
ghost use Rattle.homology_cert.specs.Inner.CodeText.{cell_lines, cycle_lines, step_lines};
ghost use Rattle.text_lines.specs.Inner.CodeLines.{set_line};

use crate::certificates::{Cert, CertCell, CyclePair, StepPair};
use f2_chain::Chain;
use gradings::Bidegree;
use grid_ports::NoMemory;
use std::alloc::Global;
use text_lines::{push_number, push_set_line};
use torus_geom::Grid;

/// The text of the certificate, as docs/FORMATS.md says.
///
/// # Errors
///
/// `NoMemory` if the allocator refuses.
pub fn print_cert(alloc: Global, c: &Cert) -> Result<Vec<u8>, NoMemory>
    ensures text { IfOk result (λ text. text.items ≡ certificate_text (certificate_of c.now)) }
{
    let g = c.grid();
    let mut text = Vec::new(alloc);
    push_head(&mut text, g)?;
    push_cells(&mut text, g, c.cells())?;
    text.extend_from_slice(b"end\n")?;
    Ok(text)
}

// Appends the first line, and the lines of the grid.
fn push_head(text: &mut Vec<u8>, g: &Grid) -> Result<(), NoMemory>
    ensures { OnOk result (text.new.items ≡ text.old.items ++ text_of_lines (certificate_head_lines g.now)) }
{
    text.extend_from_slice(b"gridcert 1\ngrid ")?;
    push_number(text, g.size())?;
    text.push(b'\n')?;
    push_marks(text, b'O', g.o_rows())?;
    push_marks(text, b'X', g.x_rows())?;
    Ok(())
}

// Appends a line of marks: the letter, and the row of each column.
fn push_marks(text: &mut Vec<u8>, letter: u8, rows: &[u8]) -> Result<(), NoMemory>
    ensures { OnOk result (text.new.items ≡ text.old.items ++ (marks_line (letter ∷ []) rows.now ++ 10 ∷ [])) }
{
    text.push(letter)?;
    for row in rows {
        text.push(b' ')?;
        push_number(text, *row)?;
    }
    text.push(b'\n')?;
    Ok(())
}

// Appends the lines of cells.
fn push_cells(text: &mut Vec<u8>, g: &Grid, cells: &[CertCell]) -> Result<(), NoMemory>
    requires { All (HasPairStates g.now) cells.now }
    ensures { OnOk result (text.new.items
        ≡ text.old.items ++ text_of_lines (flat_map (cell_lines (size g.now)) cells.now)) }
{
    for cell in cells {
        push_cell(text, g, cell)?;
    }
    Ok(())
}

// Appends the lines of a cell.
fn push_cell(text: &mut Vec<u8>, g: &Grid, cell: &CertCell) -> Result<(), NoMemory>
    requires { HasPairStates g.now cell.now }
    ensures { OnOk result (text.new.items ≡ text.old.items ++ text_of_lines (cell_lines (size g.now) cell.now)) }
{
    push_degree(text, cell.degree())?;
    push_cycles(text, g, cell.cycles())?;
    push_steps(text, g, cell.steps())
}

// Appends the lines of cycle pairs.
fn push_cycles(text: &mut Vec<u8>, g: &Grid, pairs: &[CyclePair]) -> Result<(), NoMemory>
    requires { All (HasCycleStates g.now) pairs.now }
    ensures { OnOk result (text.new.items
        ≡ text.old.items ++ text_of_lines (flat_map (cycle_lines (size g.now)) pairs.now)) }
{
    for pair in pairs {
        push_set(text, b"cycle", g, &pair.cycle)?;
        push_set(text, b"cocycle", g, &pair.cocycle)?;
    }
    Ok(())
}

// Appends the lines of step pairs.
fn push_steps(text: &mut Vec<u8>, g: &Grid, pairs: &[StepPair]) -> Result<(), NoMemory>
    requires { All (HasStepStates g.now) pairs.now }
    ensures { OnOk result (text.new.items
        ≡ text.old.items ++ text_of_lines (flat_map (step_lines (size g.now)) pairs.now)) }
{
    for pair in pairs {
        push_set(text, b"step", g, &pair.step)?;
        push_set(text, b"probe", g, &pair.probe)?;
    }
    Ok(())
}

// Appends the line of a bidegree.
fn push_degree(text: &mut Vec<u8>, d: &Bidegree) -> Result<(), NoMemory>
    ensures { OnOk result (text.new.items ≡ text.old.items ++ (degree_line (d.now.m, d.now.a) ++ 10 ∷ [])) }
{
    text.extend_from_slice(b"cell ")?;
    push_number(text, d.m)?;
    text.push(b' ')?;
    push_number(text, d.a)?;
    text.push(b'\n')?;
    Ok(())
}

// Appends the line of a word and a set of states.
fn push_set(text: &mut Vec<u8>, word: &[u8], g: &Grid, z: &Chain) -> Result<(), NoMemory>
    requires { AreStates g.now z.now }
    ensures { OnOk result (text.new.items ≡ text.old.items ++ (set_line word.now (size g.now) z.now ++ 10 ∷ [])) }
{
    push_set_line(text, word, g.size(), z)
}
