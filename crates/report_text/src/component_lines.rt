//! Lines of tables by the degrees at the components of a link.
ghost use Rattle.std.specs.Prelude.{◌≡◌, ◌++◌, IfOk, OnOk, Some};
ghost use Rattle.std.specs.List.{flat_map};
ghost use Rattle.std.specs.Option.{option_copied};
ghost use Rattle.report_text.specs.Lines.{component_degree_text, exponent_text, multi_row_line, multi_lines as multi_lines_of, multi_hat_lines as multi_hat_lines_of};

use grid_ports::NoMemory;
use hat_division::{MultiRow, MultiTable};
use std::alloc::Global;
use text_lines::push_number;

/// The lines of a table of ranks by component: `ranks K` with the number of rows, then a line `rank M D1 .. Dl R` for
/// each row, in the order of the table, with the Maslov degree M, a doubled Alexander degree for each component and the
/// rank R.
///
/// # Errors
///
/// `NoMemory` if the allocator refuses.
pub fn multi_lines(alloc: Global, t: &MultiTable) -> Result<Vec<u8>, NoMemory>
    ensures { IfOk result (λ lines. lines.items ≡ multi_lines_of t.now) }
{
    let rows = t.rows();
    let mut lines = Vec::from_slice(alloc, b"ranks ")?;
    push_number(&mut lines, rows.len())?;
    lines.push(b'\n')?;
    push_rows(&mut lines, rows)?;
    Ok(lines)
}

/// The lines of a hat by component: `hat exponents E1 .. El rows K` with an exponent for each component and the number
/// of rows, then a line `rank M D1 .. Dl R` for each row, in order; or the one line `hat none`.
///
/// # Errors
///
/// `NoMemory` if the allocator refuses.
pub fn multi_hat_lines(
    alloc: Global,
    exps: &[u8],
    q: Option<&MultiTable>,
) -> Result<Vec<u8>, NoMemory>
    ensures { IfOk result (λ lines. lines.items ≡ multi_hat_lines_of exps.now (option_copied q.entry)) }
{
    match q {
        Some(quotient) => quotient_lines(alloc, exps, quotient),
        None => Ok(Vec::from_slice(alloc, b"hat none\n")?),
    }
}

// The lines of a hat that there is.
fn quotient_lines(alloc: Global, exps: &[u8], quotient: &MultiTable) -> Result<Vec<u8>, NoMemory>
    ensures { IfOk result (λ lines. lines.items ≡ multi_hat_lines_of exps.now (Some quotient.now)) }
{
    let hat = quotient.rows();
    let mut lines = Vec::from_slice(alloc, b"hat exponents")?;
    push_exponents(&mut lines, exps)?;
    lines.extend_from_slice(b" rows ")?;
    push_number(&mut lines, hat.len())?;
    lines.push(b'\n')?;
    push_rows(&mut lines, hat)?;
    Ok(lines)
}

// Appends exponents, each after a space.
fn push_exponents(line: &mut Vec<u8>, exps: &[u8]) -> Result<(), NoMemory>
    ensures { OnOk result (line.new.items ≡ line.old.items ++ flat_map exponent_text exps.now) }
{
    for e in exps {
        push_exponent(line, *e)?;
    }
    Ok(())
}

// Appends an exponent after a space.
fn push_exponent(line: &mut Vec<u8>, e: u8) -> Result<(), NoMemory>
    ensures { OnOk result (line.new.items ≡ line.old.items ++ exponent_text e) }
{
    line.push(b' ')?;
    push_number(line, e)
}

// Appends the lines of rows.
fn push_rows(lines: &mut Vec<u8>, rows: &[MultiRow]) -> Result<(), NoMemory>
    ensures { OnOk result (lines.new.items ≡ lines.old.items ++ flat_map multi_row_line rows.now) }
{
    for row in rows {
        push_row(lines, row)?;
    }
    Ok(())
}

// Appends the line of a row.
fn push_row(lines: &mut Vec<u8>, row: &MultiRow) -> Result<(), NoMemory>
    ensures { OnOk result (lines.new.items ≡ lines.old.items ++ multi_row_line row.now) }
{
    lines.extend_from_slice(b"rank ")?;
    push_number(lines, row.m)?;
    push_degrees(lines, row.d.degrees())?;
    lines.push(b' ')?;
    push_number(lines, row.rank)?;
    lines.push(b'\n')?;
    Ok(())
}

// Appends the degrees at the components, each after a space.
fn push_degrees(line: &mut Vec<u8>, degrees: &[i32]) -> Result<(), NoMemory>
    ensures { OnOk result (line.new.items ≡ line.old.items ++ flat_map component_degree_text degrees.now) }
{
    for d in degrees {
        push_degree(line, *d)?;
    }
    Ok(())
}

// Appends a degree after a space.
fn push_degree(line: &mut Vec<u8>, d: i32) -> Result<(), NoMemory>
    ensures { OnOk result (line.new.items ≡ line.old.items ++ component_degree_text d) }
{
    line.push(b' ')?;
    push_number(line, d)
}
