//! Lines of values.
ghost use Rattle.std.specs.Prelude.{◌≡◌, ◌+◌, ◌<◌, ◌∷◌, [], ◌++◌, length, codes, All, IfOk, OnOk, Some, if◌then◌else◌};
ghost use Rattle.std.specs.List.{flat_map};
ghost use Rattle.std.specs.Option.{option_copied};
ghost use Rattle.state_rank.specs.Bijection.{IsSize};
ghost use Rattle.grid_text.specs.Commands.{sign_word};
ghost use Rattle.report_text.specs.Lines.{front_line as front_line_of, class_line as class_line_of, verdict_word as verdict_word_of, row_line, table_lines as table_lines_of, corank_lines as corank_lines_of, hat_lines as hat_lines_of, refused_line as refused_line_of, euler_line, euler_lines as euler_lines_of};
ghost use Rattle.text_lines.specs.Lines.{line, chain_line};
ghost use Rattle.torus_geom.specs.Codes.{HasIndices, states_of};

use f2_chain::Chain;
use front_data::FrontNumbers;
use gradings::Bidegree;
use grid_euler::{EulerRow, EulerTable};
use grid_ports::NoMemory;
use grid_text::Sign;
use hat_division::{Table, TableRow};
use state_rank::State;
use std::alloc::Global;
use text_lines::{push_number, push_set_line};

/// The line of the classical invariants of a front: `front tb T rot R components L`.
///
/// # Errors
///
/// `NoMemory` if the allocator refuses.
pub fn front_line(alloc: Global, f: &FrontNumbers) -> Result<Vec<u8>, NoMemory>
    ensures { IfOk result (λ line.
        line.items ≡ front_line_of f.now.tb f.now.rot f.now.components) }
{
    let mut line = Vec::from_slice(alloc, b"front tb ")?;
    push_number(&mut line, f.tb)?;
    line.extend_from_slice(b" rot ")?;
    push_number(&mut line, f.rot)?;
    line.extend_from_slice(b" components ")?;
    push_number(&mut line, f.components)?;
    line.push(b'\n')?;
    Ok(line)
}

/// The line of a class: `class + S at M A alive`, or `class - S at M A null`, with the sign, the state
/// `x` that stands for the class, and its Maslov and Alexander degrees.
///
/// # Errors
///
/// `NoMemory` if the allocator refuses.
pub fn class_line(
    alloc: Global,
    sign: Sign,
    x: &State,
    d: Bidegree,
    alive: bool,
) -> Result<Vec<u8>, NoMemory>
    ensures { IfOk result (λ line. line.items ≡ class_line_of sign x.now d.m d.a alive) }
{
    let mut line = Vec::from_slice(alloc, b"class ")?;
    line.push(sign_byte(sign))?;
    line.push(b' ')?;
    x.push_word(&mut line)?;
    line.extend_from_slice(b" at ")?;
    push_number(&mut line, d.m)?;
    line.push(b' ')?;
    push_number(&mut line, d.a)?;
    line.push(b' ')?;
    line.extend_from_slice(verdict_word(alive).as_bytes())?;
    line.push(b'\n')?;
    Ok(line)
}

/// The word for what a class is: `alive` or `null`.
pub fn verdict_word(alive: bool) -> &'static str
    ensures { result.now ≡ verdict_word_of alive }
{
    if alive { "alive" } else { "null" }
}

/// The lines of a table of ranks: `ranks K` with the number of rows, then a line `rank M A D` for each
/// row, in the order of the table, with the Maslov degree M, the Alexander degree A and the rank D.
///
/// # Errors
///
/// `NoMemory` if the allocator refuses.
pub fn table_lines(alloc: Global, t: &Table) -> Result<Vec<u8>, NoMemory>
    ensures { IfOk result (λ lines. lines.items ≡ table_lines_of t.now) }
{
    let rows = t.rows();
    let mut lines = Vec::from_slice(alloc, b"ranks ")?;
    push_number(&mut lines, rows.len())?;
    lines.push(b'\n')?;
    push_rows(&mut lines, rows)?;
    Ok(lines)
}

/// The lines of a table of coranks: `coranks K` with the number of rows, then a line `rank M A D` for each row, in the
/// order of the table.
///
/// # Errors
///
/// `NoMemory` if the allocator refuses.
pub fn corank_lines(alloc: Global, t: &Table) -> Result<Vec<u8>, NoMemory>
    ensures { IfOk result (λ lines. lines.items ≡ corank_lines_of t.now) }
{
    let coranks = t.rows();
    let mut table = Vec::from_slice(alloc, b"coranks ")?;
    push_number(&mut table, coranks.len())?;
    table.push(b'\n')?;
    push_rows(&mut table, coranks)?;
    Ok(table)
}

/// The lines of a hat: `hat exponent E rows K` with the exponent and the number of rows, then a line
/// `rank M A D` for each row, in order; or the one line `hat none`.
///
/// # Errors
///
/// `NoMemory` if the allocator refuses.
pub fn hat_lines(alloc: Global, exponent: u8, q: Option<&Table>) -> Result<Vec<u8>, NoMemory>
    ensures { IfOk result (λ lines. lines.items ≡ hat_lines_of exponent (option_copied q.entry)) }
{
    match q {
        Some(quotient) => quotient_lines(alloc, exponent, quotient),
        None => Ok(Vec::from_slice(alloc, b"hat none\n")?),
    }
}

/// The line of a set of states: `word`, then the states of size `n` whose indices are in `z`, in ascending
/// order. An empty set adds nothing to the word, which may be any, as `bound` or `bounds notcycle`.
///
/// # Errors
///
/// `NoMemory` if the allocator refuses.
pub fn set_line(alloc: Global, word: &str, n: u8, z: &Chain) -> Result<Vec<u8>, NoMemory>
    requires size { IsSize n }
    requires indices { HasIndices n z.now }
    ensures { IfOk result (λ text. text.items ≡ line (chain_line word.now n (states_of n z.now))) }
{
    let mut text = Vec::new(alloc);
    push_set_line(&mut text, word.as_bytes(), n, z)?;
    Ok(text)
}

/// The line of a refusal: `refused WORD line L` with the word of the fault and the number of its line.
///
/// # Errors
///
/// `NoMemory` if the allocator refuses.
pub fn refused_line(alloc: Global, word: &str, line: u32) -> Result<Vec<u8>, NoMemory>
    ensures { IfOk result (λ text. text.items ≡ refused_line_of word.now line) }
{
    let mut text = Vec::from_slice(alloc, b"refused ")?;
    text.extend_from_slice(word.as_bytes())?;
    text.extend_from_slice(b" line ")?;
    push_number(&mut text, line)?;
    text.push(b'\n')?;
    Ok(text)
}

/// The lines of the Euler numbers: `euler K` with the number of rows, then a line `at A E` for each row, in the
/// order of the table, with the Alexander degree A and the number E.
///
/// # Errors
///
/// `NoMemory` if the allocator refuses.
pub fn euler_lines(alloc: Global, t: &EulerTable) -> Result<Vec<u8>, NoMemory>
    ensures { IfOk result (λ lines. lines.items ≡ euler_lines_of t.now) }
{
    let numbers = t.rows();
    let mut lines = Vec::from_slice(alloc, b"euler ")?;
    push_number(&mut lines, numbers.len())?;
    lines.push(b'\n')?;
    push_euler_rows(&mut lines, numbers)?;
    Ok(lines)
}

// The lines of a hat that there is.
fn quotient_lines(alloc: Global, exponent: u8, quotient: &Table) -> Result<Vec<u8>, NoMemory>
    ensures { IfOk result (λ lines. lines.items ≡ hat_lines_of exponent (Some quotient.now)) }
{
    let hat = quotient.rows();
    let mut lines = Vec::from_slice(alloc, b"hat exponent ")?;
    push_number(&mut lines, exponent)?;
    lines.extend_from_slice(b" rows ")?;
    push_number(&mut lines, hat.len())?;
    lines.push(b'\n')?;
    push_rows(&mut lines, hat)?;
    Ok(lines)
}

// The character of a sign.
fn sign_byte(sign: Sign) -> u8
    ensures { result ∷ [] ≡ sign_word sign }
{
    match sign {
        Sign::Plus => b'+',
        Sign::Minus => b'-',
    }
}

// Appends the lines of rows.
fn push_rows(lines: &mut Vec<u8>, rows: &[TableRow]) -> Result<(), NoMemory>
    ensures { OnOk result (lines.new.items ≡ lines.old.items ++ flat_map row_line rows.now) }
{
    for row in rows {
        push_row(lines, row)?;
    }
    Ok(())
}

// Appends the line of a row.
fn push_row(lines: &mut Vec<u8>, row: &TableRow) -> Result<(), NoMemory>
    ensures { OnOk result (lines.new.items ≡ lines.old.items ++ row_line row.now) }
{
    lines.extend_from_slice(b"rank ")?;
    push_number(lines, row.m)?;
    lines.push(b' ')?;
    push_number(lines, row.a)?;
    lines.push(b' ')?;
    push_number(lines, row.rank)?;
    lines.push(b'\n')?;
    Ok(())
}

// Appends the lines of Euler numbers.
fn push_euler_rows(lines: &mut Vec<u8>, rows: &[EulerRow]) -> Result<(), NoMemory>
    ensures { OnOk result (lines.new.items ≡ lines.old.items ++ flat_map euler_line rows.now) }
{
    for row in rows {
        push_euler_row(lines, row)?;
    }
    Ok(())
}

// Appends the line of an Euler number.
fn push_euler_row(lines: &mut Vec<u8>, row: &EulerRow) -> Result<(), NoMemory>
    ensures { OnOk result (lines.new.items ≡ lines.old.items ++ euler_line row.now) }
{
    lines.extend_from_slice(b"at ")?;
    push_number(lines, row.a)?;
    lines.push(b' ')?;
    push_number(lines, row.value)?;
    lines.push(b'\n')?;
    Ok(())
}
