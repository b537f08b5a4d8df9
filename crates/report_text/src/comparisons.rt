//! The lines of a comparison of two grids.
ghost use Rattle.std.specs.Prelude.{◌≡◌, ◌↔◌, ◌++◌, ◌∷◌, true, List, IfOk, OnOk};
ghost use Rattle.std.specs.Ordering.{int_eq};
ghost use Rattle.std.specs.Option.{option_copied};
ghost use Rattle.hat_division.specs.declared.tables.TableRow.{TableRow as RowOf};
ghost use Rattle.text_lines.specs.Lines.{line};
ghost use Rattle.report_text.specs.Compared.{same_row as same_row_of, same_rows as same_rows_of, same_bool as same_bool_of, same_word as same_word_of, hat_word as hat_word_of, numbers_line, verdicts_line, compare_lines as compare_lines_of};

use crate::verdict_word;
use front_data::FrontNumbers;
use grid_ports::NoMemory;
use hat_division::{Table, TableRow};
use std::alloc::Global;
use text_lines::push_number;

/// What two grids are compared by: the numbers of the front, the table of ranks, the hat, and whether the classes of
/// x+ and of x- are alive.
#[derive(Drop)]
pub struct Facts {
    pub front: FrontNumbers,
    pub table: Table,
    pub hat: Option<Table>,
    pub plus_alive: bool,
    pub minus_alive: bool,
}

/// The lines of a comparison: `tb V1 V2 W`, `rot V1 V2 W`, `table W`, `hat W`, `class + V1 V2 W` and `class - V1 V2 W`,
/// where W is `same` or `different`, and the line of the hats is `hat none` if one of them is none.
///
/// # Errors
///
/// `NoMemory` if the allocator refuses.
pub fn compare_lines(alloc: Global, a: &Facts, b: &Facts) -> Result<Vec<u8>, NoMemory>
    ensures lines { IfOk result (λ lines. lines.items ≡ compare_lines_of a.now b.now) }

    // Tables are told to be the same exactly if they are.
    ensures same { (p q : List RowOf) → (same_rows_of p q ≡ true) ↔ (p ≡ q) }
{
    six_lines(alloc, a, b)
}

// The same, without the law.
fn six_lines(alloc: Global, a: &Facts, b: &Facts) -> Result<Vec<u8>, NoMemory>
    ensures { IfOk result (λ lines. lines.items ≡ compare_lines_of a.now b.now) }
{
    let mut lines = Vec::new(alloc);
    push_numbers(&mut lines, b"tb ", a.front.tb, b.front.tb)?;
    push_numbers(&mut lines, b"rot ", a.front.rot, b.front.rot)?;
    let tables = same_rows(a.table.rows(), b.table.rows());
    push_word(&mut lines, b"table ", same_word(tables))?;
    push_word(
        &mut lines,
        b"hat ",
        hat_word(a.hat.as_ref(), b.hat.as_ref()),
    )?;
    push_verdicts(&mut lines, b"class + ", a.plus_alive, b.plus_alive)?;
    push_verdicts(&mut lines, b"class - ", a.minus_alive, b.minus_alive)?;
    Ok(lines)
}

// Appends a line of two numbers.
fn push_numbers(lines: &mut Vec<u8>, word: &[u8], v: i32, w: i32) -> Result<(), NoMemory>
    ensures { OnOk result (lines.new.items ≡ lines.old.items ++ numbers_line word.now v w) }
{
    let told = same_word(same_int(v, w));
    lines.extend_from_slice(word)?;
    push_number(lines, v)?;
    lines.push(b' ')?;
    push_number(lines, w)?;
    lines.push(b' ')?;
    lines.extend_from_slice(told.as_bytes())?;
    lines.push(b'\n')?;
    Ok(())
}

// Appends a line of two verdicts.
fn push_verdicts(lines: &mut Vec<u8>, word: &[u8], v: bool, w: bool) -> Result<(), NoMemory>
    ensures { OnOk result (lines.new.items ≡ lines.old.items ++ verdicts_line word.now v w) }
{
    let told = same_word(same_bool(v, w));
    lines.extend_from_slice(word)?;
    lines.extend_from_slice(verdict_word(v).as_bytes())?;
    lines.push(b' ')?;
    lines.extend_from_slice(verdict_word(w).as_bytes())?;
    lines.push(b' ')?;
    lines.extend_from_slice(told.as_bytes())?;
    lines.push(b'\n')?;
    Ok(())
}

// Appends a line of a word and what is told of it.
fn push_word(lines: &mut Vec<u8>, word: &[u8], told: &str) -> Result<(), NoMemory>
    ensures { OnOk result (lines.new.items ≡ lines.old.items ++ line (word.now ++ told.now)) }
{
    lines.extend_from_slice(word)?;
    lines.extend_from_slice(told.as_bytes())?;
    lines.push(b'\n')?;
    Ok(())
}

fn same_word(same: bool) -> &'static str
    ensures { result.now ≡ same_word_of same }
{
    if same { "same" } else { "different" }
}

// Whether two hats are the same, or that one of them is none.
fn hat_word(p: Option<&Table>, q: Option<&Table>) -> &'static str
    ensures { result.now ≡ hat_word_of (option_copied p.entry) (option_copied q.entry) }
{
    let Some(first) = p else {
        return "none";
    };
    let Some(second) = q else {
        return "none";
    };
    same_word(same_rows(first.rows(), second.rows()))
}

fn same_bool(v: bool, w: bool) -> bool
    ensures { result ≡ same_bool_of v w }
{
    if v { w } else { !w }
}

fn same_int(v: i32, w: i32) -> bool
    ensures { result ≡ int_eq v w }
{
    v == w
}

fn same_row(p: &TableRow, q: &TableRow) -> bool
    ensures { result ≡ same_row_of p.now q.now }
{
    p.m == q.m && p.a == q.a && p.rank == q.rank
}

// Whether two tables have the same rows.
fn same_rows(rows: &[TableRow], others: &[TableRow]) -> bool
    ensures { result ≡ same_rows_of rows.now others.now }
{
    if rows.len() != others.len() {
        return false;
    }
    for k in 0..rows.len() {
        if !same_row(&rows[k], &others[k]) {
            return false;
        }
    }
    true
}
