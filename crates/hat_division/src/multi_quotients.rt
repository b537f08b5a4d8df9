//! Quotients of tables by powers of the factors 1 + q^-1 t_i^-1, one factor at a time.
ghost use Rattle.std.specs.Prelude.{◌≡◌, ◌↔◌, ◌≤◌, ◌<◌, ℕ, List, [], ◌∷◌, length, IsTrue, IfOk, MatchOption};
ghost use Rattle.std.specs.List.{All};
ghost use Rattle.hat_division.specs.Factors.{copies};
ghost use Rattle.hat_division.specs.MultiTable.{degrees_of, component_rank_at as component_rank_at_of, AreInComponentOrder, step_up, step_down, HasLength, IsSmallByComponent, IsQuotientBy, IsMultiQuotient, ArePositive};
ghost use Rattle.hat_division.specs.Inner.Rows.{HasPlace};
ghost use Rattle.hat_division.specs.declared.multi_tables.MultiRow.{MultiRow};

use crate::{DegreeList, MultiRow, MultiTable};
use grid_ports::NoMemory;
use std::alloc::Global;

/// The quotient of the table by the powers of 1 + q^-1 t_i^-1 with these exponents, one for each component: the one
/// table whose product with them is the table, or `None` if no table has this product.
///
/// A row (m, d, r) is the term r q^m t_1^(d_1) .. t_l^(d_l), but the term q^-1 t_i^-1 lowers d_i by two.
///
/// # Errors
///
/// `NoMemory` if the allocator refuses.
pub fn divide_multi(
    alloc: Global,
    t: &MultiTable,
    exps: &[u8],
) -> Result<Option<MultiTable>, NoMemory>
    requires lengths { All (HasLength (length exps.now)) t.now }
    requires small { All IsSmallByComponent t.now }
    ensures quotient { IfOk result (λ found. MatchOption found
        ((q : List MultiRow) → ¬ IsMultiQuotient exps.now t.now q)
        (λ q. IsMultiQuotient exps.now t.now q)) }

    // Whatever the call answers: at most one table has this product.
    ensures one_quotient { (p q : List MultiRow)
        → IsMultiQuotient exps.now t.now p → IsMultiQuotient exps.now t.now q → p ≡ q }
{
    let _rows = t.rows();
    quotient_of(alloc, t, exps)
}

// The quotient, if there is one: component by component.
fn quotient_of(alloc: Global, t: &MultiTable, exps: &[u8]) -> Result<Option<MultiTable>, NoMemory>
    requires lengths { All (HasLength (length exps.now)) t.now }
    requires small { All IsSmallByComponent t.now }
    ensures { IfOk result (λ found. MatchOption found
        ((q : List MultiRow) → ¬ IsMultiQuotient exps.now t.now q)
        (λ q. IsMultiQuotient exps.now t.now q)) }
{
    let mut left = copied(alloc, t.rows())?;
    for i in 0..exps.len() {
        let Some(quotient) = divide_power(alloc, left, i, exps[i])? else {
            return Ok(None);
        };
        left = quotient;
    }
    Ok(Some(MultiTable::of(left).unwrap()))
}

fn copied(alloc: Global, rows: &[MultiRow]) -> Result<Vec<MultiRow>, NoMemory>
    ensures { IfOk result (λ v. v.items ≡ rows.now) }
{
    let mut copy = Vec::new(alloc);
    copy.extend_from_slice(rows)?;
    Ok(copy)
}

// The quotient by the `e`-th power of the factor of component `i`, counted from 0, if there is one.
fn divide_power(
    alloc: Global,
    rows: Vec<MultiRow>,
    i: usize,
    e: u8,
) -> Result<Option<Vec<MultiRow>>, NoMemory>
    requires positive { ArePositive rows.items }
    requires small { All IsSmallByComponent rows.items }
    requires place { All (HasPlace i) rows.items }
    ensures { IfOk result (λ found. MatchOption found
        ((q : List MultiRow) → ¬ IsQuotientBy (copies e (step_up i)) rows.items q)
        (λ q. IsQuotientBy (copies e (step_up i)) rows.items q.items)) }
{
    let mut left = rows;
    for _ in 0..e {
        let Some(quotient) = divide_one(alloc, left.as_slice(), i)? else {
            return Ok(None);
        };
        left = quotient;
    }
    Ok(Some(left))
}

// The quotient by one factor of component `i`, counted from 0, if there is one: from the top row down, what is left
// of each rank when the row one step up has had its part.
fn divide_one(alloc: Global, rows: &[MultiRow], i: usize) -> Result<Option<Vec<MultiRow>>, NoMemory>
    requires positive { ArePositive rows.now }
    requires small { All IsSmallByComponent rows.now }
    requires place { All (HasPlace i) rows.now }
    ensures { IfOk result (λ found. MatchOption found
        ((q : List MultiRow) → ¬ IsQuotientBy (step_up i ∷ []) rows.now q)
        (λ q. IsQuotientBy (step_up i ∷ []) rows.now q.items)) }
{
    let mut quotient = Vec::new(alloc);
    for row in rows {
        let above = rank_up(quotient.as_slice(), row, i);
        if row.rank < above {
            return Ok(None);
        }
        if above < row.rank {
            quotient.push(MultiRow {
                m: row.m,
                d: row.d,
                rank: row.rank - above,
            })?;
        }
    }
    if have_lower(rows, quotient.as_slice(), i) {
        Ok(Some(quotient))
    } else {
        Ok(None)
    }
}

// Whether the table has a row one step down from each row of the quotient.
fn have_lower(rows: &[MultiRow], quotient: &[MultiRow], i: usize) -> bool
    requires ordered { AreInComponentOrder rows.now }
    requires small { All IsSmallByComponent quotient.now }
    requires place { All (HasPlace i) quotient.now }
    ensures { IsTrue result
        ↔ All (λ row. 1 ≤ component_rank_at_of rows.now (step_down i (degrees_of row))) quotient.now }
{
    for row in quotient {
        if rank_down(rows, row, i) == 0 {
            return false;
        }
    }
    true
}

// The rank one step up from a row.
fn rank_up(rows: &[MultiRow], row: &MultiRow, i: usize) -> u64
    requires ordered { AreInComponentOrder rows.now }
    requires small { IsSmallByComponent row.now }
    requires place { HasPlace i row.now }
    ensures { result ≡ component_rank_at_of rows.now (step_up i (degrees_of row.now)) }
{
    component_rank_at(rows, row.m + 1, &row.d.raised_at(i))
}

// The rank one step down.
fn rank_down(rows: &[MultiRow], row: &MultiRow, i: usize) -> u64
    requires ordered { AreInComponentOrder rows.now }
    requires small { IsSmallByComponent row.now }
    requires place { HasPlace i row.now }
    ensures { result ≡ component_rank_at_of rows.now (step_down i (degrees_of row.now)) }
{
    component_rank_at(rows, row.m - 1, &row.d.lowered_at(i))
}

// The rank in these degrees of rows in order.
fn component_rank_at(rows: &[MultiRow], m: i32, d: &DegreeList) -> u64
    requires { AreInComponentOrder rows.now }
    ensures { result ≡ component_rank_at_of rows.now (m, d.now) }
{
    for row in rows {
        if row.stands_at(m, d) {
            return row.rank;
        }
    }
    0
}
