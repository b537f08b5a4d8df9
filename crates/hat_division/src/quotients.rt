//! Quotients of tables by powers of 1 + q^-1 t^-1, one factor at a time.
ghost use Rattle.std.specs.Prelude.{◌≡◌, ◌↔◌, ◌≤◌, pos, ◌+ℤ◌, ◌-ℤ◌, List, IsTrue, IfOk, MatchOption};
ghost use Rattle.std.specs.List.{All};
ghost use Rattle.hat_division.specs.Table.{AreOrdered};
ghost use Rattle.hat_division.specs.Product.{rank_at as rank_at_of, IsSmall, IsQuotient};
ghost use Rattle.hat_division.specs.Inner.Products.{ArePositive};
ghost use Rattle.hat_division.specs.declared.tables.TableRow.{TableRow};

use crate::products::rank_at;
use crate::{Table, TableRow};
use grid_ports::NoMemory;
use std::alloc::Global;

/// The quotient of the table by the `k`-th power of 1 + q^-1 t^-1: the one table whose product with this
/// power is the table, or `None` if no table has this product.
///
/// # Errors
///
/// `NoMemory` if the allocator refuses.
pub fn divide(alloc: Global, t: &Table, k: u8) -> Result<Option<Table>, NoMemory>
    requires exponent { k ≤ 16 }
    requires small { All IsSmall t.now }
    ensures quotient { IfOk result (λ found. MatchOption found
        ((q : List TableRow) → ¬ IsQuotient k t.now q)
        (λ q. IsQuotient k t.now q)) }

    // Whatever the call answers: at most one table has this product.
    ensures one_quotient { (p q : List TableRow)
        → IsQuotient k t.now p → IsQuotient k t.now q → p ≡ q }
{
    let _rows = t.rows();
    quotient_of(alloc, t, k)
}

// The quotient, if there is one: factor by factor.
fn quotient_of(alloc: Global, t: &Table, k: u8) -> Result<Option<Table>, NoMemory>
    requires small { All IsSmall t.now }
    ensures { IfOk result (λ found. MatchOption found
        ((q : List TableRow) → ¬ IsQuotient k t.now q)
        (λ q. IsQuotient k t.now q)) }
{
    let mut left = copied(alloc, t.rows())?;
    for _ in 0..k {
        let Some(quotient) = divide_one(alloc, left.as_slice())? else {
            return Ok(None);
        };
        left = quotient;
    }
    Ok(Some(Table::of(left).unwrap()))
}

fn copied(alloc: Global, rows: &[TableRow]) -> Result<Vec<TableRow>, NoMemory>
    ensures { IfOk result (λ v. v.items ≡ rows.now) }
{
    let mut copy = Vec::new(alloc);
    copy.extend_from_slice(rows)?;
    Ok(copy)
}

// The quotient by one factor, if there is one: from the top row down, what is left of each rank when the row one step
// up has had its part.
fn divide_one(alloc: Global, rows: &[TableRow]) -> Result<Option<Vec<TableRow>>, NoMemory>
    requires positive { ArePositive rows.now }
    requires small { All IsSmall rows.now }
    ensures { IfOk result (λ found. MatchOption found
        ((q : List TableRow) → ¬ IsQuotient 1 rows.now q)
        (λ q. IsQuotient 1 rows.now q.items)) }
{
    let mut quotient = Vec::new(alloc);
    for row in rows {
        let above = rank_up(quotient.as_slice(), row);
        if row.rank < above {
            return Ok(None);
        }
        if above < row.rank {
            quotient.push(TableRow {
                m: row.m,
                a: row.a,
                rank: row.rank - above,
            })?;
        }
    }
    if have_lower(rows, quotient.as_slice()) {
        Ok(Some(quotient))
    } else {
        Ok(None)
    }
}

// Whether the table has a row one step down from each row of the quotient.
fn have_lower(rows: &[TableRow], quotient: &[TableRow]) -> bool
    requires ordered { AreOrdered rows.now }
    requires small { All IsSmall quotient.now }
    ensures { IsTrue result
        ↔ All (λ row. 1 ≤ rank_at_of rows.now (row.m -ℤ pos 1) (row.a -ℤ pos 1)) quotient.now }
{
    for row in quotient {
        if rank_down(rows, row) == 0 {
            return false;
        }
    }
    true
}

// The rank one step up from a row.
fn rank_up(rows: &[TableRow], row: &TableRow) -> u64
    requires ordered { AreOrdered rows.now }
    requires small { IsSmall row.now }
    ensures { result ≡ rank_at_of rows.now (row.now.m +ℤ pos 1) (row.now.a +ℤ pos 1) }
{
    rank_at(rows, row.m + 1, row.a + 1)
}

// The rank one step down.
fn rank_down(rows: &[TableRow], row: &TableRow) -> u64
    requires ordered { AreOrdered rows.now }
    requires small { IsSmall row.now }
    ensures { result ≡ rank_at_of rows.now (row.now.m -ℤ pos 1) (row.now.a -ℤ pos 1) }
{
    rank_at(rows, row.m - 1, row.a - 1)
}
