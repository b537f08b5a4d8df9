//! Products of tables and powers of 1 + q^-1 t^-1.
ghost use Rattle.std.specs.Prelude.{◌≡◌, ◌+◌, ◌≤◌, ◌^◌, pos, ◌≤ℤ◌, IfOk, OnOk};
ghost use Rattle.std.specs.List.{All, Contains};
ghost use Rattle.hat_division.specs.Table.{AreOrdered};
ghost use Rattle.hat_division.specs.Product.{rank_at as rank_at_of, product_rank as product_rank_of, IsProduct, IsSmall};
ghost use Rattle.hat_division.specs.Inner.Products.{ArePositive, IsPartOfProduct, AreShiftsPut};

use crate::{Ranks, Table, TableRow, rows_of};
use gradings::Bidegree;
use grid_ports::NoMemory;
use std::alloc::Global;

/// The product of the table and the `k`-th power of 1 + q^-1 t^-1.
///
/// # Errors
///
/// `NoMemory` if the allocator refuses.
pub fn times_factor(alloc: Global, t: &Table, k: u8) -> Result<Table, NoMemory>
    requires exponent { k ≤ 16 }
    requires small { All IsSmall t.now }
    ensures { IfOk result (λ product. IsProduct k t.now product) }
{
    let rows = t.rows();
    let mut product = Ranks::new(alloc);
    for row in rows {
        put_shifts(&mut product, rows, k, row)?;
    }
    let product_rows = rows_of(alloc, &product)?;
    Ok(Table::of(product_rows).unwrap())
}

// Puts the ranks of the product 0 to `k` steps down from a row of the table.
fn put_shifts(product: &mut Ranks, rows: &[TableRow], k: u8, row: &TableRow) -> Result<(), NoMemory>
    requires exponent { k ≤ 16 }
    requires positive { ArePositive rows.now }
    requires small { All IsSmall rows.now }
    requires member { Contains rows.now row.now }
    requires part { IsPartOfProduct k rows.now product.old }
    ensures { OnOk result (AreShiftsPut k rows.now row.now (k + 1) product.old product.new) }
{
    for i in 0..k + 1 {
        let m = row.m - i32::from(i);
        let a = row.a - i32::from(i);
        let rank = product_rank(rows, k, m, a);
        product.insert(Bidegree { m, a }, rank)?;
    }
    Ok(())
}

// The rank in a bidegree of the product of rows in order and the `k`-th power.
fn product_rank(rows: &[TableRow], k: u8, m: i32, a: i32) -> u64
    requires exponent { k ≤ 16 }
    requires ordered { AreOrdered rows.now }
    requires small { All (λ row. row.rank ≤ 2 ^ 32) rows.now }
    requires maslov { m ≤ℤ pos 1000 }
    requires alexander { a ≤ℤ pos 1000 }
    ensures { result ≡ product_rank_of k rows.now m a }
{
    let mut total = 0;
    let mut binomial = 1u64;
    for i in 0..k + 1 {
        let rank = rank_at(rows, m + i32::from(i), a + i32::from(i));
        total += binomial * rank;
        binomial = binomial * u64::from(k - i) / (u64::from(i) + 1);
    }
    total
}

// The rank in a bidegree of rows in order.
pub(crate) fn rank_at(rows: &[TableRow], m: i32, a: i32) -> u64
    requires { AreOrdered rows.now }
    ensures { result ≡ rank_at_of rows.now m a }
{
    for row in rows {
        if row.stands_at(m, a) {
            return row.rank;
        }
    }
    0
}
