//! Tables of ranks.
ghost use Rattle.std.specs.Prelude.{◌≡◌, ℕ, ◌↔◌, ◌≤◌, IsTrue, IsSome, IfSome, length};
ghost use Rattle.std.specs.List.{All, sum_by};
ghost use Rattle.f2_algebra.specs.Bigraded.{stands_before};
ghost use Rattle.hat_division.specs.Table.{IsTable, bidegree_of, AreOrdered, HasRank, greatest_rank};
ghost use Rattle.hat_division.specs.Product.{stands_at};

use std::marker::Model;

/// The greatest rank that a table holds.
pub const MAX_RANK: u64 = 281_474_976_710_656;

/// A row of a table: the rank in the bidegree (`m`, `a`), the Maslov and the Alexander degree.
#[derive(Clone, Copy, PartialEq, Eq, Debug)]
pub struct TableRow {
    pub m: i32,
    pub a: i32,
    pub rank: u64,
}

impl TableRow {
    /// Whether this row stands before `other` in a table: its Alexander degree is higher, or that is the
    /// same and its Maslov degree is higher.
    pub(crate) fn stands_before(&self, other: &TableRow) -> bool
        ensures { result ≡ stands_before (bidegree_of self.now) (bidegree_of other.now) }
    {
        self.a > other.a || (self.a == other.a && self.m > other.m)
    }

    /// Whether this row stands in the bidegree (`m`, `a`).
    pub(crate) fn stands_at(&self, m: i32, a: i32) -> bool
        ensures { result ≡ stands_at self.now m a }
    {
        self.m == m && self.a == a
    }

    fn has_rank(&self) -> bool
        ensures { IsTrue result ↔ HasRank self.now }
    {
        1 <= self.rank && self.rank <= MAX_RANK
    }
}

fn are_ordered(rows: &[TableRow]) -> bool
    ensures { IsTrue result ↔ AreOrdered rows.now }
{
    for i in 1..rows.len() {
        if !rows[i - 1].stands_before(&rows[i]) {
            return false;
        }
    }
    true
}

fn have_ranks(rows: &[TableRow]) -> bool
    ensures { IsTrue result ↔ All HasRank rows.now }
{
    rows.iter().all(|row| row.has_rank())
}

fn total_of(rows: &[TableRow]) -> u128
    requires { All HasRank rows.now }
    ensures { result ≡ sum_by (λ row. row.rank) rows.now }
{
    let mut total = 0u128;
    for row in rows {
        total += u128::from(row.rank);
    }
    total
}

/// A table of ranks by bidegree: its rows have Alexander degrees descending, then Maslov degrees
/// descending, no degree twice, and ranks from 1 to `MAX_RANK`.
#[derive(Drop)]
pub struct Table {
    rows: Vec<TableRow>,
}

impl Model for Table {
    ghost use Rattle.std.specs.Prelude.{List};
    ghost use Rattle.hat_division.specs.declared.tables.TableRow.{TableRow};
    ghost use Rattle.hat_division.specs.Table.{IsTable};

    ghost Value = { List TableRow };

    ghost view = { λ t. t.rows.items };

    ghost invariant = { λ t. IsTable t.rows.items };
}

impl Table {
    /// The table with these rows, or `None` if they are not those of a table.
    pub fn of(rows: Vec<TableRow>) -> Option<Table>
        ensures accepted { IsSome result ↔ IsTable rows.items }
        ensures rows { IfSome result (λ t. t ≡ rows.items) }

        // No rank of a table is above `MAX_RANK`, and this is the greatest.
        ensures limit { MAX_RANK ≡ greatest_rank }
    {
        if are_ordered(&rows) && have_ranks(&rows) {
            Some(Table { rows })
        } else {
            None
        }
    }

    /// The rows, in order.
    pub fn rows(&self) -> &[TableRow]
        ensures rows { result.now ≡ self.now }
        ensures table { IsTable result.now }
    {
        self.rows.as_slice()
    }

    /// The sum of the ranks.
    pub fn total(&self) -> u128
        ensures { result ≡ sum_by (λ row. row.rank) self.now }
    {
        total_of(&self.rows)
    }
}
