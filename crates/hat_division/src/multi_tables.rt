//! Tables of ranks by the Maslov degree and a degree for each component.
ghost use Rattle.std.specs.Prelude.{◌≡◌, ℕ, ◌↔◌, ◌≤◌, ◌&&◌, IsTrue, IsSome, IfSome, length};
ghost use Rattle.std.specs.List.{All};
ghost use Rattle.std.specs.Ordering.{int_eq};
ghost use Rattle.hat_division.specs.DegreeLists.{same_degrees as same_degrees_of, stands_before_by_component};
ghost use Rattle.hat_division.specs.MultiTable.{degrees_of, AreInComponentOrder, HasComponentRank, HasLength, IsMultiTable};

use crate::degree_lists::{is_higher, same_degrees};
use crate::{DegreeList, MAX_RANK};
use std::marker::Model;

/// A row of a table: the rank in the Maslov degree `m` and the degrees `d`.
#[derive(Clone, Copy, Debug)]
pub struct MultiRow {
    pub m: i32,
    pub d: DegreeList,
    pub rank: u64,
}

impl MultiRow {
    /// Whether this row stands before `other` in a table.
    pub(crate) fn comes_before(&self, other: &MultiRow) -> bool
        ensures { result ≡ stands_before_by_component (degrees_of self.now) (degrees_of other.now) }
    {
        let higher = is_higher(self.d.degrees(), other.d.degrees());
        let same = same_degrees(self.d.degrees(), other.d.degrees());
        higher || (same && other.m < self.m)
    }

    /// Whether this row stands in these degrees.
    pub(crate) fn stands_at(&self, m: i32, d: &DegreeList) -> bool
        ensures { result ≡ (int_eq self.now.m m && same_degrees_of self.now.d d.now) }
    {
        let same = same_degrees(self.d.degrees(), d.degrees());
        self.m == m && same
    }

    fn has_rank(&self) -> bool
        ensures { IsTrue result ↔ HasComponentRank self.now }
    {
        1 <= self.rank && self.rank <= MAX_RANK
    }

    fn has_length(&self, count: usize) -> bool
        ensures { IsTrue result ↔ HasLength count self.now }
    {
        self.d.degrees().len() == count
    }
}

fn are_ordered(rows: &[MultiRow]) -> bool
    ensures { IsTrue result ↔ AreInComponentOrder rows.now }
{
    for i in 1..rows.len() {
        if !rows[i - 1].comes_before(&rows[i]) {
            return false;
        }
    }
    true
}

fn have_ranks(rows: &[MultiRow]) -> bool
    ensures { IsTrue result ↔ All HasComponentRank rows.now }
{
    rows.iter().all(|row| row.has_rank())
}

fn have_length(rows: &[MultiRow], count: usize) -> bool
    ensures { IsTrue result ↔ All (HasLength count) rows.now }
{
    rows.iter().all(|row| row.has_length(count))
}

/// A table of ranks by the Maslov degree and a degree for each component: its rows have degrees descending in the
/// order of lists, then Maslov degrees descending, none twice, as many degrees each, and ranks from 1 to `MAX_RANK`.
#[derive(Drop)]
pub struct MultiTable {
    rows: Vec<MultiRow>,
}

impl Model for MultiTable {
    ghost use Rattle.std.specs.Prelude.{List};
    ghost use Rattle.hat_division.specs.declared.multi_tables.MultiRow.{MultiRow};
    ghost use Rattle.hat_division.specs.MultiTable.{IsMultiTable};

    ghost Value = { List MultiRow };

    ghost view = { λ t. t.rows.items };

    ghost invariant = { λ t. IsMultiTable t.rows.items };
}

impl MultiTable {
    /// The table with these rows, or `None` if they are not those of a table.
    pub fn of(rows: Vec<MultiRow>) -> Option<MultiTable>
        ensures accepted { IsSome result ↔ IsMultiTable rows.items }
        ensures rows { IfSome result (λ t. t ≡ rows.items) }
    {
        let count = match rows.first() {
            Some(row) => row.d.degrees().len(),
            None => 0,
        };
        if are_ordered(&rows) && have_ranks(&rows) && have_length(&rows, count) {
            Some(MultiTable { rows })
        } else {
            None
        }
    }

    /// The rows, in order.
    pub fn rows(&self) -> &[MultiRow]
        ensures rows { result.now ≡ self.now }
        ensures table { IsMultiTable result.now }
    {
        self.rows.as_slice()
    }
}
