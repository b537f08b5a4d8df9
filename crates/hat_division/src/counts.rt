//! Cells counted by their degrees, for a table that is made of cells.
ghost use Rattle.std.specs.Prelude.{◌≡◌, ◌≤◌, ◌<◌, ℕ, true, false, length, slice_index_or, OnOk, OnErr};
ghost use Rattle.std.specs.List.{All};
ghost use Rattle.hat_division.specs.DegreeLists.{stands_before_by_component};
ghost use Rattle.hat_division.specs.MultiTable.{degrees_of, ArePositive, IsCounted};
ghost use Rattle.hat_division.specs.declared.multi_tables.MultiRow.{MultiRow};

use crate::{DegreeList, MAX_RANK, MultiRow};
use grid_ports::NoMemory;

/// Counts one cell more in these degrees: the rank of their row is one higher, or the row is put in its place.
///
/// # Errors
///
/// `NoMemory` if the allocator refuses.
pub fn count_cell(rows: &mut Vec<MultiRow>, m: i32, d: DegreeList) -> Result<(), NoMemory>
    requires positive { ArePositive rows.old.items }
    requires small { All (λ row. row.rank < MAX_RANK) rows.old.items }
    ensures counted { OnOk result (IsCounted (m, d) rows.old.items rows.new.items) }
    ensures same { OnErr result (rows.new.items ≡ rows.old.items) }
{
    let new = MultiRow { m, d, rank: 1 };
    let place = place_of(rows.as_slice(), &new);
    if place < rows.len() && rows[place].stands_at(m, &d) {
        let rank = rows[place].rank;
        rows[place] = MultiRow {
            m,
            d,
            rank: rank + 1,
        };
        return Ok(());
    }
    rows.insert(place, new)?;
    Ok(())
}

// The place of the first row that does not stand before `row`, or the number of rows.
fn place_of(rows: &[MultiRow], row: &MultiRow) -> usize
    ensures within { result ≤ length rows.now }
    ensures before { (k : ℕ) (d : MultiRow) → k < result
        → stands_before_by_component (degrees_of (slice_index_or rows.now k d)) (degrees_of row.now) ≡ true }
    ensures rest { (d : MultiRow) → result < length rows.now
        → stands_before_by_component (degrees_of (slice_index_or rows.now result d)) (degrees_of row.now) ≡ false }
{
    for (i, other) in rows.iter().enumerate() {
        if !other.comes_before(row) {
            return i;
        }
    }
    rows.len()
}
