//! Maps from bidegrees to ranks, and their rows.
ghost use Rattle.std.specs.Prelude.{◌≡◌, map, IfOk};
ghost use Rattle.std.specs.BTreeMap as tree;
ghost use Rattle.gradings.specs.Degrees.{bidegree_cmp};
ghost use Rattle.hat_division.specs.RankMaps.{row_of};

use crate::TableRow;
use gradings::Bidegree;
use grid_ports::NoMemory;
use std::alloc::Global;
use std::collections::BTreeMap;

/// Ranks by bidegree. A bidegree of rank 0 is left out.
pub type Ranks = BTreeMap<Bidegree, u64>;

/// The rows of these ranks, in the order of a table.
///
/// # Errors
///
/// `NoMemory` if the allocator refuses.
pub fn rows_of(alloc: Global, ranks: &Ranks) -> Result<Vec<TableRow>, NoMemory>
    ensures rows { IfOk result (λ rows. rows.items ≡ map row_of ranks.now.entries) }
    ensures ordered { tree.IsOrdered bidegree_cmp ranks.now }
{
    let mut rows = Vec::new(alloc);
    for (bidegree, rank) in ranks.iter() {
        rows.push(TableRow {
            m: bidegree.m,
            a: bidegree.a,
            rank: *rank,
        })?;
    }
    Ok(rows)
}
