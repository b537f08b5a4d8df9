//! Cells counted by their bidegrees.
ghost use Rattle.std.specs.Prelude.{◌≡◌, ◌^◌, ◌<◌, ℤ, length, None, OnOk, IfSome};
ghost use Rattle.std.specs.BTreeMap as tree;
ghost use Rattle.gradings.specs.Degrees.{bidegree_cmp};
ghost use Rattle.hat_division.specs.RankMaps.{bidegree_key};
ghost use Rattle.homology_cert.specs.Inner.Ranks.{AreCounted};

use gradings::Bidegree;
use grid_ports::NoMemory;
use hat_division::Ranks;
use sparse_complex::Cell;

// Counts the cells of an Alexander degree, by their Maslov degrees.
pub(crate) fn count_cells(a: i32, cells: &[Cell], ranks: &mut Ranks) -> Result<(), NoMemory>
    requires few { length cells.now < 2 ^ 32 }
    requires fresh { (m : ℤ) → tree.get bidegree_cmp ranks.old (bidegree_key (m, a)) ≡ None }
    requires positive { (b m : ℤ) → IfSome (tree.get bidegree_cmp ranks.old (bidegree_key (m, b))) (λ d. 0 < d) }
    ensures { OnOk result (AreCounted a cells.now ranks.old ranks.new) }
{
    for cell in cells {
        let bidegree = Bidegree { m: cell.maslov, a };
        let count = ranks.get(&bidegree).copied().unwrap_or(0);
        ranks.insert(bidegree, count + 1)?;
    }
    Ok(())
}
