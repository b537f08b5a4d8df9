//! The Alexander degrees of a grid.
ghost use Rattle.std.specs.Prelude.{◌≡◌, ℕ, ℤ, List, pos, true, IfOk, OnOk};
ghost use Rattle.std.specs.Ordering.{int_cmp};
ghost use Rattle.std.specs.BTreeSet as sorted;
ghost use Rattle.state_rank.specs.Bijection.{IsBijection};
ghost use Rattle.state_rank.specs.States.{factorial};
ghost use Rattle.torus_geom.specs.Degrees.{alexander};
ghost use Rattle.torus_geom.specs.Marks.{size, IsGrid};
ghost use Rattle.gradings.specs.Sums.{sum_before};
ghost use Rattle.homology_cert.specs.Inner.Ranks.{HasDegrees};

use gradings::PossibleSums;
use grid_ports::NoMemory;
use std::alloc::Global;
use std::collections::BTreeSet;
use torus_geom::Grid;

// The Alexander degrees of the states of the grid: those of the sums that all columns together can give.
pub(crate) fn alexander_degrees(alloc: Global, g: &Grid) -> Result<BTreeSet<i32>, NoMemory>
    ensures { IfOk result (λ degrees. HasDegrees g.now (factorial (size g.now)) degrees) }
{
    let _size = g.size();
    let sums = PossibleSums::of(alloc, g)?;
    degrees_of(alloc, &sums)
}

// The degrees of the sums that all columns together can give.
fn degrees_of(alloc: Global, sums: &PossibleSums) -> Result<BTreeSet<i32>, NoMemory>
    requires { IsGrid sums.now }
    ensures { IfOk result (λ degrees. HasDegrees sums.now (factorial (size sums.now)) degrees) }
{
    let mut degrees = BTreeSet::new(alloc);
    for sum in 0..128 {
        add_degree(sums, sum, &mut degrees)?;
    }
    Ok(degrees)
}

// Adds the degree of the states whose weights add up to `sum`, unless there can be none.
fn add_degree(sums: &PossibleSums, sum: u8, degrees: &mut BTreeSet<i32>) -> Result<(), NoMemory>
    ensures found { OnOk result ((z : List ℕ) → IsBijection (size sums.now) z
        → sum_before sums.now (size sums.now) z ≡ pos sum
        → sorted.contains int_cmp degrees.new (alexander sums.now z) ≡ true) }
    ensures kept { OnOk result ((a : ℤ) → sorted.contains int_cmp degrees.old a ≡ true
        → sorted.contains int_cmp degrees.new a ≡ true) }
{
    if !sums.can_give(0, i64::from(sum)) {
        return Ok(());
    }
    degrees.insert(sums.tables().least() + i32::from(sum))?;
    Ok(())
}
