//! The cells that are left of the slice at one Alexander degree when all its arrows are cancelled.
ghost use Rattle.std.specs.Prelude.{◌≡◌, IfOk};
ghost use Rattle.f2_algebra.specs.Bigraded.{at_alexander};
ghost use Rattle.f2_algebra.specs.Slice.{slice_complex};
ghost use Rattle.torus_geom.specs.Inner.GridComplex.{grid_complex};
ghost use Rattle.homology_cert.specs.Inner.Left.{HasComponentRanks};
ghost use Rattle.homology_cert.specs.Inner.Ranks.{HasRanks};

use bumpalo::Bump;
use cancel::reduce;
use grid_ports::NoMemory;
use sparse_complex::{AlexSlice, Cell};
use std::alloc::Global;
use torus_geom::Grid;

// The cells that are left of the slice at one Alexander degree: the number of those of each Maslov degree is the rank
// in that degree, and so is the number of those with some degrees at the components. Slice, log and arena are given
// back.
pub(crate) fn cells_left(alloc: Global, g: &Grid, a: i32) -> Result<Vec<Cell>, NoMemory>
    ensures ranks { IfOk result (λ cells. HasRanks g.now a cells.items) }
    ensures components { IfOk result (λ cells. HasComponentRanks g.now a cells.items) }
{
    cells_after(alloc, g, a, AlexSlice::build(alloc, g, a)?)
}

// The cells that are left of a slice after all its arrows were cancelled.
fn cells_after(alloc: Global, g: &Grid, a: i32, mut slice: AlexSlice) -> Result<Vec<Cell>, NoMemory>
    requires built { slice_complex slice.slice ≡ at_alexander a (grid_complex g.now) }
    ensures ranks { IfOk result (λ cells. HasRanks g.now a cells.items) }
    ensures components { IfOk result (λ cells. HasComponentRanks g.now a cells.items) }
{
    let _size = g.size();
    let bump = Bump::new(alloc);
    let log = reduce(alloc, &mut slice, &bump)?;
    drop(log);
    slice.live_cells(alloc)
}
