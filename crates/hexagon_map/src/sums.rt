//! The homotopy of a chain as the sum of those of its states, and the states of each in order.
ghost use Rattle.std.specs.Prelude.{◌≡◌, ℕ, List, ◌<◌, length, map, IsTrue, IfOk, OnOk};
ghost use Rattle.std.specs.List.{All};
ghost use Rattle.f2_algebra.specs.Chain.{codes as codes_of, ◌⊕◌};
ghost use Rattle.state_rank.specs.States.{IsState, rank};
ghost use Rattle.torus_geom.specs.Codes.{HasIndices, states_of};
ghost use Rattle.torus_geom.specs.Marks.{Marks, IsGrid, size};
ghost use Rattle.grid_moves.specs.Moves.{are_commuting};
ghost use Rattle.pentagon_map.specs.Pentagon.{crossing_row as crossing_row_of};
ghost use Rattle.pentagon_map.specs.Inner.Exchanges.{across as across_of};
ghost use Rattle.hexagon_map.specs.Hexagon.{crossing_row_back as crossing_row_back_of, homotopy as homotopy_of};
ghost use Rattle.hexagon_map.specs.Inner.CodeHomotopies.{homotopy_of_state};

use crate::hexagons::{crossing_row_back, odd_circles};
use f2_chain::{Builder, Chain};
use grid_moves::Axis;
use grid_ports::NoMemory;
use pentagon_map::Corner;
use pentagon_map::exchanges::exchanges;
use pentagon_map::images::{across, carried_bits};
use pentagon_map::pentagons::crossing_row;
use rectangles::TargetStates;
use state_rank::State;
use std::alloc::Global;
use torus_geom::Grid;

// The sum of the homotopies of the states of `z`.
pub(crate) fn homotopy_sum(
    alloc: Global,
    g: &Grid,
    axis: Axis,
    c: u8,
    corner: Corner,
    z: &Chain,
) -> Result<Chain, NoMemory>
    requires below { c < size g.now }
    requires commutes { IsTrue (are_commuting axis g.now c) }
    requires indices { HasIndices (size g.now) z.now }
    ensures homotopy { IfOk result (λ y. states_of (size g.now) y
        ≡ homotopy_of axis g.now c corner (states_of (size g.now) z.now)) }
    ensures indices_again { IfOk result (HasIndices (size g.now)) }
{
    let n = g.size();
    let t = across(g, axis);
    let w = crossing_row(&t, c, corner);
    let v = crossing_row_back(&t, c, corner);
    let mut sum = Builder::new(alloc);
    for code in z.codes() {
        toggle_targets(alloc, &t, axis, c, w, v, &State::unrank(n, *code), &mut sum)?;
    }
    sum.finish()
}

// Toggles each state of the homotopy of `x`.
fn toggle_targets(
    alloc: Global,
    t: &Grid,
    axis: Axis,
    c: u8,
    w: u8,
    v: u8,
    x: &State,
    sum: &mut Builder,
) -> Result<(), NoMemory>
    requires size { length x.now ≡ size t.now }
    requires below { c < size t.now }
    requires w_below { w < size t.now }
    requires v_below { v < size t.now }
    ensures { OnOk result ((g : Marks) (corner : Corner) → IsGrid g → t.now ≡ across_of axis g
        → w ≡ crossing_row_of t.now c corner → v ≡ crossing_row_back_of t.now c corner
        → sum.new ≡ sum.old ⊕ homotopy_of_state axis g c corner x.now) }
{
    let states = targets_across(alloc, t, axis, c, w, v, x);
    for y in states.as_slice() {
        sum.toggle(y.rank())?;
    }
    Ok(())
}

// The states to which an odd number of hexagons of the crossings in rows `w` and `v` lead, where columns of `t` are
// exchanged, or rows of the grid whose transpose is `t`.
pub(crate) fn targets_across(
    alloc: Global,
    t: &Grid,
    axis: Axis,
    c: u8,
    w: u8,
    v: u8,
    x: &State,
) -> TargetStates
    requires size { length x.now ≡ size t.now }
    requires below { c < size t.now }
    requires w_below { w < size t.now }
    requires v_below { v < size t.now }
    ensures homotopy { (g : Marks) (corner : Corner) → IsGrid g → t.now ≡ across_of axis g
        → w ≡ crossing_row_of t.now c corner → v ≡ crossing_row_back_of t.now c corner
        → map rank result.items ≡ codes_of (homotopy_of_state axis g c corner x.now) }
    ensures states { All (λ y. IsState y × (length y ≡ size t.now)) result.items }
    ensures inline { result.capacity ≡ 45 }
{
    match axis {
        Axis::Cols => exchanges(alloc, x, c, odd_circles(t, c, w, v, x)),
        Axis::Rows => {
            let columns = x.transpose();
            let odd = odd_circles(t, c, w, v, &columns);
            exchanges(alloc, x, columns.row(c), carried_bits(odd, &columns))
        }
    }
}
