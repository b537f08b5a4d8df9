//! Images of states and of chains.
ghost use Rattle.std.specs.Prelude.{◌≡◌, ℕ, List, ◌<◌, length, map, slice_index, IsTrue, IfOk, OnOk};
ghost use Rattle.std.specs.List.{All};
ghost use Rattle.std.specs.Int.{bit_at};
ghost use Rattle.f2_algebra.specs.Chain.{codes as codes_of, ◌⊕◌};
ghost use Rattle.state_rank.specs.Bijection.{IsBijection};
ghost use Rattle.state_rank.specs.States.{IsState, rank};
ghost use Rattle.torus_geom.specs.Border.{border};
ghost use Rattle.torus_geom.specs.Chains.{Chain as States, IsChain, members, single};
ghost use Rattle.torus_geom.specs.Codes.{HasIndices, states_of};
ghost use Rattle.torus_geom.specs.Degrees.{maslov_o, alexander};
ghost use Rattle.torus_geom.specs.Front.{plus_state, minus_state};
ghost use Rattle.torus_geom.specs.Marks.{Marks, IsGrid, size};
ghost use Rattle.grid_moves.specs.Carried.{turned_chain, turned_place};
ghost use Rattle.grid_moves.specs.Moves.{are_commuting, swapped, turned};
ghost use Rattle.grid_moves.specs.declared.turns.Side.{Side};
ghost use Rattle.pentagon_map.specs.Pentagon.{crossing_row as crossing_row_of, image as image_of};
ghost use Rattle.pentagon_map.specs.Inner.CodeImages.{image_of_state};
ghost use Rattle.pentagon_map.specs.Inner.Exchanges.{across as across_of};

use crate::Corner;
use crate::exchanges::exchanges;
use crate::pentagons::{crossing_row, odd_circles};
use f2_chain::{Builder, Chain};
use grid_moves::Axis;
use grid_ports::NoMemory;
use rectangles::TargetStates;
use state_rank::State;
use std::alloc::Global;
use torus_geom::Grid;

/// The image of the state `x` where columns (or rows) `c - 1` and `c` of `g` are exchanged, ascending: the
/// states to which an odd number of pentagons lead from `x`, for the crossing that `corner` chooses (after
/// Ozsváth, Stipsicz and Szabó, "Grid Homology for Knots and Links", chapter 5).
///
/// `c` is from 0 to n - 1; at 0 the last column and the first are exchanged. The answer holds states of the
/// exchanged grid. They stay inline: `alloc` is asked for nothing. Only the 2 (n - 1) rectangles at the circle
/// `c` are looked at.
pub fn pentagon_targets(
    alloc: Global,
    g: &Grid,
    axis: Axis,
    c: u8,
    corner: Corner,
    x: &State,
) -> TargetStates
    requires size { length x.now ≡ size g.now }
    requires below { c < size g.now }
    requires commutes { IsTrue (are_commuting axis g.now c) }
    ensures image { result.items ≡ members (size g.now) (image_of axis g.now c corner (single x.now)) }
    ensures states { All (λ y. IsState y × (length y ≡ size g.now)) result.items }

    // Each state of the image has the degrees, in the exchanged grid, that `x` has in `g`.
    ensures keeps_maslov { All (λ y. maslov_o (swapped axis g.now c) y ≡ maslov_o g.now x.now) result.items }
    ensures keeps_alexander { All (λ y. alexander (swapped axis g.now c) y ≡ alexander g.now x.now) result.items }
    ensures inline { result.capacity ≡ 45 }
{
    let _ = g.size();
    let _ = x.size();
    let t = across(g, axis);
    let w = crossing_row(&t, c, corner);
    targets_across(alloc, &t, axis, c, w, x)
}

/// The image of `z` where columns (or rows) `c - 1` and `c` of `g` are exchanged: the states to which an odd
/// number of pentagons lead from members of `z`.
///
/// It is a chain of the exchanged grid. `z` and the answer hold indices of states, each from 0 to n! - 1, where
/// n is the size of `g`.
///
/// # Errors
///
/// `NoMemory` if the allocator refuses.
pub fn image(
    alloc: Global,
    g: &Grid,
    axis: Axis,
    c: u8,
    corner: Corner,
    z: &Chain,
) -> Result<Chain, NoMemory>
    requires below { c < size g.now }
    requires commutes { IsTrue (are_commuting axis g.now c) }
    requires indices { HasIndices (size g.now) z.now }
    ensures image { IfOk result (λ y. states_of (size g.now) y
        ≡ image_of axis g.now c corner (states_of (size g.now) z.now)) }
    ensures indices_again { IfOk result (HasIndices (size g.now)) }

    // The image of the border of any chain is the border, in the exchanged grid, of its image, whatever the
    // call answers.
    ensures chain_map { (y : States) → IsChain (size g.now) y → image_of axis g.now c corner (border g.now y)
        ≡ border (swapped axis g.now c) (image_of axis g.now c corner y) }

    // A turn carries the image of any chain to the image of the turned chain, at the turned place.
    ensures turns { (side : Side) (y : States) → IsChain (size g.now) y
        → image_of axis (turned side g.now) (turned_place axis side (size g.now) c) corner
        (turned_chain side (size g.now) y)
        ≡ turned_chain side (size g.now) (image_of axis g.now c corner y) }

    // Each state of the image of a state has, in the exchanged grid, the Maslov degree of that state.
    ensures keeps_maslov { (x y : List ℕ) → IsBijection (size g.now) x
        → IsTrue (image_of axis g.now c corner (single x) y)
        → maslov_o (swapped axis g.now c) y ≡ maslov_o g.now x }

    // And its Alexander degree.
    ensures keeps_alexander { (x y : List ℕ) → IsBijection (size g.now) x
        → IsTrue (image_of axis g.now c corner (single x) y)
        → alexander (swapped axis g.now c) y ≡ alexander g.now x }

    // `Over` carries the state of the upper right corners of the X to that of the exchanged grid.
    ensures over { image_of axis g.now c Corner.Over (single (plus_state g.now))
        ≡ single (plus_state (swapped axis g.now c)) }

    // `Under` carries the state of their lower left corners.
    ensures under { image_of axis g.now c Corner.Under (single (minus_state g.now))
        ≡ single (minus_state (swapped axis g.now c)) }
{
    let _ = g.size();
    image_sum(alloc, g, axis, c, corner, z)
}

// The sum of the images of the states of `z`.
fn image_sum(
    alloc: Global,
    g: &Grid,
    axis: Axis,
    c: u8,
    corner: Corner,
    z: &Chain,
) -> Result<Chain, NoMemory>
    requires below { c < size g.now }
    requires indices { HasIndices (size g.now) z.now }
    ensures image { IfOk result (λ y. states_of (size g.now) y
        ≡ image_of axis g.now c corner (states_of (size g.now) z.now)) }
    ensures indices_again { IfOk result (HasIndices (size g.now)) }
{
    let n = g.size();
    let t = across(g, axis);
    let w = crossing_row(&t, c, corner);
    let mut sum = Builder::new(alloc);
    for code in z.codes() {
        toggle_targets(alloc, &t, axis, c, w, &State::unrank(n, *code), &mut sum)?;
    }
    sum.finish()
}

// Toggles each state of the image of `x`.
fn toggle_targets(
    alloc: Global,
    t: &Grid,
    axis: Axis,
    c: u8,
    w: u8,
    x: &State,
    sum: &mut Builder,
) -> Result<(), NoMemory>
    requires size { length x.now ≡ size t.now }
    requires below { c < size t.now }
    requires w_below { w < size t.now }
    ensures { OnOk result ((g : Marks) (corner : Corner) → IsGrid g → t.now ≡ across_of axis g
        → w ≡ crossing_row_of t.now c corner
        → sum.new ≡ sum.old ⊕ image_of_state axis g c corner x.now) }
{
    let states = targets_across(alloc, t, axis, c, w, x);
    for y in states.as_slice() {
        sum.toggle(y.rank())?;
    }
    Ok(())
}

/// The grid whose columns are exchanged.
pub fn across(g: &Grid, axis: Axis) -> Grid
    ensures grid { result ≡ across_of axis g.now }
    ensures size { size result ≡ size g.now }
{
    match axis {
        Axis::Cols => *g,
        Axis::Rows => g.transpose(),
    }
}

// The states to which an odd number of pentagons of the crossing in row `w` lead, where columns of `t` are
// exchanged, or rows of the grid whose transpose is `t`.
fn targets_across(alloc: Global, t: &Grid, axis: Axis, c: u8, w: u8, x: &State) -> TargetStates
    requires size { length x.now ≡ size t.now }
    requires below { c < size t.now }
    requires w_below { w < size t.now }
    ensures image { (g : Marks) (corner : Corner) → IsGrid g → t.now ≡ across_of axis g
        → w ≡ crossing_row_of t.now c corner
        → map rank result.items ≡ codes_of (image_of_state axis g c corner x.now) }
    ensures states { All (λ y. IsState y × (length y ≡ size t.now)) result.items }
    ensures inline { result.capacity ≡ 45 }
{
    match axis {
        Axis::Cols => exchanges(alloc, x, c, odd_circles(t, c, w, x)),
        Axis::Rows => {
            let columns = x.transpose();
            let odd = odd_circles(t, c, w, &columns);
            exchanges(alloc, x, columns.row(c), carried_bits(odd, &columns))
        }
    }
}

/// Bit i of `odd` as bit `columns.row(i)`.
pub fn carried_bits(odd: u16, columns: &State) -> u16
    ensures { (d : ℕ) → d < length columns.now → bit_at result (slice_index columns.now d) ≡ bit_at odd d }
{
    let mut bits = 0u16;
    for d in 0..columns.size() {
        if odd >> d & 1 == 1 {
            bits |= 1 << columns.row(d);
        }
    }
    bits
}
