//! Homotopies of states and of chains.
ghost use Rattle.std.specs.Prelude.{◌≡◌, ◌↔◌, ℕ, ℤ, List, ◌<◌, pos, ◌+ℤ◌, length, IsTrue, IfOk};
ghost use Rattle.std.specs.List.{All};
ghost use Rattle.state_rank.specs.Bijection.{IsBijection};
ghost use Rattle.state_rank.specs.States.{IsState};
ghost use Rattle.torus_geom.specs.Border.{Bounds, border};
ghost use Rattle.torus_geom.specs.Chains.{Chain as States, IsChain, members, nothing, single, ◌⊕◌};
ghost use Rattle.torus_geom.specs.Codes.{HasIndices, states_of};
ghost use Rattle.torus_geom.specs.Degrees.{maslov_o, alexander};
ghost use Rattle.torus_geom.specs.Homology.{IsHomologyRank, IsHomologyTable, Row};
ghost use Rattle.torus_geom.specs.Marks.{size};
ghost use Rattle.grid_moves.specs.Moves.{are_commuting, swapped};
ghost use Rattle.pentagon_map.specs.Pentagon.{image};
ghost use Rattle.hexagon_map.specs.Hexagon.{homotopy as homotopy_of, return_image};

use crate::hexagons::crossing_row_back;
use crate::sums::{homotopy_sum, targets_across};
use f2_chain::Chain;
use grid_moves::Axis;
use grid_ports::NoMemory;
use pentagon_map::Corner;
use pentagon_map::images::across;
use pentagon_map::pentagons::crossing_row;
use rectangles::TargetStates;
use state_rank::State;
use std::alloc::Global;
use torus_geom::Grid;

/// The homotopy at the state `x` where columns (or rows) `c - 1` and `c` of `g` are exchanged, ascending: the states
/// to which an odd number of hexagons lead from `x`, for the crossings that `corner` chooses (after Ozsváth,
/// Stipsicz and Szabó, "Grid Homology for Knots and Links", chapter 5).
///
/// `c` is from 0 to n - 1; at 0 the last column and the first are exchanged. The answer holds states of `g`. They
/// stay inline: `alloc` is asked for nothing. Only the 2 (n - 1) rectangles at the circle `c` are looked at.
pub fn hexagon_targets(
    alloc: Global,
    g: &Grid,
    axis: Axis,
    c: u8,
    corner: Corner,
    x: &State,
) -> TargetStates
    requires size { length x.now ≡ size g.now }
    requires below { c < size g.now }
    requires commutes { IsTrue (are_commuting axis g.now c) }
    ensures homotopy { result.items ≡ members (size g.now) (homotopy_of axis g.now c corner (single x.now)) }
    ensures states { All (λ y. IsState y × (length y ≡ size g.now)) result.items }

    // Each state of the answer has the Maslov degree of `x` and one more, and its Alexander degree.
    ensures raises_maslov { All (λ y. maslov_o g.now y ≡ maslov_o g.now x.now +ℤ pos 1) result.items }
    ensures keeps_alexander { All (λ y. alexander g.now y ≡ alexander g.now x.now) result.items }
    ensures inline { result.capacity ≡ 45 }
{
    let _ = g.size();
    let _ = x.size();
    let t = across(g, axis);
    let w = crossing_row(&t, c, corner);
    let v = crossing_row_back(&t, c, corner);
    targets_across(alloc, &t, axis, c, w, v, x)
}

/// The homotopy of `z` where columns (or rows) `c - 1` and `c` of `g` are exchanged: the states to which an odd
/// number of hexagons lead from members of `z`.
///
/// It is a chain of `g`. `z` and the answer hold indices of states, each from 0 to n! - 1, where n is the size of `g`.
///
/// # Errors
///
/// `NoMemory` if the allocator refuses.
pub fn homotopy(
    alloc: Global,
    g: &Grid,
    axis: Axis,
    c: u8,
    corner: Corner,
    z: &Chain,
) -> Result<Chain, NoMemory>
    requires below { c < size g.now }
    requires commutes { IsTrue (are_commuting axis g.now c) }
    requires indices { HasIndices (size g.now) z.now }
    ensures homotopy { IfOk result (λ y. states_of (size g.now) y
        ≡ homotopy_of axis g.now c corner (states_of (size g.now) z.now)) }
    ensures indices_again { IfOk result (HasIndices (size g.now)) }

    // A chain and its image there and back are together the border of its homotopy and the homotopy of its border,
    // whatever the call answers.
    ensures law { (y : States) → IsChain (size g.now) y → y ⊕ return_image axis g.now c corner y
        ≡ border g.now (homotopy_of axis g.now c corner y) ⊕ homotopy_of axis g.now c corner (border g.now y) }

    // Each state of the homotopy of a state has the Maslov degree of that state and one more.
    ensures raises_maslov { (x y : List ℕ) → IsBijection (size g.now) x
        → IsTrue (homotopy_of axis g.now c corner (single x) y)
        → maslov_o g.now y ≡ maslov_o g.now x +ℤ pos 1 }

    // And its Alexander degree.
    ensures keeps_alexander { (x y : List ℕ) → IsBijection (size g.now) x
        → IsTrue (homotopy_of axis g.now c corner (single x) y)
        → alexander g.now y ≡ alexander g.now x }

    // So in each bidegree the grid and the exchanged grid have the same rank,
    ensures ranks_alike { (m a : ℤ) (d : ℕ) → IsHomologyRank g.now m a d ↔ IsHomologyRank (swapped axis g.now c) m a d }

    // and the same table.
    ensures table { (rows : List Row) → IsHomologyTable g.now rows ↔ IsHomologyTable (swapped axis g.now c) rows }

    // A cycle bounds exactly if its image bounds in the exchanged grid.
    ensures bounds { (y : States) → IsChain (size g.now) y → border g.now y ≡ nothing
        → Bounds g.now y ↔ Bounds (swapped axis g.now c) (image axis g.now c corner y) }
{
    let _ = g.size();
    homotopy_sum(alloc, g, axis, c, corner, z)
}
