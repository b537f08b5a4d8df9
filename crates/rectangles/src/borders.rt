//! The border of a state, and of a chain.
ghost use Rattle.std.specs.Prelude.{List, pos, ◌+ℤ◌, ◌≡◌, ℕ, length, true, IfOk, OnOk};
ghost use Rattle.f2_algebra.specs.Chain.{◌⊕◌};
ghost use Rattle.state_rank.specs.States.{rank};
ghost use Rattle.torus_geom.specs.Marks.{size};
ghost use Rattle.torus_geom.specs.Degrees.{maslov_o, alexander};
ghost use Rattle.torus_geom.specs.Border.{border as border_of};
ghost use Rattle.torus_geom.specs.Chains.{Chain as States, nothing, single};
ghost use Rattle.torus_geom.specs.Codes.{HasIndices, states_of};
ghost use Rattle.torus_geom.specs.Inner.CodeBorder.{border_of_state as border_codes};

use crate::first_marks::FirstMarks;
use crate::target_states::target_indices;
use f2_chain::{Builder, Chain};
use grid_ports::NoMemory;
use state_rank::State;
use std::alloc::Global;
use torus_geom::Grid;

/// The border of the state `x`: the states to which an odd number of empty unmarked rectangles of `g`
/// lead from `x`, by their indices.
///
/// `g` and `x` have one size.
///
/// # Errors
///
/// `NoMemory` if the allocator refuses.
pub fn border_of_state(alloc: Global, g: &Grid, x: &State) -> Result<Chain, NoMemory>
    requires size { length x.now ≡ size g.now }
    ensures border { IfOk result (λ z. states_of (size g.now) z ≡ border_of g.now (single x.now)) }
    ensures indices { IfOk result (HasIndices (size g.now)) }

    // Each state of the border has a Maslov degree one lower than `x`, whatever the call answers.
    ensures lowers_maslov { (y : List ℕ) → border_of g.now (single x.now) y ≡ true
        → maslov_o g.now x.now ≡ maslov_o g.now y +ℤ pos 1 }

    // And the same Alexander degree.
    ensures keeps_alexander { (y : List ℕ) → border_of g.now (single x.now) y ≡ true
        → alexander g.now x.now ≡ alexander g.now y }
{
    let _ = g.size();
    let _ = x.size();
    let marks = FirstMarks::of(g);
    let mut sum = Builder::new(alloc);
    toggle_targets(alloc, &marks, x, x.rank(), &mut sum)?;
    sum.finish()
}

/// The border of `z`: the states that an odd number of empty unmarked rectangles of `g` reach from
/// members of `z`.
///
/// It is the differential of the fully blocked grid complex over F2 (Ozsváth, Stipsicz and Szabó,
/// "Grid Homology for Knots and Links", chapter 4). `z` and the answer hold indices of states, each
/// from 0 to n! - 1, where n is the size of `g`.
///
/// # Errors
///
/// `NoMemory` if the allocator refuses.
pub fn border(alloc: Global, g: &Grid, z: &Chain) -> Result<Chain, NoMemory>
    requires indices { HasIndices (size g.now) z.now }
    ensures border { IfOk result (λ y. states_of (size g.now) y ≡ border_of g.now (states_of (size g.now) z.now)) }
    ensures indices_again { IfOk result (HasIndices (size g.now)) }

    // The border of the border of any chain is empty, whatever the call answers.
    ensures square { (y : States) → border_of g.now (border_of g.now y) ≡ nothing }
{
    let n = g.size();
    let marks = FirstMarks::of(g);
    let mut sum = Builder::new(alloc);
    for code in z.codes() {
        toggle_targets(alloc, &marks, &State::unrank(n, *code), *code, &mut sum)?;
    }
    sum.finish()
}

// Toggles each state of the border of `x`, whose index is `index`.
fn toggle_targets(
    alloc: Global,
    marks: &FirstMarks,
    x: &State,
    index: u32,
    sum: &mut Builder,
) -> Result<(), NoMemory>
    requires size { length x.now ≡ size marks.now }
    requires index { index ≡ rank x.now }
    ensures { OnOk result (sum.new ≡ sum.old ⊕ border_codes marks.now x.now) }
{
    let _ = x.size();
    let indices = target_indices(alloc, marks, x, index);
    for target in indices.as_slice() {
        sum.toggle(*target)?;
    }
    Ok(())
}
