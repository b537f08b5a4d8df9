//! Verdicts of chains.
ghost use Rattle.std.specs.Prelude.{◌≡◌, IfOk};
ghost use Rattle.f2_algebra.specs.Chain.{nothing};
ghost use Rattle.torus_geom.specs.Chains.{Chain as States, IsChain};
ghost use Rattle.torus_geom.specs.Codes.{HasIndices, states_of};
ghost use Rattle.torus_geom.specs.Inner.CodeBorder.{border as border_codes};
ghost use Rattle.torus_geom.specs.Marks.{size};
ghost use Rattle.legendrian_class.specs.Verdicts.{IsVerdict, HasVerdict, HasOneVerdict};
ghost use Rattle.legendrian_class.specs.VerdictCodes.{HasVerdictIndices, verdict_of as states_verdict};
ghost use Rattle.legendrian_class.specs.Inner.CodeVerdicts.{IsVerdict as IsCodeVerdict};

use crate::parts::{PartVerdict, first_code, part_at, part_verdict};
use f2_chain::{Chain, Cochain, CodeSet};
use gradings::DegreeTables;
use grid_ports::NoMemory;
use rectangles::border;
use state_rank::State;
use std::alloc::Global;
use torus_geom::Grid;

/// What a chain is in the homology of a grid, with the evidence.
///
/// `NotCycle`: its border is not empty, and `state` is the least state of it. `Null`: it is the border of
/// `bound`. `Alive`: it is a cycle that bounds nothing, since `cocycle` pairs evenly with each border and
/// oddly with it.
#[derive(Drop, Debug)]
pub enum ClassVerdict {
    NotCycle { state: u32 },
    Null { bound: Chain },
    Alive { cocycle: Cochain },
}

/// The verdict of the chain `z` of states of `g`, by their indices.
///
/// For the chain of x+ or x- alone it is that of the Legendrian class of the link that the grid gives
/// (Ozsváth, Stipsicz and Szabó, "Grid Homology for Knots and Links", chapter 12), in the fully blocked
/// complex. The evidence may be any: it is no invariant of the class. The slice at each Alexander degree
/// of the chain is built, one after another, and no other.
///
/// # Errors
///
/// `NoMemory` if the allocator refuses.
pub fn verdict(alloc: Global, g: &Grid, z: &Chain) -> Result<ClassVerdict, NoMemory>
    requires indices { HasIndices (size g.now) z.now }
    ensures verdict { IfOk result (λ v.
        IsVerdict g.now (states_of (size g.now) z.now) (states_verdict (size g.now) v)) }
    ensures evidence { IfOk result (HasVerdictIndices (size g.now)) }

    // Whatever the call answers: each chain of states has a verdict with some evidence, and no two.
    ensures some_verdict { (y : States) → IsChain (size g.now) y → HasVerdict g.now y }
    ensures one_verdict { (y : States) → HasOneVerdict g.now y }
{
    let _size = g.size();
    verdict_of(alloc, g, z)
}

// The verdict of a chain.
fn verdict_of(alloc: Global, g: &Grid, z: &Chain) -> Result<ClassVerdict, NoMemory>
    requires indices { HasIndices (size g.now) z.now }
    ensures { IfOk result (IsCodeVerdict g.now z.now) }
{
    match first_code(&border(alloc, g, z)?) {
        Some(state) => Ok(ClassVerdict::NotCycle { state }),
        None => cycle_verdict(alloc, g, z),
    }
}

// The verdict of a cycle. Its parts at each Alexander degree are cycles; it is null if each of them is,
// and alive by the cocycle of any that is alive. `left` is the sum of the parts that are ahead.
fn cycle_verdict(alloc: Global, g: &Grid, z: &Chain) -> Result<ClassVerdict, NoMemory>
    requires indices { HasIndices (size g.now) z.now }
    requires cycle { border_codes g.now z.now ≡ nothing }
    ensures { IfOk result (IsCodeVerdict g.now z.now) }
{
    let n = g.size();
    let tables = DegreeTables::of(g);
    let mut bound = CodeSet::empty(alloc);
    let mut left = z.add(&bound)?;
    while let Some(code) = first_code(&left) {
        let a = tables.alexander(&State::unrank(n, code));
        let part = part_at(alloc, &tables, n, a, code, z)?;
        match part_verdict(alloc, g, a, &part)? {
            PartVerdict::Alive { cocycle } => return Ok(ClassVerdict::Alive { cocycle }),
            PartVerdict::Null { bound: more } => bound = bound.add(&more)?,
        }
        left = left.add(&part)?;
    }
    Ok(ClassVerdict::Null { bound })
}
