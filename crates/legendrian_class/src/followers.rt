//! A chain that is followed through moves of its grid.
ghost use Rattle.std.specs.Prelude.{◌≡◌, ◌≢◌, ◌↔◌, ◌<◌, IfOk, IsTrue, OnErr, OnOk};
ghost use Rattle.state_rank.specs.Bijection.{IsSize};
ghost use Rattle.torus_geom.specs.Border.{Bounds, border};
ghost use Rattle.torus_geom.specs.Chains.{Chain as StateChain, IsChain, nothing, single};
ghost use Rattle.torus_geom.specs.Front.{minus_state, plus_state};
ghost use Rattle.torus_geom.specs.Marks.{size};
ghost use Rattle.torus_geom.specs.Transposed.{transposed};
ghost use Rattle.grid_moves.specs.Inner.CodeCarried.{carried, turned_chain};
ghost use Rattle.grid_moves.specs.Moves.{are_commuting, swapped, turned};
ghost use Rattle.grid_symmetry.specs.Symmetries.{half_turned, symmetric, symmetric_chain, symmetric_state};
ghost use Rattle.legendrian_class.specs.Followed.{after_commutation, after_symmetry, after_turn, at_start};
ghost use Rattle.legendrian_class.specs.FollowedCodes.{followed_of};
ghost use Rattle.legendrian_class.specs.Inner.CodeFollowed.{codes_after};
ghost use Rattle.torus_geom.specs.Codes.{HasIndices};

use f2_chain::{Builder, Chain, CodeSet};
use grid_moves::{Axis, Side, swap, turn_state};
use grid_ports::NoMemory;
use grid_symmetry::{Symmetry, apply, apply_state};
use pentagon_map::{Corner, image};
use state_rank::State;
use std::alloc::Global;
use std::marker::Model;
use torus_geom::Grid;

/// A grid and a chain of its states, which follows the moves of the grid.
#[derive(Drop)]
pub struct Follower {
    grid: Grid,
    chain: Chain,
}

impl Model for Follower {
    ghost use Rattle.torus_geom.specs.Codes.{HasIndices};
    ghost use Rattle.torus_geom.specs.Marks.{size as size_of};
    ghost use Rattle.legendrian_class.specs.FollowedCodes.{FollowedCodes, followed_code};

    ghost Value = { FollowedCodes };

    ghost coded = { followed_code };

    ghost view = { λ f. record { grid = f.grid; chain = f.chain } };

    ghost invariant = { λ f. HasIndices (size_of f.grid) f.chain };
}

impl Follower {
    /// The grid `g` and the empty chain. It takes no memory.
    pub fn new(alloc: Global, g: &Grid) -> Follower
        ensures { followed_of result ≡ at_start g.now }
    {
        Follower {
            grid: *g,
            chain: CodeSet::empty(alloc),
        }
    }

    /// Puts the chain `z` in the place of the chain.
    pub fn set(&mut self, z: Chain)
        requires indices { HasIndices (size self.old.grid) z }
        ensures grid { self.new.grid ≡ self.old.grid }
        ensures chain { self.new.chain ≡ z }
    {
        self.chain = z;
    }

    /// The grid.
    pub fn grid(&self) -> &Grid
        ensures { result.now ≡ self.now.grid }
    {
        &self.grid
    }

    /// The chain.
    pub fn chain(&self) -> &Chain
        ensures chain { result.now ≡ self.now.chain }
        ensures indices { HasIndices (size self.now.grid) self.now.chain }
    {
        &self.chain
    }
    /// Turns the grid by one column or row to `side`, and each state of the chain with it.
    ///
    /// # Errors
    ///
    /// `NoMemory` if the allocator refuses; grid and chain are as before.
    pub fn turn(&mut self, alloc: Global, side: Side) -> Result<(), NoMemory>
        ensures after { OnOk result (followed_of self.new ≡ after_turn side (followed_of self.old)) }
        ensures unchanged { OnErr result (self.new ≡ self.old) }

        // Whatever the call answers: x+ bounds in the grid exactly if it bounds in the turned grid.
        ensures plus_bounds { Bounds self.old.grid (single (plus_state self.old.grid))
            ↔ Bounds (turned side self.old.grid) (single (plus_state (turned side self.old.grid))) }

        // And so does x-.
        ensures minus_bounds { Bounds self.old.grid (single (minus_state self.old.grid))
            ↔ Bounds (turned side self.old.grid) (single (minus_state (turned side self.old.grid))) }
    {
        let n = self.grid.size();
        self.chain = turned_states(alloc, n, side, &self.chain)?;
        self.grid = grid_moves::turn(&self.grid, side);
        Ok(())
    }

    /// Exchanges columns (or rows) `c - 1` and `c` of the grid, and takes the image of the chain, for the
    /// crossing that `corner` chooses. At `c` = 0 they are the last and the first.
    ///
    /// # Errors
    ///
    /// `NoMemory` if the allocator refuses; grid and chain are as before.
    pub fn commute(
        &mut self,
        alloc: Global,
        axis: Axis,
        c: u8,
        corner: Corner,
    ) -> Result<(), NoMemory>
        requires below { c < size self.old.grid }
        requires commutes { IsTrue (are_commuting axis self.old.grid c) }
        ensures after { OnOk result (followed_of self.new ≡ after_commutation axis c corner (followed_of self.old)) }
        ensures unchanged { OnErr result (self.new ≡ self.old) }

        // Whatever the call answers: a cycle that is followed bounds exactly if it bounds after the exchange.
        ensures cycle_bounds { border self.old.grid (followed_of self.old).chain ≡ nothing
            → Bounds self.old.grid (followed_of self.old).chain
            ↔ Bounds (swapped axis self.old.grid c) (after_commutation axis c corner (followed_of self.old)).chain }

        // So x+ bounds in the grid exactly if it bounds in the exchanged grid.
        ensures plus_bounds { Bounds self.old.grid (single (plus_state self.old.grid))
            ↔ Bounds (swapped axis self.old.grid c) (single (plus_state (swapped axis self.old.grid c))) }

        // And so does x-.
        ensures minus_bounds { Bounds self.old.grid (single (minus_state self.old.grid))
            ↔ Bounds (swapped axis self.old.grid c) (single (minus_state (swapped axis self.old.grid c))) }
    {
        let _ = self.grid.size();
        self.chain = image(alloc, &self.grid, axis, c, corner, &self.chain)?;
        self.grid = swap(&self.grid, axis, c);
        Ok(())
    }

    /// Takes the grid and each state of the chain to what they become by the symmetry `s`. No chain is followed
    /// across `Mirror`, which carries coborders to borders: after it the chain is empty.
    ///
    /// # Errors
    ///
    /// `NoMemory` if the allocator refuses; grid and chain are as before.
    pub fn symmetry(&mut self, alloc: Global, s: Symmetry) -> Result<(), NoMemory>
        ensures after { OnOk result (followed_of self.new ≡ after_symmetry s (followed_of self.old)) }
        ensures unchanged { OnErr result (self.new ≡ self.old) }

        // Whatever the call answers: all but `Mirror` carry the border of each chain to the border of what it becomes.
        ensures carries_border { (z : StateChain) → IsChain (size self.old.grid) z → s ≢ Symmetry.Mirror
            → border (symmetric s self.old.grid) (symmetric_chain s (size self.old.grid) z)
            ≡ symmetric_chain s (size self.old.grid) (border self.old.grid z) }

        // `Flip` carries the chain of x+ to that of x+, and the chain of x- to that of x-.
        ensures flip_plus { symmetric_chain Symmetry.Flip (size self.old.grid) (single (plus_state self.old.grid))
            ≡ single (plus_state (transposed self.old.grid)) }
        ensures flip_minus { symmetric_chain Symmetry.Flip (size self.old.grid) (single (minus_state self.old.grid))
            ≡ single (minus_state (transposed self.old.grid)) }

        // `Half` carries each of them to the other.
        ensures half_plus { symmetric_chain Symmetry.Half (size self.old.grid) (single (plus_state self.old.grid))
            ≡ single (minus_state (half_turned self.old.grid)) }
        ensures half_minus { symmetric_chain Symmetry.Half (size self.old.grid) (single (minus_state self.old.grid))
            ≡ single (plus_state (half_turned self.old.grid)) }
    {
        let _ = self.grid.size();
        self.carry(alloc, s)
    }

    // The same without the laws.
    fn carry(&mut self, alloc: Global, s: Symmetry) -> Result<(), NoMemory>
        ensures after { OnOk result (followed_of self.new ≡ after_symmetry s (followed_of self.old)) }
        ensures unchanged { OnErr result (self.new ≡ self.old) }
    {
        let n = self.grid.size();
        self.chain = chain_after(alloc, n, s, &self.chain)?;
        self.grid = apply(&self.grid, s);
        Ok(())
    }
}

// The chain of what the states of `z`, of size `n`, become by the symmetry; none after the mirror image.
fn chain_after(alloc: Global, n: u8, s: Symmetry, z: &Chain) -> Result<Chain, NoMemory>
    requires is_size { IsSize n }
    requires indices { HasIndices n z.now }
    ensures { IfOk result (λ y. y ≡ codes_after s n z.now) }
{
    match s {
        Symmetry::Mirror => Ok(CodeSet::empty(alloc)),
        Symmetry::Flip | Symmetry::Half | Symmetry::Marks => carried_states(alloc, n, s, z),
    }
}

// The chain of what the states of `z`, of size `n`, become by the symmetry.
fn carried_states(alloc: Global, n: u8, s: Symmetry, z: &Chain) -> Result<Chain, NoMemory>
    requires is_size { IsSize n }
    requires indices { HasIndices n z.now }
    ensures { IfOk result (λ y. y ≡ carried n (symmetric_state s) z.now) }
{
    let mut carried = Builder::new(alloc);
    for code in z.codes() {
        carried.toggle(apply_state(&State::unrank(n, *code), s).rank())?;
    }
    carried.finish()
}

// The chain of the turned states of `z`, of size `n`.
fn turned_states(alloc: Global, n: u8, side: Side, z: &Chain) -> Result<Chain, NoMemory>
    requires is_size { IsSize n }
    requires indices { HasIndices n z.now }
    ensures { IfOk result (λ y. y ≡ turned_chain side n z.now) }
{
    let mut turned = Builder::new(alloc);
    for code in z.codes() {
        turned.toggle(turn_state(&State::unrank(n, *code), side).rank())?;
    }
    turned.finish()
}
