//! The part of a chain at one Alexander degree.
ghost use Rattle.std.specs.Prelude.{◌≡◌, ◌<◌, IfOk, IfSome, IsNone, true};
ghost use Rattle.f2_algebra.specs.Chain.{nothing, where_code};
ghost use Rattle.f2_algebra.specs.Complex.{AllCells, border as border_in};
ghost use Rattle.f2_algebra.specs.Bigraded.{at_alexander};
ghost use Rattle.state_rank.specs.Bijection.{IsSize};
ghost use Rattle.state_rank.specs.States.{factorial};
ghost use Rattle.torus_geom.specs.Marks.{size};
ghost use Rattle.torus_geom.specs.Inner.GridComplex.{grid_complex};
ghost use Rattle.torus_geom.specs.Codes.{HasIndices};
ghost use Rattle.legendrian_class.specs.Inner.Parts.{IsLeast, has_alexander, IsPartVerdict};

use bumpalo::Bump;
use cancel::{pull, push, reduce};
use f2_chain::{Builder, Chain, Cochain};
use gradings::DegreeTables;
use grid_ports::NoMemory;
use sparse_complex::AlexSlice;
use state_rank::State;
use std::alloc::Global;
use torus_geom::Grid;

// What a cycle of one Alexander degree is, with the evidence.
#[derive(Drop)]
pub(crate) enum PartVerdict {
    Null { bound: Chain },
    Alive { cocycle: Cochain },
}

// The least code, if there is one.
pub(crate) fn first_code(z: &Chain) -> Option<u32>
    ensures least { IfSome result (IsLeast z.now) }
    ensures none { IsNone result → z.now ≡ nothing }
{
    z.codes().first().copied()
}

// The part of `z` at the Alexander degree `a`, which the state of index `first` has.
pub(crate) fn part_at(
    alloc: Global,
    tables: &DegreeTables,
    n: u8,
    a: i32,
    first: u32,
    z: &Chain,
) -> Result<Chain, NoMemory>
    requires size { n ≡ size tables.now }
    requires is_size { IsSize n }
    requires indices { HasIndices (size tables.now) z.now }
    requires first { has_alexander tables.now a first ≡ true }
    ensures { IfOk result (λ part. part ≡ where_code (has_alexander tables.now a) z.now) }
{
    let mut part = Builder::new(alloc);
    for code in z.codes() {
        if is_at(tables, n, a, first, *code) {
            part.toggle(*code)?;
        }
    }
    part.finish()
}

// Whether the state of index `code` has the Alexander degree `a`, which that of index `first` has.
fn is_at(tables: &DegreeTables, n: u8, a: i32, first: u32, code: u32) -> bool
    requires size { n ≡ size tables.now }
    requires is_size { IsSize n }
    requires first { has_alexander tables.now a first ≡ true }
    requires state { code < factorial n }
    ensures { result ≡ has_alexander tables.now a code }
{
    if code == first {
        return true;
    }
    tables.alexander(&State::unrank(n, code)) == a
}

// The verdict of a cycle at the Alexander degree `a`. Slice, log and arena are given back.
pub(crate) fn part_verdict(
    alloc: Global,
    g: &Grid,
    a: i32,
    part: &Chain,
) -> Result<PartVerdict, NoMemory>
    requires cells { AllCells (at_alexander a (grid_complex g.now)) part.now }
    requires cycle { border_in (at_alexander a (grid_complex g.now)) part.now ≡ nothing }
    ensures { IfOk result (IsPartVerdict (at_alexander a (grid_complex g.now)) part.now) }
{
    let _size = g.size();
    let mut slice = AlexSlice::build(alloc, g, a)?;
    let bump = Bump::new(alloc);
    let log = reduce(alloc, &mut slice, &bump)?;
    drop(slice);
    let pushed = push(alloc, &log, part)?;
    let Some(code) = first_code(&pushed.rest) else {
        return Ok(PartVerdict::Null {
            bound: pushed.correction,
        });
    };
    let cocycle = pull(alloc, &log, code)?;
    Ok(PartVerdict::Alive { cocycle })
}
