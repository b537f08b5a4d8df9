//! The lines of verdicts, each with its evidence.
ghost use Rattle.std.specs.Prelude.{◌≡◌, ◌++◌, length, IfOk, codes};
ghost use Rattle.state_rank.specs.Bijection.{IsSize};
ghost use Rattle.torus_geom.specs.Codes.{HasIndices, states_of};
ghost use Rattle.torus_geom.specs.Marks.{size};
ghost use Rattle.text_lines.specs.Lines.{line as line_of, chain_line};
ghost use Rattle.grid_job.specs.VerdictTexts.{class_state as class_state_of, verdict_line as verdict_line_of, IsClassText, IsBoundsText};

use f2_chain::{Chain, CodeSet};
use front_data::{minus_state, plus_state};
use gradings::degree;
use grid_ports::NoMemory;
use grid_text::Sign;
use legendrian_class::{ClassVerdict, verdict};
use report_text::{class_line, set_line};
use state_rank::State;
use std::alloc::Global;
use torus_geom::Grid;

/// The lines of the class of x+ or x-: its state with its degrees, and whether it is null or alive, with
/// the evidence.
pub(crate) fn class_lines(alloc: Global, g: &Grid, sign: Sign) -> Result<Vec<u8>, NoMemory>
    ensures { IfOk result (λ text. IsClassText g.now sign text.items) }
{
    let n = g.size();
    let x = class_state(g, sign);
    let z = CodeSet::single(alloc, x.rank())?;
    match verdict(alloc, g, &z)? {
        ClassVerdict::NotCycle { state: _ } => unreachable!(),
        ClassVerdict::Null { bound } => {
            let text = verdict_line(alloc, g, sign, &x, false)?;
            with_set(alloc, text, "bound", n, &bound)
        }
        ClassVerdict::Alive { cocycle } => {
            let text = verdict_line(alloc, g, sign, &x, true)?;
            with_set(alloc, text, "cocycle", n, &cocycle)
        }
    }
}

/// The lines of the verdict of the chain `z`, with its evidence.
pub(crate) fn bounds_lines(alloc: Global, g: &Grid, z: &Chain) -> Result<Vec<u8>, NoMemory>
    requires { HasIndices (size g.now) z.now }
    ensures { IfOk result (λ text. IsBoundsText g.now (states_of (size g.now) z.now) text.items) }
{
    let n = g.size();
    match verdict(alloc, g, z)? {
        ClassVerdict::NotCycle { state } => {
            let least = CodeSet::single(alloc, state)?;
            set_line(alloc, "bounds notcycle", n, &least)
        }
        ClassVerdict::Null { bound } => {
            let text = Vec::from_slice(alloc, b"bounds null\n")?;
            with_set(alloc, text, "bound", n, &bound)
        }
        ClassVerdict::Alive { cocycle } => {
            let text = Vec::from_slice(alloc, b"bounds alive\n")?;
            with_set(alloc, text, "cocycle", n, &cocycle)
        }
    }
}

/// The state x+ or x-.
pub(crate) fn class_state(g: &Grid, sign: Sign) -> State
    ensures { result ≡ class_state_of g.now sign }
{
    match sign {
        Sign::Plus => plus_state(g),
        Sign::Minus => minus_state(g),
    }
}

// The line of a class, whose state is `x`, that is alive, or null.
fn verdict_line(
    alloc: Global,
    g: &Grid,
    sign: Sign,
    x: &State,
    alive: bool,
) -> Result<Vec<u8>, NoMemory>
    requires state { x.now ≡ class_state_of g.now sign }
    ensures { IfOk result (λ text. text.items ≡ verdict_line_of g.now sign alive) }
{
    let _ = g.size();
    class_line(alloc, sign, x, degree(g, x), alive)
}

/// The text, and below it the line of a set of states.
pub(crate) fn with_set(
    alloc: Global,
    mut text: Vec<u8>,
    word: &str,
    n: u8,
    z: &Chain,
) -> Result<Vec<u8>, NoMemory>
    requires size { IsSize n }
    requires indices { HasIndices n z.now }
    ensures { IfOk result (λ lines.
        lines.items ≡ text.items ++ line_of (chain_line word.now n (states_of n z.now))) }
{
    let set = set_line(alloc, word, n, z)?;
    text.extend_from_slice(&set)?;
    Ok(text)
}
