//! What is in force where a command stands.
ghost use Rattle.std.specs.Prelude.{◌≡◌, IfOk, OnOk, OnErr, map};
ghost use Rattle.f2_algebra.specs.Chain.{of_codes};
ghost use Rattle.state_rank.specs.States.{rank};
ghost use Rattle.grid_text.specs.Commands.{IsAllowed};
ghost use Rattle.legendrian_class.specs.FollowedCodes.{followed_of};
ghost use Rattle.grid_job.specs.InForce.{after_command};

use f2_chain::{Builder, Chain};
use grid_ports::NoMemory;
use grid_text::{Command, StateList};
use legendrian_class::Follower;
use stabilise::{destabilise, stabilise};
use std::alloc::Global;

/// Goes past a command. If memory runs out, grid and chain are as before.
pub(crate) fn follow(alloc: Global, p: &mut Follower, command: &Command) -> Result<(), NoMemory>
    requires { IsAllowed p.old.grid command.now }
    ensures after { OnOk result (followed_of p.new ≡ after_command (followed_of p.old) command.now) }
    ensures unchanged { OnErr result (p.new ≡ p.old) }
{
    match command {
        Command::Chain(states) => p.set(chain_of(alloc, states)?),
        Command::Turn(side) => p.turn(alloc, *side)?,
        Command::Commute(axis, c, corner) => p.commute(alloc, *axis, *c, *corner)?,
        Command::Stab(c, empty) => *p = Follower::new(alloc, &stabilise(p.grid(), *c, *empty)),
        Command::Destab(c, r, empty) => {
            *p = Follower::new(alloc, &destabilise(p.grid(), *c, *r, *empty));
        }
        Command::Symm(s) => p.symmetry(alloc, *s)?,
        _ => {}
    }
    Ok(())
}

// The chain of these states.
fn chain_of(alloc: Global, states: &StateList) -> Result<Chain, NoMemory>
    ensures { IfOk result (λ z. z ≡ of_codes (map rank states.now)) }
{
    let mut chain = Builder::new(alloc);
    for state in states.states() {
        chain.toggle(state.rank())?;
    }
    chain.finish()
}
