//! The commands of a document.
ghost use Rattle.std.specs.Prelude.{◌≡◌, ◌∷◌, [], ◌++◌, length, ◌<◌, IsTrue, IsNone, IfSome, OnSome, ◌↔◌, take};
ghost use Rattle.state_rank.specs.States.{rank};
ghost use Rattle.grid_text.specs.States.{AreStates};

use grid_moves::{Axis, Side};
use grid_symmetry::Symmetry;
use pentagon_map::Corner;
use stabilise::Square;
use state_rank::State;
use std::marker::Model;

/// The greatest number of commands of a document.
pub const MAX_COMMANDS: usize = 256;

/// Which of the two Legendrian grid states is meant: x+ or x-.
#[derive(Clone, Copy, PartialEq, Eq, Debug)]
pub enum Sign {
    Plus,
    Minus,
}

/// States of one size, strictly ascending.
#[derive(Drop)]
pub struct StateList {
    states: Vec<State>,
}

impl Model for StateList {
    ghost use Rattle.std.specs.Prelude.{List, ℕ};
    ghost use Rattle.grid_text.specs.States.{AreStates};

    ghost Value = { List (List ℕ) };

    ghost view = { λ s. s.states.items };

    ghost invariant = { λ s. AreStates s.states.items };
}

impl StateList {
    /// The list of these states, if they are of one size and strictly ascending.
    pub fn of(states: Vec<State>) -> Option<StateList>
        ensures states { IfSome result (λ z. z ≡ states.items) }
        ensures ascending { OnSome result (AreStates states.items) }
        ensures none { IsNone result → AreStates states.items → ⊥ }
    {
        if are_ascending(&states) {
            Some(StateList { states })
        } else {
            None
        }
    }

    /// The states, in ascending order.
    pub fn states(&self) -> &[State]
        ensures states { result.now ≡ self.now }
        ensures ascending { AreStates self.now }
    {
        &self.states
    }
}

// Whether the states are of one size and strictly ascending.
fn are_ascending(states: &[State]) -> bool
    ensures { IsTrue result ↔ AreStates states.now }
{
    for (k, state) in states.iter().enumerate() {
        if !may_follow(&states[..k], state) {
            return false;
        }
    }
    true
}

// Whether the state may come after the others.
fn may_follow(others: &[State], state: &State) -> bool
    requires { AreStates others.now }
    ensures { IsTrue result ↔ AreStates (others.now ++ state.now ∷ []) }
{
    let _size = state.size();
    if others.is_empty() {
        return true;
    }
    is_after(&others[others.len() - 1], state)
}

// Whether the two states are of one size, and the first before the other.
fn is_after(first: &State, state: &State) -> bool
    ensures { IsTrue result
        ↔ ((length first.now ≡ length state.now) × (rank first.now < rank state.now)) }
{
    first.size() == state.size() && first.rank() < state.rank()
}

/// A command of a document.
#[derive(Drop)]
pub enum Command {
    Front,
    Ranks,
    Hat,
    Class(Sign),
    Border(State),
    Chain(StateList),
    Show,
    Bounds,
    Turn(Side),
    Commute(Axis, u8, Corner),
    /// The stabilisation at the X of a column, with the square that stays empty.
    Stab(u8, Square),
    /// The stabilisation at a column and a row, with this square empty, undone.
    Destab(u8, u8, Square),
    /// What the way there and back across a commutation does to the chain.
    Invert(Axis, u8, Corner),
    Symm(Symmetry),
    Coranks,
    Euler,
}
