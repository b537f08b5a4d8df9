//! The exchanges of one circle of a state, in order.
//!
//! Two of them first differ at the lower of their circles other than `a`, or at `a`. So those that give a
//! circle left of `a` a lower row come first, from the left; then those with circles right of `a`, by the row
//! that comes to `a`; and then those that give a circle left of `a` a higher row, from the right.
ghost use Rattle.std.specs.Prelude.{◌≡◌, ◌+◌, ◌<◌, ◌≤◌, ◌&&◌, ◌++◌, length, ℕ};
ghost use Rattle.std.specs.Int.{bit_at};
ghost use Rattle.state_rank.specs.States.{IsState, transpose};
ghost use Rattle.pentagon_map.specs.Inner.Exchanges.{is_set as is_set_of, lowering, sideways, raising, in_order};

use rectangles::TargetStates;
use smallvec::SmallVec;
use state_rank::State;
use std::alloc::Global;

/// The exchanges of the circle `a` of `x` with the circles whose bit is set in `odd`, ascending.
pub fn exchanges(alloc: Global, x: &State, a: u8, odd: u16) -> TargetStates
    requires { a < length x.now }
    ensures items { result.items ≡ in_order x.now a odd }
    ensures capacity { result.capacity ≡ 45 }
    ensures state { IsState x.now }
{
    let _ = x.size();
    let columns = x.transpose();
    let mut states = SmallVec::new(alloc);
    push_lowering(&mut states, x, a, odd);
    push_sideways(&mut states, x, &columns, a, odd);
    push_raising(&mut states, x, a, odd);
    states
}

// Appends the exchanges with circles left of `a` that have a higher row.
fn push_lowering(states: &mut TargetStates, x: &State, a: u8, odd: u16)
    requires below { a < length x.now }
    requires room { length states.old.items + length x.now ≤ states.old.capacity }
    ensures items { states.new.items ≡ states.old.items ++ lowering x.now a odd }
    ensures few { length states.new.items ≤ length states.old.items + length x.now }
    ensures capacity { states.new.capacity ≡ states.old.capacity }
{
    let row = x.row(a);
    for b in 0..a {
        if is_set_where(odd, b, row < x.row(b)) {
            states.push_reserved(x.exchange(a, b));
        }
    }
}

// Appends the exchanges with circles right of `a`, by their rows.
fn push_sideways(states: &mut TargetStates, x: &State, columns: &State, a: u8, odd: u16)
    requires columns { columns.now ≡ transpose x.now }
    requires same_size { length columns.now ≡ length x.now }
    requires below { a < length x.now }
    requires room { length states.old.items + length x.now ≤ states.old.capacity }
    ensures items { states.new.items ≡ states.old.items ++ sideways x.now a odd }
    ensures few { length states.new.items ≤ length states.old.items + length x.now }
    ensures capacity { states.new.capacity ≡ states.old.capacity }
{
    for r in 0..columns.size() {
        let b = columns.row(r);
        if is_set_where(odd, b, a < b) {
            states.push_reserved(x.exchange(a, b));
        }
    }
}

// Appends the exchanges with circles left of `a` that have a lower row.
fn push_raising(states: &mut TargetStates, x: &State, a: u8, odd: u16)
    requires below { a < length x.now }
    requires room { length states.old.items + length x.now ≤ states.old.capacity }
    ensures items { states.new.items ≡ states.old.items ++ raising x.now a odd }
    ensures capacity { states.new.capacity ≡ states.old.capacity }
{
    let row = x.row(a);
    for b in (0..a).rev() {
        if is_set_where(odd, b, x.row(b) < row) {
            states.push_reserved(x.exchange(a, b));
        }
    }
}

// Whether a condition holds and bit `i` is set.
fn is_set_where(bits: u16, i: u8, holds: bool) -> bool
    requires { i < 16 }
    ensures { result ≡ (holds && is_set_of bits i) }
{
    holds && bits >> i & 1 == 1
}
