//! The Legendrian grid states x+ and x-.
ghost use Rattle.std.specs.Prelude.{◌≡◌, ◌<◌, pos, ◌+ℤ◌, ◌-ℤ◌};
ghost use Rattle.torus_geom.specs.Border.{border};
ghost use Rattle.torus_geom.specs.Chains.{nothing, single};
ghost use Rattle.torus_geom.specs.Degrees.{maslov_o};
ghost use Rattle.torus_geom.specs.Front.{thurston_bennequin, rotation, plus_state as plus_state_of, minus_state as minus_state_of};

use state_rank::{ROOM, State};
use torus_geom::{Grid, one_down, one_up};

/// The state x+ of `g`: the NE corners of the squares with an X.
///
/// At circle c + 1 it has the row of the X of column c, plus one, both mod the size (Ozsváth, Szabó and
/// Thurston, "Legendrian knots, transverse knots and combinatorial knot Floer homology").
pub fn plus_state(g: &Grid) -> State
    ensures state { result ≡ plus_state_of g.now }

    // It is a cycle: each rectangle that leaves it holds an X.
    ensures cycle { border g.now (single (plus_state_of g.now)) ≡ nothing }

    // Its Maslov degree is tb - rot + 1.
    ensures degree { maslov_o g.now (plus_state_of g.now)
        ≡ thurston_bennequin g.now -ℤ rotation g.now +ℤ pos 1 }
{
    let n = g.size();
    let mut rows = [0; ROOM];
    for c in 0..n {
        rows[usize::from(c)] = one_up(n, g.x(one_down(n, c)));
    }
    State::of(&rows[..usize::from(n)]).unwrap()
}

/// The state x- of `g`: the SW corners of the squares with an X, so their rows.
///
/// The source is that of `plus_state`.
pub fn minus_state(g: &Grid) -> State
    ensures state { result ≡ minus_state_of g.now }

    // It is a cycle: each rectangle that leaves it holds an X.
    ensures cycle { border g.now (single (minus_state_of g.now)) ≡ nothing }

    // Its Maslov degree is tb + rot + 1.
    ensures degree { maslov_o g.now (minus_state_of g.now)
        ≡ thurston_bennequin g.now +ℤ rotation g.now +ℤ pos 1 }
{
    g.x_state()
}
