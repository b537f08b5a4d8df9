//! The states that x+ and x- bound after a stabilisation.
ghost use Rattle.std.specs.Prelude.{◌≡◌, ◌<◌};
ghost use Rattle.f2_algebra.specs.Bigraded.{up_m};
ghost use Rattle.torus_geom.specs.Marks.{size};
ghost use Rattle.torus_geom.specs.Chains.{single};
ghost use Rattle.torus_geom.specs.Border.{border};
ghost use Rattle.torus_geom.specs.Degrees.{bidegree};
ghost use Rattle.torus_geom.specs.Front.{plus_state as plus_state_of, minus_state as minus_state_of};
ghost use Rattle.stabilise.specs.declared.squares.Square.TheVariants.{Ne, Sw};
ghost use Rattle.stabilise.specs.Stabilised.{stabilised};
ghost use Rattle.stabilise.specs.Bounds.{plus_bound as plus_bound_of, minus_bound as minus_bound_of};

use crate::moves::stabilise;
use crate::squares::Square;
use front_data::{minus_state, plus_state};
use state_rank::{MAX_SIZE, State};
use torus_geom::{Grid, one_up};

/// The state whose border is x+ of `g` stabilised at the X of column `c` with the square `Ne` empty: that x+ with the
/// points on circles c + 1 and c + 2, mod the new size, exchanged.
pub fn plus_bound(g: &Grid, c: u8) -> State
    requires room { size g.now < MAX_SIZE }
    requires column { c < size g.now }
    ensures state { result ≡ plus_bound_of g.now c }

    // Its border is x+ alone.
    ensures border { border (stabilised g.now c Ne) (single (plus_bound_of g.now c))
        ≡ single (plus_state_of (stabilised g.now c Ne)) }

    // It is one Maslov degree above x+, in its Alexander degree.
    ensures degree { bidegree (stabilised g.now c Ne) (plus_bound_of g.now c)
        ≡ up_m (bidegree (stabilised g.now c Ne) (plus_state_of (stabilised g.now c Ne))) }
{
    let _ = g.size();
    let stabilised = stabilise(g, c, Square::Ne);
    plus_state(&stabilised).exchange(c + 1, one_up(stabilised.size(), c + 1))
}

/// The state whose border is x- of `g` stabilised at the X of column `c` with the square `Sw` empty: that x- with the
/// points on circles c and c + 1 exchanged.
pub fn minus_bound(g: &Grid, c: u8) -> State
    requires room { size g.now < MAX_SIZE }
    requires column { c < size g.now }
    ensures state { result ≡ minus_bound_of g.now c }

    // Its border is x- alone.
    ensures border { border (stabilised g.now c Sw) (single (minus_bound_of g.now c))
        ≡ single (minus_state_of (stabilised g.now c Sw)) }

    // It is one Maslov degree above x-, in its Alexander degree.
    ensures degree { bidegree (stabilised g.now c Sw) (minus_bound_of g.now c)
        ≡ up_m (bidegree (stabilised g.now c Sw) (minus_state_of (stabilised g.now c Sw))) }
{
    let _ = g.size();
    minus_state(&stabilise(g, c, Square::Sw)).exchange(c, c + 1)
}
