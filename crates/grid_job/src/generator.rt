//! The generator of scripts.
ghost use Rattle.std.specs.Prelude.{◌≡◌, ◌-◌, ◌^◌, ◌<◌, length, IfOk};
ghost use Rattle.state_rank.specs.Bijection.{IsSize, ascending as ascending_of};
ghost use Rattle.grid_job.specs.Generator.{next_number as next_number_of, number_after, shuffled, IsGridThrough, IsMadeScript};

use grid_ports::NoMemory;
use grid_text::{Command, Script, Sign};
use state_rank::{ROOM, State};
use std::alloc::Global;
use torus_geom::{Grid, one_down};

/// The numbers below the greatest size.
const ASCENDING: [u8; ROOM] = [0, 1, 2, 3, 4, 5, 6, 7, 8, 9];

/// The script that the seed gives: a grid of this size, drawn by a linear congruential generator, and the
/// commands `front`, `hat`, `class +` and `class -`.
///
/// The numbers are 1,103,515,245 times the one before plus 12,345, mod 2^31, from the seed on; a number
/// draws below m its quotient by 65,536, mod m.
///
/// # Errors
///
/// `NoMemory` if the allocator refuses.
pub fn make_script(alloc: Global, size: u8, seed: u32) -> Result<Script, NoMemory>
    requires size { IsSize size }
    requires seed { seed < 2 ^ 31 }
    ensures { IfOk result (λ s. IsMadeScript size seed s) }
{
    let mut number = seed;
    let columns = shuffle(size, &mut number);
    let rows = shuffle(size, &mut number);
    let grid = grid_through(&columns, &rows);
    let mut script = Script::new(alloc, &grid);
    script.push(Command::Front)?;
    script.push(Command::Hat)?;
    script.push(Command::Class(Sign::Plus))?;
    script.push(Command::Class(Sign::Minus))?;
    Ok(script)
}

// The grid that goes through these columns and rows.
fn grid_through(columns: &State, rows: &State) -> Grid
    requires { length rows.now ≡ length columns.now }
    ensures { IsGridThrough columns.now rows.now result }
{
    let n = columns.size();
    let _ = rows.size();
    let places = columns.transpose();
    let mut o = [0; ROOM];
    let mut x = [0; ROOM];
    for c in 0..n {
        let place = places.row(c);
        o[usize::from(c)] = rows.row(one_down(n, place));
        x[usize::from(c)] = rows.row(place);
    }
    Grid::from_marks(&o[..usize::from(n)], &x[..usize::from(n)])
}

// The numbers below `n`, shuffled by the numbers of the generator after `number`, which goes on.
fn shuffle(n: u8, number: &mut u32) -> State
    requires size { IsSize n }
    requires number { number.old < 2 ^ 31 }
    ensures state { result ≡ shuffled n number.old }
    ensures size { length result ≡ n }
    ensures number { number.new ≡ number_after (n - 1) number.old }
    ensures below { number.new < 2 ^ 31 }
{
    let mut state = ascending(n);
    let mut current = *number;
    for done in 1..n {
        let place = n - done;
        current = next_number(current);
        let other = current / 65_536 % (u32::from(place) + 1);
        state = state.exchange(place, other as u8);
    }
    *number = current;
    state
}

// The number after this one.
fn next_number(number: u32) -> u32
    requires { number < 2 ^ 31 }
    ensures value { result ≡ next_number_of number }
    ensures below { result < 2 ^ 31 }
{
    ((1_103_515_245 * u64::from(number) + 12_345) % 2_147_483_648) as u32
}

// The numbers below `n`, ascending.
fn ascending(n: u8) -> State
    requires { IsSize n }
    ensures { result ≡ ascending_of n }
{
    State::of(&ASCENDING[..usize::from(n)]).unwrap()
}
