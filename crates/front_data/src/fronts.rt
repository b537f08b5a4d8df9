//! Crossings, corners and the numbers of a front.
ghost use Rattle.std.specs.Prelude.{◌≡◌, ◌≤◌, ◌<◌, ℕ, ◌*◌, pos, neg_ℤ, ◌+ℤ◌, ◌-ℤ◌, ◌*ℤ◌, ◌≤ℤ◌, ◌&&◌, ◌||◌, nat_lt, if◌then◌else◌};
ghost use Rattle.torus_geom.specs.Counts.{one_if, sum_below};
ghost use Rattle.torus_geom.specs.Marks.{size};
ghost use Rattle.torus_geom.specs.Components.{components};
ghost use Rattle.torus_geom.specs.Front.{sign as sign_of, writhe as writhe_of, is_north_east_x, is_north_east_o, is_south_west_x, is_south_west_o, north_east as north_east_of, south_west, thurston_bennequin, doubled_rotation as doubled_rotation_of, rotation};

use state_rank::MAX_SIZE;
use torus_geom::Grid;

/// The classical invariants of a front.
#[derive(Clone, Copy, PartialEq, Eq, Debug)]
pub struct FrontNumbers {
    /// The Thurston-Bennequin number.
    pub tb: i32,
    /// The rotation number.
    pub rot: i32,
    /// The number of components of the link.
    pub components: u8,
}

/// The classical invariants of the front of `g`.
///
/// In each column the vertical segment runs from the X to the O, in each row the horizontal segment
/// from the O to the X, and the vertical strand crosses over. The front is this diagram with its
/// crossings exchanged; its cusps are the NE and the SW corners (Ozsváth, Stipsicz and Szabó, "Grid
/// Homology for Knots and Links", chapter 12).
pub fn front(g: &Grid) -> FrontNumbers
    ensures tb { result.tb ≡ thurston_bennequin g.now }
    ensures rot { result.rot ≡ rotation g.now }
    ensures components { result.components ≡ components g.now }

    // There are as many NE as SW corners.
    ensures corners { north_east_of g.now ≡ south_west g.now }

    // The rotation number is whole.
    ensures whole { pos 2 *ℤ rotation g.now ≡ doubled_rotation_of g.now }
{
    FrontNumbers {
        tb: -writhe(g) - north_east(g),
        rot: doubled_rotation(g) / 2,
        components: g.components(),
    }
}

// The sum of the signs of all crossings.
fn writhe(g: &Grid) -> i32
    ensures value { result ≡ writhe_of g.now }
    ensures low { neg_ℤ (pos (MAX_SIZE * MAX_SIZE)) ≤ℤ result }
    ensures high { result ≤ℤ pos (MAX_SIZE * MAX_SIZE) }
{
    let mut sum = 0;
    for c in 0..g.size() {
        sum += writhe_of_column(g, c);
    }
    sum
}

// The sum of the signs of the crossings of a column.
fn writhe_of_column(g: &Grid, c: u8) -> i32
    requires { c < size g.now }
    ensures value { result ≡ sum_below (size g.now) (sign_of g.now c) }
    ensures low { neg_ℤ (pos (size g.now)) ≤ℤ result }
    ensures high { result ≤ℤ pos (size g.now) }
{
    let mut sum = 0;
    for r in 0..g.size() {
        sum += sign(g, c, r);
    }
    sum
}

// The sign of the crossing at column c and row r, or 0 if there is none.
fn sign(g: &Grid, c: u8, r: u8) -> i32
    requires column { c < size g.now }
    requires row { r < size g.now }
    ensures value { result ≡ sign_of g.now c r }
    ensures low { neg_ℤ (pos 1) ≤ℤ result }
    ensures high { result ≤ℤ pos 1 }
{
    let up = is_between(g.x(c), r, g.o(c));
    let down = is_between(g.o(c), r, g.x(c));
    let right = is_between(g.o_column(r), c, g.x_column(r));
    let left = is_between(g.x_column(r), c, g.o_column(r));
    sign_of_turn(up, down, right, left)
}

// The sign of a crossing, by the ways of its vertical and its horizontal strand.
fn sign_of_turn(up: bool, down: bool, right: bool, left: bool) -> i32
    ensures value { result ≡ (if (up && right) || (down && left) then neg_ℤ (pos 1)
        else (if (up && left) || (down && right) then pos 1 else pos 0)) }
    ensures low { neg_ℤ (pos 1) ≤ℤ result }
    ensures high { result ≤ℤ pos 1 }
{
    if (up && right) || (down && left) {
        -1
    } else if (up && left) || (down && right) {
        1
    } else {
        0
    }
}

fn is_between(a: u8, b: u8, c: u8) -> bool
    ensures { result ≡ (nat_lt a b && nat_lt b c) }
{
    a < b && b < c
}

// The number of NE corners.
fn north_east(g: &Grid) -> i32
    ensures value { result ≡ north_east_of g.now }
    ensures corners { north_east_of g.now ≡ south_west g.now }
    ensures low { neg_ℤ (pos (2 * MAX_SIZE)) ≤ℤ result }
    ensures high { result ≤ℤ pos (2 * MAX_SIZE) }
{
    let mut sum = 0;
    for c in 0..g.size() {
        sum += north_east_at(g, c);
    }
    sum
}

// The number of NE corners of a column.
fn north_east_at(g: &Grid, c: u8) -> i32
    requires { c < size g.now }
    ensures value { result ≡ one_if (is_north_east_x g.now c) +ℤ one_if (is_north_east_o g.now c) }
    ensures low { neg_ℤ (pos 2) ≤ℤ result }
    ensures high { result ≤ℤ pos 2 }
{
    i32::from(is_north_east_at_x(g, c)) + i32::from(is_north_east_at_o(g, c))
}

// Twice the rotation number.
fn doubled_rotation(g: &Grid) -> i32
    ensures value { result ≡ doubled_rotation_of g.now }
    ensures whole { pos 2 *ℤ rotation g.now ≡ doubled_rotation_of g.now }
    ensures low { neg_ℤ (pos (2 * MAX_SIZE)) ≤ℤ result }
    ensures high { result ≤ℤ pos (2 * MAX_SIZE) }
{
    let mut sum = 0;
    for c in 0..g.size() {
        sum += doubled_rotation_at(g, c);
    }
    sum
}

// What the corners of a column add to twice the rotation number.
fn doubled_rotation_at(g: &Grid, c: u8) -> i32
    requires { c < size g.now }
    ensures value { result ≡ one_if (is_north_east_x g.now c) +ℤ one_if (is_south_west_o g.now c)
        -ℤ one_if (is_north_east_o g.now c) -ℤ one_if (is_south_west_x g.now c) }
    ensures low { neg_ℤ (pos 2) ≤ℤ result }
    ensures high { result ≤ℤ pos 2 }
{
    added_corners(g, c) - taken_corners(g, c)
}

// The corners of a column that count as 1: an NE corner at its X, an SW corner at its O.
fn added_corners(g: &Grid, c: u8) -> i32
    requires { c < size g.now }
    ensures value { result ≡ one_if (is_north_east_x g.now c) +ℤ one_if (is_south_west_o g.now c) }
    ensures low { pos 0 ≤ℤ result }
    ensures high { result ≤ℤ pos 2 }
{
    i32::from(is_north_east_at_x(g, c)) + i32::from(is_south_west_at_o(g, c))
}

// The corners of a column that count as -1: an NE corner at its O, an SW corner at its X.
fn taken_corners(g: &Grid, c: u8) -> i32
    requires { c < size g.now }
    ensures value { result ≡ one_if (is_north_east_o g.now c) +ℤ one_if (is_south_west_x g.now c) }
    ensures low { pos 0 ≤ℤ result }
    ensures high { result ≤ℤ pos 2 }
{
    i32::from(is_north_east_at_o(g, c)) + i32::from(is_south_west_at_x(g, c))
}

fn is_north_east_at_x(g: &Grid, c: u8) -> bool
    requires { c < size g.now }
    ensures { result ≡ is_north_east_x g.now c }
{
    g.o(c) < g.x(c) && g.o_column(g.x(c)) < c
}

fn is_north_east_at_o(g: &Grid, c: u8) -> bool
    requires { c < size g.now }
    ensures { result ≡ is_north_east_o g.now c }
{
    g.x(c) < g.o(c) && g.x_column(g.o(c)) < c
}

fn is_south_west_at_x(g: &Grid, c: u8) -> bool
    requires { c < size g.now }
    ensures { result ≡ is_south_west_x g.now c }
{
    g.x(c) < g.o(c) && c < g.o_column(g.x(c))
}

fn is_south_west_at_o(g: &Grid, c: u8) -> bool
    requires { c < size g.now }
    ensures { result ≡ is_south_west_o g.now c }
{
    g.o(c) < g.x(c) && c < g.x_column(g.o(c))
}
