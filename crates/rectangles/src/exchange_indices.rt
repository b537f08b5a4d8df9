//! The index of a state with two points exchanged, from its own.

ghost use Rattle.std.specs.Prelude.{◌≡◌, ◌<◌, ◌≤◌, ◌+◌, length, slice_index, swap, if◌then◌else◌};
ghost use Rattle.state_rank.specs.States.{rank, factorial};
ghost use Rattle.rectangles.specs.Inner.ExchangeIndices.{between, exchange_gain};

use state_rank::{MAX_SIZE, ROOM, State};

// The factorials of the numbers below `ROOM`.
const FACTORIALS: [u32; ROOM] = [1, 1, 2, 6, 24, 120, 720, 5_040, 40_320, 362_880];

// The index of `x` with its points on the circles `a` and `b` exchanged, where its own is `index`.
pub(crate) fn exchanged_index(x: &State, index: u32, a: u8, b: u8) -> u32
    requires index { index ≡ rank x.now }
    requires order { a < b }
    requires below { b < length x.now }
    ensures { result ≡ rank (swap x.now a b) }
{
    let left = x.row(a);
    let right = x.row(b);
    if left < right {
        index + difference(x, a, b, left, right)
    } else {
        index - difference(x, a, b, right, left)
    }
}

// By how much the exchange of the points on `a` and `b` changes the index, where their rows are `low` and `high`.
//
// An index is a sum over the circles: of how many rows right of a circle are lower than its own, times how many states
// there are of the circles right of it. The exchange changes the first count for `a` by one and by the rows between the
// two, that for `b` by those right of it, and that of each circle between them whose row is between the two by one.
fn difference(x: &State, a: u8, b: u8, low: u8, high: u8) -> u32
    requires order { a < b }
    requires below { b < length x.now }
    ensures value { result ≡ exchange_gain x.now a b low high }
    ensures small { result ≤ 10000000 }
{
    let n = x.size();
    let first = factorial(n - 1 - a);
    let second = factorial(n - 1 - b);
    let mut sum = first;
    for c in (a + 1..n).rev() {
        let more = if c < b {
            first + factorial(n - 1 - c)
        } else {
            first - second
        };
        sum += if_between(low, high, x.row(c), more);
    }
    sum
}

// `more`, if the row is between the two others.
fn if_between(low: u8, high: u8, row: u8, more: u32) -> u32
    ensures value { result ≡ (if between low high row then more else 0) }
    ensures small { result ≤ more }
{
    if low < row && row < high { more } else { 0 }
}

// How many states of size `n` there are.
fn factorial(n: u8) -> u32
    requires { n < MAX_SIZE }
    ensures value { result ≡ factorial n }
    ensures small { result ≤ 362880 }
{
    FACTORIALS[n as usize]
}
