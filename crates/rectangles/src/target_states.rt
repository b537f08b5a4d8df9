//! The states of the border of one state, by their indices.
//!
//! The two rectangles between each two circles are looked for in one sweep to the right from each
//! circle. The states come out in order, with no sort: first those before `x`, where the exchange
//! lowers the row of the first circle, and then those after it. The index of each is made from that
//! of `x`.

ghost use Rattle.std.specs.Prelude.{◌≡◌, ℕ, pos, ◌+ℤ◌, ◌+◌, ◌%◌, ◌<◌, ◌≤◌, ◌++◌, length, map, reverse, slice_index, if◌then◌else◌, nat_lt, ◌&&◌, All};
ghost use Rattle.std.specs.Int.{bit_at};
ghost use Rattle.std.specs.List.{flat_map};
ghost use Rattle.smallvec.specs.SmallVec.{HasRoomFor};
ghost use Rattle.state_rank.specs.Bijection.{ascending};
ghost use Rattle.state_rank.specs.States.{IsState, rank, transpose};
ghost use Rattle.torus_geom.specs.Border.{border};
ghost use Rattle.torus_geom.specs.Chains.{members, single};
ghost use Rattle.torus_geom.specs.Marks.{size, IsGrid};
ghost use Rattle.torus_geom.specs.Degrees.{maslov_o, alexander};
ghost use Rattle.torus_geom.specs.Range.{offset as offset_of};
ghost use Rattle.rectangles.specs.Inner.Open.{is_open, odd_bit, AreRowsBetween, exchanges, exchanges_below, exchanges_above};

use crate::exchange_indices::exchanged_index;
use crate::first_marks::FirstMarks;
use smallvec::SmallVec;
use state_rank::{MAX_SIZE, ROOM, State};
use std::alloc::Global;
use torus_geom::{Grid, offset};

/// States in ascending order. As many as two circles can be chosen of ten stay inline.
pub type TargetStates = SmallVec<State, 45>;

/// The indices of such states.
pub type TargetIndices = SmallVec<u32, 45>;

/// The states of the border of `x`, ascending: those to which an odd number of empty unmarked
/// rectangles of `g` lead from `x` (Ozsváth, Stipsicz and Szabó, "Grid Homology for Knots and Links",
/// chapter 4).
///
/// The states stay inline: `alloc` is asked for nothing.
pub fn targets(alloc: Global, g: &Grid, x: &State) -> TargetStates
    requires size { length x.now ≡ size g.now }
    ensures border { result.items ≡ members (size g.now) (border g.now (single x.now)) }
    ensures states { All (λ y. IsState y × (length y ≡ size g.now)) result.items }

    // Each state of the border has a Maslov degree one lower than `x`, and the same Alexander degree.
    ensures lowers_maslov { All (λ y. maslov_o g.now x.now ≡ maslov_o g.now y +ℤ pos 1) result.items }
    ensures keeps_alexander { All (λ y. alexander g.now x.now ≡ alexander g.now y) result.items }
    ensures inline { result.capacity ≡ 45 }
    ensures few { length result.items ≤ 45 }
{
    let n = g.size();
    let _ = x.size();
    let indices = target_indices(alloc, &FirstMarks::of(g), x, x.rank());
    let mut states = SmallVec::new(alloc);
    for index in indices.as_slice() {
        states.push_reserved(State::unrank(n, *index));
    }
    states
}

/// The indices of the states that `targets` lists, where `index` is that of `x`.
///
/// The table of the first marks of the grid is made once for many states. The indices stay inline:
/// `alloc` is asked for nothing.
pub fn target_indices(alloc: Global, marks: &FirstMarks, x: &State, index: u32) -> TargetIndices
    requires size { length x.now ≡ size marks.now }
    requires index { index ≡ rank x.now }
    ensures indices { result.items ≡ map rank (members (size marks.now) (border marks.now (single x.now))) }
    ensures inline { result.capacity ≡ 45 }
    ensures few { length result.items ≤ 45 }
{
    let opens = open_rectangles(marks, x);
    let odds = odd_pairs(x, &opens);
    let columns = x.transpose();
    let mut indices = SmallVec::new(alloc);
    push_below(&mut indices, x, index, &columns, &odds);
    push_above(&mut indices, x, index, &columns, &odds);
    indices
}

// For each circle a, the circles b for which the rectangle from a to b is open.
fn open_rectangles(marks: &FirstMarks, x: &State) -> [u16; ROOM]
    requires size { length x.now ≡ size marks.now }
    ensures rectangles { (a b : ℕ) → a < length x.now → b < length x.now
        → bit_at (slice_index result a) b ≡ (if is_open marks.now x.now a b then 1 else 0) }
    ensures grid { IsGrid marks.now }
{
    let mut opens = [0; ROOM];
    for a in 0..marks.size() {
        opens[a as usize] = open_rights(marks, x, a);
    }
    opens
}

// The circles b for which the rectangle from `a` to b is open.
//
// Going right from `a`, `limit` is how far up a rectangle may reach: no mark of a column and no point of
// a circle on the way is below it.
fn open_rights(marks: &FirstMarks, x: &State, a: u8) -> u16
    requires size { length x.now ≡ size marks.now }
    requires below { a < length x.now }
    ensures { (b : ℕ) → b < length x.now → bit_at result b ≡ (if is_open marks.now x.now a b then 1 else 0) }
{
    let n = marks.size();
    let low = x.row(a);
    let mut rights = 0u16;
    let mut limit = n - 1;
    let mut c = a;
    for width in 1..n {
        limit = limit.min(marks.height(low, c));
        if limit == 0 {
            return rights;
        }
        c = if a + width < n {
            a + width
        } else {
            a + width - n
        };
        let height = offset(n, low, x.row(c));
        if height <= limit {
            rights |= 1 << c;
            limit = height;
        }
    }
    rights
}

// For each circle a, the rows of the circles b right of it for which one of the two rectangles between
// them is open, and not the other.
fn odd_pairs(x: &State, opens: &[u16; ROOM]) -> [u16; ROOM]
    ensures odd { (a b : ℕ) → a < length x.now → b < length x.now
        → bit_at (slice_index result a) (slice_index x.now b) ≡ odd_bit opens.now a b }
    ensures state { IsState x.now }
{
    let mut odds = [0; ROOM];
    for a in 0..x.size() {
        odds[a as usize] = odd_rows(x, opens, a);
    }
    odds
}

// The rows of the circles right of `a` for which one of the two rectangles between them is open.
fn odd_rows(x: &State, opens: &[u16; ROOM], a: u8) -> u16
    requires below { a < length x.now }
    ensures { (b : ℕ) → b < length x.now
        → bit_at result (slice_index x.now b) ≡ odd_bit opens.now a b }
{
    let n = x.size();
    let mut rows = 0u16;
    for b in a + 1..n {
        let there = opens[a as usize] >> b & 1;
        let back = opens[b as usize] >> a & 1;
        if there != back {
            rows |= 1 << x.row(b);
        }
    }
    rows
}

// Appends the indices of the exchanges that lower the row of their first circle, ascending.
fn push_below(
    indices: &mut TargetIndices,
    x: &State,
    index: u32,
    columns: &State,
    odds: &[u16; ROOM],
)
    requires columns { columns.now ≡ transpose x.now }
    requires index { index ≡ rank x.now }
    requires right { (a r : ℕ) → a < length x.now → r < length x.now → bit_at (slice_index odds.now a) r ≡ 1
        → a < slice_index columns.now r }
    requires room { HasRoomFor indices.old
        (length (flat_map (exchanges_below x.now columns.now odds.now) (ascending (length x.now)))) }
    ensures items { indices.new.items
        ≡ indices.old.items
        ++ map rank (flat_map (exchanges_below x.now columns.now odds.now) (ascending (length x.now))) }
    ensures capacity { indices.new.capacity ≡ indices.old.capacity }
{
    for a in 0..x.size() {
        let rows = odds[a as usize] & rows_between(0, x.row(a));
        push_exchanges(indices, x, index, columns, a, rows);
    }
}

// Appends the indices of the exchanges that raise the row of their first circle, ascending.
fn push_above(
    indices: &mut TargetIndices,
    x: &State,
    index: u32,
    columns: &State,
    odds: &[u16; ROOM],
)
    requires columns { columns.now ≡ transpose x.now }
    requires index { index ≡ rank x.now }
    requires right { (a r : ℕ) → a < length x.now → r < length x.now → bit_at (slice_index odds.now a) r ≡ 1
        → a < slice_index columns.now r }
    requires room { HasRoomFor indices.old
        (length (flat_map (exchanges_above x.now columns.now odds.now) (reverse (ascending (length x.now))))) }
    ensures items { indices.new.items
        ≡ indices.old.items
        ++ map rank (flat_map (exchanges_above x.now columns.now odds.now) (reverse (ascending (length x.now)))) }
    ensures capacity { indices.new.capacity ≡ indices.old.capacity }
{
    let n = x.size();
    for a in (0..n).rev() {
        let rows = odds[a as usize] & rows_between(x.row(a) + 1, n);
        push_exchanges(indices, x, index, columns, a, rows);
    }
}

// The rows from `from` up to `to`, without `to`.
fn rows_between(from: u8, to: u8) -> u16
    requires order { from ≤ to }
    requires short { to ≤ MAX_SIZE }
    ensures { AreRowsBetween from to result }
{
    (1 << to) - (1 << from)
}

// Appends the indices of the exchanges of `a` with the circles of `rows`.
fn push_exchanges(
    indices: &mut TargetIndices,
    x: &State,
    index: u32,
    columns: &State,
    a: u8,
    rows: u16,
)
    requires columns { columns.now ≡ transpose x.now }
    requires index { index ≡ rank x.now }
    requires within { (r : ℕ) → bit_at rows r ≡ 1 → r < length x.now }
    requires right { (r : ℕ) → bit_at rows r ≡ 1 → a < slice_index columns.now r }
    requires room { HasRoomFor indices.old (length (exchanges x.now columns.now a rows (ascending (length x.now)))) }
    ensures items { indices.new.items
        ≡ indices.old.items ++ map rank (exchanges x.now columns.now a rows (ascending (length x.now))) }
    ensures capacity { indices.new.capacity ≡ indices.old.capacity }
{
    let mut left = rows;
    while left != 0 {
        let row = left.trailing_zeros() as u8;
        indices.push_reserved(exchanged_index(x, index, a, columns.row(row)));
        left &= !(1 << row);
    }
}
