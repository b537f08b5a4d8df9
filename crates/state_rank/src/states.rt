//! Grid states.

ghost use Rattle.std.specs.Prelude.{◌≡◌, ◌≢◌, ◌↔◌, ℕ, ◌+◌, ◌<◌, ◌≤◌, List, [], ◌∷◌, length, slice_index, swap, take, IsTrue, IsNone, IfSome, OnSome, Ok, nat_eq, not};
ghost use Rattle.std.specs.Cmp.{partial_equiv_from_equiv};
ghost use Rattle.std.specs.Cmp.Lexicographic.{pointwise, nat_list_eq_equiv};
ghost use Rattle.state_rank.specs.Bijection.{IsSize, IsBijection, greatest_size};
ghost use Rattle.state_rank.specs.Counted.{HasExactly};
ghost use Rattle.std.specs.List.{Contains, AllPairs};
ghost use Rattle.state_rank.specs.States.{IsState, is_before, states, rank, unrank, factorial, transpose};
ghost use Rattle.state_rank.specs.Inner.Steps.{FallsFrom};

use crate::{MAX_SIZE, ROOM};
use std::alloc::AllocError;
use std::marker::Model;

/// A grid state: a bijection of 0 to n - 1, where the size n is from 2 to `MAX_SIZE`.
///
/// It has one point on each vertical circle and one on each horizontal circle of the torus. Contracts
/// see it as the list that says, for each vertical circle from circle 0 on, on which horizontal circle
/// its point is (Ozsváth, Stipsicz and Szabó, "Grid Homology for Knots and Links", chapter 4).
#[derive(Copy)]
pub struct State {
    rows: [u8; ROOM],
    size: u8,
}

impl Model for State {
    ghost use Rattle.std.specs.Prelude.{ℕ, List, length, take};
    ghost use Rattle.std.proofs.Common.{length-take-le, sym};
    ghost use Rattle.state_rank.specs.Inner.Stored.{IsStored, padded};

    ghost Value = { List ℕ };

    ghost view = { λ s. take s.size s.rows };

    ghost invariant = { λ s. IsStored s.size s.rows };

    ghost inverse = { λ x. record { rows = padded x; size = length x } };

    ghost inverse_ok = { λ s stored i. record {
      rows = sym stored.zeros i;
      size = length-take-le s.size s.rows stored.within i;
    } };
}

impl State {
    /// The state with these rows, if they are a bijection of 0 to n - 1 and n is a size.
    pub fn of(rows: &[u8]) -> Option<State>
        ensures rows { IfSome result (λ x. x ≡ rows.now) }
        ensures state { OnSome result (IsState rows.now) }
        ensures none { IsNone result → IsState rows.now → ⊥ }

        // No size is above `MAX_SIZE`, and this is one.
        ensures limit { MAX_SIZE ≡ greatest_size }
    {
        if rows.len() < 2 || rows.len() > ROOM || !is_bijection(rows) {
            return None;
        }
        let mut stored = [0; ROOM];
        stored[..rows.len()].copy_from_slice(rows);
        Some(State {
            rows: stored,
            size: rows.len() as u8,
        })
    }

    /// How many vertical circles, and so horizontal circles, there are.
    #[inline]
    pub fn size(&self) -> u8
        ensures size { result ≡ length self.now }
        ensures state { IsState self.now }
    {
        self.size
    }

    /// The horizontal circle of the point on the vertical circle `c`.
    #[inline]
    pub fn row(&self, c: u8) -> u8
        requires { c < length self.now }
        ensures row { result ≡ slice_index self.now c }
        ensures below { result < length self.now }
        ensures state { IsState self.now }
    {
        self.rows[c as usize]
    }

    /// The horizontal circles of the points, from vertical circle 0 on.
    #[inline]
    pub fn rows(&self) -> &[u8]
        ensures rows { result.now ≡ self.now }
        ensures state { IsState self.now }
    {
        &self.rows[..self.size as usize]
    }

    /// The place of this state among the states of its size in lexicographic order: how many of them
    /// come before it.
    pub fn rank(&self) -> u32
        ensures rank { result ≡ rank self.now }
        ensures below { result < factorial (length self.now) }

        // Exactly so many states of this size come before this one.
        ensures before { HasExactly (λ y. (IsState y × (length y ≡ length self.now)) × IsTrue (is_before y self.now))
            result }

        // `unrank` gives each state back from its rank.
        ensures unranked { (x : List ℕ) → IsState x → unrank (length x) (rank x) ≡ x }

        // The order of two states of one size is that of their ranks.
        ensures order { (x y : List ℕ) → IsState x → IsState y → length x ≡ length y
            → IsTrue (is_before x y) ↔ (rank x < rank y) }
    {
        let mut rank = 0;
        let mut block = 1;
        let mut seen = 0u16;
        for c in (0..self.size).rev() {
            let row = self.rows[c as usize];
            let lower = seen & ((1 << row) - 1);
            rank += lower.count_ones() * block;
            block *= u32::from(self.size - c);
            seen |= 1 << row;
        }
        rank
    }

    /// The state of size `n` and rank `k`, which is from 0 to n! - 1.
    pub fn unrank(n: u8, k: u32) -> State
        requires size { IsSize n }
        requires rank { k < factorial n }
        ensures state { result ≡ unrank n k }
        ensures size { length result ≡ n }
        ensures rank { rank result ≡ k }

        // `rank` gives each number below n! back from its state.
        ensures ranked { (m j : ℕ) → j < factorial m → rank (unrank m j) ≡ j }
        ensures sized { (m j : ℕ) → j < factorial m → length (unrank m j) ≡ m }

        // `states m` has exactly the bijections of 0 to m - 1, which are m!, each before the later ones.
        ensures bijections { (m : ℕ) (x : List ℕ) → Contains (states m) x ↔ IsBijection m x }
        ensures count { (m : ℕ) → length (states m) ≡ factorial m }
        ensures ascending { (m : ℕ) → AllPairs (λ x y. IsTrue (is_before x y)) (states m) }

        // The order of two ranks is that of their states.
        ensures order { (m i j : ℕ) → i < factorial m → j < factorial m
            → (i < j) ↔ IsTrue (is_before (unrank m i) (unrank m j)) }
    {
        let mut rows = [0; ROOM];
        let mut left = k;
        for c in (0..n).rev() {
            let places = u32::from(n - c);
            let row = (left % places) as u8;
            left /= places;
            raise(&mut rows, c + 1, n, row);
            rows[c as usize] = row;
        }
        State { rows, size: n }
    }

    /// Goes to the next state in lexicographic order, in place, and says whether there was one. The last
    /// state stays.
    ///
    /// Over all states of a size, a step takes constant time on average.
    pub fn advance(&mut self) -> bool
        ensures state { IsTrue result → self.new ≡ unrank (length self.old) (rank self.old + 1) }
        ensures rank { IsTrue result → rank self.new ≡ rank self.old + 1 }
        ensures size { length self.new ≡ length self.old }
        ensures kept { IsTrue (not result) → self.new ≡ self.old }
        ensures last { IsTrue (not result) ↔ (rank self.old + 1 ≡ factorial (length self.old)) }
    {
        let Some(place) = last_ascent(self.rows()) else {
            return false;
        };
        let other = last_above(self.rows(), place);
        self.rows.swap(place, other);
        self.rows[place + 1..self.size as usize].reverse();
        true
    }

    /// This state with its points on the vertical circles `a` and `b` moved to each other's horizontal
    /// circles.
    #[inline]
    pub fn exchange(&self, a: u8, b: u8) -> State
        requires a_below { a < length self.now }
        requires b_below { b < length self.now }
        ensures state { result ≡ swap self.now a b }
        ensures size { length result ≡ length self.now }
    {
        let mut rows = self.rows;
        rows.swap(a as usize, b as usize);
        State {
            rows,
            size: self.size,
        }
    }

    /// The inverse bijection: vertical and horizontal circles change places.
    pub fn transpose(&self) -> State
        ensures state { result ≡ transpose self.now }
        ensures size { length result ≡ length self.now }
        ensures inverse { (c : ℕ) → c < length self.now → slice_index result (slice_index self.now c) ≡ c }
    {
        let mut columns = [0; ROOM];
        for c in 0..self.size {
            columns[self.rows[c as usize] as usize] = c;
        }
        State {
            rows: columns,
            size: self.size,
        }
    }
}

/// The state `01`.
impl Default for State {
    fn default() -> State
        ensures { result ≡ 0 ∷ 1 ∷ [] }
    {
        let mut rows = [0; ROOM];
        rows[1] = 1;
        State { rows, size: 2 }
    }
}

/// The state itself.
impl Clone for State {
    #[inline]
    fn clone(&self) -> Result<State, AllocError>
        ensures { result ≡ Ok self.now }
    {
        Ok(*self)
    }
}

impl PartialEq for State {
    ghost eq = { pointwise nat_eq };

    ghost laws = { partial_equiv_from_equiv nat_list_eq_equiv };

    fn eq(&self, other: &State) -> bool {
        self.rows() == other.rows()
    }
}

impl Eq for State {
    ghost laws = { nat_list_eq_equiv };
}

/// The number of states of size `n`.
pub fn state_count(n: u8) -> u32
    requires { IsSize n }
    ensures { result ≡ factorial n }
{
    let mut count = 1;
    for k in 0..n {
        count *= u32::from(k) + 1;
    }
    count
}

// Whether the rows are those of a bijection.
fn is_bijection(rows: &[u8]) -> bool
    ensures { IsTrue result ↔ IsBijection (length rows.now) rows.now }
{
    for (c, row) in rows.iter().enumerate() {
        if *row as usize >= rows.len() || rows[..c].contains(row) {
            return false;
        }
    }
    true
}

// The last place whose row is below the next one.
fn last_ascent(rows: &[u8]) -> Option<usize>
    ensures within { IfSome result (λ p. p + 1 < length rows.now) }
    ensures ascent { IfSome result (λ p. slice_index rows.now p < slice_index rows.now (p + 1)) }
    ensures falls { IfSome result (λ p. FallsFrom (p + 1) rows.now) }
    ensures none { IsNone result → FallsFrom 0 rows.now }
{
    for next in (1..rows.len()).rev() {
        if rows[next - 1] < rows[next] {
            return Some(next - 1);
        }
    }
    None
}

// The last place whose row is above that at `place`, which is lower than the next one.
fn last_above(rows: &[u8], place: usize) -> usize
    requires within { place + 1 < length rows.now }
    requires ascent { slice_index rows.now place < slice_index rows.now (place + 1) }
    ensures behind { place < result }
    ensures within { result < length rows.now }
    ensures above { slice_index rows.now place < slice_index rows.now result }
    ensures last { (i : ℕ) → result < i → i < length rows.now → slice_index rows.now i ≤ slice_index rows.now place }
{
    let row = rows[place];
    for other in (place + 2..rows.len()).rev() {
        if row < rows[other] {
            return other;
        }
    }
    place + 1
}

// Raises by one each row from column `from` up to `to` that is not below `row`.
fn raise(rows: &mut [u8; ROOM], from: u8, to: u8, row: u8)
    requires ordered { from ≤ to }
    requires to_within { to ≤ MAX_SIZE }
    requires fit { (c : ℕ) → from ≤ c → c < to → slice_index rows.old c < MAX_SIZE }
    ensures low { (c : ℕ) → from ≤ c → c < to → slice_index rows.old c < row
        → slice_index rows.new c ≡ slice_index rows.old c }
    ensures high { (c : ℕ) → from ≤ c → c < to → row ≤ slice_index rows.old c
        → slice_index rows.new c ≡ slice_index rows.old c + 1 }
    ensures kept_below { (c : ℕ) → c < from → slice_index rows.new c ≡ slice_index rows.old c }
    ensures kept_above { (c : ℕ) → to ≤ c → slice_index rows.new c ≡ slice_index rows.old c }
{
    for c in from..to {
        rows[c as usize] = raised(rows[c as usize], row);
    }
}

// The row `other`, raised by one if it is not below `row`: by a sum and no branch, for which way would be taken cannot
// be foreseen.
fn raised(other: u8, row: u8) -> u8
    requires fits { other < MAX_SIZE }
    ensures low { other < row → result ≡ other }
    ensures high { row ≤ other → result ≡ other + 1 }
{
    other + u8::from(other >= row)
}
