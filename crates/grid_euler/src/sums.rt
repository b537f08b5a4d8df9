//! Alternating sums of a table, and the signed count of the states.
ghost use Rattle.std.specs.Prelude.{◌≡◌, ℕ, ℤ, pos, neg_ℤ, ◌≤ℤ◌, ◌+ℤ◌, ◌<◌, ◌≤◌, ◌^◌, ◌+◌, List, length, map, IfOk, if◌then◌else◌};
ghost use Rattle.std.specs.List.{All};
ghost use Rattle.std.specs.Ordering.{int_eq};
ghost use Rattle.hat_division.specs.Product.{IsSmall};
ghost use Rattle.torus_geom.specs.Homology.{IsHomologyTable, Row};
ghost use Rattle.torus_geom.specs.Marks.{IsGrid, Marks};
ghost use Rattle.gradings.specs.Degrees.{IsSmallDegree};
ghost use Rattle.hat_division.specs.Table.{homology_row};
ghost use Rattle.grid_euler.specs.Euler.{alternating_sum, euler_number, is_even as is_even_of, signed as signed_of, IsTableOf, IsEulerTable};
ghost use Rattle.grid_euler.specs.Inner.Sums.{places, AreSums, AreBounded};

use crate::EulerTable;
use crate::tables::table_of;
use gradings::DegreeTables;
use grid_ports::NoMemory;
use hat_division::Table;
use state_rank::{State, state_count};
use std::alloc::Global;
use torus_geom::Grid;

// How many Alexander degrees there are from 1,000 down to -1,000.
const PLACES: usize = 2001;

/// The alternating sums of the table: at each Alexander degree the sum of the ranks, each with the sign + if its
/// Maslov degree is even and - if it is odd.
///
/// # Errors
///
/// `NoMemory` if the allocator refuses.
pub fn euler_of_table(alloc: Global, t: &Table) -> Result<EulerTable, NoMemory>
    requires small { All IsSmall t.now }
    ensures table { IfOk result (λ sums. IsTableOf (alternating_sum (map homology_row t.now)) sums) }

    // They are the Euler numbers of the grid whose table it is.
    ensures numbers { IfOk result (λ sums. (g : Marks) → IsGrid g → IsHomologyTable g (map homology_row t.now)
        → IsEulerTable g sums) }

    // The alternating sums of the table of a grid are its Euler numbers, whatever the call answers.
    ensures euler { (g : Marks) (rows : List Row) → IsGrid g → IsHomologyTable g rows → (a : ℤ)
        → alternating_sum rows a ≡ euler_number g a }
{
    let _ = t.rows();
    alternating_sums(alloc, t)
}

// The alternating sums of the table.
fn alternating_sums(alloc: Global, t: &Table) -> Result<EulerTable, NoMemory>
    requires { All IsSmall t.now }
    ensures { IfOk result (λ sums. IsTableOf (alternating_sum (map homology_row t.now)) sums) }
{
    let mut sums = vec![in alloc; 0i64; PLACES]?;
    for row in t.rows() {
        add_at(&mut sums, row.a, signed(row.m, row.rank as i64));
    }
    table_of(alloc, &sums)
}

/// The Euler numbers of the grid, by a visit of all its states.
///
/// # Errors
///
/// `NoMemory` if the allocator refuses.
pub fn euler_of_states(alloc: Global, g: &Grid) -> Result<EulerTable, NoMemory>
    ensures { IfOk result (λ sums. IsEulerTable g.now sums) }
{
    let tables = DegreeTables::of(g);
    let mut sums = vec![in alloc; 0i64; PLACES]?;
    let mut x = State::unrank(g.size(), 0);
    for _code in 0..state_count(g.size()) {
        let degree = tables.degree(&x);
        add_at(&mut sums, degree.a, signed(degree.m, 1));
        x.advance();
    }
    table_of(alloc, &sums)
}

// Adds a term at the Alexander degree `a`.
fn add_at(sums: &mut [i64], a: i32, term: i64)
    requires length { length sums.old ≡ places }
    requires small { IsSmallDegree a }
    requires room { AreBounded (2 ^ 61) sums.old }
    requires low { neg_ℤ (pos (2 ^ 61)) ≤ℤ term }
    requires high { term ≤ℤ pos (2 ^ 61) }
    ensures sums { (f : ℤ → ℤ) → AreSums f sums.old
        → AreSums (λ b. (if int_eq a b then term else pos 0) +ℤ f b) sums.new }
    ensures bounded { (b d : ℕ) → AreBounded b sums.old → neg_ℤ (pos d) ≤ℤ term → term ≤ℤ pos d
        → AreBounded (b + d) sums.new }
    ensures length { length sums.new ≡ places }
{
    sums[(1000 - a) as usize] += term;
}

// `d` if `m` is even, else -`d`.
fn signed(m: i32, d: i64) -> i64
    requires { pos 0 ≤ℤ d }
    ensures { (n : ℕ) → d ≡ pos n → result ≡ signed_of m n }
{
    if is_even(m) { d } else { -d }
}

fn is_even(m: i32) -> bool
    ensures { result ≡ is_even_of m }
{
    m.unsigned_abs() % 2 == 0
}
