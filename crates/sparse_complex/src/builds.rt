//! Building the slice of a grid at one Alexander degree.
ghost use Rattle.std.specs.Prelude.{◌≡◌, ◌≤◌, ◌<◌, ◌+◌, length, IfOk, OnOk};
ghost use Rattle.f2_algebra.specs.Bigraded.{at_alexander};
ghost use Rattle.f2_algebra.specs.Slice.{slice_complex};
ghost use Rattle.state_rank.specs.States.{factorial, unrank};
ghost use Rattle.torus_geom.specs.Marks.{size};
ghost use Rattle.torus_geom.specs.Inner.GridComplex.{grid_complex};
ghost use Rattle.sparse_complex.specs.Inner.Graph.{code_at, width};
ghost use Rattle.sparse_complex.specs.Inner.Built.{AreCells, AreKeys, AreLinksBelow};
ghost use Rattle.sparse_complex.specs.Inner.Visits.{IsBranch, AreFirstCells, IsAscending};

use crate::links::Links;
use crate::slices::{AlexSlice, Cell, NO_KEY};
use gradings::{DegreeTables, PossibleSums};
use grid_ports::NoMemory;
use rectangles::{FirstMarks, target_indices};
use state_rank::{State, state_count};
use std::alloc::Global;
use torus_geom::Grid;

impl AlexSlice {
    /// The part of the grid complex of `g` at the Alexander degree `a`.
    ///
    /// Live are the indices of the states of this Alexander degree, each with its Maslov degree by the O;
    /// a state has arrows to the states of its border, all of which have the same Alexander degree
    /// (Ozsváth, Stipsicz and Szabó, "Grid Homology for Knots and Links", chapter 4). If no state has
    /// the degree, no code is live. The states are visited depth first over their rows, only if the degree can
    /// still be reached, so the time is that of the states of the degree.
    ///
    /// # Errors
    ///
    /// `NoMemory` if the allocator refuses.
    pub fn build(alloc: Global, g: &Grid, a: i32) -> Result<AlexSlice, NoMemory>
        ensures { IfOk result (λ s. slice_complex s.slice ≡ at_alexander a (grid_complex g.now)) }
    {
        let _size = g.size();
        let cells = cells_of(alloc, g, a)?;
        let keys = keys_of(alloc, g, a, &cells)?;
        let links = links_of(alloc, g, a, &keys, &cells)?;
        Ok(AlexSlice::of_parts(keys, cells, links))
    }
}

// The states that begin as `first` does on the columns before `column`: `count` of them, of the indices from `base` on,
// of which `first` is the first. `used` has their rows on these columns as bits. They have the degree that is looked
// for if their weights from `column` on add up to `left`.
#[derive(Drop)]
pub(crate) struct Branch {
    pub(crate) first: State,
    pub(crate) column: u8,
    pub(crate) used: usize,
    pub(crate) left: i64,
    pub(crate) base: u32,
    pub(crate) count: u32,
}

// The cells of the degree `a`, by Maslov degree, and by code among those of one degree.
fn cells_of(alloc: Global, g: &Grid, a: i32) -> Result<Vec<Cell>, NoMemory>
    ensures cells { IfOk result (λ cells.
        AreCells (at_alexander a (grid_complex g.now)) (factorial (size g.now)) cells.items) }
    ensures order { IfOk result (λ cells. IsAscending cells.items) }
{
    let sums = PossibleSums::of(alloc, g)?;
    let mut cells = Vec::new(alloc);
    let all = Branch {
        first: State::unrank(g.size(), 0),
        column: 0,
        used: 0,
        left: i64::from(a) - i64::from(sums.tables().least()),
        base: 0,
        count: state_count(g.size()),
    };
    visit(&sums, a, &all, &mut cells)?;
    cells.sort_by_key(|cell| cell.maslov)?;
    Ok(cells)
}

// Appends the cells of the degree `a` among the states of a branch, by their codes.
//
// A branch whose sum cannot be reached is left out as a whole, so that each branch that is gone through has a state of
// the degree.
fn visit(
    sums: &PossibleSums,
    a: i32,
    branch: &Branch,
    cells: &mut Vec<Cell>,
) -> Result<(), NoMemory>
    requires branch { IsBranch sums.now a branch.now }
    requires below { AreFirstCells (at_alexander a (grid_complex sums.now)) branch.now.base cells.old.items }
    ensures { OnOk result (AreFirstCells (at_alexander a (grid_complex sums.now)) (branch.now.base + branch.now.count)
        cells.new.items) }
{
    if !sums.can_give(branch.used, branch.left) {
        return Ok(());
    }
    let n = branch.first.size();
    let c = branch.column;
    if c == n {
        return push_cell(sums.tables(), a, branch.base, &branch.first, cells);
    }
    let count = branch.count / u32::from(n - c);
    let mut first = branch.first;
    let mut base = branch.base;
    for next in c + 1..n + 1 {
        let row = first.row(c);
        let part = Branch {
            first,
            column: c + 1,
            used: branch.used | 1 << row,
            left: branch.left - i64::from(sums.weight(c, row)),
            base,
            count,
        };
        visit(sums, a, &part, cells)?;
        base += count;
        first = first.exchange(c, next.min(n - 1));
    }
    Ok(())
}

// Appends the cell of `x`, the state of index `code`, if its Alexander degree is `a`.
fn push_cell(
    tables: &DegreeTables,
    a: i32,
    code: u32,
    x: &State,
    cells: &mut Vec<Cell>,
) -> Result<(), NoMemory>
    requires rank { code < factorial (size tables.now) }
    requires state { x.now ≡ unrank (size tables.now) code }
    requires below { AreFirstCells (at_alexander a (grid_complex tables.now)) code cells.old.items }
    ensures { OnOk result (AreFirstCells (at_alexander a (grid_complex tables.now)) (code + 1) cells.new.items) }
{
    if tables.alexander(x) != a {
        return Ok(());
    }
    cells.push(Cell {
        code,
        maslov: tables.maslov(x),
    })?;
    Ok(())
}

// The key of each code: its place among the cells.
fn keys_of(alloc: Global, g: &Grid, a: i32, cells: &[Cell]) -> Result<Vec<u32>, NoMemory>
    requires { AreCells (at_alexander a (grid_complex g.now)) (factorial (size g.now)) cells.now }
    ensures { IfOk result (λ keys. AreKeys keys.items cells.now) }
{
    let mut keys = vec![in alloc; NO_KEY; state_count(g.size()) as usize]?;
    for (key, cell) in cells.iter().enumerate() {
        keys[cell.code as usize] = key as u32;
    }
    Ok(keys)
}

// The arrows of all cells.
fn links_of(
    alloc: Global,
    g: &Grid,
    a: i32,
    keys: &[u32],
    cells: &[Cell],
) -> Result<Links, NoMemory>
    requires cells { AreCells (at_alexander a (grid_complex g.now)) (factorial (size g.now)) cells.now }
    requires keys { AreKeys keys.now cells.now }
    ensures { IfOk result (λ links.
        AreLinksBelow (at_alexander a (grid_complex g.now)) cells.now (length cells.now) links) }
{
    let marks = FirstMarks::of(g);
    let mut links = Links::new(alloc, cells.len())?;
    for key in 0..cells.len() {
        push_arrows(alloc, &marks, a, key, keys, cells, &mut links)?;
    }
    Ok(links)
}

// Puts in the arrows of the cell of a key.
fn push_arrows(
    alloc: Global,
    marks: &FirstMarks,
    a: i32,
    key: usize,
    keys: &[u32],
    cells: &[Cell],
    links: &mut Links,
) -> Result<(), NoMemory>
    requires cells { AreCells (at_alexander a (grid_complex marks.now)) (factorial (size marks.now)) cells.now }
    requires keys { AreKeys keys.now cells.now }
    requires key { key < length cells.now }
    requires below { AreLinksBelow (at_alexander a (grid_complex marks.now)) cells.now key links.old }
    ensures { OnOk result (AreLinksBelow (at_alexander a (grid_complex marks.now)) cells.now (key + 1) links.new) }
{
    let code = cells[key].code;
    let x = State::unrank(marks.size(), code);
    let targets = target_indices(alloc, marks, &x, code);
    links.reserve(targets.len() as u64)?;
    for target in targets.as_slice() {
        links.link(key as u32, keys[*target as usize]);
    }
    Ok(())
}
