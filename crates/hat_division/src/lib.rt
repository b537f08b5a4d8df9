//! Tables of ranks by bidegree, their products and quotients.
//!
//! Read `Table::of` first: it accepts exactly the lists of rows that are in the order of a table. Contracts
//! see a table as its list of rows. `times_factor` multiplies a table by a power of 1 + q^-1 t^-1, where a
//! row (m, a, d) is the term d q^m t^a, and `divide` is the way back.
//!
//! Example: `divide(alloc, &t, 2)?` of the table (1, 1, 1), (0, 0, 4), (-1, -1, 6), (-2, -2, 4), (-3, -3, 1)
//! is the table (1, 1, 1), (0, 0, 2), (-1, -1, 1).
#![tactic(auto)]

mod counts;
mod degree_lists;
mod multi_quotients;
mod multi_tables;
mod products;
mod quotients;
mod rank_maps;
mod tables;

pub use counts::count_cell;
pub use degree_lists::{DegreeList, MAX_COMPONENTS};
pub use multi_quotients::divide_multi;
pub use multi_tables::{MultiRow, MultiTable};
pub use products::times_factor;
pub use quotients::divide;
pub use rank_maps::{Ranks, rows_of};
pub use tables::{MAX_RANK, Table, TableRow};
