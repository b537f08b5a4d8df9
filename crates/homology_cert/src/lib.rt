//! The table of the ranks of grid homology, and certificates of it.
//!
//! Read `rank_table` first. Its contract says that the answer is the table: all bidegrees with a rank
//! above 0, each with its rank, in the order of a table; that each bidegree has a rank, and no two; and
//! that a grid has one table.
//! `corank_table` answers the table of cohomology, which is the same.
//! Stands on `sparse_complex` and `cancel`: a slice at each Alexander degree is built and its arrows
//! are cancelled, and the cells that are left are counted, in a map from bidegrees to ranks.
//!
//! `rank_table_multi` is the same by the degrees at the components of the link: its cells are those of the slices, and
//! only the counting is finer.
//!
//! `check_cert` checks a certificate of a table by borders, pairings and counts alone; its contract says
//! that one that passes implies the table of its grid. `make_cert` makes one that passes, `print_cert` gives its
//! text, and `read_cert` the certificate with a text, or the first bad line.
//!
//! Example: of the grid with its O in rows 2 1 0 and its X in rows 1 0 2, `rank_table(alloc, &g)?` is the table
//! (0, 0, 1), (-1, -1, 2), (-2, -2, 1).
#![tactic(auto)]

mod certificates;
mod checks;
mod component_tables;
mod degrees;
mod left_cells;
mod making;
mod places;
mod printing;
mod ranks;
mod reading;
mod tables;
mod verdicts;
mod words;

pub use certificates::Cert;
pub use checks::check_cert;
pub use component_tables::rank_table_multi;
pub use making::{MAX_CERTIFIED_SIZE, make_cert};
pub use printing::print_cert;
pub use reading::{CertEnd, MAX_CERTIFICATE, read_cert};
pub use tables::{corank_table, rank_table};
pub use verdicts::{CertTest, CertVerdict};
