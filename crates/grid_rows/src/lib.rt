//! Rows: calls of the program in memory, each with what it has to answer, and one loop that tries them.
//!
//! Read `rows.rt` first, which says how a row is written, and then any table, as `reports.rt`. A table is one text, so
//! that a further row is no more to prove. What the rows want was worked out by hand from docs/FORMATS.md and
//! docs/DEFINITIONS.md, or computed by another program from these, and never by this one.
//! There is nothing but tests here. The rows stand on `grid_job`, whose top call they make, on `grid_ports`, whose
//! sources and sinks hold bytes in memory, and on `state_rank` for the words of many states. `calls.rt` has calls of
//! the crates below, of what no row can show: they stand here, since a crate with tests is proved twice.
#![tactic(auto)]

#[cfg(test)]
mod calls;
#[cfg(test)]
mod certificates;
#[cfg(test)]
mod comparisons;
#[cfg(test)]
mod components;
#[cfg(test)]
mod failing;
#[cfg(test)]
mod knots;
#[cfg(test)]
mod large;
#[cfg(test)]
mod limits;
#[cfg(test)]
mod moves;
#[cfg(test)]
mod refusals;
#[cfg(test)]
mod reports;
#[cfg(test)]
mod rows;
#[cfg(test)]
mod stabilisations;
#[cfg(test)]
mod tests;
#[cfg(test)]
mod verdicts;
#[cfg(test)]
mod words;
