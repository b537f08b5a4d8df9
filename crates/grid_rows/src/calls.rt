//! Calls of the crates below, of what no row can show.
mod chains;
mod degrees;
mod documents;
mod grids;
mod images;
mod ports;
mod states;
mod tables;
