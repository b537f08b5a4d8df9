//! The top call: from the bytes that come in to the bytes that go out.
//!
//! Read `gridhom` first. Its contract says that a run that is done has read a document to its end and
//! written a report of it, and when each other answer comes, with what was written until then. What a
//! document and a report are is said in specs/, with no trace of how they are read and written.
//! Stands on `grid_ports`, on `grid_text`, which judges texts, on `front_data`, `rectangles`, `homology_cert`,
//! `hat_division`, `multi_degree`, `grid_euler` and `legendrian_class`, which answer the commands, and on
//! `report_text`, which prints their answers. `homology_cert` makes, reads and checks certificates too. `clap`
//! reads the options of `make`.
//!
//! Example: the word `run` and the lines `grid 2`, `O 1 0`, `X 0 1`, `hat` and `end` write the lines
//! `hat exponent 1 rows 1` and `rank 0 0 1`, and the answer is `Done`.
#![tactic(auto)]

mod answers;
mod certificates;
mod checks;
mod classes;
mod comparisons;
mod components;
mod euler_numbers;
mod generator;
mod hats;
mod in_force;
mod inversions;
mod jobs;
mod made;
mod modes;
mod refusals;
mod reports;
mod runs;
mod statuses;
mod tables;
mod words;

pub use generator::make_script;
pub use jobs::gridhom;
pub use modes::Mode;
pub use statuses::Status;
pub use words::Flag;
