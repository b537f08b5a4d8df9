//! The lines of reports, as bytes.
//!
//! Read `front_line` first. The contract of each function says that the answer is exactly the bytes of
//! the lines that specs/ defines, for the values that are handed in.
//! Stands on `front_data`, `gradings`, `grid_euler`, `grid_text`, `hat_division` and `f2_chain`, whose values it
//! prints.
//!
//! Example: `front_line` of tb 1, rot 0 and 1 component is the line `front tb 1 rot 0 components 1` with its
//! line feed.
#![tactic(auto)]

mod comparisons;
mod component_lines;
mod lines;

pub use comparisons::{Facts, compare_lines};
pub use component_lines::{multi_hat_lines, multi_lines};
pub use lines::{
    class_line, corank_lines, euler_lines, front_line, hat_lines, refused_line, set_line,
    table_lines, verdict_word,
};
