//! Documents: which texts are documents, what is the first fault of any other, and the plain form.
//!
//! Read `judge` first: it decides of every text whether it is a document, and of which script, or which
//! line has the first fault. `print` writes the plain form of a script, which `judge` reads back. A text is
//! a list of bytes; its lines and words are in specs/Words.antt, documents in specs/Document.antt, the rows
//! of a picture in specs/Picture.antt, faults in specs/Faults.antt, texts of two documents, which `judge_pair`
//! judges, in specs/Pairs.antt.
//!
//! Example: `judge` of the four lines `grid 2`, `O 1 0`, `X 0 1` and `end` is the script of this grid with no
//! commands, and of the one line `grid 1` it is the refusal with the fault `BadNumber` at line 1.
#![tactic(auto)]

mod bodies;
mod choices;
mod commands;
mod faults;
mod judgement;
mod keywords;
mod lengths;
mod pairs;
mod pictures;
mod places;
mod printing;
mod scripts;
mod words;

pub use commands::{Command, MAX_COMMANDS, Sign, StateList};
pub use faults::{TextFault, fault_word};
pub use judgement::{Judged, MAX_TEXT, TextEnd, judge};
pub use lengths::print_len;
pub use pairs::{JudgedPair, PairEnd, judge_pair};
pub use printing::print;
pub use scripts::Script;
pub use words::numeral;
