//! Sources and sinks of bytes, and reading and writing whole texts through them.
//!
//! Read the traits `Source` and `Sink` first, then `read_all` and `write_all`. Each failure of a source
//! or sink is counted, so that a contract can say that an answer comes only if something failed.
//! `MemSource` and `MemSink` are in memory, and fail at the calls that their lists name; `StdSource` and
//! `StdSink` adapt a std reader and writer, and no contract speaks of their bytes.
//!
//! Example: `read_all(alloc, &mut source, 3)` of a `MemSource` with the bytes `abc` and no failing read is
//! these bytes, and with the limit 2 it is the error `TooLong`.
#![tactic(auto)]

mod errors;
mod memory;
mod ports;
mod standard;
mod whole;

pub use errors::{Failed, NoMemory, ReadEnd, WriteFault};
pub use memory::{MemSink, MemSource};
pub use ports::{Sink, Source};
pub use standard::{StdSink, StdSource};
pub use whole::{read_all, write_all};
