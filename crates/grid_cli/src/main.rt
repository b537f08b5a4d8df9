//! The program `gridhom`: standard input in, standard output out, and the status of the call as the
//! exit status. Words that ask for nothing are told the usage on standard error.
//!
//! Example: `printf 'grid 2\nO 1 0\nX 0 1\nhat\nend\n' | gridhom run` prints `hat exponent 1 rows 1` and
//! `rank 0 0 1`, with the status 0.
#![tactic(auto)]

mod answers;

use answers::answer;
use grid_ports::{StdSink, StdSource};
use std::io;
use std::process::ExitCode;
use std::rt::Env;

/// The exit status if the list of arguments is refused. No call has it.
const ARGUMENTS_REFUSED: u8 = 7;

fn main(rt: HostRuntime) -> ExitCode {
    let Ok(words) = words(&rt) else {
        return ExitCode::from(ARGUMENTS_REFUSED);
    };
    let mut source = StdSource::new(rt.reader());
    let mut sink = StdSink::new(io::writer(&rt));
    let mut errors = StdSink::new(rt.stderr());
    let status = answer(rt.alloc(), &words, &mut source, &mut sink, &mut errors);
    ExitCode::from(status.code())
}

/// The words after the program's name.
fn words(rt: &(impl Env + AllocGlobal)) -> io::Result<Vec<String>> {
    let mut words = Vec::new(rt.alloc());
    for word in std::env::args(rt)?.skip(1) {
        words.push(word)?;
    }
    Ok(words)
}

#[cfg(test)]
mod tests;
