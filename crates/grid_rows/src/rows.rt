//! How a row is written, read and tried.
//!
//! The rows of a table have a blank line between them. The first byte of a line says what it is, and the rest follows
//! after a space:
//!
//!     $ WORDS        the words of the call, and those of further calls after `|`: each reads what the last one wrote
//!     < LINE         a line that the first call reads
//!     . TEXT         the same, with no end of line
//!     r N LINE       the same line, so many times
//!     s WORD N K     a line of WORD and the first K states of size N, from 2 to 9, the last of them first
//!     ! read A B     the row is tried with each of the reads from A to B failing; all reads and writes are of one byte
//!     ! write A B    the same for the writes
//!     ! room N       the sink has room for so many bytes
//!     = STATUS       the exit status of the last call, 0 if no line says otherwise
//!     > LINE         a line that the last call writes
//!     , TEXT         the same, with no end of line
//!     ? LINE | LINE  the same, one of these
//!     * WORD WORD    the same, a line that begins with the first word and has the others
//!     R N LINE       the same line, so many times
//!     S WORD N K     a line of WORD and the first K states of size N, in order
//!     # NOTE         nothing
use grid_job::gridhom;
use grid_ports::{MemSink, MemSource};
use state_rank::{State, state_count};
use std::alloc::Global;
use std::process::Abort;
use std::test::Fail;

/// The room of a sink if a row says nothing of it.
const ROOM: usize = 1 << 20;

/// The read and the write that fail, counted from 1, and the room of the sink.
#[derive(Clone, Copy)]
struct Ends {
    read: u64,
    write: u64,
    room: usize,
}

/// Nothing fails.
const NO_FAULT: Ends = Ends {
    read: 0,
    write: 0,
    room: ROOM,
};

/// What a row says.
#[derive(Drop)]
struct Row<'a> {
    words: &'a str,
    text: Vec<u8>,
    ends: Vec<Ends>,
    status: u8,
    wanted: Vec<&'a str>,
}

/// Tries each row of a table: each call has to end and to write as its row says.
pub(crate) fn try_rows(rt: &(impl Abort + AllocGlobal), table: &str) -> Result<(), Fail> {
    for text in table.trim().split("\n\n") {
        let row = row_of(rt.alloc(), text)?;
        for ends in row.ends.iter() {
            let (status, written) = answer(rt.alloc(), &row, *ends)?;
            assert_eq!(rt; status, row.status, "the status of {text}");
            assert!(rt;
                is_wanted(rt.alloc(), &written, &row.wanted)?,
                "{text}\nhas written {written}"
            );
        }
    }
    Ok(())
}

// The row of these lines.
fn row_of<'a>(alloc: Global, text: &'a str) -> Result<Row<'a>, Fail> {
    let mut row = Row {
        words: "",
        text: Vec::new(alloc),
        ends: Vec::new(alloc),
        status: 0,
        wanted: Vec::new(alloc),
    };
    for line in text.split('\n') {
        let (kind, rest) = kind_of(line);
        match kind {
            "$" => row.words = rest,
            "<" => push_line(&mut row.text, rest)?,
            "." => row.text.extend_from_slice(rest.as_bytes())?,
            "r" => push_lines(&mut row.text, rest)?,
            "s" => push_line(&mut row.text, states(alloc, rest, true)?.as_str())?,
            "!" => push_ends(&mut row.ends, rest)?,
            "=" => row.status = rest.parse().ok().ok_or("a status")?,
            "#" => {}
            _ => row.wanted.push(line)?,
        }
    }
    if row.ends.is_empty() {
        row.ends.push(NO_FAULT)?;
    }
    Ok(row)
}

// What a line is, and what follows.
fn kind_of(line: &str) -> (&str, &str) {
    match line.split_once(' ') {
        Some((kind, rest)) => (kind, rest),
        None => (line, ""),
    }
}

fn push_line(text: &mut Vec<u8>, line: &str) -> Result<(), Fail> {
    text.extend_from_slice(line.as_bytes())?;
    text.push(b'\n')?;
    Ok(())
}

// A number and a line: the line so many times.
fn push_lines(text: &mut Vec<u8>, rest: &str) -> Result<(), Fail> {
    let (count, line) = kind_of(rest);
    for _ in 0..number(count)? {
        push_line(text, line)?;
    }
    Ok(())
}

// `read A B`, `write A B` or `room N`.
fn push_ends(ends: &mut Vec<Ends>, rest: &str) -> Result<(), Fail> {
    let mut words = rest.split_whitespace();
    let what = words.next().ok_or("what fails")?;
    let first = number(words.next().ok_or("a number")?)?;
    let last = match words.next() {
        Some(word) => number(word)?,
        None => first,
    };
    for at in first..=last {
        let fails = match what {
            "read" => Ends {
                read: at,
                ..NO_FAULT
            },
            "write" => Ends {
                write: at,
                ..NO_FAULT
            },
            _ => Ends {
                room: at as usize,
                ..NO_FAULT
            },
        };
        ends.push(fails)?;
    }
    Ok(())
}

fn number(word: &str) -> Result<u64, Fail> {
    Ok(word.parse().ok().ok_or("a number")?)
}

// A word, a size and a number: the word and the first states of this size, so many.
fn states(alloc: Global, rest: &str, is_turned: bool) -> Result<String, Fail> {
    let mut words = rest.split_whitespace();
    let mut line = Vec::new(alloc);
    line.extend_from_slice(words.next().ok_or("a word")?.as_bytes())?;
    let size = number(words.next().ok_or("a size")?)?;
    let count = number(words.next().ok_or("a number")?)?;
    if size < 2 || size > 9 {
        return Err("a size".into());
    }
    let n = size as u8;
    for place in 0..count {
        let code = if is_turned { count - 1 - place } else { place };
        if code >= u64::from(state_count(n)) {
            return Err("a number of states".into());
        }
        line.push(b' ')?;
        State::unrank(n, code as u32).push_word(&mut line)?;
    }
    Ok(String::from_utf8(line).ok().ok_or("a text")?)
}

// The exit status of the last call of a row, and what it wrote.
fn answer(alloc: Global, row: &Row, ends: Ends) -> Result<(u8, String), Fail> {
    let mut status = 0;
    let mut text = row.text.clone()?;
    for words in row.words.split('|') {
        let (code, written) = call(alloc, words, text, ends)?;
        status = code;
        text = written;
    }
    Ok((status, String::from_utf8(text).ok().ok_or("a text")?))
}

// The exit status of a call, and what it wrote.
fn call(alloc: Global, words: &str, text: Vec<u8>, ends: Ends) -> Result<(u8, Vec<u8>), Fail> {
    let list = words_of(alloc, words)?;
    let is_whole = ends.read == 0 && ends.write == 0;
    let piece = if is_whole { 4096 } else { 1 };
    let mut source = MemSource::new(text, piece, vec![in alloc; ends.read]?);
    let mut sink = MemSink::new(alloc, ends.room, piece, vec![in alloc; ends.write]?)?;
    let status = gridhom(alloc, &list, &mut source, &mut sink);
    Ok((status.code(), Vec::from_slice(alloc, sink.written())?))
}

fn words_of(alloc: Global, words: &str) -> Result<Vec<String>, Fail> {
    let mut list = Vec::new(alloc);
    for word in words.split_whitespace() {
        list.push(String::from_str(alloc, word)?)?;
    }
    Ok(list)
}

// Whether the text is what these lines want, to its end.
fn is_wanted(alloc: Global, written: &str, wanted: &[&str]) -> Result<bool, Fail> {
    let mut rest = written;
    for line in wanted {
        let Some(after) = after_wanted(alloc, rest, line)? else {
            return Ok(false);
        };
        rest = after;
    }
    Ok(rest.is_empty())
}

// What follows in a text that begins as a line of a row wants.
fn after_wanted<'a>(alloc: Global, text: &'a str, wanted: &str) -> Result<Option<&'a str>, Fail> {
    let (kind, rest) = kind_of(wanted);
    if kind == "," {
        return Ok(text.strip_prefix(rest));
    }
    if kind == "R" {
        return after_lines(text, rest);
    }
    let Some((line, after)) = text.split_once('\n') else {
        return Ok(None);
    };
    let is_right = match kind {
        ">" => line == rest,
        "?" => rest.split(" | ").any(|other| line == other),
        "*" => has_words(line, rest),
        "S" => line == states(alloc, rest, false)?.as_str(),
        _ => false,
    };
    Ok(if is_right { Some(after) } else { None })
}

// What follows a line that stands so many times.
fn after_lines<'a>(text: &'a str, rest: &str) -> Result<Option<&'a str>, Fail> {
    let (count, wanted) = kind_of(rest);
    let mut rest = text;
    for _ in 0..number(count)? {
        match rest.split_once('\n') {
            Some((line, after)) if line == wanted => rest = after,
            _ => return Ok(None),
        }
    }
    Ok(Some(rest))
}

// Whether a line begins with the first of the words, and has the others.
fn has_words(line: &str, words: &str) -> bool {
    let mut wanted = words.split_whitespace();
    line.split_whitespace().next() == wanted.next()
        && wanted.all(|word| line.split_whitespace().any(|other| other == word))
}
