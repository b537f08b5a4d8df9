//! What the adapters of std pass on, which no clause says.
use grid_ports::{StdSink, StdSource, read_all, write_all};
use std::io::{self, Write};
use std::test::Fail;

#[test]
fn std_readers_and_writers(rt: HostRuntime) -> Result<(), Fail> {
    let alloc = rt.alloc();
    let mut source = StdSource::new(b"abcde".as_slice());
    let text = read_all(alloc, &mut source, 5)?;
    assert_eq!(rt; text.as_slice(), b"abcde".as_slice());
    let mut room = [0u8; 4];
    let mut sink = StdSink::new(room.as_mut_slice());
    assert!(rt; write_all(&mut sink, text.as_slice()).is_err());
    drop(sink);
    assert_eq!(rt; room.as_slice(), b"abcd".as_slice());
    Ok(())
}

/// A writer whose bytes arrive only when it is flushed.
#[derive(Drop)]
struct Held<'a> {
    pending: Vec<u8>,
    arrived: &'a mut Vec<u8>,
}

impl<'a> Write for Held<'a> {
    fn write(&mut self, piece: &[u8]) -> io::Result<usize> {
        self.pending.extend_from_slice(piece)?;
        Ok(piece.len())
    }

    fn flush(&mut self) -> io::Result<()> {
        self.arrived.extend_from_slice(&self.pending)?;
        self.pending.clear();
        Ok(())
    }
}

#[test]
fn the_std_sink_flushes(rt: HostRuntime) -> Result<(), Fail> {
    let alloc = rt.alloc();
    let mut arrived = Vec::new(alloc);
    let mut sink = StdSink::new(Held {
        pending: Vec::new(alloc),
        arrived: &mut arrived,
    });
    write_all(&mut sink, b"abc")?;
    drop(sink);
    assert_eq!(rt; arrived.as_slice(), b"abc".as_slice());
    Ok(())
}
