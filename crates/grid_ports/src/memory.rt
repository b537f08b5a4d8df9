//! A source and a sink over memory, for tests: they move bytes in pieces, and fail at the calls that
//! they are told.
ghost use Rattle.std.specs.Prelude.{◌≡◌, ◌↔◌, ◌≤◌, [], ◌++◌, length, take, drop, IfOk, OnErr, IsErr};
ghost use Rattle.std.specs.Prelude.{ℕ, ◌<◌, Some, OnOk, IsSome};
ghost use Rattle.std.specs.Io.KnownBytes.{Consumes, Appends, Keeps, IsAtEnd};
ghost use Rattle.grid_ports.specs.Faults.{count_up};
ghost use Rattle.grid_ports.specs.Memory.{SourceState, SinkState, read_count, write_count, ReadFails, WriteFails};

use crate::errors::{Failed, NoMemory};
use crate::ports::{Sink, Source};
use std::alloc::Global;
use std::marker::Model;

/// A source over memory.
#[derive(Drop)]
pub struct MemSource {
    bytes: Vec<u8>,
    taken: usize,
    piece: usize,
    reads: u64,
    fails: Vec<u64>,
    faults: u64,
}

impl Model for MemSource {
    ghost use Rattle.std.specs.Prelude.{◌≤◌, drop, length};
    ghost use Rattle.grid_ports.specs.Memory.{SourceState};

    ghost Value = { SourceState };

    ghost view = { λ s. record {
      left = drop s.taken s.bytes.items;
      piece = s.piece;
      reads = s.reads;
      fails = s.fails.items;
      faults = s.faults;
    } };

    ghost invariant = { λ s. (s.taken ≤ length s.bytes.items) × (1 ≤ s.piece) };
}

impl MemSource {
    /// A source of `bytes` that gives at most `piece` of them a read, and fails at the reads whose
    /// numbers, counted from 1, are in `fails`.
    pub fn new(bytes: Vec<u8>, piece: usize, fails: Vec<u64>) -> MemSource
        requires { 1 ≤ piece }
        ensures { result ≡ record {
          left = bytes.items;
          piece = piece;
          reads = 0;
          fails = fails.items;
          faults = 0;
        } }
    {
        MemSource {
            bytes,
            taken: 0,
            piece,
            reads: 0,
            fails,
            faults: 0,
        }
    }
}

impl Source for MemSource {
    ghost left = { λ s. Some s.left };

    ghost faults = { λ s. s.faults };

    fn read(&mut self, buf: &mut [u8]) -> Result<usize, Failed>
        ensures fails { IsErr result ↔ ReadFails self.old }
        ensures count { IfOk result (λ k. k ≡ read_count self.old (length buf.old)) }
        ensures given { IfOk result (λ k. buf.new ≡ take k self.old.left ++ drop k buf.old) }
        ensures after { IfOk result (λ k. self.new
            ≡ record self.old { left = drop k self.old.left; reads = count_up self.old.reads }) }
        ensures after_failure { OnErr result (self.new ≡ record self.old {
          reads = count_up self.old.reads;
          faults = count_up self.old.faults;
        }) }

        // A piece has at least one byte, and a count is at most 2^64 - 1.
        ensures end { IfOk result (λ k. k ≡ 0 → 0 < length buf.old → self.new.left ≡ []) }
        ensures never_falls { self.old.faults ≤ self.new.faults }
    {
        self.reads = self.reads.saturating_add(1);
        if self.fails.contains(&self.reads) {
            self.faults = self.faults.saturating_add(1);
            return Err(Failed);
        }
        let left = &self.bytes[self.taken..];
        let count = self.piece.min(buf.len()).min(left.len());
        buf[..count].copy_from_slice(&left[..count]);
        self.taken += count;
        Ok(count)
    }
}

/// A sink over memory.
#[derive(Drop)]
pub struct MemSink {
    bytes: Vec<u8>,
    room: usize,
    piece: usize,
    writes: u64,
    fails: Vec<u64>,
    faults: u64,
}

impl Model for MemSink {
    ghost use Rattle.std.specs.Prelude.{◌≤◌, vec_len, vec_capacity};
    ghost use Rattle.grid_ports.specs.Memory.{SinkState};

    ghost Value = { SinkState };

    ghost view = { λ s. record {
      written = s.bytes.items;
      room = s.room;
      piece = s.piece;
      writes = s.writes;
      fails = s.fails.items;
      faults = s.faults;
    } };

    ghost invariant = { λ s.
        (vec_len s.bytes ≤ s.room) × (s.room ≤ vec_capacity s.bytes) × (1 ≤ s.piece) };
}

impl MemSink {
    /// An empty sink that holds up to `room` bytes, takes at most `piece` of them a write, and fails at
    /// the writes whose numbers, counted from 1, are in `fails`, and if there is no room left.
    ///
    /// # Errors
    ///
    /// `NoMemory` if the allocator refuses the room.
    pub fn new(
        alloc: Global,
        room: usize,
        piece: usize,
        fails: Vec<u64>,
    ) -> Result<MemSink, NoMemory>
        requires { 1 ≤ piece }
        ensures { IfOk result (λ sink. sink ≡ record {
          written = [];
          room = room;
          piece = piece;
          writes = 0;
          fails = fails.items;
          faults = 0;
        }) }
    {
        Ok(MemSink {
            bytes: Vec::with_capacity(alloc, room)?,
            room,
            piece,
            writes: 0,
            fails,
            faults: 0,
        })
    }

    /// The bytes written so far.
    pub fn written(&self) -> &[u8]
        ensures { result.now ≡ self.now.written }
    {
        &self.bytes
    }
}

impl Sink for MemSink {
    ghost written = { λ s. Some s.written };

    ghost faults = { λ s. s.faults };

    fn write(&mut self, piece: &[u8]) -> Result<usize, Failed>
        ensures fails { IsErr result ↔ WriteFails self.old (length piece.now) }
        ensures count { IfOk result (λ k. k ≡ write_count self.old (length piece.now)) }
        ensures after { IfOk result (λ k. self.new ≡ record self.old {
          written = self.old.written ++ take k piece.now;
          writes = count_up self.old.writes;
        }) }
        ensures after_failure { OnErr result (self.new ≡ record self.old {
          writes = count_up self.old.writes;
          faults = count_up self.old.faults;
        }) }

        // A piece has at least one byte, and a count is at most 2^64 - 1.
        ensures some { IfOk result (λ k. 0 < length piece.now → 0 < k) }
        ensures never_falls { self.old.faults ≤ self.new.faults }
    {
        self.writes = self.writes.saturating_add(1);
        let room_left = self.room - self.bytes.len();
        if self.fails.contains(&self.writes) || (!piece.is_empty() && room_left == 0) {
            self.faults = self.faults.saturating_add(1);
            return Err(Failed);
        }
        let count = self.piece.min(piece.len()).min(room_left);
        self.bytes.extend_from_slice(&piece[..count]).unwrap();
        Ok(count)
    }
}
