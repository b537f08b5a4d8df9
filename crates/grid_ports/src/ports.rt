//! Where bytes come from, and where they go.
ghost use Rattle.std.specs.Prelude.{◌≡◌, ℕ, ◌<◌, ◌≤◌, List, Option, length, take, IfOk, OnOk, OnErr};
ghost use Rattle.std.specs.Io.KnownBytes.{Consumes, Appends, Keeps, IsAtEnd};
ghost use Rattle.grid_ports.specs.Faults.{count_up};

use crate::errors::Failed;

/// A source of bytes.
pub trait Source {
    /// The bytes that are left, if the source tells them.
    ghost left: { Self → Option (List ℕ) };

    /// The number of reads that have failed.
    ghost faults: { Self → ℕ };

    /// Moves the first bytes that are left into the front of `buf`, and answers how many. None at a
    /// buffer that is not empty is the end.
    ///
    /// # Errors
    ///
    /// `Failed` if the source failed. No byte is taken then, and the count of faults is greater by
    /// one, unless it was 2^64 - 1.
    fn read(&mut self, buf: &mut [u8]) -> Result<usize, Failed>
        ensures bound { IfOk result (λ k. k ≤ length buf.old) }
        ensures moved { IfOk result (λ k. Consumes (left self.old) (left self.new) (take k buf.new)) }

        ensures end { IfOk result (λ k. k ≡ 0 → 0 < length buf.old → IsAtEnd (left self.new)) }
        ensures no_fault { OnOk result (faults self.new ≡ faults self.old) }

        ensures failed { OnErr result (faults self.new ≡ count_up (faults self.old)) }
        ensures nothing_taken { OnErr result (Keeps (left self.old) (left self.new)) }

        // The count never falls.
        ensures count { faults self.old ≤ faults self.new };
}

/// A sink for bytes.
pub trait Sink {
    /// The bytes written so far, if the sink tells them.
    ghost written: { Self → Option (List ℕ) };

    /// The number of writes that have failed.
    ghost faults: { Self → ℕ };

    /// Writes the first bytes of `piece`, at least one of a piece that is not empty, and answers how
    /// many.
    ///
    /// # Errors
    ///
    /// `Failed` if the sink failed. Nothing is written then, and the count of faults is greater by
    /// one, unless it was 2^64 - 1.
    fn write(&mut self, piece: &[u8]) -> Result<usize, Failed>
        ensures bound { IfOk result (λ k. k ≤ length piece.now) }
        ensures moved { IfOk result
            (λ k. Appends (written self.old) (written self.new) (take k piece.now)) }
        ensures some { IfOk result (λ k. 0 < length piece.now → 0 < k) }
        ensures no_fault { OnOk result (faults self.new ≡ faults self.old) }

        ensures failed { OnErr result (faults self.new ≡ count_up (faults self.old)) }
        ensures nothing_written { OnErr result (Keeps (written self.old) (written self.new)) }

        // The count never falls.
        ensures count { faults self.old ≤ faults self.new };
}
