//! The log of a reduction.
ghost use Rattle.std.specs.Prelude.{◌≡◌};
ghost use Rattle.std.specs.List.{All};
ghost use Rattle.cancel.specs.Logs.{HasEachOnce};

use std::marker::Model;

/// An arrow that was cancelled, from `x` to `y`, with the other codes that had arrows to `y` and the
/// other codes to which `x` had arrows, each once. They lie in the arena that `reduce` was given.
#[derive(Clone, Copy, Debug)]
pub struct LogEntry<'a> {
    pub x: u32,
    pub y: u32,
    pub sources: &'a [u32],
    pub targets: &'a [u32],
}

/// The arrows that a reduction cancelled, from the first to the last. It does not outlive its arena.
#[derive(Drop, Debug)]
pub struct CancelLog<'a> {
    list: &'a [LogEntry<'a>],
}

impl<'a> Model for CancelLog<'a> {
    ghost use Rattle.std.specs.Prelude.{List};
    ghost use Rattle.cancel.specs.declared.logs.LogEntry.{LogEntry};

    ghost Value = { List LogEntry };

    ghost view = { λ l. l.list.now };

    ghost use Rattle.std.specs.List.{All};
    ghost use Rattle.cancel.specs.Logs.{HasEachOnce};

    ghost invariant = { λ l. All HasEachOnce l.list.now };
}

impl<'a> CancelLog<'a> {
    // The log of these entries.
    pub(crate) fn of(list: &'a [LogEntry<'a>]) -> CancelLog<'a>
        requires { All HasEachOnce list.now }
        ensures { result ≡ list.now }
    {
        CancelLog { list }
    }

    /// The entries, from the first to the last.
    pub fn entries(&self) -> &'a [LogEntry<'a>]
        ensures entries { result.now ≡ self.now }

        // No entry of a log names a source twice, or a target.
        ensures once { All HasEachOnce self.now }
    {
        self.list
    }
}
