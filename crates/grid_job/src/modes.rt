//! What the words after the program's name ask for.
ghost use Rattle.std.specs.Prelude.{◌↔◌, ℕ, map, string_bytes, ◌≡◌, [], ◌∷◌, IfSome, IfNone, IsTrue};
ghost use Rattle.grid_job.specs.Outcome.{IsForm};
ghost use Rattle.grid_job.specs.Words.{IsMake};

/// What a call of the program does.
#[derive(Clone, Copy, PartialEq, Eq, Debug)]
pub enum Mode {
    /// Reads a document and writes a report of it.
    Run,
    /// Reads a document and writes a certificate of the grid in force at its end.
    Cert,
    /// Reads a certificate and writes whether it passes.
    Check,
    /// Reads two documents and writes which of the facts on the grids in force at their ends agree.
    Compare,
    /// Reads nothing, and writes the script of this size and seed, with a summary of its grid.
    Make { size: u8, seed: u32 },
}

/// What the words ask for, where `made` has the size and the seed that they ask `make` for.
pub(crate) fn mode_of(words: &[String], made: Option<(u32, u32)>) -> Option<Mode>
    requires some { IfSome made (λ p. IsMake (map string_bytes words.now) p.0 p.1) }
    requires none { IfNone made ((size seed : ℕ)
        → ¬ IsMake (map string_bytes words.now) size seed) }
    ensures some { IfSome result (λ mode. IsForm (map string_bytes words.now) mode) }
    ensures none { IfNone result ((mode : Mode) → ¬ IsForm (map string_bytes words.now) mode) }
{
    if is_alone(words, "run") {
        return Some(Mode::Run);
    }
    if is_alone(words, "cert") {
        return Some(Mode::Cert);
    }
    if is_alone(words, "check") {
        return Some(Mode::Check);
    }
    if is_alone(words, "compare") {
        return Some(Mode::Compare);
    }
    let Some((size, seed)) = made else {
        return None;
    };
    Some(Mode::Make {
        size: size as u8,
        seed,
    })
}

// Whether the words are this one alone.
fn is_alone(words: &[String], command: &str) -> bool
    ensures { IsTrue result ↔ (map string_bytes words.now ≡ command.now ∷ []) }
{
    match words {
        [word] => word.as_str() == command,
        _ => false,
    }
}
