//! Which texts are documents.
ghost use Rattle.std.specs.Prelude.{◌≡◌, ◌↔◌, ◌⊎◌, ◌≤◌, ℕ, List, None, length, map, IfOk, IfErr};
ghost use Rattle.grid_text.specs.Limits.{max_commands, max_text};
ghost use Rattle.grid_text.specs.Words.{Word, words_of as words_of_line, words_of_lines};
ghost use Rattle.grid_text.specs.Script.{GridScript};
ghost use Rattle.grid_text.specs.Document.{Place as PlaceOf, head, Leads, Path, IsDocument, IsHeadLine};
ghost use Rattle.grid_text.specs.Faults.{line_fault, IsFirstFault};
ghost use Rattle.grid_text.specs.Inner.Reading.{IsPlace};
ghost use Rattle.grid_text.specs.Inner.Next.{place_of, IsNext};
ghost use Rattle.grid_text.specs.End.{IsTextEnd};

use crate::commands::MAX_COMMANDS;
use crate::faults::TextFault;
use crate::places::{Place, next_place};
use crate::scripts::Script;
use crate::words::{first_line, is_blank, words_of};
use grid_ports::NoMemory;
use std::alloc::Global;
use thiserror::Error;

/// The greatest number of bytes of a text that is judged.
pub const MAX_TEXT: usize = 65_536;

/// The script of a document, and the line on which its head begins, counted from 1.
#[derive(Drop)]
pub struct Judged {
    pub script: Script,
    pub grid_line: u32,
}

/// Why a text has no script.
#[derive(Clone, Copy, Debug, PartialEq, Eq, Error)]
pub enum TextEnd {
    /// The text is no document.
    #[error("the text is no document")]
    Refused { fault: TextFault, line: u32 },
    /// The allocator refused.
    #[error("out of memory")]
    NoMemory,
}

impl From<NoMemory> for TextEnd {
    ghost use Rattle.grid_text.specs.declared.judgement.TextEnd.TheVariants.{NoMemory};

    ghost from_gives = { λ _ e. e ≡ NoMemory };

    fn from(_: NoMemory) -> Self {
        TextEnd::NoMemory
    }
}

/// The script whose document the text is, or the first fault of the text and the line that has it.
///
/// The lines are taken in order, and the fault is that of the first row of the table that holds for the
/// first line that may not stand where it does. Blank lines may stand anywhere. Lines are counted from 1,
/// blank lines too.
///
/// # Errors
///
/// `Refused` exactly if the text is no document; `NoMemory` if the allocator refuses.
pub fn judge(alloc: Global, text: &[u8]) -> Result<Judged, TextEnd>
    requires { length text.now ≤ max_text }
    ensures document { IfOk result (λ j. IsDocument text.now j.script) }
    ensures head { IfOk result (λ j. IsHeadLine (words_of_lines text.now) j.grid_line) }
    ensures refused { IfErr result (IsTextEnd text.now) }

    // Every text is a document or has a first fault, and no text is both.
    ensures every_text { (other : List ℕ) → ((s : GridScript) × IsDocument other s)
        ⊎ ((f : TextFault) × (line : ℕ) × IsFirstFault other f line) }
    ensures no_document { (other : List ℕ) (f : TextFault) (line : ℕ) (s : GridScript)
        → IsFirstFault other f line → IsDocument other s → ⊥ }

    // A document is that of one script alone, and another text has one first fault, at one line.
    ensures one_script { (other : List ℕ) (s t : GridScript)
        → IsDocument other s → IsDocument other t → s ≡ t }
    ensures one_fault { (other : List ℕ) (f g : TextFault) (line number : ℕ)
        → IsFirstFault other f line → IsFirstFault other g number → (f ≡ g) × (line ≡ number) }

    // The head begins at one line.
    ensures one_head { (other : List ℕ) (line number : ℕ) → IsHeadLine (words_of_lines other) line
        → IsHeadLine (words_of_lines other) number → line ≡ number }

    // At a place that lines lead to, a line is allowed exactly if no row of the table holds, and
    // then it leads to one place.
    ensures allowed { (lines : List (List Word)) (p : PlaceOf) (words : List Word) → Path head lines p
        → (line_fault p words ≡ None) ↔ ((q : PlaceOf) × Leads p words q) }
    ensures one_place { (lines : List (List Word)) (p q r : PlaceOf) (words : List Word)
        → Path head lines p → Leads p words q → Leads p words r → q ≡ r }

    // The limits are those of the definitions.
    ensures limits { (MAX_COMMANDS ≡ max_commands) × (MAX_TEXT ≡ max_text) }
{
    judge_lines(alloc, text)
}

// The same, without the laws.
fn judge_lines(alloc: Global, text: &[u8]) -> Result<Judged, TextEnd>
    requires { length text.now ≤ max_text }
    ensures document { IfOk result (λ j. IsDocument text.now j.script) }
    ensures head { IfOk result (λ j. IsHeadLine (words_of_lines text.now) j.grid_line) }
    ensures refused { IfErr result (IsTextEnd text.now) }
{
    let mut place = Place::Head;
    let mut rest = text;
    let mut line: u32 = 1;
    let mut grid_line: u32 = 1;
    while let Some((bytes, after)) = first_line(rest) {
        if let Place::Head = place {
            grid_line = line;
        }
        match next_of_line(alloc, place, bytes)? {
            Ok(next) => place = next,
            Err(fault) => return Err(TextEnd::Refused { fault, line }),
        }
        rest = after;
        line += 1;
    }
    match place {
        Place::Ended(script) => Ok(Judged { script, grid_line }),
        _ => Err(TextEnd::Refused {
            fault: TextFault::NoEnd,
            line,
        }),
    }
}

// The place to which a line with these bytes leads, or its fault.
fn next_of_line(
    alloc: Global,
    place: Place,
    bytes: &[u8],
) -> Result<Result<Place, TextFault>, NoMemory>
    requires { IsPlace (place_of place) }
    ensures { IfOk result (IsNext (place_of place) (words_of_line bytes.now)) }
{
    let words = words_of(alloc, bytes)?;
    if is_blank(&words) {
        return Ok(Ok(place));
    }
    next_place(alloc, place, &words)
}
