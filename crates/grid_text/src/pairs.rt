//! Texts of two documents, parted by a line `next`.
ghost use Rattle.std.specs.Prelude.{◌≡◌, ◌+◌, ◌⊎◌, ◌≤◌, ℕ, List, None, length, map, IfOk, IfErr, IfSome, IfNone};
ghost use Rattle.grid_text.specs.Limits.{max_text};
ghost use Rattle.grid_text.specs.Words.{words_of as words_of_line, words_of_lines};
ghost use Rattle.grid_text.specs.Script.{GridScript};
ghost use Rattle.grid_text.specs.Document.{IsDocument};
ghost use Rattle.grid_text.specs.Pairs.{is_next as is_next_line, second_part, IsPair, PairFault, IsFirstPairFault, IsPairEnd};
ghost use Rattle.grid_text.specs.Inner.Cuts.{AreParts, IsPartEnd};

use crate::faults::TextFault;
use crate::judgement::{TextEnd, judge};
use crate::scripts::Script;
use crate::words::{first_line, is_word, words_of};
use grid_ports::NoMemory;
use std::alloc::Global;
use thiserror::Error;

/// The scripts of the two documents of a text.
#[derive(Drop)]
pub struct JudgedPair {
    pub first: Script,
    pub second: Script,
}

/// Why a text has no two scripts.
#[derive(Clone, Copy, Debug, PartialEq, Eq, Error)]
pub enum PairEnd {
    /// A part of the text is no document.
    #[error("a part of the text is no document")]
    Refused { fault: TextFault, line: u32 },
    /// The text is one document, and has no line `next`.
    #[error("the text has one document")]
    NoNext { line: u32 },
    /// The allocator refused.
    #[error("out of memory")]
    NoMemory,
}

impl From<NoMemory> for PairEnd {
    ghost use Rattle.grid_text.specs.declared.pairs.PairEnd.TheVariants.{NoMemory};

    ghost from_gives = { λ _ e. e ≡ NoMemory };

    fn from(_: NoMemory) -> Self {
        PairEnd::NoMemory
    }
}

/// The scripts of the two documents that the first line whose only word is `next` parts, or what the text is
/// refused for: the first fault of the first part, which is the whole text if there is no such line; then that
/// there is none; then the first fault of the second part.
///
/// Lines are counted from 1, in the whole text. If there is no line `next`, the number is one more than that of
/// the last line.
///
/// # Errors
///
/// `Refused` and `NoNext` as said; `NoMemory` if the allocator refuses.
pub fn judge_pair(alloc: Global, text: &[u8]) -> Result<JudgedPair, PairEnd>
    requires { length text.now ≤ max_text }
    ensures pair { IfOk result (λ j. IsPair text.now j.first j.second) }
    ensures refused { IfErr result (IsPairEnd text.now) }

    // Every text is a pair of documents or is refused for something, and no text is both.
    ensures every_text { (other : List ℕ) → ((s : GridScript) × (t : GridScript) × IsPair other s t)
        ⊎ ((f : PairFault) × (line : ℕ) × IsFirstPairFault other f line) }
    ensures no_pair { (other : List ℕ) (f : PairFault) (line : ℕ) (s t : GridScript)
        → IsFirstPairFault other f line → IsPair other s t → ⊥ }

    // A pair is of two scripts alone, and another text is refused for one thing, at one line.
    ensures one_pair { (other : List ℕ) (s t u v : GridScript)
        → IsPair other s t → IsPair other u v → (s ≡ u) × (t ≡ v) }
    ensures one_fault { (other : List ℕ) (f g : PairFault) (line number : ℕ)
        → IsFirstPairFault other f line → IsFirstPairFault other g number → (f ≡ g) × (line ≡ number) }
{
    judge_parts(alloc, text)
}

// The same, without the laws.
fn judge_parts(alloc: Global, text: &[u8]) -> Result<JudgedPair, PairEnd>
    requires { length text.now ≤ max_text }
    ensures pair { IfOk result (λ j. IsPair text.now j.first j.second) }
    ensures refused { IfErr result (IsPairEnd text.now) }
{
    let (line, parts) = parts_at_next(alloc, text)?;
    let Some((first, second)) = parts else {
        return Err(refuse_alone(alloc, text, line));
    };
    match judge_part(alloc, first, 0) {
        Ok(script) => judge_second(alloc, script, second, line),
        Err(end) => Err(end),
    }
}

// What a text with no line `next` is refused for, where the number is one more than that of its last line.
fn refuse_alone(alloc: Global, text: &[u8], line: u32) -> PairEnd
    requires short { length text.now ≤ max_text }
    requires none { second_part (words_of_lines text.now) ≡ None }
    requires number { line ≡ length (words_of_lines text.now) + 1 }
    ensures { IsPairEnd text.now result }
{
    if let Err(end) = judge_part(alloc, text, 0) {
        return end;
    }
    PairEnd::NoNext { line }
}

// The pair of the script of the first part with that of the second, which begins after this number of lines.
fn judge_second(
    alloc: Global,
    first: Script,
    second: &[u8],
    line: u32,
) -> Result<JudgedPair, PairEnd>
    requires short { length second.now ≤ max_text }
    requires few { line ≤ max_text + 1 }
    ensures first { IfOk result (λ j. j.first ≡ first) }
    ensures second { IfOk result (λ j. IsDocument second.now j.second) }
    ensures refused { IfErr result (IsPartEnd second.now line) }
{
    match judge_part(alloc, second, line) {
        Ok(second) => Ok(JudgedPair { first, second }),
        Err(end) => Err(end),
    }
}

// The script of a part that begins after this number of lines.
fn judge_part(alloc: Global, part: &[u8], before: u32) -> Result<Script, PairEnd>
    requires short { length part.now ≤ max_text }
    requires few { before ≤ max_text + 1 }
    ensures document { IfOk result (IsDocument part.now) }
    ensures refused { IfErr result (IsPartEnd part.now before) }
{
    match judge(alloc, part) {
        Ok(judged) => Ok(judged.script),
        Err(TextEnd::Refused { fault, line }) => Err(PairEnd::Refused {
            fault,
            line: before + line,
        }),
        Err(TextEnd::NoMemory) => Err(PairEnd::NoMemory),
    }
}

// The texts of the lines before the first line `next` and after it, with the number of this line; if there is
// none, the number is one more than that of the last line.
fn parts_at_next<'a>(
    alloc: Global,
    text: &'a [u8],
) -> Result<(u32, Option<(&'a [u8], &'a [u8])>), NoMemory>
    requires { length text.now ≤ max_text }
    ensures none { IfOk result (λ p. IfNone p.1 ((second_part (words_of_lines text.now) ≡ None)
        × (p.0 ≡ length (words_of_lines text.now) + 1))) }
    ensures some { IfOk result (λ p. IfSome p.1 (λ q. AreParts text.now q.0.now q.1.now p.0)) }
    ensures few { IfOk result (λ p. p.0 ≤ max_text + 1) }
{
    let mut rest = text;
    let mut line: u32 = 1;
    while let Some((bytes, after)) = first_line(rest) {
        if is_next(alloc, bytes)? {
            return Ok((line, Some((&text[..text.len() - rest.len()], after))));
        }
        rest = after;
        line += 1;
    }
    Ok((line, None))
}

// Whether the only word of a line with these bytes is `next`.
fn is_next(alloc: Global, bytes: &[u8]) -> Result<bool, NoMemory>
    ensures { IfOk result (λ b. b ≡ is_next_line (words_of_line bytes.now)) }
{
    let words = words_of(alloc, bytes)?;
    Ok(is_next_alone(&words))
}

fn is_next_alone(words: &[&[u8]]) -> bool
    ensures { result ≡ is_next_line (map (λ w. w.now) words.now) }
{
    match words {
        [word] => is_word(b"next", word),
        _ => false,
    }
}
