//! Lines, words and numbers.
ghost use Rattle.std.specs.Prelude.{◌≡◌, ◌≢◌, ◌↔◌, ℕ, ◌^◌, ◌<◌, ◌≤◌, [], ◌∷◌, map, length, slice_index, IsTrue, IfSome, IfNone, IfOk};
ghost use Rattle.std.specs.Fmt.{decimal};
ghost use Rattle.grid_text.specs.Words.{is_word as is_word_of, numeral as numeral_of, parts, lines_of, without_return as without_return_of, words_of as words_of_line, is_comment as is_comment_word, is_blank as are_blank};
ghost use Rattle.text_lines.specs.Parts.{is_among};
ghost use Rattle.grid_text.specs.Inner.Cuts.{IsTakenPart, HasFirstLine};

use grid_ports::NoMemory;
use std::alloc::Global;
use text_lines::first_part;

/// The number that `word` is in decimal form, if it is one from `low` to `high`: one or more digits, with
/// no sign, and no leading zero but for `0` itself.
pub fn numeral(word: &[u8], low: u32, high: u32) -> Option<u32>
    ensures value { result ≡ numeral_of low high word.now }
    ensures some { IfSome result (λ v. (word.now ≡ decimal v) × (low ≤ v) × (v ≤ high)) }
    ensures none { IfNone result
        ((v : ℕ) → low ≤ v → v ≤ high → word.now ≢ decimal v) }
{
    let Some(value) = plain_numeral(word) else {
        return None;
    };
    if value < low || high < value {
        return None;
    }
    Some(value)
}

// The number below 2^32 that the word is in decimal form.
fn plain_numeral(word: &[u8]) -> Option<u32>
    ensures some { IfSome result (λ v. word.now ≡ decimal v) }
    ensures none { IfNone result ((v : ℕ) → v < 2 ^ 32 → word.now ≢ decimal v) }
{
    if !has_plain_start(word) {
        return None;
    }
    let Ok(text) = std::str::from_utf8(word) else {
        return None;
    };
    text.parse().ok()
}

// Whether the word is not empty and begins with no plus and no leading zero, but for `0` itself.
fn has_plain_start(word: &[u8]) -> bool
    ensures { IsTrue result ↔ ((0 < length word.now) × (slice_index word.now 0 ≢ 43)
        × (slice_index word.now 0 ≡ 48 → length word.now ≡ 1)) }
{
    match word {
        [] | [b'+', ..] => false,
        [b'0', rest @ ..] => rest.is_empty(),
        _ => true,
    }
}

/// The first line of a text, and what follows it, if there are bytes.
pub(crate) fn first_line(text: &[u8]) -> Option<(&[u8], &[u8])>
    ensures none { IfNone result (text.now ≡ []) }
    ensures some { IfSome result (λ p. lines_of text.now ≡ p.0.now ∷ lines_of p.1.now) }
    ensures shorter { IfSome result (λ p. length p.1.now < length text.now) }
    ensures cut { IfSome result (λ p. HasFirstLine text.now p.0.now p.1.now) }
{
    let Some((line, after)) = next_part(text, b"\n") else {
        return None;
    };
    Some((without_return(line), after))
}

// The bytes without a carriage return at their end.
fn without_return(line: &[u8]) -> &[u8]
    ensures { result.now ≡ without_return_of line.now }
{
    let Some((last, front)) = line.split_last() else {
        return line;
    };
    if *last == b'\r' {
        return front;
    }
    line
}

// The bytes up to the first of `ends`, or all, and what follows it, if there are bytes.
fn next_part<'a>(bytes: &'a [u8], ends: &[u8]) -> Option<(&'a [u8], &'a [u8])>
    ensures none { IfNone result (bytes.now ≡ []) }
    ensures some { IfSome result (λ p. parts (is_among ends.now) bytes.now
        ≡ p.0.now ∷ parts (is_among ends.now) p.1.now) }
    ensures shorter { IfSome result (λ p. length p.1.now < length bytes.now) }
    ensures taken { IfSome result (λ p. IsTakenPart ends.now bytes.now p.0.now p.1.now) }
{
    if bytes.is_empty() {
        return None;
    }
    match first_part(bytes, ends) {
        Some((part, after)) => Some((part, after)),
        None => Some((bytes, &[])),
    }
}

/// The words of a line.
pub(crate) fn words_of(alloc: Global, line: &[u8]) -> Result<Vec<&[u8]>, NoMemory>
    ensures { IfOk result (λ words. map (λ w. w.now) words.items ≡ words_of_line line.now) }
{
    let mut words = Vec::new(alloc);
    let mut rest = line;
    while let Some((part, after)) = next_part(rest, b" \t") {
        if !part.is_empty() {
            words.push(part)?;
        }
        rest = after;
    }
    Ok(words)
}

/// Whether a line with these words is blank: it has none, or the first begins with `#`.
pub(crate) fn is_blank(words: &[&[u8]]) -> bool
    ensures { result ≡ are_blank (map (λ w. w.now) words.now) }
{
    match words {
        [] => true,
        [word, ..] => is_comment(word),
    }
}

// Whether the word begins with `#`.
fn is_comment(word: &[u8]) -> bool
    ensures { result ≡ is_comment_word word.now }
{
    match word {
        [first, ..] => *first == b'#',
        [] => false,
    }
}

/// Whether the words are one.
pub(crate) fn is_word(expected: &[u8], word: &[u8]) -> bool
    ensures { result ≡ is_word_of expected.now word.now }
{
    expected == word
}
