//! Rows of pictures.
ghost use Rattle.std.specs.Prelude.{◌≡◌, ◌↔◌, ◌<◌, ◌==◌, ◌∷◌, [], false, List, length, map, count_by, position, IsTrue, IfOk, IfErr, IfSome, IfNone};
ghost use Rattle.std.specs.List.{Contains, list_any};
ghost use Rattle.state_rank.specs.Bijection.{IsSize};
ghost use Rattle.grid_text.specs.Words.{Word, symbols as symbols_of_words, is_word, is_blank};
ghost use Rattle.grid_text.specs.Picture.{row_symbols, FitsRow};
ghost use Rattle.grid_text.specs.Document.{picture as picture_at};
ghost use Rattle.grid_text.specs.Faults.{choice_of, symbol_words, stands_once, fault_in_table};
ghost use Rattle.grid_text.specs.Inner.Kinds.{is_bad};
ghost use Rattle.grid_text.specs.Inner.Pictures.{IsOnly, row_words};

use crate::faults::TextFault;
use arrayvec::ArrayVec;
use grid_ports::NoMemory;
use state_rank::ROOM;
use std::alloc::Global;

/// The columns of the O and of the X of the rows of a picture that were read, the lowest row first.
#[derive(Drop)]
pub(crate) struct Picture {
    pub(crate) size: u8,
    pub(crate) o: ArrayVec<u8, ROOM>,
    pub(crate) x: ArrayVec<u8, ROOM>,
}

/// The picture of this size with no row so far.
pub(crate) fn empty_picture(size: u8) -> Picture
    ensures size { result.size ≡ size }
    ensures o { result.o.items ≡ [] }
    ensures x { result.x.items ≡ [] }
{
    Picture {
        size,
        o: ArrayVec::new(),
        x: ArrayVec::new(),
    }
}

/// The bytes of a line with these words that are no spaces and tabs.
pub(crate) fn symbols_of(alloc: Global, words: &[&[u8]]) -> Result<Vec<u8>, NoMemory>
    ensures { IfOk result (λ row. row.items ≡ symbols_of_words (map (λ w. w.now) words.now)) }
{
    let mut row = Vec::new(alloc);
    for word in words {
        row.extend_from_slice(word)?;
    }
    Ok(row)
}

/// The columns of the O and of the X in a row with these symbols, which is the next of the picture.
pub(crate) fn read_row(picture: &Picture, row: &[u8]) -> Result<(u8, u8), TextFault>
    requires { IsSize picture.now.size }
    ensures ok { IfOk result (λ p. FitsRow picture.now.size picture.now.o.items picture.now.x.items p.0 p.1
        × (row.now ≡ row_symbols picture.now.size p.0 p.1)) }
    ensures err { IfErr result (λ f. (words : List Word) → is_blank words ≡ false
        → symbols_of_words words ≡ row.now
        → fault_in_table (picture_at picture.now.size picture.now.o.items picture.now.x.items) words ≡ Some f) }
{
    if row.len() != usize::from(picture.size) {
        return Err(TextFault::BadCount);
    }
    if has_bad_symbol(row) {
        return Err(TextFault::BadChoice);
    }
    let Some(c) = only_column(row, b'O') else {
        return Err(TextFault::NotPermutation);
    };
    let Some(d) = only_column(row, b'X') else {
        return Err(TextFault::NotPermutation);
    };
    if has_column(picture.o.as_slice(), c) {
        return Err(TextFault::NotPermutation);
    }
    if has_column(picture.x.as_slice(), d) {
        return Err(TextFault::NotPermutation);
    }
    Ok((c, d))
}

// Whether the byte is no symbol of a picture.
fn is_bad_symbol(symbol: u8) -> bool
    ensures { result ≡ is_bad (choice_of symbol_words) (symbol ∷ []) }
{
    !matches!(symbol, b'.' | b'O' | b'X')
}

// Whether some byte is no symbol of a picture.
fn has_bad_symbol(row: &[u8]) -> bool
    ensures { result ≡ list_any (λ b. is_bad (choice_of symbol_words) (b ∷ [])) row.now }
{
    row.iter().any(|symbol| is_bad_symbol(*symbol))
}

// The column of the mark in a row that has exactly one.
fn only_column(row: &[u8], mark: u8) -> Option<u8>
    requires { length row.now < 256 }
    ensures some { IfSome result (λ c. IsOnly (is_word (mark ∷ [])) (row_words row.now) c) }
    ensures none { IfNone result (stands_once (mark ∷ []) (row_words row.now) ≡ false) }
{
    if mark_count(row, mark) != 1 {
        return None;
    }
    let Some(c) = first_column(row, mark) else {
        return None;
    };
    Some(c as u8)
}

// How often the mark stands in a row.
fn mark_count(row: &[u8], mark: u8) -> usize
    ensures { result ≡ count_by (λ b. b == mark) row.now }
{
    row.iter().filter(|symbol| **symbol == mark).count()
}

// The first column with the mark.
fn first_column(row: &[u8], mark: u8) -> Option<usize>
    ensures { result ≡ position (λ b. b == mark) row.now }
{
    row.iter().position(|symbol| *symbol == mark)
}

// Whether the column is one of these.
fn has_column(columns: &[u8], c: u8) -> bool
    ensures { IsTrue result ↔ Contains columns.now c }
{
    columns.contains(&c)
}
