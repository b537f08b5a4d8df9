//! The words for choices.
ghost use Rattle.std.specs.Prelude.{◌≡◌, ◌≤◌, length};
ghost use Rattle.std.specs.List.{find};
ghost use Rattle.grid_text.specs.Words.{is_word as is_word_of};
ghost use Rattle.grid_text.specs.Commands.{sign_word, signs, side_word, sides, corner_word, corners, square_word, squares, axis_word, axes};
ghost use Rattle.grid_text.specs.Document.{grid_word};

use crate::commands::Sign;
use crate::words::is_word;
use grid_moves::{Axis, Side};
use pentagon_map::Corner;
use stabilise::Square;

/// All signs.
const SIGNS: [Sign; 2] = [Sign::Plus, Sign::Minus];

/// All sides.
const SIDES: [Side; 4] = [Side::Left, Side::Right, Side::Up, Side::Down];

/// All corners.
const CORNERS: [Corner; 2] = [Corner::Over, Corner::Under];

/// All squares of a block.
const SQUARES: [Square; 4] = [Square::Nw, Square::Ne, Square::Sw, Square::Se];

/// All axes.
const AXES: [Axis; 2] = [Axis::Cols, Axis::Rows];

/// The sign that the word is.
pub(crate) fn read_sign(word: &[u8]) -> Option<Sign>
    ensures { result ≡ find (λ v. is_word_of (sign_word v) word.now) signs }
{
    SIGNS
        .iter()
        .copied()
        .find(|sign| is_word(sign_text(*sign), word))
}

/// The word for a sign.
pub(crate) fn sign_text(sign: Sign) -> &'static [u8]
    ensures { result.now ≡ sign_word sign }
{
    match sign {
        Sign::Plus => b"+",
        Sign::Minus => b"-",
    }
}

/// The side that the word is.
pub(crate) fn read_side(word: &[u8]) -> Option<Side>
    ensures { result ≡ find (λ v. is_word_of (side_word v) word.now) sides }
{
    SIDES
        .iter()
        .copied()
        .find(|side| is_word(side_text(*side), word))
}

/// The word for a side.
pub(crate) fn side_text(side: Side) -> &'static [u8]
    ensures { result.now ≡ side_word side }
{
    match side {
        Side::Left => b"left",
        Side::Right => b"right",
        Side::Up => b"up",
        Side::Down => b"down",
    }
}

/// The corner that the word is.
pub(crate) fn read_corner(word: &[u8]) -> Option<Corner>
    ensures { result ≡ find (λ v. is_word_of (corner_word v) word.now) corners }
{
    CORNERS
        .iter()
        .copied()
        .find(|corner| is_word(corner_text(*corner), word))
}

/// The word for a corner.
pub(crate) fn corner_text(corner: Corner) -> &'static [u8]
    ensures { result.now ≡ corner_word corner }
{
    match corner {
        Corner::Over => b"over",
        Corner::Under => b"under",
    }
}

/// The square that the word is.
pub(crate) fn read_square(word: &[u8]) -> Option<Square>
    ensures { result ≡ find (λ v. is_word_of (square_word v) word.now) squares }
{
    SQUARES
        .iter()
        .copied()
        .find(|square| is_word(square_text(*square), word))
}

/// The word for a square.
pub(crate) fn square_text(square: Square) -> &'static [u8]
    ensures { result.now ≡ square_word square }
{
    match square {
        Square::Nw => b"nw",
        Square::Ne => b"ne",
        Square::Sw => b"sw",
        Square::Se => b"se",
    }
}

/// The axis that the word is.
pub(crate) fn read_axis(word: &[u8]) -> Option<Axis>
    ensures { result ≡ find (λ v. is_word_of (axis_word v) word.now) axes }
{
    AXES.iter()
        .copied()
        .find(|axis| is_word(axis_text(*axis), word))
}

/// The word for an axis.
pub(crate) fn axis_text(axis: Axis) -> &'static [u8]
    ensures { result.now ≡ axis_word axis }
{
    match axis {
        Axis::Cols => b"cols",
        Axis::Rows => b"rows",
    }
}

/// The word that begins the number form of a head of a version.
pub(crate) fn version_text(version: u8) -> &'static [u8]
    ensures word { result.now ≡ grid_word version }
    ensures few { length result.now ≤ 5 }
{
    match version {
        2 => b"grid2",
        _ => b"grid",
    }
}
