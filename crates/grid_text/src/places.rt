//! Places of a text, and where a line leads.
ghost use Rattle.std.specs.Prelude.{◌≡◌, ◌≢◌, ℕ, ◌-◌, ◌<◌, ◌≤◌, true, false, List, [], ◌∷◌, map, length, take, Some, IfOk, IfErr, IfSome, IfNone};
ghost use Rattle.std.specs.List.{list_any};
ghost use Rattle.std.specs.Fmt.{decimal};
ghost use Rattle.state_rank.specs.Bijection.{IsSize, IsBijection};
ghost use Rattle.grid_text.specs.Words.{Word, is_blank};
ghost use Rattle.grid_text.specs.Script.{IsVersion};
ghost use Rattle.grid_text.specs.Picture.{FitsRow};
ghost use Rattle.grid_text.specs.Document.{Place as PlaceOf, grid_word, head, o_line, x_line, picture as picture_at, body, below_row as below};
ghost use Rattle.grid_text.specs.Faults.{form_at, size_form, fault_in_table, number_between};
ghost use Rattle.grid_text.specs.Inner.Kinds.{is_bad};
ghost use Rattle.grid_text.specs.Inner.Reading.{IsPlace, IsRowPlace, AreNumerals};
ghost use Rattle.grid_text.specs.Inner.Next.{place_of, IsNextOn};

use crate::bodies::read_line;
use crate::commands::MAX_COMMANDS;
use crate::faults::TextFault;
use crate::pictures::{Picture, empty_picture, read_row, symbols_of};
use crate::scripts::Script;
use crate::words::{is_word, numeral};
use grid_ports::NoMemory;
use state_rank::{MAX_SIZE, ROOM, State};
use std::alloc::Global;
use torus_geom::Grid;

/// Where the next line of a text stands.
#[derive(Drop)]
pub(crate) enum Place {
    /// At the head.
    Head,
    /// At the O line of a document of this version, with a grid of this size.
    OLine { version: u8, size: u8 },
    /// At the X line of a document of this version, with a grid whose O are in these rows.
    XLine { version: u8, o: State },
    /// In a picture.
    Picture(Picture),
    /// In the body.
    Body(Script),
    /// After the end.
    Ended(Script),
}

/// The place to which a line with these words leads, or its fault, if it is not blank.
pub(crate) fn next_place(
    alloc: Global,
    place: Place,
    words: &[&[u8]],
) -> Result<Result<Place, TextFault>, NoMemory>
    requires place { IsPlace (place_of place) }
    requires filled { is_blank (map (λ w. w.now) words.now) ≡ false }
    ensures { IfOk result (IsNextOn (place_of place) (map (λ w. w.now) words.now)) }
{
    match place {
        Place::Head => Ok(read_head(words)),
        Place::OLine { version, size } => Ok(read_o_line(version, size, words)),
        Place::XLine { version, o } => Ok(read_x_line(alloc, version, &o, words)),
        Place::Picture(picture) => read_picture_row(alloc, picture, words),
        Place::Body(script) => read_body_line(alloc, script, words),
        Place::Ended(_) => Ok(Err(TextFault::AfterEnd)),
    }
}

// The place after the first line of the head.
fn read_head(words: &[&[u8]]) -> Result<Place, TextFault>
    ensures { IsNextOn head (map (λ w. w.now) words.now) result }
{
    if let Some(arguments) = words_after(b"picture", words) {
        return match read_size(arguments) {
            Ok(n) => Ok(Place::Picture(empty_picture(n))),
            Err(fault) => Err(fault),
        };
    }
    if let Some(arguments) = words_after(b"grid2", words) {
        return at_o_line(2, arguments);
    }
    let Some(arguments) = words_after(b"grid", words) else {
        return Err(TextFault::BadWord);
    };
    at_o_line(1, arguments)
}

// The place after the first line of the number form of a head of this version, whose words after the first these are.
fn at_o_line(version: u8, arguments: &[&[u8]]) -> Result<Place, TextFault>
    requires { IsVersion version }
    ensures { IsNextOn head (grid_word version ∷ map (λ w. w.now) arguments.now) result }
{
    match read_size(arguments) {
        Ok(size) => Ok(Place::OLine { version, size }),
        Err(fault) => Err(fault),
    }
}

// The size in the first line of the head, whose words after the first these are.
fn read_size(arguments: &[&[u8]]) -> Result<u8, TextFault>
    ensures ok { IfOk result (λ n. IsSize n × (map (λ w. w.now) arguments.now ≡ decimal n ∷ [])) }
    ensures err { IfErr result (λ f. (word : Word) → form_at head word ≡ Some size_form
        → fault_in_table head (word ∷ map (λ w. w.now) arguments.now) ≡ Some f) }
{
    if arguments.len() != 1 {
        return Err(TextFault::BadCount);
    }
    let Some(n) = numeral(arguments[0], 2, u32::from(MAX_SIZE)) else {
        return Err(TextFault::BadNumber);
    };
    Ok(n as u8)
}

// The place after an O line.
fn read_o_line(version: u8, n: u8, words: &[&[u8]]) -> Result<Place, TextFault>
    requires version { IsVersion version }
    requires size { IsSize n }
    ensures { IsNextOn (o_line version n) (map (λ w. w.now) words.now) result }
{
    match read_rows(b"O", n, words) {
        Ok(o) => Ok(Place::XLine { version, o }),
        Err(fault) => Err(fault),
    }
}

// The place after an X line.
fn read_x_line(alloc: Global, version: u8, o: &State, words: &[&[u8]]) -> Result<Place, TextFault>
    requires { IsVersion version }
    ensures { IsNextOn (x_line version (length o.now) o.now) (map (λ w. w.now) words.now) result }
{
    let x = match read_rows(b"X", o.size(), words) {
        Ok(x) => x,
        Err(fault) => return Err(fault),
    };
    match Grid::of(o.rows(), x.rows()) {
        Ok(grid) => Ok(Place::Body(Script::of_version(alloc, version, &grid))),
        Err(_) => Err(TextFault::SameSquare),
    }
}

// The place after a row of a picture.
fn read_picture_row(
    alloc: Global,
    picture: Picture,
    words: &[&[u8]],
) -> Result<Result<Place, TextFault>, NoMemory>
    requires place { IsPlace (picture_at picture.size picture.o.items picture.x.items) }
    requires filled { is_blank (map (λ w. w.now) words.now) ≡ false }
    ensures { IfOk result (IsNextOn (picture_at picture.size picture.o.items picture.x.items)
        (map (λ w. w.now) words.now)) }
{
    let row = symbols_of(alloc, words)?;
    match read_row(&picture, &row) {
        Ok((c, d)) => Ok(Ok(below_row(alloc, picture, c, d))),
        Err(fault) => Ok(Err(fault)),
    }
}

// The place after a row with its O in column c and its X in column d.
fn below_row(alloc: Global, mut picture: Picture, c: u8, d: u8) -> Place
    requires place { IsPlace (picture_at picture.size picture.o.items picture.x.items) }
    requires fits { FitsRow picture.size picture.o.items picture.x.items c d }
    ensures { place_of result ≡ below picture.size (c ∷ picture.o.items) (d ∷ picture.x.items) }
{
    picture.o.insert(0, c);
    picture.x.insert(0, d);
    if picture.o.len() != usize::from(picture.size) {
        return Place::Picture(picture);
    }
    let columns = Grid::from_marks(picture.o.as_slice(), picture.x.as_slice());
    Place::Body(Script::new(alloc, &columns.transpose()))
}

// The place after a line of the body.
fn read_body_line(
    alloc: Global,
    mut script: Script,
    words: &[&[u8]],
) -> Result<Result<Place, TextFault>, NoMemory>
    ensures { IfOk result (IsNextOn (body script) (map (λ w. w.now) words.now)) }
{
    let line = match read_line(alloc, &script, words)? {
        Ok(line) => line,
        Err(fault) => return Ok(Err(fault)),
    };
    let Some(command) = line else {
        return Ok(Ok(Place::Ended(script)));
    };
    if script.commands().len() >= MAX_COMMANDS {
        return Ok(Err(TextFault::TooMany));
    }
    script.push(command)?;
    Ok(Ok(Place::Body(script)))
}

// The rows in an O or X line of a grid of this size.
fn read_rows(letter: &[u8], n: u8, words: &[&[u8]]) -> Result<State, TextFault>
    requires { IsSize n }
    ensures ok { IfOk result (λ x. IsBijection n x
        × (map (λ w. w.now) words.now ≡ letter.now ∷ map decimal x)) }
    ensures err { IfErr result (λ f. (p : PlaceOf) → IsRowPlace letter.now n p
        → fault_in_table p (map (λ w. w.now) words.now) ≡ Some f) }
{
    let Some(arguments) = words_after(letter, words) else {
        return Err(TextFault::BadWord);
    };
    if arguments.len() != usize::from(n) {
        return Err(TextFault::BadCount);
    }
    let Some(rows) = read_numbers(arguments, n) else {
        return Err(TextFault::BadNumber);
    };
    match State::of(&rows[..arguments.len()]) {
        Some(state) => Ok(state),
        None => Err(TextFault::NotPermutation),
    }
}

// The numbers below n whose words these are, in front of an array.
fn read_numbers(words: &[&[u8]], n: u8) -> Option<[u8; ROOM]>
    requires size { IsSize n }
    requires fits { length words.now ≤ ROOM }
    ensures some { IfSome result
        (λ rows. AreNumerals n (take (length words.now) rows) (map (λ w. w.now) words.now)) }
    ensures none { IfNone result
        (list_any (is_bad (number_between 0 (n - 1))) (map (λ w. w.now) words.now) ≡ true) }
{
    let mut rows = [0; ROOM];
    for (c, word) in words.iter().enumerate() {
        let Some(row) = numeral(word, 0, u32::from(n) - 1) else {
            return None;
        };
        rows[c] = row as u8;
    }
    Some(rows)
}

// The words after the first, if that is the one expected.
fn words_after<'a>(expected: &[u8], words: &'a [&'a [u8]]) -> Option<&'a [&'a [u8]]>
    ensures some { IfSome result (λ rest.
        map (λ w. w.now) words.now ≡ expected.now ∷ map (λ w. w.now) rest.now) }
    ensures none { IfNone result ((rest : List Word)
        → map (λ w. w.now) words.now ≢ expected.now ∷ rest) }
{
    let [word, rest @ ..] = words else {
        return None;
    };
    if !is_word(expected, word) {
        return None;
    }
    Some(rest)
}
