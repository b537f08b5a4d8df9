//! The lines of a body.
ghost use Rattle.std.specs.Prelude.{◌≡◌, ℕ, true, ◌∷◌, map, IfOk, IfSome, IfNone};
ghost use Rattle.std.specs.List.{list_any, All};
ghost use Rattle.state_rank.specs.States.{state_word};
ghost use Rattle.state_rank.specs.Bijection.{IsSize, IsBijection};
ghost use Rattle.grid_text.specs.Commands.{axis_word};
ghost use Rattle.grid_text.specs.Words.{state_of};
ghost use Rattle.grid_text.specs.Script.{GridScript};
ghost use Rattle.grid_text.specs.Faults.{state_of_size};
ghost use Rattle.grid_text.specs.Inner.Kinds.{is_bad};
ghost use Rattle.grid_text.specs.Inner.Reading.{IsRead, keyword_word, stands_alone};
ghost use Rattle.grid_text.specs.declared.keywords.Keyword.TheVariants as keyword;

use crate::choices::{read_axis, read_corner, read_side, read_sign, read_square};
use crate::commands::{Command, StateList};
use crate::faults::TextFault;
use crate::keywords::{Keyword, command_alone, read_keyword};
use crate::scripts::Script;
use crate::words::numeral;
use grid_moves::{Axis, commutes};
use grid_ports::NoMemory;
use stabilise::is_block;
use state_rank::{MAX_SIZE, State};
use std::alloc::Global;

/// The command of a line of a body with these words, none for the line `end`, or its fault, unless that is
/// that there are too many commands.
pub(crate) fn read_line(
    alloc: Global,
    script: &Script,
    words: &[&[u8]],
) -> Result<Result<Option<Command>, TextFault>, NoMemory>
    ensures { IfOk result (IsRead script.now (map (λ w. w.now) words.now)) }
{
    let [word, arguments @ ..] = words else {
        return Ok(Err(TextFault::BadWord));
    };
    let Some(keyword) = read_keyword(word) else {
        return Ok(Err(TextFault::BadWord));
    };
    read_command(alloc, script, keyword, arguments)
}

// The same of a line that begins with a keyword.
fn read_command(
    alloc: Global,
    script: &Script,
    keyword: Keyword,
    arguments: &[&[u8]],
) -> Result<Result<Option<Command>, TextFault>, NoMemory>
    ensures { IfOk result
        (IsRead script.now (keyword_word keyword ∷ map (λ w. w.now) arguments.now)) }
{
    match keyword {
        Keyword::Class => Ok(read_class(arguments)),
        Keyword::Border => Ok(read_border(script, arguments)),
        Keyword::Chain => read_chain(alloc, script, arguments),
        Keyword::Turn => Ok(read_turn(arguments)),
        Keyword::Cols => Ok(read_commute(script, Axis::Cols, arguments)),
        Keyword::Rows => Ok(read_commute(script, Axis::Rows, arguments)),
        Keyword::Stab => Ok(read_stab(script, arguments)),
        Keyword::Destab => Ok(read_destab(script, arguments)),
        Keyword::Invert => Ok(read_invert(script, arguments)),
        _ => Ok(read_alone(keyword, arguments)),
    }
}

// The line of a keyword that stands alone.
fn read_alone(keyword: Keyword, arguments: &[&[u8]]) -> Result<Option<Command>, TextFault>
    requires { stands_alone keyword ≡ true }
    ensures { (s : GridScript)
        → IsRead s (keyword_word keyword ∷ map (λ w. w.now) arguments.now) result }
{
    if !arguments.is_empty() {
        return Err(TextFault::BadCount);
    }
    Ok(command_alone(keyword))
}

// The command `class`.
fn read_class(arguments: &[&[u8]]) -> Result<Option<Command>, TextFault>
    ensures { (s : GridScript)
        → IsRead s (keyword_word keyword.Class ∷ map (λ w. w.now) arguments.now) result }
{
    if arguments.len() != 1 {
        return Err(TextFault::BadCount);
    }
    match read_sign(arguments[0]) {
        Some(sign) => Ok(Some(Command::Class(sign))),
        None => Err(TextFault::BadChoice),
    }
}

// The command `turn`.
fn read_turn(arguments: &[&[u8]]) -> Result<Option<Command>, TextFault>
    ensures { (s : GridScript)
        → IsRead s (keyword_word keyword.Turn ∷ map (λ w. w.now) arguments.now) result }
{
    if arguments.len() != 1 {
        return Err(TextFault::BadCount);
    }
    match read_side(arguments[0]) {
        Some(side) => Ok(Some(Command::Turn(side))),
        None => Err(TextFault::BadChoice),
    }
}

// The command `border`.
fn read_border(script: &Script, arguments: &[&[u8]]) -> Result<Option<Command>, TextFault>
    ensures { IsRead script.now (keyword_word keyword.Border ∷ map (λ w. w.now) arguments.now) result }
{
    if arguments.len() != 1 {
        return Err(TextFault::BadCount);
    }
    match read_state(arguments[0], script.in_force().size()) {
        Some(x) => Ok(Some(Command::Border(x))),
        None => Err(TextFault::BadState),
    }
}

// The command `cols` or `rows`.
fn read_commute(
    script: &Script,
    axis: Axis,
    arguments: &[&[u8]],
) -> Result<Option<Command>, TextFault>
    ensures { IsRead script.now (axis_word axis ∷ map (λ w. w.now) arguments.now) result }
{
    if arguments.len() != 2 {
        return Err(TextFault::BadCount);
    }
    let (word, choice) = (arguments[0], arguments[1]);
    let Some(corner) = read_corner(choice) else {
        return Err(TextFault::BadChoice);
    };
    let grid = script.in_force();
    let Some(c) = numeral(word, 0, u32::from(grid.size()) - 1) else {
        return Err(TextFault::BadNumber);
    };
    if !commutes(grid, axis, c as u8) {
        return Err(TextFault::NotCommuting);
    }
    Ok(Some(Command::Commute(axis, c as u8, corner)))
}

// The command `stab`.
fn read_stab(script: &Script, arguments: &[&[u8]]) -> Result<Option<Command>, TextFault>
    ensures { IsRead script.now (keyword_word keyword.Stab ∷ map (λ w. w.now) arguments.now) result }
{
    if arguments.len() != 2 {
        return Err(TextFault::BadCount);
    }
    let (word, choice) = (arguments[0], arguments[1]);
    let Some(empty) = read_square(choice) else {
        return Err(TextFault::BadChoice);
    };
    let n = script.in_force().size();
    let Some(c) = numeral(word, 0, u32::from(n) - 1) else {
        return Err(TextFault::BadNumber);
    };
    if n == MAX_SIZE {
        return Err(TextFault::SizeLimit);
    }
    Ok(Some(Command::Stab(c as u8, empty)))
}

// The command `destab`.
fn read_destab(script: &Script, arguments: &[&[u8]]) -> Result<Option<Command>, TextFault>
    ensures { IsRead script.now (keyword_word keyword.Destab ∷ map (λ w. w.now) arguments.now) result }
{
    if arguments.len() != 3 {
        return Err(TextFault::BadCount);
    }
    let (column, row, choice) = (arguments[0], arguments[1], arguments[2]);
    let Some(empty) = read_square(choice) else {
        return Err(TextFault::BadChoice);
    };
    let grid = script.in_force();
    let last = u32::from(grid.size()) - 2;
    let Some(c) = numeral(column, 0, last) else {
        return Err(TextFault::BadNumber);
    };
    let Some(r) = numeral(row, 0, last) else {
        return Err(TextFault::BadNumber);
    };
    if !is_block(grid, c as u8, r as u8, empty) {
        return Err(TextFault::NotBlock);
    }
    Ok(Some(Command::Destab(c as u8, r as u8, empty)))
}

// The command `invert`.
fn read_invert(script: &Script, arguments: &[&[u8]]) -> Result<Option<Command>, TextFault>
    ensures { IsRead script.now (keyword_word keyword.Invert ∷ map (λ w. w.now) arguments.now) result }
{
    if arguments.len() != 3 {
        return Err(TextFault::BadCount);
    }
    let (first, word, choice) = (arguments[0], arguments[1], arguments[2]);
    let Some(axis) = read_axis(first) else {
        return Err(TextFault::BadChoice);
    };
    let Some(corner) = read_corner(choice) else {
        return Err(TextFault::BadChoice);
    };
    let grid = script.in_force();
    let Some(c) = numeral(word, 0, u32::from(grid.size()) - 1) else {
        return Err(TextFault::BadNumber);
    };
    if !commutes(grid, axis, c as u8) {
        return Err(TextFault::NotCommuting);
    }
    Ok(Some(Command::Invert(axis, c as u8, corner)))
}

// The command `chain`.
fn read_chain(
    alloc: Global,
    script: &Script,
    arguments: &[&[u8]],
) -> Result<Result<Option<Command>, TextFault>, NoMemory>
    ensures { IfOk result
        (IsRead script.now (keyword_word keyword.Chain ∷ map (λ w. w.now) arguments.now)) }
{
    let Some(mut states) = read_states(alloc, arguments, script.in_force().size())? else {
        return Ok(Err(TextFault::BadState));
    };
    states.sort_by_key(|x| x.rank())?;
    match StateList::of(states) {
        Some(list) => Ok(Ok(Some(Command::Chain(list)))),
        None => Ok(Err(TextFault::RepeatedState)),
    }
}

// The states of size n whose words these are.
fn read_states(alloc: Global, words: &[&[u8]], n: u8) -> Result<Option<Vec<State>>, NoMemory>
    requires { IsSize n }
    ensures some { IfOk result (λ found. IfSome found (λ xs. All (IsBijection n) xs.items
        × (map (λ w. w.now) words.now ≡ map state_word xs.items))) }
    ensures none { IfOk result (λ found. IfNone found
        (list_any (is_bad (state_of_size n)) (map (λ w. w.now) words.now) ≡ true)) }
{
    let mut states = Vec::new(alloc);
    for word in words {
        let Some(x) = read_state(word, n) else {
            return Ok(None);
        };
        states.push(x)?;
    }
    Ok(Some(states))
}

// The state of size `n` whose word it is.
fn read_state(word: &[u8], n: u8) -> Option<State>
    requires { IsSize n }
    ensures { result ≡ state_of n word.now }
{
    let Some(x) = State::of_word(word) else {
        return None;
    };
    if x.size() != n {
        return None;
    }
    Some(x)
}
