//! The plain form of scripts.
ghost use Rattle.std.specs.Prelude.{◌≡◌, [], ◌∷◌, ◌++◌, map, IfOk, OnOk};
ghost use Rattle.std.specs.List.{flat_map};
ghost use Rattle.std.specs.Fmt.{decimal};
ghost use Rattle.state_rank.specs.States.{state_word};
ghost use Rattle.torus_geom.specs.Marks.{Marks};
ghost use Rattle.grid_text.specs.Commands.{axis_word, corner_word, square_word, argument_word, command_row};
ghost use Rattle.grid_text.specs.PlainForm.{after_space, line_of, command_line, head_lines, plain_form};
ghost use Rattle.grid_text.specs.Script.{GridScript, IsScript};
ghost use Rattle.grid_text.specs.Document.{grid_word, IsDocument};

use crate::choices::{axis_text, corner_text, side_text, sign_text, square_text, version_text};
use crate::commands::Command;
use crate::keywords::{keyword_of, keyword_text};
use crate::scripts::Script;
use grid_moves::Axis;
use grid_ports::NoMemory;
use pentagon_map::Corner;
use stabilise::Square;
use state_rank::State;
use std::alloc::Global;
use text_lines::push_number;
use torus_geom::Grid;

/// The plain form of a script: one space between words, the states of a chain ascending, and each line
/// ended by one line feed.
///
/// # Errors
///
/// `NoMemory` if the allocator refuses.
pub fn print(alloc: Global, s: &Script) -> Result<Vec<u8>, NoMemory>
    ensures text { IfOk result (λ text. text.items ≡ plain_form s.now) }

    // The plain form of each script is a document of it, so that `judge` reads it back.
    ensures read_back { (other : GridScript) → IsScript other
        → IsDocument (plain_form other) other }
{
    print_lines(alloc, s)
}

// The same, without the law.
fn print_lines(alloc: Global, s: &Script) -> Result<Vec<u8>, NoMemory>
    ensures { IfOk result (λ text. text.items ≡ plain_form s.now) }
{
    let mut text = Vec::new(alloc);
    push_head(&mut text, s.version(), s.grid())?;
    for command in s.commands() {
        push_command(&mut text, command)?;
    }
    push(&mut text, b"end\n")?;
    Ok(text)
}

// Appends the lines of the head.
fn push_head(text: &mut Vec<u8>, version: u8, g: &Grid) -> Result<(), NoMemory>
    ensures { OnOk result (text.new.items ≡ text.old.items ++ head_lines version g.now) }
{
    push_size(text, version, g.size())?;
    push(text, b"O")?;
    push_numbers(text, g.o_rows())?;
    push(text, b"\nX")?;
    push_numbers(text, g.x_rows())?;
    push(text, b"\n")
}

// Appends the first line of the head.
fn push_size(text: &mut Vec<u8>, version: u8, n: u8) -> Result<(), NoMemory>
    ensures { OnOk result
        (text.new.items ≡ text.old.items ++ line_of (grid_word version ∷ decimal n ∷ [])) }
{
    push(text, version_text(version))?;
    push(text, b" ")?;
    push_number(text, n)?;
    push(text, b"\n")
}

// Appends the line of a command.
fn push_command(text: &mut Vec<u8>, command: &Command) -> Result<(), NoMemory>
    ensures { OnOk result (text.new.items ≡ text.old.items ++ command_line command.now) }
{
    push(text, keyword_text(keyword_of(command)))?;
    push_arguments(text, command)?;
    push(text, b"\n")
}

// Appends the words of a command after the first, each after a space.
fn push_arguments(text: &mut Vec<u8>, command: &Command) -> Result<(), NoMemory>
    ensures { OnOk result (text.new.items
        ≡ text.old.items ++ after_space (map argument_word (command_row command.now).1)) }
{
    match command {
        Command::Class(sign) => push_word(text, sign_text(*sign)),
        Command::Border(x) => push_state(text, x),
        Command::Chain(z) => push_states(text, z.states()),
        Command::Turn(side) => push_word(text, side_text(*side)),
        Command::Commute(_, c, corner) => push_commute(text, *c, *corner),
        Command::Stab(c, empty) => push_stab(text, *c, *empty),
        Command::Destab(c, r, empty) => push_destab(text, *c, *r, *empty),
        Command::Invert(axis, c, corner) => push_invert(text, *axis, *c, *corner),
        _ => Ok(()),
    }
}

// Appends a space and a word.
fn push_word(text: &mut Vec<u8>, word: &[u8]) -> Result<(), NoMemory>
    ensures { OnOk result (text.new.items ≡ text.old.items ++ 32 ∷ word.now) }
{
    text.push(b' ')?;
    push(text, word)
}

// Appends a number and the word for a corner, each after a space.
fn push_commute(text: &mut Vec<u8>, c: u8, corner: Corner) -> Result<(), NoMemory>
    ensures { OnOk result
        (text.new.items ≡ text.old.items ++ 32 ∷ decimal c ++ 32 ∷ corner_word corner) }
{
    push(text, b" ")?;
    push_number(text, c)?;
    push_word(text, corner_text(corner))
}

// Appends a number and the word for a square, each after a space.
fn push_stab(text: &mut Vec<u8>, c: u8, empty: Square) -> Result<(), NoMemory>
    ensures { OnOk result
        (text.new.items ≡ text.old.items ++ 32 ∷ decimal c ++ 32 ∷ square_word empty) }
{
    push(text, b" ")?;
    push_number(text, c)?;
    push_word(text, square_text(empty))
}

// Appends two numbers and the word for a square, each after a space.
fn push_destab(text: &mut Vec<u8>, c: u8, r: u8, empty: Square) -> Result<(), NoMemory>
    ensures { OnOk result
        (text.new.items ≡ text.old.items ++ 32 ∷ decimal c ++ 32 ∷ decimal r ++ 32 ∷ square_word empty) }
{
    push(text, b" ")?;
    push_number(text, c)?;
    push_stab(text, r, empty)
}

// Appends the word for an axis, a number and the word for a corner, each after a space.
fn push_invert(text: &mut Vec<u8>, axis: Axis, c: u8, corner: Corner) -> Result<(), NoMemory>
    ensures { OnOk result (text.new.items
        ≡ text.old.items ++ 32 ∷ axis_word axis ++ 32 ∷ decimal c ++ 32 ∷ corner_word corner) }
{
    push_word(text, axis_text(axis))?;
    push_commute(text, c, corner)
}

// Appends the words of states, each after a space.
fn push_states(text: &mut Vec<u8>, states: &[State]) -> Result<(), NoMemory>
    ensures { OnOk result
        (text.new.items ≡ text.old.items ++ after_space (map state_word states.now)) }
{
    for x in states {
        push_state(text, x)?;
    }
    Ok(())
}

// Appends a space and the word of a state.
fn push_state(text: &mut Vec<u8>, x: &State) -> Result<(), NoMemory>
    ensures { OnOk result (text.new.items ≡ text.old.items ++ 32 ∷ state_word x.now) }
{
    text.push(b' ')?;
    x.push_word(text)?;
    Ok(())
}

// Appends numbers, each after a space.
fn push_numbers(text: &mut Vec<u8>, numbers: &[u8]) -> Result<(), NoMemory>
    ensures { OnOk result
        (text.new.items ≡ text.old.items ++ after_space (map decimal numbers.now)) }
{
    for n in numbers {
        push(text, b" ")?;
        push_number(text, *n)?;
    }
    Ok(())
}

// Appends bytes.
fn push(text: &mut Vec<u8>, bytes: &[u8]) -> Result<(), NoMemory>
    ensures { OnOk result (text.new.items ≡ text.old.items ++ bytes.now) }
{
    text.extend_from_slice(bytes)?;
    Ok(())
}
