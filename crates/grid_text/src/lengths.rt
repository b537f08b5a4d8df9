//! The numbers of bytes of plain forms.
ghost use Rattle.std.specs.Prelude.{◌≡◌, ◌≤◌, ◌<◌, ◌^◌, ◌*◌, length, map, All};
ghost use Rattle.state_rank.specs.States.{state_word};
ghost use Rattle.grid_text.specs.Commands.{argument_word, command_row};
ghost use Rattle.grid_text.specs.PlainForm.{after_space, command_line, head_lines, plain_form};
ghost use Rattle.std.specs.Fmt.{decimal};

use crate::choices::{axis_text, corner_text, side_text, sign_text, square_text, version_text};
use crate::commands::Command;
use crate::keywords::{keyword_of, keyword_text};
use crate::scripts::Script;
use itoa::Buffer;
use state_rank::State;
use torus_geom::Grid;

/// The number of bytes of the plain form of a script. It asks for no memory.
pub fn print_len(s: &Script) -> u128
    ensures { result ≡ length (plain_form s.now) }
{
    let mut count = head_len(s.version(), s.grid());
    for command in s.commands() {
        count += command_len(command);
    }
    count + 4
}

// The number of bytes of the lines of the head.
fn head_len(version: u8, g: &Grid) -> u128
    ensures exact { result ≡ length (head_lines version g.now) }
    ensures few { result ≤ 1000 }
{
    let first = version_text(version).len() as u128 + 1 + number_len(g.size());
    first + 5 + numbers_len(g.o_rows()) + numbers_len(g.x_rows())
}

// The number of bytes of the line of a command.
fn command_len(command: &Command) -> u128
    ensures exact { result ≡ length (command_line command.now) }
    ensures few { result ≤ 2 ^ 70 }
{
    keyword_text(keyword_of(command)).len() as u128 + arguments_len(command) + 1
}

// The number of bytes of the words of a command after the first, each after a space.
fn arguments_len(command: &Command) -> u128
    ensures exact { result ≡ length (after_space (map argument_word (command_row command.now).1)) }
    ensures few { result ≤ 2 ^ 69 }
{
    match command {
        Command::Class(sign) => 1 + sign_text(*sign).len() as u128,
        Command::Border(x) => 1 + u128::from(x.size()),
        Command::Chain(z) => states_len(z.states()),
        Command::Turn(side) => 1 + side_text(*side).len() as u128,
        Command::Commute(_, c, corner) => 2 + number_len(*c) + corner_text(*corner).len() as u128,
        Command::Stab(c, empty) => 2 + number_len(*c) + square_text(*empty).len() as u128,
        Command::Destab(c, r, empty) => {
            3 + number_len(*c) + number_len(*r) + square_text(*empty).len() as u128
        }
        Command::Invert(axis, c, corner) => {
            3 + axis_text(*axis).len() as u128 + number_len(*c) + corner_text(*corner).len() as u128
        }
        _ => 0,
    }
}

// The number of bytes of the words of states, each after a space.
fn states_len(states: &[State]) -> u128
    ensures exact { result ≡ length (after_space (map state_word states.now)) }
    ensures few { result ≤ 11 * length states.now }
{
    let mut count = 0;
    for x in states {
        count += 1 + u128::from(x.size());
    }
    count
}

// The number of bytes of numbers, each after a space.
fn numbers_len(numbers: &[u8]) -> u128
    ensures exact { result ≡ length (after_space (map decimal numbers.now)) }
    ensures few { result ≤ 41 * length numbers.now }
{
    let mut count = 0;
    for n in numbers {
        count += 1 + number_len(*n);
    }
    count
}

// The number of digits of a number.
fn number_len(n: u8) -> u128
    ensures exact { result ≡ length (decimal n) }
    ensures few { result ≤ 40 }
{
    let mut buffer = Buffer::new();
    buffer.format(n).len() as u128
}
