//! The first words of the lines of a body.
ghost use Rattle.std.specs.Prelude.{◌≡◌, true};
ghost use Rattle.std.specs.List.{find};
ghost use Rattle.grid_text.specs.Words.{is_word as is_word_of};
ghost use Rattle.grid_text.specs.Commands.{command_row};
ghost use Rattle.grid_text.specs.Inner.Reading.{keyword_word, example, stands_alone};

use crate::commands::Command;
use crate::words::is_word;
use grid_moves::Axis;
use grid_symmetry::Symmetry;

/// The first words of the lines of a body.
#[derive(Clone, Copy, PartialEq, Eq, Debug)]
pub(crate) enum Keyword {
    Front,
    Ranks,
    Hat,
    Class,
    Border,
    Chain,
    Show,
    Bounds,
    Turn,
    Cols,
    Rows,
    Stab,
    Destab,
    Invert,
    Flip,
    Half,
    Mirror,
    Marks,
    Coranks,
    Euler,
    End,
}

/// All keywords.
const KEYWORDS: [Keyword; 21] = [
    Keyword::Front,
    Keyword::Ranks,
    Keyword::Hat,
    Keyword::Class,
    Keyword::Border,
    Keyword::Chain,
    Keyword::Show,
    Keyword::Bounds,
    Keyword::Turn,
    Keyword::Cols,
    Keyword::Rows,
    Keyword::Stab,
    Keyword::Destab,
    Keyword::Invert,
    Keyword::Flip,
    Keyword::Half,
    Keyword::Mirror,
    Keyword::Marks,
    Keyword::Coranks,
    Keyword::Euler,
    Keyword::End,
];

/// The keyword that the word is.
pub(crate) fn read_keyword(word: &[u8]) -> Option<Keyword>
    ensures { result ≡ find (λ k. is_word_of (keyword_word k) word.now) KEYWORDS }
{
    KEYWORDS
        .iter()
        .copied()
        .find(|keyword| is_word(keyword_text(*keyword), word))
}

/// The word of a keyword.
pub(crate) fn keyword_text(keyword: Keyword) -> &'static [u8]
    ensures { result.now ≡ keyword_word keyword }
{
    match keyword {
        Keyword::Front => b"front",
        Keyword::Ranks => b"ranks",
        Keyword::Hat => b"hat",
        Keyword::Class => b"class",
        Keyword::Border => b"border",
        Keyword::Chain => b"chain",
        Keyword::Show => b"show",
        Keyword::Bounds => b"bounds",
        Keyword::Turn => b"turn",
        Keyword::Cols => b"cols",
        Keyword::Rows => b"rows",
        Keyword::Stab => b"stab",
        Keyword::Destab => b"destab",
        Keyword::Invert => b"invert",
        Keyword::Flip => b"flip",
        Keyword::Half => b"half",
        Keyword::Mirror => b"mirror",
        Keyword::Marks => b"marks",
        Keyword::Coranks => b"coranks",
        Keyword::Euler => b"euler",
        Keyword::End => b"end",
    }
}

/// The keyword with which the line of a command begins.
pub(crate) fn keyword_of(command: &Command) -> Keyword
    ensures { keyword_word result ≡ (command_row command.now).0 }
{
    match command {
        Command::Front => Keyword::Front,
        Command::Ranks => Keyword::Ranks,
        Command::Hat => Keyword::Hat,
        Command::Class(_) => Keyword::Class,
        Command::Border(_) => Keyword::Border,
        Command::Chain(_) => Keyword::Chain,
        Command::Show => Keyword::Show,
        Command::Bounds => Keyword::Bounds,
        Command::Turn(_) => Keyword::Turn,
        Command::Commute(Axis::Cols, _, _) => Keyword::Cols,
        Command::Commute(Axis::Rows, _, _) => Keyword::Rows,
        Command::Stab(_, _) => Keyword::Stab,
        Command::Destab(_, _, _) => Keyword::Destab,
        Command::Invert(_, _, _) => Keyword::Invert,
        Command::Symm(Symmetry::Flip) => Keyword::Flip,
        Command::Symm(Symmetry::Half) => Keyword::Half,
        Command::Symm(Symmetry::Mirror) => Keyword::Mirror,
        Command::Symm(Symmetry::Marks) => Keyword::Marks,
        Command::Coranks => Keyword::Coranks,
        Command::Euler => Keyword::Euler,
    }
}

/// The command of a keyword that stands alone; none for `end`.
pub(crate) fn command_alone(keyword: Keyword) -> Option<Command>
    ensures { stands_alone keyword ≡ true → result ≡ example keyword }
{
    match keyword {
        Keyword::Front => Some(Command::Front),
        Keyword::Ranks => Some(Command::Ranks),
        Keyword::Hat => Some(Command::Hat),
        Keyword::Show => Some(Command::Show),
        Keyword::Bounds => Some(Command::Bounds),
        Keyword::Flip => Some(Command::Symm(Symmetry::Flip)),
        Keyword::Half => Some(Command::Symm(Symmetry::Half)),
        Keyword::Mirror => Some(Command::Symm(Symmetry::Mirror)),
        Keyword::Marks => Some(Command::Symm(Symmetry::Marks)),
        Keyword::Coranks => Some(Command::Coranks),
        Keyword::Euler => Some(Command::Euler),
        _ => None,
    }
}
