//! The faults of a text that is no document.
ghost use Rattle.std.specs.Prelude.{◌≡◌};
ghost use Rattle.grid_text.specs.FaultWords.{fault_word as word_of};

/// What is wrong with a line of a text that is no document.
#[derive(Clone, Copy, PartialEq, Eq, Debug)]
pub enum TextFault {
    /// The first word is not one that may stand there.
    BadWord,
    /// The number of words, or of symbols in a row of a picture, is not that of the form.
    BadCount,
    /// A sign, side, corner or square, or a symbol of a picture, is not one of the words for it.
    BadChoice,
    /// A word that is to be a number is no numeral in its bounds.
    BadNumber,
    /// The numbers of an O or X line are not all different, or a row of a picture has not exactly one O and one X, or
    /// has one in a column where a row above it has one.
    NotPermutation,
    /// Some column has its O and its X in one square.
    SameSquare,
    /// A word that is to be a state is no state of the grid's size.
    BadState,
    /// Two states of a line are the same.
    RepeatedState,
    /// The two columns, or rows, do not commute in the grid that stands there.
    NotCommuting,
    /// The two columns and two rows have no block of a stabilisation with this square empty.
    NotBlock,
    /// The grid that stands there has the greatest size.
    SizeLimit,
    /// There are more than `MAX_COMMANDS` command lines.
    TooMany,
    /// The text stops before `end`.
    NoEnd,
    /// A line that is not blank stands after `end`.
    AfterEnd,
}

/// The word for a fault in a refusal: its name.
pub fn fault_word(f: TextFault) -> &'static str
    ensures { result.now ≡ word_of f }
{
    match f {
        TextFault::BadWord => "BadWord",
        TextFault::BadCount => "BadCount",
        TextFault::BadChoice => "BadChoice",
        TextFault::BadNumber => "BadNumber",
        TextFault::NotPermutation => "NotPermutation",
        TextFault::SameSquare => "SameSquare",
        TextFault::BadState => "BadState",
        TextFault::RepeatedState => "RepeatedState",
        TextFault::NotCommuting => "NotCommuting",
        TextFault::NotBlock => "NotBlock",
        TextFault::SizeLimit => "SizeLimit",
        TextFault::TooMany => "TooMany",
        TextFault::NoEnd => "NoEnd",
        TextFault::AfterEnd => "AfterEnd",
    }
}
