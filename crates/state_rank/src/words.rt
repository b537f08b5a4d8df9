//! The words of states.
ghost use Rattle.std.specs.Prelude.{◌≡◌, ◌≢◌, ℕ, ◌≤◌, ◌++◌, List, Some, length, take, IfSome, IfNone, OnOk, OnErr};
ghost use Rattle.state_rank.specs.States.{IsState, state_word};

use crate::{ROOM, State};
use std::alloc::AllocError;
use std::fmt::{self, Debug, Formatter, Write};

impl State {
    /// The state whose word it is: its rows as digits, from circle 0 on, with nothing between them.
    pub fn of_word(word: &[u8]) -> Option<State>
        ensures word { IfSome result (λ x. word.now ≡ state_word x) }
        ensures state { IfSome result (λ x. IsState x) }
        ensures none { IfNone result ((x : List ℕ) → IsState x → word.now ≢ state_word x) }

        // What `push_word` appends for a state is read as this state.
        ensures read_back { (x : List ℕ) → IsState x → word.now ≡ state_word x → result ≡ Some x }

        // No two states have one word.
        ensures one_state { (x y : List ℕ) → state_word x ≡ state_word y → x ≡ y }
    {
        if word.len() > ROOM {
            return None;
        }
        let Some(rows) = read_digits(word) else {
            return None;
        };
        State::of(&rows[..word.len()])
    }

    /// Appends the word of this state: its rows as digits, from circle 0 on, with nothing between them.
    ///
    /// # Errors
    ///
    /// `AllocError` if the allocator refuses.
    pub fn push_word(&self, text: &mut Vec<u8>) -> Result<(), AllocError>
        ensures ok { OnOk result (text.new.items ≡ text.old.items ++ state_word self.now) }
        ensures err { OnErr result (text.new.items ≡ text.old.items) }
    {
        let digits = self.digits();
        text.extend_from_slice(&digits[..self.rows().len()])
    }

    // The digits of the rows, in front of an array.
    fn digits(&self) -> [u8; ROOM]
        ensures { take (length self.now) result ≡ state_word self.now }
    {
        let mut digits = [0; ROOM];
        for (c, row) in self.rows().iter().enumerate() {
            digits[c] = b'0' + *row;
        }
        digits
    }
}

/// The word of the state.
impl Debug for State {
    ghost use Rattle.std.specs.Prelude.{Some};
    ghost use Rattle.state_rank.specs.States.{state_word};

    ghost debug_output = { λ x. Some (state_word x) };

    fn fmt<W: Write>(&self, f: &mut Formatter<W>) -> fmt::Result {
        let digits = self.digits();
        match str::from_utf8(&digits[..self.rows().len()]) {
            Ok(word) => f.write_str(word),
            Err(_) => unreachable!(),
        }
    }
}

// The numbers whose digits these are, in front of an array.
fn read_digits(word: &[u8]) -> Option<[u8; ROOM]>
    requires { length word.now ≤ ROOM }
    ensures some { IfSome result
        (λ rows. (length rows ≡ ROOM) × (word.now ≡ state_word (take (length word.now) rows))) }
    ensures none { IfNone result ((x : List ℕ) → word.now ≢ state_word x) }
{
    let mut rows = [0; ROOM];
    for (c, byte) in word.iter().enumerate() {
        let Some(row) = byte.checked_sub(b'0') else {
            return None;
        };
        rows[c] = row;
    }
    Some(rows)
}
