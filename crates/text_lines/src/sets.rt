//! Sets of states.
ghost use Rattle.std.specs.Prelude.{◌≡◌, ◌++◌, OnOk};
ghost use Rattle.state_rank.specs.Bijection.{IsSize};
ghost use Rattle.torus_geom.specs.Codes.{HasIndices, states_of};
ghost use Rattle.text_lines.specs.Lines.{line, chain_line};

use f2_chain::Chain;
use grid_ports::NoMemory;
use state_rank::State;

/// Appends the line of a set of states: `word`, which may be any, then the states of size `n` whose indices
/// are in `z`, in ascending order.
///
/// # Errors
///
/// `NoMemory` if the allocator refuses.
pub fn push_set_line(text: &mut Vec<u8>, word: &[u8], n: u8, z: &Chain) -> Result<(), NoMemory>
    requires size { IsSize n }
    requires indices { HasIndices n z.now }
    ensures { OnOk result (text.new.items
        ≡ text.old.items ++ line (chain_line word.now n (states_of n z.now))) }
{
    text.extend_from_slice(word)?;
    for code in z.codes() {
        text.push(b' ')?;
        State::unrank(n, *code).push_word(text)?;
    }
    text.push(b'\n')?;
    Ok(())
}
