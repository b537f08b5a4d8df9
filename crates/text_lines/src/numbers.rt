//! Numbers.
ghost use Rattle.std.specs.Prelude.{◌≡◌, ◌++◌, OnOk};

use grid_ports::NoMemory;
use itoa::{Buffer, Integer};

/// Appends a number in decimal form, with `-` before a negative one.
///
/// # Errors
///
/// `NoMemory` if the allocator refuses.
pub fn push_number<I: Integer>(text: &mut Vec<u8>, number: I) -> Result<(), NoMemory>
    ensures { OnOk result (text.new.items ≡ text.old.items ++ I.text number) }
{
    let mut buffer = Buffer::new();
    text.extend_from_slice(buffer.format(number).as_bytes())?;
    Ok(())
}
