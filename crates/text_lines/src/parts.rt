//! The parts of a list of bytes.
ghost use Rattle.std.specs.Prelude.{◌≡◌, IfSome, IfNone};
ghost use Rattle.std.specs.List.{position};
ghost use Rattle.text_lines.specs.Parts.{is_among, HasNone, IsFirstPart};

/// The bytes before the first that is one of `ends`, and those after it, if there is one.
pub fn first_part<'a>(bytes: &'a [u8], ends: &[u8]) -> Option<(&'a [u8], &'a [u8])>
    ensures some { IfSome result (λ p. IsFirstPart ends.now bytes.now p.0.now p.1.now) }
    ensures none { IfNone result (HasNone ends.now bytes.now) }
{
    let Some(at) = place_of(bytes, ends) else {
        return None;
    };
    Some((&bytes[..at], &bytes[at + 1..]))
}

// How many bytes stand before the first that is one of `ends`.
fn place_of(bytes: &[u8], ends: &[u8]) -> Option<usize>
    ensures { result ≡ position (is_among ends.now) bytes.now }
{
    bytes.iter().position(|byte| ends.contains(byte))
}
