//! What a line of a certificate says after its first word: marks, a bidegree, or a set of states.
ghost use Rattle.std.specs.Prelude.{◌≡◌, ◌≢◌, ◌≤◌, ◌^◌, ℕ, ℤ, List, ◌∷◌, [], ◌++◌, ◌*◌, ◌<◌, length, take, ◌↔◌, IsTrue, Some, IfOk, IfSome, IfNone, MatchOption};
ghost use Rattle.f2_algebra.specs.Chain.{Chain as Codes};
ghost use Rattle.std.specs.Fmt.{signed_decimal};
ghost use Rattle.state_rank.specs.Bijection.{IsSize, IsBijection};
ghost use Rattle.state_rank.specs.States.{factorial, unrank, state_word};
ghost use Rattle.gradings.specs.Degrees.{IsSmallDegree};
ghost use Rattle.torus_geom.specs.Marks.{size};
ghost use Rattle.homology_cert.specs.Certificates.{AreSmallDegrees};
ghost use Rattle.homology_cert.specs.Inner.CodeCertificates.{AreStates};
ghost use Rattle.homology_cert.specs.CertificateText.{marks_line, degree_line};
ghost use Rattle.text_lines.specs.Inner.CodeLines.{set_line};
ghost use Rattle.homology_cert.specs.Inner.Reading.{IsSmallSize, spaced, IsFree};

use f2_chain::{Builder, Chain};
use gradings::Bidegree;
use grid_ports::NoMemory;
use itoa::Buffer;
use state_rank::{ROOM, State};
use std::alloc::Global;
use text_lines::first_part;
use torus_geom::Grid;

/// The state whose rows the line has after the letter, one for each of n columns.
pub(crate) fn marks_of(letter: u8, n: u8, line: &[u8]) -> Option<State>
    requires { IsSmallSize n }
    ensures some { IfSome result (λ o. IsBijection n o × (line.now ≡ marks_line (letter ∷ []) o)) }
    ensures none { IfNone result ((o : List ℕ) → IsBijection n o → line.now ≢ marks_line (letter ∷ []) o) }
{
    let columns = usize::from(n);
    if line.len() != 2 * columns + 1 || line[0] != letter {
        return None;
    }
    let Some(rows) = spaced_digits(&line[1..], columns) else {
        return None;
    };
    State::of(&rows[..columns])
}

// The numbers whose digits these are, each after a space, in front of an array.
fn spaced_digits(bytes: &[u8], count: usize) -> Option<[u8; ROOM]>
    requires long { length bytes.now ≡ 2 * count }
    requires room { count ≤ ROOM }
    ensures some { IfSome result (λ rows. (length rows ≡ ROOM) × (bytes.now ≡ spaced (take count rows))) }
    ensures none { IfNone result ((x : List ℕ) → bytes.now ≢ spaced x) }
{
    let mut rows = [0; ROOM];
    for c in 0..count {
        if bytes[2 * c] != b' ' || bytes[2 * c + 1] < b'0' {
            return None;
        }
        rows[c] = bytes[2 * c + 1] - b'0';
    }
    Some(rows)
}

/// The bidegree of a line.
pub(crate) fn degree_of(line: &[u8]) -> Option<Bidegree>
    ensures some { IfSome result (λ d. AreSmallDegrees (d.m, d.a) × (line.now ≡ degree_line (d.m, d.a))) }
    ensures none { IfNone result ((d : ℤ × ℤ) → AreSmallDegrees d → line.now ≢ degree_line d) }
{
    let Some(words) = after_prefix(line, b"cell ".as_slice()) else {
        return None;
    };
    let Some((first, second)) = first_word(words) else {
        return None;
    };
    let Some(m) = degree_word(first) else {
        return None;
    };
    let Some(a) = degree_word(second) else {
        return None;
    };
    Some(Bidegree { m, a })
}

// The bytes before the first space, and those after it, if there is one.
fn first_word(line: &[u8]) -> Option<(&[u8], &[u8])>
    ensures some { IfSome result (λ p. (line.now ≡ p.0.now ++ 32 ∷ p.1.now) × IsFree 32 p.0.now) }
    ensures none { IfNone result (IsFree 32 line.now) }
{
    first_part(line, b" ")
}

// The degree whose decimal form the word is.
fn degree_word(word: &[u8]) -> Option<i32>
    ensures some { IfSome result (λ z. IsSmallDegree z × (word.now ≡ signed_decimal z)) }
    ensures none { IfNone result ((z : ℤ) → IsSmallDegree z → word.now ≢ signed_decimal z) }
{
    let Some(z) = number_of(word) else {
        return None;
    };
    if -1000 <= z && z <= 1000 && is_printed(z, word) {
        Some(z)
    } else {
        None
    }
}

// The number that the word is read as.
fn number_of(word: &[u8]) -> Option<i32>
    ensures { (z : ℤ) → IsSmallDegree z → word.now ≡ signed_decimal z → result ≡ Some z }
{
    let Ok(text) = str::from_utf8(word) else {
        return None;
    };
    let Ok(z) = text.parse::<i32>() else {
        return None;
    };
    Some(z)
}

// Whether the word is the decimal form of the number.
fn is_printed(z: i32, word: &[u8]) -> bool
    ensures { IsTrue result ↔ (word.now ≡ signed_decimal z) }
{
    let mut buffer = Buffer::new();
    buffer.format(z).as_bytes() == word
}

/// The set of the states whose words the line has after its first word, which is this one.
pub(crate) fn set_of(
    alloc: Global,
    word: &[u8],
    g: &Grid,
    line: &[u8],
) -> Result<Option<Chain>, NoMemory>
    ensures some { IfOk result (λ set. IfSome set
        (λ z. AreStates g.now z × (line.now ≡ set_line word.now (size g.now) z))) }
    ensures none { IfOk result (λ set. IfNone set
        ((z : Codes) → AreStates g.now z → line.now ≢ set_line word.now (size g.now) z)) }
{
    let n = g.size();
    let Some(states) = after_prefix(line, word) else {
        return Ok(None);
    };
    let mut set = Builder::new(alloc);
    let mut rest = states;
    let mut least = 0;
    while !rest.is_empty() {
        let Some((code, after)) = first_code(n, rest) else {
            return Ok(None);
        };
        if code < least {
            return Ok(None);
        }
        set.toggle(code)?;
        rest = after;
        least = code + 1;
    }
    let set = set.finish()?;
    Ok(Some(set))
}

// The index of the state of size `n` whose word stands first, after a space, and what follows it.
fn first_code(n: u8, bytes: &[u8]) -> Option<(u32, &[u8])>
    requires { IsSize n }
    ensures some { IfSome result (λ p. (p.0 < factorial n) × (p.0 < 2 ^ 31)
        × (bytes.now ≡ (32 ∷ state_word (unrank n p.0)) ++ p.1.now)) }
    ensures none { IfNone result ((s : ℕ) (more : List ℕ) → s < factorial n
        → bytes.now ≢ (32 ∷ state_word (unrank n s)) ++ more) }
    ensures shorter { IfSome result (λ p. length p.1.now < length bytes.now) }
{
    let digits = usize::from(n);
    if bytes.len() <= digits || bytes[0] != b' ' {
        return None;
    }
    let Some(state) = State::of_word(&bytes[1..digits + 1]) else {
        return None;
    };
    Some((state.rank(), &bytes[digits + 1..]))
}

/// What follows these bytes in the line, if it begins with them.
pub(crate) fn after_prefix<'a>(line: &'a [u8], prefix: &[u8]) -> Option<&'a [u8]>
    ensures { MatchOption result ((rest : List ℕ) → line.now ≢ prefix.now ++ rest)
        (λ rest. line.now ≡ prefix.now ++ rest.now) }
{
    line.strip_prefix(prefix)
}
