//! The words of `make`.
ghost use Rattle.std.specs.Prelude.{◌≡◌, ◌≢◌, ◌↔◌, ℕ, None, map, string_bytes, codes, IfOk, IfSome, IfNone, IsTrue, OnErr};
ghost use Rattle.std.specs.List.{list_any};
ghost use Rattle.std.specs.Str.{bytes_eq};
ghost use Rattle.clap.specs.Words.{FailsBy, fault_of, found_of, kind_of, matches_of, rows_of};
ghost use Rattle.clap.specs.declared.error.kind.ErrorKind.TheVariants.{OutOfMemory};
ghost use Rattle.grid_job.specs.Words.{word_at, least_value as least_value_of, greatest_value as greatest_value_of, IsMake};
ghost use Rattle.grid_job.specs.Inner.Parsing.{flag_id as flag_id_of, make_command, dashes, MayBeMake, HasValue};

use clap::error::ErrorKind;
use clap::{Arg, ArgAction, ArgMatches, Command, Error};
use grid_text::numeral;
use state_rank::MAX_SIZE;
use std::alloc::{AllocError, Global};

/// An option of `make`.
#[derive(Clone, Copy, PartialEq, Eq, Debug)]
pub enum Flag {
    /// `--size`, the number of columns.
    Size,
    /// `--seed`, the seed of the generator.
    Seed,
}

/// The size and the seed that the words ask `make` for. Its options are read by `clap`, which may run out of memory.
pub(crate) fn make_numbers(
    alloc: Global,
    words: &[String],
) -> Result<Option<(u32, u32)>, AllocError>
    ensures some { IfOk result (λ asked. IfSome asked (λ p.
        IsMake (map string_bytes words.now) p.0 p.1)) }
    ensures none { IfOk result (λ asked. IfNone asked ((size seed : ℕ)
        → ¬ IsMake (map string_bytes words.now) size seed)) }
    ensures memory { OnErr result (word_at (map string_bytes words.now) 0 ≡ codes "make") }
{
    if !may_be_make(words) {
        return Ok(None);
    }
    match parse(alloc, words) {
        Ok(matches) => Ok(numbers_of(&matches)),
        Err(error) => no_numbers(&error),
    }
}

// What a parse that fails comes to: memory ran out, or the words ask for nothing.
fn no_numbers(error: &Error) -> Result<Option<(u32, u32)>, AllocError>
    ensures { IfOk result (λ asked. (asked ≡ None) × (kind_of error.now ≢ OutOfMemory)) }
{
    match error.kind() {
        ErrorKind::OutOfMemory => Err(AllocError),
        _ => Ok(None),
    }
}

// Whether the words begin with `make`, two, three or four follow, and none is `--`, behind which `clap` reads no
// option.
fn may_be_make(words: &[String]) -> bool
    ensures { IsTrue result ↔ MayBeMake (map string_bytes words.now) }
{
    if words.len() < 3 || words.len() > 5 {
        return false;
    }
    if !is_make(words[0].as_str()) {
        return false;
    }
    !have_dashes(words)
}

fn is_make(word: &str) -> bool
    ensures { result ≡ bytes_eq word.now (codes "make") }
{
    word == "make"
}

// Whether one of the words is `--`.
fn have_dashes(words: &[String]) -> bool
    ensures { result ≡ list_any (λ w. bytes_eq (string_bytes w) dashes) words.now }
{
    words.iter().any(|word| is_dashes(word.as_str()))
}

fn is_dashes(word: &str) -> bool
    ensures { result ≡ bytes_eq word.now dashes }
{
    word == "--"
}

// What `clap` reads of the words.
fn parse<'a>(alloc: Global, words: &'a [String]) -> Result<ArgMatches<'a>, Error>
    ensures matches { IfOk result (λ m.
        rows_of (found_of m) ≡ matches_of make_command (map string_bytes words.now)) }
    ensures faults { FailsBy (fault_of make_command (map string_bytes words.now)) result }
{
    let size = Arg::new(alloc, "size").long("size").action(ArgAction::Set);
    let seed = Arg::new(alloc, "seed").long("seed").action(ArgAction::Set);
    let command = Command::new(alloc, "make")
        .disable_help_flag(true)
        .arg(size)?
        .arg(seed)?;
    command.try_get_matches_from(words)
}

// The values of both options.
fn numbers_of(matches: &ArgMatches) -> Option<(u32, u32)>
    ensures some { IfSome result (λ p. HasValue matches.now Flag.Size p.0 × HasValue matches.now Flag.Seed p.1) }
    ensures none { IfNone result ((size seed : ℕ)
        → HasValue matches.now Flag.Size size → HasValue matches.now Flag.Seed seed → ⊥) }
{
    let Some(size) = value_of(matches, Flag::Size) else {
        return None;
    };
    let Some(seed) = value_of(matches, Flag::Seed) else {
        return None;
    };
    Some((size, seed))
}

// The value of an option.
fn value_of(matches: &ArgMatches, flag: Flag) -> Option<u32>
    ensures some { IfSome result (HasValue matches.now flag) }
    ensures none { IfNone result ((v : ℕ) → ¬ HasValue matches.now flag v) }
{
    let Some(text) = matches.get_str(flag_id(flag)) else {
        return None;
    };
    numeral(text.as_bytes(), least_value(flag), greatest_value(flag))
}

fn flag_id(flag: Flag) -> &'static str
    ensures { result.now ≡ flag_id_of flag }
{
    match flag {
        Flag::Size => "size",
        Flag::Seed => "seed",
    }
}

fn least_value(flag: Flag) -> u32
    ensures { result ≡ least_value_of flag }
{
    match flag {
        Flag::Size => 2,
        Flag::Seed => 0,
    }
}

fn greatest_value(flag: Flag) -> u32
    ensures { result ≡ greatest_value_of flag }
{
    match flag {
        Flag::Size => u32::from(MAX_SIZE),
        Flag::Seed => 2_147_483_647,
    }
}
