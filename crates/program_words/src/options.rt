//! What the words ask for.

ghost use Rattle.std.specs.Prelude.{◌≡◌, ◌≢◌, map, option_map, None, Some, Err, string_bytes, IfOk};
ghost use Rattle.clap.specs.Words.{first_value, found_of, kind_of};
ghost use Rattle.program_words.specs.Asked as spec;

use crate::command::words_command;
use base_core::{Dialect, Name};
use clap::error::ErrorKind;
use clap::{ArgMatches, Error};
use keeper_core::Target;
use std::alloc::{AllocError, Global};

/// What the words ask for: the dialect of printed texts, whether the statements of a line are written, and where tables are kept.
#[derive(Drop)]
pub struct Options {
    pub dialect: Dialect,
    pub echo: bool,
    pub target: Target,
}

/// Why words were not read: they are none that the program takes, or memory ran out.
#[derive(Clone, Copy, PartialEq, Eq)]
pub enum WordsRefusal {
    Usage,
    Memory,
}

impl From<AllocError> for WordsRefusal {
    ghost use Rattle.std.specs.Prelude.{◌≡◌};
    ghost use Rattle.program_words.specs.declared.options.WordsRefusal.TheVariants.{Memory};

    ghost from_gives = { λ _ refusal. refusal ≡ Memory };

    fn from(_e: AllocError) -> WordsRefusal {
        WordsRefusal::Memory
    }
}

/// Why clap did not read them.
fn refusal_by(error: &Error) -> WordsRefusal
    ensures { result ≡ WordsRefusal.Usage → kind_of error.now ≢ ErrorKind.OutOfMemory }
{
    match error.kind() {
        ErrorKind::OutOfMemory => WordsRefusal::Memory,
        _ => WordsRefusal::Usage,
    }
}

/// What is found in the words.
fn found_in<'a>(alloc: Global, words: &'a [String]) -> Result<ArgMatches<'a>, WordsRefusal>
    ensures ok { IfOk result (λ matches. spec.values_asked (map string_bytes words.entry.now)
        ≡ Some (spec.values_by (first_value (found_of matches)))) }
    ensures usage { result ≡ Err WordsRefusal.Usage
        → spec.values_asked (map string_bytes words.entry.now) ≡ None }
{
    let command = words_command(alloc)?;
    match command.try_get_matches_from(words) {
        Ok(matches) => Ok(matches),
        Err(error) => Err(refusal_by(&error)),
    }
}

/// The dialect that is named, SQLite's where none is.
fn dialect_of(name: Option<&str>) -> Option<Dialect>
    ensures { result ≡ spec.dialect_asked (option_map (λ s. s.now) name.entry) }
{
    let Some(name) = name else {
        return Some(Dialect::Sqlite);
    };
    if name == "sqlite" {
        Some(Dialect::Sqlite)
    } else if name == "postgresql" {
        Some(Dialect::Postgresql)
    } else if name == "mysql" {
        Some(Dialect::Mysql)
    } else {
        None
    }
}

/// The file that is named, memory where none is.
fn target_of(alloc: Global, name: Option<&str>) -> Result<Target, AllocError>
    ensures { IfOk result (λ target. target ≡ spec.target_asked (option_map (λ s. s.now) name.entry)) }
{
    match name {
        Some(name) => Ok(Target::File(Name::new(String::from_str(alloc, name)?))),
        None => Ok(Target::Memory),
    }
}

/// Whether a flag has the value that it has where it was given.
fn is_on(value: Option<&str>) -> bool
    ensures { result ≡ spec.is_on (option_map (λ s. s.now) value.entry) }
{
    match value {
        Some(value) => value == "true",
        None => false,
    }
}

/// Reads the words after the program's name.
///
/// Each option may be given once, in any order; a value is a word of its own that does not begin with `-`, or stands behind `=`.
/// Other words are refused as `Usage`, and so is a dialect that is none of `sqlite`, `postgresql` and `mysql`.
pub fn read_words(alloc: Global, words: &[String]) -> Result<Options, WordsRefusal>
    ensures ok { IfOk result (λ options.
        spec.options_asked (map string_bytes words.now) ≡ Some options) }
    ensures usage { result ≡ Err WordsRefusal.Usage
        → spec.options_asked (map string_bytes words.now) ≡ None }
{
    let matches = found_in(alloc, words)?;
    let Some(dialect) = dialect_of(matches.get_str("dialect")) else {
        return Err(WordsRefusal::Usage);
    };
    let echo = is_on(matches.get_str("echo"));
    let target = target_of(alloc, matches.get_str("store"))?;
    Ok(Options {
        dialect,
        echo,
        target,
    })
}
