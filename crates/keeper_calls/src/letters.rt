//! Letters for answers.

use base_core::{Key, KeyList, RowList, Value};
use keeper_core::{KeeperStop, QueryRefusal, WriteRefusal};

/// The last digit of a number.
pub(crate) fn digit(n: u64) -> char {
    (b'0' + (n % 10) as u8) as char
}

pub(crate) fn stopped(stop: KeeperStop) -> char {
    match stop {
        KeeperStop::Fault => '!',
        KeeperStop::Memory => '-',
    }
}

/// A full stop for a call that was done, or a letter for what ended it.
pub fn done(answer: Result<(), KeeperStop>) -> char {
    match answer {
        Ok(()) => '.',
        Err(stop) => stopped(stop),
    }
}

pub(crate) fn changed(answer: Result<bool, KeeperStop>) -> char {
    match answer {
        Ok(true) => 'y',
        Ok(false) => 'n',
        Err(stop) => stopped(stop),
    }
}

/// How many rows there are, or that there is no table.
pub(crate) fn scanned(answer: Result<Option<RowList>, KeeperStop>) -> char {
    match answer {
        Ok(Some(rows)) => digit(rows.len() as u64),
        Ok(None) => 'T',
        Err(stop) => stopped(stop),
    }
}

/// A letter for what refuses a statement.
fn refused(refusal: WriteRefusal) -> char {
    match refusal {
        WriteRefusal::NoTable(_) => 'T',
        WriteRefusal::Missing => 'M',
        WriteRefusal::NotNull => 'N',
        WriteRefusal::KeysSpent => 'S',
        WriteRefusal::PrimaryKey => 'P',
        WriteRefusal::Unique => 'U',
        WriteRefusal::Foreign => 'F',
        WriteRefusal::Range(_, _, _) => 'R',
        WriteRefusal::Fault => '!',
        WriteRefusal::Memory => '-',
    }
}

/// The last digit of the last key.
fn last_digit(keys: &[Key]) -> char {
    let Some(key) = keys.last() else {
        return '?';
    };
    match key.get(0) {
        Some(Value::Int(n)) => digit(n.unsigned_abs()),
        _ => '?',
    }
}

/// The last digit of the last key, or a letter for what refuses a statement on rows.
pub(crate) fn written(answer: Result<KeyList, WriteRefusal>) -> char {
    match answer {
        Ok(keys) => last_digit(keys.as_slice()),
        Err(refusal) => refused(refusal),
    }
}

/// How many rows a bulk statement took, or a letter for what refuses it.
pub(crate) fn counted(answer: Result<u64, WriteRefusal>) -> char {
    match answer {
        Ok(count) => digit(count),
        Err(refusal) => refused(refusal),
    }
}

pub(crate) fn answered(answer: Result<RowList, QueryRefusal>) -> char {
    match answer {
        Ok(rows) => digit(rows.len() as u64),
        Err(QueryRefusal::NoTable(_)) => 'T',
        Err(QueryRefusal::Range(_, _, _)) => 'R',
        Err(QueryRefusal::Fault) => '!',
        Err(QueryRefusal::Memory) => '-',
    }
}
