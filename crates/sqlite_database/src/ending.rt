//! Why SQLite did not do what it was asked.

use base_core::Refusal;
use schema_core::Violation;
use sqlite::{Constraint, Error, ErrorCode};
use std::alloc::{AllocError, AllocFailed};
use std::io;

/// Why something was not done: the store failed, memory ran out, or the tables refuse it.
#[derive(Clone, Copy)]
pub enum Ending {
    Fault,
    Memory,
    Refused(Violation),
}

impl From<AllocError> for Ending {
    fn from(_e: AllocError) -> Ending {
        Ending::Memory
    }
}

impl<T: Drop> From<AllocFailed<T>> for Ending {
    fn from(_e: AllocFailed<T>) -> Ending {
        Ending::Memory
    }
}

impl From<io::Error> for Ending {
    fn from(error: io::Error) -> Ending {
        match error.kind() {
            io::ErrorKind::OutOfMemory => Ending::Memory,
            _ => Ending::Fault,
        }
    }
}

impl From<Refusal> for Ending {
    fn from(refusal: Refusal) -> Ending {
        match refusal {
            Refusal::Memory => Ending::Memory,
            Refusal::OperationalError(table) => Ending::Refused(Violation::NoTable(table)),
            _ => Ending::Fault,
        }
    }
}

/// A taken key that is no rowid is one more unique value to SQLite.
fn refusal_by(constraint: Constraint) -> Ending {
    match constraint {
        Constraint::NotNull => Ending::Refused(Violation::NotNull),
        Constraint::PrimaryKey => Ending::Refused(Violation::PrimaryKey),
        Constraint::Unique => Ending::Refused(Violation::Unique),
        Constraint::ForeignKey => Ending::Refused(Violation::Foreign),
        Constraint::Datatype | Constraint::Check => Ending::Fault,
    }
}

impl From<Error> for Ending {
    fn from(error: Error) -> Ending {
        match error {
            Error::SqliteFailure(ErrorCode::OutOfMemory) => Ending::Memory,
            Error::SqliteFailure(ErrorCode::ConstraintViolation(constraint)) => refusal_by(
                constraint,
            ),
            Error::SqliteFailure(ErrorCode::ForeignKeyMismatch) => Ending::Refused(
                Violation::Foreign,
            ),
            _ => Ending::Fault,
        }
    }
}
