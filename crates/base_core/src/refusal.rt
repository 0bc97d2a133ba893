//! Why a call is refused: one enum for all layers.

ghost use Rattle.std.specs.Prelude.{◌≡◌};
ghost use Rattle.base_core.specs.declared.refusal.Refusal.TheVariants.{Memory};

use crate::{
    ArithOp, AttrNo, ClassId, ColumnNo, Copied, Kind, ListOf, Name, ObjId, RelNo, TableId,
};
use std::alloc::{AllocError, AllocFailed};

/// A declaration is wrong.
#[derive(Clone, Copy, Debug, PartialEq, Eq)]
pub enum ArgumentKind {
    DuplicateName,
    UnknownColumn,
    NoPrimaryKey,
    SharedColumn,
    BadClass,
    NoDiscriminator,
    DuplicateIdentity,
    BadCascade,
    BadHook,
    BadTarget,
    BadInheritance,
    BadSecondary,
    NoJoin,
    TwoJoins,
    Overlap,
    PartnerDiffers,
    KeyForeign,
    BadPostUpdate,
}

/// A request does not fit the state that it meets.
#[derive(Drop)]
pub enum RequestKind {
    NotConfigured,
    Configured,
    Unknown(Name),
    WrongKind,
    NotGrouped,
    DuplicateFrom,
    JoinedLimit,
    InTransaction,
    NotPersistent,
    NotInSession,
    Deleted,
    IdentityConflict,
    BadOwner,
    BadMember,
    NotAMember,
    KeyChange,
    Discriminator,
    NoSuchIdentity,
}

/// Of what there are too many.
#[derive(Clone, Copy, PartialEq, Eq)]
pub enum LimitKind {
    Objects,
    Savepoints,
}

/// Which constraint of a table a statement breaks.
#[derive(Clone, Copy, PartialEq, Eq)]
pub enum IntegrityKind {
    NotNull,
    PrimaryKey,
    Unique,
    Foreign,
}

/// A row of a flush, by its table and the object that it belongs to.
#[derive(Clone, Copy, PartialEq, Eq)]
pub struct RowName {
    pub table: TableId,
    pub object: ObjId,
}

impl Copied for RowName {
    fn copied(&self) -> Result<RowName, AllocError> {
        Ok(*self)
    }
}

/// An object outside the session was met in a link, and skipped.
#[derive(Clone, Copy, PartialEq, Eq)]
pub struct Warning {
    pub object: ObjId,
    /// The class that declares the relationship.
    pub class: ClassId,
    pub relation: RelNo,
}

impl Copied for Warning {
    fn copied(&self) -> Result<Warning, AllocError> {
        Ok(*self)
    }
}

/// Why a call is refused. `Memory` and `KeeperFault` end a run, and every other refusal is a command's answer.
#[derive(Drop)]
pub enum Refusal {
    /// Memory ran out.
    Memory,
    ArgumentError(ArgumentKind),
    /// The kind that is wanted and the kind that was found.
    TypeMismatch(Kind, Kind),
    /// A result outside 64 bits, by its operator and operands.
    DataError(ArithOp, i64, i64),
    /// A generated key of this table would be above the greatest integer.
    KeysSpent(TableId),
    CompileError(TableId, ColumnNo),
    /// The validator of this name refuses the attribute's value.
    ValidationError(ClassId, AttrNo, Name),
    InvalidRequestError(RequestKind),
    LimitReached(LimitKind),
    ObjectDeletedError(ObjId),
    DetachedInstanceError(ObjId),
    /// Rows of which each waits for the next, and the last for the first.
    CircularDependencyError(ListOf<RowName>),
    ResourceClosedError,
    IntegrityError(IntegrityKind, TableId),
    StaleDataError(TableId),
    PendingRollbackError,
    /// Line and column, both from 1.
    ScriptError(u32, u32),
    OperationalError(TableId),
    /// The store failed.
    KeeperFault,
    NotBuilt,
}

impl From<AllocError> for Refusal {
    ghost from_gives = { λ _ e. e ≡ Memory };

    fn from(_e: AllocError) -> Refusal {
        Refusal::Memory
    }
}

impl<T: Drop> From<AllocFailed<T>> for Refusal {
    ghost from_gives = { λ _ e. e ≡ Memory };

    fn from(_e: AllocFailed<T>) -> Refusal {
        Refusal::Memory
    }
}
