//! The words of kinds.

ghost use Rattle.std.specs.Prelude.{◌≡◌};
ghost use Rattle.printing.specs.Texts.{argument_text, integrity_text, kind_text, limit_text, op_text, request_name as request_name_of, request_word as request_word_of};

use base_core::{ArgumentKind, ArithOp, IntegrityKind, Kind, LimitKind, RequestKind};

/// The word of a kind of values.
pub fn kind_word(kind: Kind) -> &'static str
    ensures { result.now ≡ kind_text kind }
{
    match kind {
        Kind::Integer => "integer",
        Kind::Text => "text",
        Kind::Boolean => "boolean",
        Kind::Bytes => "bytes",
    }
}

/// The sign of an operator.
pub fn op_word(op: ArithOp) -> &'static str
    ensures { result.now ≡ op_text op }
{
    match op {
        ArithOp::Add => "+",
        ArithOp::Sub => "-",
        ArithOp::Mul => "*",
    }
}

/// The word of what there are too many of.
pub fn limit_word(kind: LimitKind) -> &'static str
    ensures { result.now ≡ limit_text kind }
{
    match kind {
        LimitKind::Objects => "objects",
        LimitKind::Savepoints => "savepoints",
    }
}

/// The word of a constraint.
pub fn integrity_word(kind: IntegrityKind) -> &'static str
    ensures { result.now ≡ integrity_text kind }
{
    match kind {
        IntegrityKind::NotNull => "NotNull",
        IntegrityKind::PrimaryKey => "PrimaryKey",
        IntegrityKind::Unique => "Unique",
        IntegrityKind::Foreign => "Foreign",
    }
}

/// The word of a fault of a declaration.
pub fn argument_word(kind: ArgumentKind) -> &'static str
    ensures { result.now ≡ argument_text kind }
{
    match kind {
        ArgumentKind::DuplicateName => "DuplicateName",
        ArgumentKind::UnknownColumn => "UnknownColumn",
        ArgumentKind::NoPrimaryKey => "NoPrimaryKey",
        ArgumentKind::SharedColumn => "SharedColumn",
        ArgumentKind::BadClass => "BadClass",
        ArgumentKind::NoDiscriminator => "NoDiscriminator",
        ArgumentKind::DuplicateIdentity => "DuplicateIdentity",
        ArgumentKind::BadCascade => "BadCascade",
        ArgumentKind::BadHook => "BadHook",
        ArgumentKind::BadTarget => "BadTarget",
        ArgumentKind::BadInheritance => "BadInheritance",
        ArgumentKind::BadSecondary => "BadSecondary",
        ArgumentKind::NoJoin => "NoJoin",
        ArgumentKind::TwoJoins => "TwoJoins",
        ArgumentKind::Overlap => "Overlap",
        ArgumentKind::PartnerDiffers => "PartnerDiffers",
        ArgumentKind::KeyForeign => "KeyForeign",
        ArgumentKind::BadPostUpdate => "BadPostUpdate",
    }
}

/// The word of a request that does not fit the state that it meets.
pub fn request_word(kind: &RequestKind) -> &'static str
    ensures { result.now ≡ request_word_of kind.now }
{
    match kind {
        RequestKind::NotConfigured => "NotConfigured",
        RequestKind::Configured => "Configured",
        RequestKind::Unknown(_) => "Unknown ",
        RequestKind::WrongKind => "WrongKind",
        RequestKind::NotGrouped => "NotGrouped",
        RequestKind::DuplicateFrom => "DuplicateFrom",
        RequestKind::JoinedLimit => "JoinedLimit",
        RequestKind::InTransaction => "InTransaction",
        RequestKind::NotPersistent => "NotPersistent",
        RequestKind::NotInSession => "NotInSession",
        RequestKind::Deleted => "Deleted",
        RequestKind::IdentityConflict => "IdentityConflict",
        RequestKind::BadOwner => "BadOwner",
        RequestKind::BadMember => "BadMember",
        RequestKind::NotAMember => "NotAMember",
        RequestKind::KeyChange => "KeyChange",
        RequestKind::Discriminator => "Discriminator",
        RequestKind::NoSuchIdentity => "NoSuchIdentity",
    }
}

/// The name that stands for nothing, where that is what does not fit.
pub fn request_name(kind: &RequestKind) -> &str
    ensures { result.now ≡ request_name_of kind.now }
{
    match kind {
        RequestKind::Unknown(name) => name.get(),
        _ => "",
    }
}
