//! The texts of refusals and warnings.

ghost use Rattle.std.specs.Prelude.{Some};
ghost use Rattle.std.specs.Fmt.{DisplaysOnOk};
ghost use Rattle.printing.specs.Texts.{circular_text, compile_text, invalid_text, mismatch_text, object_text, outside_text, refusal_text, request_text, skipped_text, spent_text, with_details, validation_text, violation_text, warning_text};

use crate::objects::write_cycle;
use crate::words::{
    argument_word, integrity_word, kind_word, limit_word, op_word, request_name, request_word,
};
use crate::{Naming, ObjectText};
use base_core::{
    ArithOp, AttrNo, ClassId, ColumnNo, IntegrityKind, Kind, Name, ObjId, Refusal, RequestKind,
    RowName, TableId, Warning,
};
use std::fmt;

/// Writes the kind of a request that does not fit the state that it meets.
fn write_request<W: fmt::Write>(f: &mut fmt::Formatter<W>, kind: &RequestKind) -> fmt::Result
    ensures { DisplaysOnOk W.write_str_gives f.old result (Some (request_text kind.now)) f.new }
{
    f.write_str(request_word(kind))?;
    f.write_str(request_name(kind))
}

/// Writes a refusal's name, and a text in parentheses behind it.
fn write_told<W: fmt::Write>(f: &mut fmt::Formatter<W>, name: &str, inside: &str) -> fmt::Result
    ensures { DisplaysOnOk W.write_str_gives f.old result (Some (with_details name.now inside.now)) f.new }
{
    write!(f, "{name}({inside})")
}

/// Writes that a value of one kind was wanted, and one of another kind was found.
fn write_mismatch<W: fmt::Write>(
    f: &mut fmt::Formatter<W>,
    wanted: Kind,
    found: Kind,
) -> fmt::Result
    ensures { DisplaysOnOk W.write_str_gives f.old result
        (Some (mismatch_text wanted found)) f.new }
{
    let wanted = kind_word(wanted);
    let found = kind_word(found);
    write!(f, "TypeMismatch({wanted}, {found})")
}

/// Writes that a result is outside 64 bits.
fn write_outside<W: fmt::Write>(
    f: &mut fmt::Formatter<W>,
    op: ArithOp,
    a: i64,
    b: i64,
) -> fmt::Result
    ensures { DisplaysOnOk W.write_str_gives f.old result (Some (outside_text op a b)) f.new }
{
    let op = op_word(op);
    write!(f, "DataError({a} {op} {b})")
}

/// Writes that the generated keys of a table are spent.
fn write_spent<W: fmt::Write, N: Naming>(
    f: &mut fmt::Formatter<W>,
    names: &N,
    table: TableId,
) -> fmt::Result
    ensures { DisplaysOnOk W.write_str_gives f.old result
        (Some (spent_text (N.names names.now) table)) f.new }
{
    let table = names.table_name(table);
    write!(f, "DataError(keys of {table})")
}

/// Writes a refusal's name, and a table in parentheses behind it.
fn write_table<W: fmt::Write, N: Naming>(
    f: &mut fmt::Formatter<W>,
    names: &N,
    name: &str,
    table: TableId,
) -> fmt::Result
    ensures { DisplaysOnOk W.write_str_gives f.old result
        (Some (with_details name.now ((N.names names.now).table table))) f.new }
{
    write_told(f, name, names.table_name(table))
}

/// Writes that a column of a table does not compile.
fn write_compile<W: fmt::Write, N: Naming>(
    f: &mut fmt::Formatter<W>,
    names: &N,
    table: TableId,
    column: ColumnNo,
) -> fmt::Result
    ensures { DisplaysOnOk W.write_str_gives f.old result
        (Some (compile_text (N.names names.now) table column)) f.new }
{
    let column = names.column_name(table, column);
    let table = names.table_name(table);
    write!(f, "CompileError({table}.{column})")
}

/// Writes that a validator refused a value of a class's attribute.
fn write_validation<W: fmt::Write, N: Naming>(
    f: &mut fmt::Formatter<W>,
    names: &N,
    class: ClassId,
    attribute: AttrNo,
    hook: &Name,
) -> fmt::Result
    ensures { DisplaysOnOk W.write_str_gives f.old result
        (Some (validation_text (N.names names.now) class attribute hook.now)) f.new }
{
    let attribute = names.attribute_name(class, attribute);
    let class = names.class_name(class);
    let hook = hook.get();
    write!(f, "ValidationError({class}.{attribute}, {hook})")
}

/// Writes that a request does not fit the state that it meets.
fn write_invalid<W: fmt::Write>(f: &mut fmt::Formatter<W>, kind: &RequestKind) -> fmt::Result
    ensures { DisplaysOnOk W.write_str_gives f.old result (Some (invalid_text kind.now)) f.new }
{
    f.write_str("InvalidRequestError(")?;
    write_request(f, kind)?;
    f.write_str(")")
}

/// Writes a refusal's name, and an object in parentheses behind it.
fn write_object<W: fmt::Write, N: Naming>(
    f: &mut fmt::Formatter<W>,
    names: &N,
    name: &str,
    object: ObjId,
) -> fmt::Result
    ensures { DisplaysOnOk W.write_str_gives f.old result
        (Some (with_details name.now (object_text (N.names names.now) object))) f.new }
{
    let object = ObjectText { names, object };
    write!(f, "{name}({object})")
}

/// Writes that rows wait for each other.
fn write_circular<W: fmt::Write, N: Naming>(
    f: &mut fmt::Formatter<W>,
    names: &N,
    rows: &[RowName],
) -> fmt::Result
    ensures { DisplaysOnOk W.write_str_gives f.old result
        (Some (circular_text (N.names names.now) rows.now)) f.new }
{
    f.write_str("CircularDependencyError(")?;
    write_cycle(f, names, rows)?;
    f.write_str(")")
}

/// Writes that a statement breaks a constraint of a table.
fn write_integrity<W: fmt::Write, N: Naming>(
    f: &mut fmt::Formatter<W>,
    names: &N,
    kind: IntegrityKind,
    table: TableId,
) -> fmt::Result
    ensures { DisplaysOnOk W.write_str_gives f.old result
        (Some (violation_text (N.names names.now) kind table)) f.new }
{
    let table = names.table_name(table);
    let kind = integrity_word(kind);
    write!(f, "IntegrityError({kind}, {table})")
}

/// Writes a refusal, with the names of what it has by number.
#[derive(Drop)]
pub struct RefusalText<'a, N> {
    pub names: &'a N,
    pub refusal: &'a Refusal,
}

impl<'a, N: Naming> fmt::Display for RefusalText<'a, N> {
    ghost output = { λ r. Some (refusal_text (N.names r.names.now) r.refusal.now) };

    fn fmt<W: fmt::Write>(&self, f: &mut fmt::Formatter<W>) -> fmt::Result {
        let names = self.names;
        match self.refusal {
            Refusal::Memory => f.write_str("Memory"),
            Refusal::ArgumentError(kind) => write_told(f, "ArgumentError", argument_word(*kind)),
            Refusal::TypeMismatch(wanted, found) => write_mismatch(f, *wanted, *found),
            Refusal::DataError(op, a, b) => write_outside(f, *op, *a, *b),
            Refusal::KeysSpent(table) => write_spent(f, names, *table),
            Refusal::CompileError(table, column) => write_compile(f, names, *table, *column),
            Refusal::ValidationError(class, attribute, hook) => {
                write_validation(f, names, *class, *attribute, hook)
            }
            Refusal::InvalidRequestError(kind) => write_invalid(f, kind),
            Refusal::LimitReached(kind) => write_told(f, "LimitReached", limit_word(*kind)),
            Refusal::ObjectDeletedError(object) => {
                write_object(f, names, "ObjectDeletedError", *object)
            }
            Refusal::DetachedInstanceError(object) => {
                write_object(f, names, "DetachedInstanceError", *object)
            }
            Refusal::CircularDependencyError(rows) => write_circular(f, names, rows.as_slice()),
            Refusal::ResourceClosedError => f.write_str("ResourceClosedError"),
            Refusal::IntegrityError(kind, table) => write_integrity(f, names, *kind, *table),
            Refusal::StaleDataError(table) => write_table(f, names, "StaleDataError", *table),
            Refusal::PendingRollbackError => f.write_str("PendingRollbackError"),
            Refusal::ScriptError(line, column) => write!(f, "ScriptError({line}, {column})"),
            Refusal::OperationalError(table) => write_table(f, names, "OperationalError", *table),
            Refusal::KeeperFault => f.write_str("KeeperFault"),
            Refusal::NotBuilt => f.write_str("NotBuilt"),
        }
    }
}

/// Writes that a relationship of a class was skipped.
fn write_skipped<W: fmt::Write>(
    f: &mut fmt::Formatter<W>,
    class: &str,
    relation: &str,
) -> fmt::Result
    ensures { DisplaysOnOk W.write_str_gives f.old result
        (Some (skipped_text class.now relation.now)) f.new }
{
    write!(f, " is not in the session, {class}.{relation} skipped")
}

/// Writes what a warning says behind its line's number: the object that is outside the session, and the relationship
/// that skipped it.
#[derive(Drop)]
pub struct WarningText<'a, N> {
    pub names: &'a N,
    pub warning: Warning,
}

impl<'a, N: Naming> fmt::Display for WarningText<'a, N> {
    ghost output = { λ w. Some (warning_text (N.names w.names.now) w.warning) };

    fn fmt<W: fmt::Write>(&self, f: &mut fmt::Formatter<W>) -> fmt::Result {
        let names = self.names;
        let Warning {
            object,
            class,
            relation,
        } = self.warning;
        let object = ObjectText { names, object };
        let relation = names.relation_name(class, relation);
        let class = names.class_name(class);
        write!(f, "{object}")?;
        write_skipped(f, class, relation)
    }
}
