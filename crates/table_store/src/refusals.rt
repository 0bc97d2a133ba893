//! Refusals of a store in the words of a keeper.

ghost use Rattle.std.specs.Prelude.{◌≡◌};
ghost use Rattle.base_core.specs.declared.ids.TableId.{TableId};
ghost use Rattle.keeper_core.specs.Calls.{query_refusal, write_refusal};
ghost use Rattle.table_store.specs.Written.{IsOfEvaluation, unwritten_refusal};

use base_core::Refusal;
use keeper_core::{QueryRefusal, WriteRefusal};
use schema_core::Unwritten;

/// What refuses an evaluation.
pub(crate) fn evaluation_refusal(refusal: &Refusal) -> QueryRefusal
    requires { IsOfEvaluation refusal.now }
    ensures { query_refusal result ≡ refusal.now }
{
    match refusal {
        Refusal::OperationalError(absent) => QueryRefusal::NoTable(*absent),
        Refusal::DataError(op, a, b) => QueryRefusal::Range(*op, *a, *b),
        _ => QueryRefusal::Memory,
    }
}

/// What refuses an evaluation within a statement that writes.
pub(crate) fn taking_refusal(refusal: &Refusal) -> WriteRefusal
    requires { IsOfEvaluation refusal.now }
    ensures { (table : TableId) → write_refusal table result ≡ refusal.now }
{
    match evaluation_refusal(refusal) {
        QueryRefusal::NoTable(absent) => WriteRefusal::NoTable(absent),
        QueryRefusal::Range(op, a, b) => WriteRefusal::Range(op, a, b),
        QueryRefusal::Fault => WriteRefusal::Fault,
        QueryRefusal::Memory => WriteRefusal::Memory,
    }
}

/// Why rows were not written.
pub(crate) fn unwritten_refusal(unwritten: Unwritten) -> WriteRefusal
    ensures { result ≡ unwritten_refusal unwritten }
{
    match unwritten {
        Unwritten::Violates(violation) => WriteRefusal::from(violation),
        Unwritten::Memory => WriteRefusal::Memory,
    }
}
