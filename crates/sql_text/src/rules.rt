//! What the dialects' texts are ruled by beside their words: levels, the order of numbers, and what is told.

ghost use Rattle.std.specs.Prelude.{◌≡◌, ◌==◌};
ghost use Rattle.std.specs.List.{list_any};
ghost use Rattle.sql_text.specs.Rules as spec;

use base_core::{ArithOp, Dialect};

/// The least levels of an operator's operands. The right one's is higher than the operator's own, so an operand of the same
/// level stands in parentheses there.
pub fn arith_least(op: ArithOp) -> (u8, u8)
    ensures { result ≡ spec.arith_least op }
{
    match op {
        ArithOp::Add | ArithOp::Sub => (5, 6),
        ArithOp::Mul => (6, 7),
    }
}

/// The least levels of the operands of `||`.
pub fn concat_least() -> (u8, u8)
    ensures { result ≡ (5, 6) }
{
    (5, 6)
}

/// The least level of an operand behind `NOT` and behind a minus: everything that has operands stands in parentheses there.
pub fn prefix_least() -> u8
    ensures { result ≡ 8 }
{
    8
}

/// The level of `EXISTS`, and of `NOT EXISTS`.
pub fn exists_level(negated: bool) -> u8
    ensures { result ≡ spec.exists_level negated }
{
    if negated { 3 } else { 8 }
}

/// The numbers of MySQL's cut in the order of its text: the offset is the first.
pub fn mysql_cut(limit: u64, offset: u64) -> (u64, u64)
    ensures { result ≡ (offset, limit) }
{
    (offset, limit)
}

/// Whether an INSERT tells its key: PostgreSQL's does, where the key is generated.
pub fn tells_key(dialect: Dialect, generated: bool) -> bool
    ensures { result ≡ spec.tells_key dialect generated }
{
    match dialect {
        Dialect::Postgresql => generated,
        Dialect::Sqlite | Dialect::Mysql => false,
    }
}

/// Whether the foreign key of a number comes later than its table.
pub fn comes_later(later: &[u32], number: usize) -> bool
    ensures { result ≡ list_any (λ other. other == number) later.now }
{
    later.iter().any(|other| *other as usize == number)
}
