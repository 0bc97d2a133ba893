//! Dialects of SQL.

/// Whose SQL a text is written in.
#[derive(Clone, Copy, PartialEq, Eq)]
pub enum Dialect {
    Sqlite,
    Postgresql,
    Mysql,
}
