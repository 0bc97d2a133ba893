//! The list of statements, with room for those that end scopes.

ghost use Rattle.std.specs.Prelude.{◌≡◌, ◌+◌, ◌-◌, ◌<◌, [], true, false, IfOk, OnErr, OnOk};
ghost use Rattle.schema_core.specs.Apply.{table_of};
ghost use Rattle.sql_semantics.specs.Applied as bulk;
ghost use Rattle.keeper_core.specs.declared.sent.Sent.TheVariants as sent;
ghost use Rattle.keeper_core.specs.Calls.{query_refusal, write_refusal};
ghost use Rattle.statement_log.specs.Logged.{no_statements, start_of, with_refused, with_sent};

use base_core::{Copied, Refusal, TableId};
use expr_types::{Bulk, CopiedIn, Select};
use keeper_core::calls::{refusal_of, refusal_of_query, table_of_bulk};
use keeper_core::{QueryRefusal, Sent, WriteRefusal};
use schema_core::RowStmt;
use sqlite_items::Boxed;
use std::alloc::{AllocError, Global};
use std::marker::Model;

/// A statement that was refused, and why.
#[derive(Drop)]
struct Rejected {
    statement: Sent,
    refusal: Refusal,
}

/// The statements that a keeper was sent, the oldest first, and the last one that was refused. A statement that ends a scope
/// always finds room.
pub struct StatementLog {
    sent: Vec<Sent>,
    last: Option<Boxed<Rejected>>,
    scopes: u32,
    /// There is room for one more statement too.
    ready: bool,
}

impl Drop for StatementLog {
    fn drop(self) {
        let StatementLog {
            sent: _,
            last: _,
            scopes: _,
            ready: _,
        } = self;
    }
}

impl Model for StatementLog {
    ghost use Rattle.std.specs.Prelude.{◌≡◌, ◌+◌, ◌≤◌, true, vec_len, vec_capacity};
    ghost use Rattle.std.specs.Option.{option_map};
    ghost use Rattle.std.specs.Coded.{codes};
    ghost use Rattle.expr_types.specs.contracts.expr.Expr as e;
    ghost use Rattle.statement_log.specs.Logged.{Logged};

    ghost Value = { Logged };

    ghost coded = { Prim.hlevel (codes, e.the_row.coded) };

    ghost view = { λ l. record { sent = l.sent.items; last = option_map (λ r. record { statement = r.statement; refusal = r.refusal }) l.last; scopes = l.scopes; ready = l.ready } };

    ghost invariant = { λ l. (vec_len l.sent + l.scopes ≤ vec_capacity l.sent) × (l.ready ≡ true → vec_len l.sent + l.scopes + 1 ≤ vec_capacity l.sent) };
}

impl StatementLog {
    /// No statement yet.
    pub fn new(alloc: Global) -> StatementLog
        ensures { result ≡ no_statements }
    {
        StatementLog {
            sent: Vec::new(alloc),
            last: None,
            scopes: 0,
            ready: false,
        }
    }

    /// Each statement, the oldest first.
    pub fn statements(&self) -> &[Sent]
        ensures { result.now ≡ self.now.sent }
    {
        self.sent.as_slice()
    }

    /// How many scopes are open.
    pub fn scopes(&self) -> u32
        ensures { result ≡ self.now.scopes }
    {
        self.scopes
    }

    /// Forgets the statements.
    pub fn clear(&mut self)
        ensures { self.new ≡ record self.old { sent = []; scopes = 0; ready = false } }
    {
        self.sent.clear();
        self.scopes = 0;
        self.ready = false;
    }

    /// All scopes ended with no statement.
    pub fn close(&mut self)
        ensures { self.new ≡ record self.old { scopes = 0 } }
    {
        self.scopes = 0;
    }

    /// A scope starts, if there is memory for its statement and for the one that ends it.
    pub fn start(&mut self) -> Result<(), AllocError>
        ensures ok { OnOk result
            (self.new ≡ with_sent self.old (start_of self.old.scopes) (self.old.scopes + 1)) }
        ensures err { OnErr result (self.new ≡ self.old) }
    {
        if self.scopes == u32::MAX {
            return Err(AllocError);
        }
        self.sent.reserve(self.scopes as usize + 2)?;
        self.sent.push_reserved(start_of(self.scopes));
        self.scopes += 1;
        self.ready = false;
        Ok(())
    }

    /// The innermost scope ends, and its rows stay.
    pub fn end(&mut self)
        requires { 0 < self.old.scopes }
        ensures { self.new ≡ with_sent self.old (sent.Release (self.old.scopes - 1))
            (self.old.scopes - 1) }
    {
        self.sent.push_reserved(Sent::Release(self.scopes - 1));
        self.scopes -= 1;
        self.ready = false;
    }

    /// The savepoint of this number and all inside it end.
    pub fn end_to(&mut self, number: u32)
        requires { number < self.old.scopes }
        ensures { self.new ≡ with_sent self.old (sent.RollbackTo number) number }
    {
        self.sent.push_reserved(Sent::RollbackTo(number));
        self.scopes = number;
        self.ready = false;
    }

    /// All scopes end, and their rows go.
    pub fn roll_back(&mut self)
        requires { 0 < self.old.scopes }
        ensures { self.new ≡ with_sent self.old sent.Rollback 0 }
    {
        self.sent.push_reserved(Sent::Rollback);
        self.scopes = 0;
        self.ready = false;
    }

    /// All scopes end, and their rows stay.
    pub fn commit(&mut self)
        requires { 0 < self.old.scopes }
        ensures { self.new ≡ with_sent self.old sent.Commit 0 }
    {
        self.sent.push_reserved(Sent::Commit);
        self.scopes = 0;
        self.ready = false;
    }

    /// Makes room for a statement on a table.
    pub fn prepare(&mut self) -> Result<(), AllocError>
        ensures ok { OnOk result (self.new ≡ record self.old { ready = true }) }
        ensures err { OnErr result (self.new ≡ self.old) }
    {
        self.sent.reserve(self.scopes as usize + 1)?;
        self.ready = true;
        Ok(())
    }

    /// A table was made.
    pub fn create(&mut self, table: TableId)
        requires { self.old.ready ≡ true }
        ensures { self.new ≡ with_sent self.old (sent.Create table) self.old.scopes }
    {
        self.sent.push_reserved(Sent::Create(table));
        self.ready = false;
    }

    /// A table was dropped.
    pub fn drop_table(&mut self, table: TableId)
        requires { self.old.ready ≡ true }
        ensures { self.new ≡ with_sent self.old (sent.Drop table) self.old.scopes }
    {
        self.sent.push_reserved(Sent::Drop(table));
        self.ready = false;
    }

    /// A statement on one row was done, if there is memory for it.
    pub fn write(&mut self, statement: &RowStmt) -> Result<(), AllocError>
        ensures ok { OnOk result
            (self.new ≡ with_sent self.old (sent.Write statement.now) self.old.scopes) }
        ensures err { OnErr result (self.new ≡ self.old) }
    {
        self.sent.reserve(self.scopes as usize + 1)?;
        let copy = statement.copied()?;
        self.sent.push_reserved(Sent::Write(copy));
        self.ready = false;
        Ok(())
    }

    /// A bulk statement was done, if there is memory for it.
    pub fn bulk(&mut self, alloc: Global, statement: &Bulk) -> Result<(), AllocError>
        ensures ok { OnOk result
            (self.new ≡ with_sent self.old (sent.Bulk statement.now) self.old.scopes) }
        ensures err { OnErr result (self.new ≡ self.old) }
    {
        self.sent.reserve(self.scopes as usize + 1)?;
        let copy = statement.copied_in(alloc)?;
        self.sent.push_reserved(Sent::Bulk(copy));
        self.ready = false;
        Ok(())
    }

    /// A select was answered, if there is memory for it.
    pub fn query(&mut self, alloc: Global, select: &Select) -> Result<(), AllocError>
        ensures ok { OnOk result
            (self.new ≡ with_sent self.old (sent.Query select.now) self.old.scopes) }
        ensures err { OnErr result (self.new ≡ self.old) }
    {
        self.sent.reserve(self.scopes as usize + 1)?;
        let copy = select.copied_in(alloc)?;
        self.sent.push_reserved(Sent::Query(copy));
        self.ready = false;
        Ok(())
    }

    /// A statement on one row was refused, if there is memory for it.
    pub fn refuse_write(
        &mut self,
        alloc: Global,
        statement: &RowStmt,
        refusal: WriteRefusal,
    ) -> Result<(), AllocError>
        ensures ok { OnOk result
            (self.new ≡ with_refused self.old (sent.Write statement.now)
            (write_refusal (table_of statement.now) refusal)) }
        ensures err { OnErr result (self.new ≡ self.old) }
    {
        let rejected = rejected_write(alloc, statement, refusal)?;
        self.write(statement)?;
        self.last = Some(rejected);
        Ok(())
    }

    /// A bulk statement was refused, if there is memory for it.
    pub fn refuse_bulk(
        &mut self,
        alloc: Global,
        statement: &Bulk,
        refusal: WriteRefusal,
    ) -> Result<(), AllocError>
        ensures ok { OnOk result
            (self.new ≡ with_refused self.old (sent.Bulk statement.now)
            (write_refusal (bulk.table_of statement.now) refusal)) }
        ensures err { OnErr result (self.new ≡ self.old) }
    {
        let rejected = rejected_bulk(alloc, statement, refusal)?;
        self.bulk(alloc, statement)?;
        self.last = Some(rejected);
        Ok(())
    }

    /// A select was refused, if there is memory for it.
    pub fn refuse_query(
        &mut self,
        alloc: Global,
        select: &Select,
        refusal: QueryRefusal,
    ) -> Result<(), AllocError>
        ensures ok { OnOk result
            (self.new ≡ with_refused self.old (sent.Query select.now) (query_refusal refusal)) }
        ensures err { OnErr result (self.new ≡ self.old) }
    {
        let rejected = rejected_query(alloc, select, refusal)?;
        self.query(alloc, select)?;
        self.last = Some(rejected);
        Ok(())
    }
}

/// The statement that starts a scope, inside so many others.
fn start_of(scopes: u32) -> Sent
    ensures { result ≡ start_of scopes }
{
    if scopes == 0 {
        return Sent::Begin;
    }
    Sent::Savepoint(scopes)
}

/// A statement on one row with its refusal.
fn rejected_write(
    alloc: Global,
    statement: &RowStmt,
    refusal: WriteRefusal,
) -> Result<Boxed<Rejected>, AllocError>
    ensures { IfOk result (λ r. (r.statement ≡ sent.Write statement.now)
        × (r.refusal ≡ write_refusal (table_of statement.now) refusal)) }
{
    let copy = statement.copied()?;
    Boxed::new(
        alloc,
        Rejected {
            statement: Sent::Write(copy),
            refusal: refusal_of(statement.table(), refusal),
        },
    )
}

/// A bulk statement with its refusal.
fn rejected_bulk(
    alloc: Global,
    statement: &Bulk,
    refusal: WriteRefusal,
) -> Result<Boxed<Rejected>, AllocError>
    ensures { IfOk result (λ r. (r.statement ≡ sent.Bulk statement.now)
        × (r.refusal ≡ write_refusal (bulk.table_of statement.now) refusal)) }
{
    let copy = statement.copied_in(alloc)?;
    Boxed::new(
        alloc,
        Rejected {
            statement: Sent::Bulk(copy),
            refusal: refusal_of(table_of_bulk(statement), refusal),
        },
    )
}

/// A select with its refusal.
fn rejected_query(
    alloc: Global,
    select: &Select,
    refusal: QueryRefusal,
) -> Result<Boxed<Rejected>, AllocError>
    ensures { IfOk result (λ r. (r.statement ≡ sent.Query select.now)
        × (r.refusal ≡ query_refusal refusal)) }
{
    let copy = select.copied_in(alloc)?;
    Boxed::new(
        alloc,
        Rejected {
            statement: Sent::Query(copy),
            refusal: refusal_of_query(refusal),
        },
    )
}
