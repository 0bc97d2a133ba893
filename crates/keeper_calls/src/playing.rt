//! Lines of calls played on a keeper.

ghost use Rattle.std.specs.Prelude.{◌≡◌, None, true};

use crate::calls::said;
use crate::letters::{digit, done, stopped};
use base_core::{RowList, TableId};
use keeper_core::{Keeper, Target};
use notations::{Page, number, parted};
use schema_core::Schema;

/// What has one more keeper, beside the one on which lines are played.
pub trait Beside {
    /// What the other keeper answers that is given a target.
    fn answer(&self, target: Target) -> char;
}

/// Two tables, of which the second refers to the first.
pub fn two_tables(page: &mut Page) -> Schema {
    let mut schema = Schema::new(page.alloc());
    page.declare(&mut schema, "a id:ikn n:in !n");
    page.declare(&mut schema, "b id:ikn n:i n>a");
    schema
}

/// The file of a name, or memory where there is none.
pub fn target_of(page: &mut Page, name: &str) -> Target {
    if name.is_empty() {
        Target::Memory
    } else {
        Target::File(page.name(name))
    }
}

fn put_found(page: &mut Page, rows: &RowList) {
    page.put("rows");
    for row in rows.as_slice() {
        page.put_row(" ", row);
    }
}

/// The rows of a table.
#[tactic(auto, using(crate::proofs::Attached::called_attached))]
fn put_rows<K: Keeper>(schema: &Schema, keeper: &mut K, table: TableId, page: &mut Page)
    requires { (K.moment keeper.old).attached ≡ true }
    ensures { (K.moment keeper.new).attached ≡ true }
{
    if schema.count() <= table.0 {
        return page.push('?');
    }
    match keeper.scan(page.alloc(), schema, table) {
        Ok(Some(rows)) => put_found(page, &rows),
        Ok(None) => page.push('T'),
        Err(stop) => page.push(stopped(stop)),
    }
}

fn put_said<K: Keeper>(schema: &Schema, keeper: &mut K, line: &str, page: &mut Page)
    requires { (K.moment keeper.old).attached ≡ true }
    ensures { (K.moment keeper.new).attached ≡ true }
{
    let letter = said(schema, keeper, line, page);
    page.push(letter);
}

/// What is written for a line.
fn tell<K: Keeper, B: Beside>(
    schema: &Schema,
    keeper: &mut K,
    beside: &B,
    line: &str,
    page: &mut Page,
)
    requires { (K.moment keeper.old).attached ≡ true }
    ensures { (K.moment keeper.new).attached ≡ true }
{
    let (word, rest) = parted(line, ' ');
    match word {
        "#" => page.put(line),
        "rows" => put_rows(schema, keeper, TableId(number(rest)), page),
        "second" => {
            let target = target_of(page, rest);
            page.push(beside.answer(target));
        }
        _ => put_said(schema, keeper, line, page),
    }
}

fn play_attached<K: Keeper, B: Beside>(
    schema: &Schema,
    keeper: &mut K,
    beside: &B,
    lines: &str,
    page: &mut Page,
)
    requires { (K.moment keeper.old).attached ≡ true }
{
    for line in lines.lines() {
        tell(schema, keeper, beside, line, page);
        page.push('\n');
    }
}

/// A keeper that took no target may be asked for its depth alone.
fn play_without(depth: char, lines: &str, page: &mut Page) {
    for line in lines.lines() {
        page.push(if line == "depth" { depth } else { '?' });
        page.push('\n');
    }
}

/// Gives the keeper its target, plays the lines, and writes what each answers.
pub fn play<K: Keeper, B: Beside>(
    schema: &Schema,
    keeper: &mut K,
    beside: &B,
    target: Target,
    lines: &str,
    page: &mut Page,
)
    requires { (K.moment keeper.old).target ≡ None }
{
    let answer = keeper.attach(page.alloc(), target);
    page.push(done(answer));
    page.push('\n');
    match answer {
        Ok(()) => play_attached(schema, keeper, beside, lines, page),
        Err(_) => play_without(digit(u64::from(keeper.depth())), lines, page),
    }
}
