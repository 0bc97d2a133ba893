//! The texts of the cut of a select's rows.

ghost use Rattle.std.specs.Prelude.{◌<◌, ◌^◌, ◌∷◌, [], ◌++◌, IsTrue, ◌↔◌, codes};
ghost use Rattle.sql_rows.specs.Cuts as spec;
ghost use Rattle.sql_text.specs.Pages.{WroteOn};

use base_core::{Dialect, Value};
use sql_expressions::param;
use sql_text::{Page, mysql_cut};

/// The number of a cut.
fn number(page: &mut Page, n: u64)
    requires { n < 2 ^ 63 }
    ensures { WroteOn (spec.number_piece n ∷ []) page.old page.new }
{
    page.put_mark(param(), &Value::Int(n as i64));
}

/// A word and a number.
#[tactic(auto, using(sql_text::proofs::Pages::page_steps))]
fn counted(page: &mut Page, word: &str, n: u64)
    requires { n < 2 ^ 63 }
    ensures { WroteOn (spec.row_count_pieces word.now n) page.old page.new }
{
    page.put_words(word);
    number(page, n);
}

/// The cut by an offset alone.
#[tactic(auto, using(sql_text::proofs::Pages::page_steps))]
fn offset_alone(page: &mut Page, offset: u64)
    requires { offset < 2 ^ 63 }
    ensures { WroteOn (spec.offset_pieces page.old.written.dialect offset) page.old page.new }
{
    match page.dialect() {
        Dialect::Sqlite => counted(page, " LIMIT -1 OFFSET ", offset),
        Dialect::Postgresql => counted(page, " LIMIT ALL OFFSET ", offset),
        Dialect::Mysql => {
            counted(page, " LIMIT ", offset);
            page.put_words(", 18446744073709551615");
        }
    }
}

/// MySQL's cut by both.
#[tactic(auto, using(sql_text::proofs::Pages::page_steps))]
fn offset_first(page: &mut Page, numbers: (u64, u64))
    requires first { numbers.0 < 2 ^ 63 }
    requires second { numbers.1 < 2 ^ 63 }
    ensures { WroteOn (spec.row_count_pieces (codes " LIMIT ") numbers.0 ++ spec.row_count_pieces
        (codes ", ") numbers.1) page.old page.new }
{
    counted(page, " LIMIT ", numbers.0);
    counted(page, ", ", numbers.1);
}

/// The cut by a limit and an offset, which MySQL writes first.
#[tactic(auto, using(sql_text::proofs::Pages::page_steps))]
fn both_cuts(page: &mut Page, limit: u64, offset: u64)
    requires limit { limit < 2 ^ 63 }
    requires offset { offset < 2 ^ 63 }
    ensures { WroteOn (spec.both_pieces page.old.written.dialect limit offset) page.old page.new }
{
    match page.dialect() {
        Dialect::Sqlite | Dialect::Postgresql => {
            counted(page, " LIMIT ", limit);
            counted(page, " OFFSET ", offset);
        }
        Dialect::Mysql => offset_first(page, mysql_cut(limit, offset)),
    }
}

/// The cut by a limit, an offset, both or neither.
#[tactic(auto, using(sql_text::proofs::Pages::page_steps))]
pub fn cut(page: &mut Page, limit: Option<u64>, offset: Option<u64>)
    requires limit { spec.IsCut limit }
    requires offset { spec.IsCut offset }
    ensures { WroteOn (spec.cut_pieces page.old.written.dialect limit offset) page.old page.new }
{
    match (limit, offset) {
        (None, None) => {}
        (Some(limit), None) => counted(page, " LIMIT ", limit),
        (None, Some(offset)) => offset_alone(page, offset),
        (Some(limit), Some(offset)) => both_cuts(page, limit, offset),
    }
}

/// Whether the number of a cut is below 2 ^ 63.
pub fn is_cut(number: Option<u64>) -> bool
    ensures { IsTrue result ↔ spec.IsCut number }
{
    match number {
        Some(number) => number < 9223372036854775808,
        None => true,
    }
}
