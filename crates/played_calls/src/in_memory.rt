//! Lines played on a keeper in memory.

ghost use Rattle.std.specs.Prelude.{◌≡◌, None};
ghost use Rattle.keeper_mem.specs.Kept.{moment_of};

use base_core::ListOf;
use keeper_calls::{Beside, play};
use keeper_core::Target;
use keeper_mem::{LogEntry, MemKeeper, OverMemory, over_new};
use notations::{Page, number, parted};
use schema_core::Schema;

/// No keeper is beside one in memory.
struct Alone;

impl Beside for Alone {
    fn answer(&self, _target: Target) -> char {
        '?'
    }
}

/// The log, and the places of the scopes in it.
fn put_log(page: &mut Page, log: &[LogEntry], places: &[u64]) {
    page.put("log");
    for entry in log {
        page.put_number(" ", u64::from(entry.table.0));
        page.put_row(" ", &entry.key);
        match &entry.before {
            Some(row) => page.put_row(" ", row),
            None => page.put(" none"),
        }
        page.put(";");
    }
    page.put(" places");
    for place in places {
        page.put_number(" ", *place);
    }
}

/// What a keeper shows of itself alone: its log, and how many statements were sent.
fn put_shown(page: &mut Page, keeper: &MemKeeper) {
    put_log(page, keeper.log(), keeper.log_places());
    page.put_number(" sent ", keeper.statements().len() as u64);
    page.push('\n');
}

/// Lines for a keeper that is begun for them, and what was written for them.
#[derive(Drop)]
struct Part<'x> {
    schema: &'x Schema,
    lines: &'x str,
    is_shown: bool,
    page: Page,
}

impl OverMemory for Part<'_> {
    fn run(&mut self, keeper: &mut MemKeeper) {
        play(
            self.schema,
            keeper,
            &Alone,
            Target::Memory,
            self.lines,
            &mut self.page,
        );
        if self.is_shown {
            put_shown(&mut self.page, keeper);
        }
    }
}

/// The numbers of words.
fn numbers(page: &mut Page, words: &str) -> ListOf<u64> {
    let mut numbers = ListOf::new(page.alloc());
    for word in words.split(' ') {
        page.add(&mut numbers, u64::from(number(word)));
    }
    numbers
}

/// Plays lines on a new keeper, which fails the calls of the numbers that stand in the first of them.
fn play_part(schema: &Schema, part: &str, page: &mut Page) {
    let (words, lines) = parted(part, '\n');
    let failing = numbers(page, words);
    let mut part = Part {
        schema,
        lines,
        is_shown: words.ends_with("shown"),
        page: Page::new(page.alloc()),
    };
    let done = over_new(page.alloc(), failing.as_slice(), &mut part);
    page.note(done);
    page.put(part.page.text());
    page.lack_of(&part.page);
}

/// Writes what lines come to. Those before the first keeper stand as they are.
pub fn play_in_memory(schema: &Schema, text: &str, page: &mut Page) {
    let (head, parts) = text.split_once("\nkeeper").unwrap_or((text, ""));
    page.put(head);
    page.push('\n');
    for part in parts.split("\nkeeper") {
        play_part(schema, part, page);
    }
}
