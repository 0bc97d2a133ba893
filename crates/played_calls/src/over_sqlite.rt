//! Lines played on a keeper over SQLite.

use keeper_calls::{Beside, done, play, target_of};
use keeper_core::{Keeper, Target};
use keeper_sqlite::SqliteKeeper;
use notations::{Page, parted};
use schema_core::Schema;
use sqlite_database::Database;
use std::marker::PhantomData;

/// Databases of one kind.
#[derive(Drop)]
struct Databases<D> {
    rt: HostRuntime,
    of: PhantomData<D>,
}

impl<D: Database + Drop> Beside for Databases<D> {
    fn answer(&self, target: Target) -> char {
        let mut keeper = SqliteKeeper::<D>::new(self.rt, self.rt.alloc());
        done(keeper.attach(self.rt.alloc(), target))
    }
}

/// Plays lines on a new keeper, over the file that the first of them names, or in memory.
fn play_part<D: Database + Drop>(rt: HostRuntime, schema: &Schema, part: &str, page: &mut Page) {
    let (name, lines) = parted(part, '\n');
    let target = target_of(page, name.trim());
    let beside = Databases::<D> {
        rt,
        of: PhantomData,
    };
    let mut keeper = SqliteKeeper::<D>::new(rt, rt.alloc());
    play(schema, &mut keeper, &beside, target, lines, page);
}

/// Writes what lines come to. Those before the first keeper stand as they are.
pub fn play_over_sqlite<D: Database + Drop>(
    rt: HostRuntime,
    schema: &Schema,
    text: &str,
    page: &mut Page,
) {
    let (head, parts) = text.split_once("\nkeeper").unwrap_or((text, ""));
    page.put(head);
    page.push('\n');
    for part in parts.split("\nkeeper") {
        play_part::<D>(rt, schema, part, page);
    }
}
