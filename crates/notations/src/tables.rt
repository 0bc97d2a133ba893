//! Tables as lines.

use crate::page::Page;
use crate::words::parted;
use base_core::{ColumnNo, ListOf, TableId};
use schema_core::{ColumnKind, ColumnSpec, ForeignSpec, RowCell, Schema, TableSpec};

fn kind(letters: &str) -> ColumnKind {
    if let Some((_, length)) = letters.split_once('v') {
        return ColumnKind::Varchar(length.parse::<u32>().ok());
    }
    if letters.contains('i') {
        ColumnKind::Integer
    } else if letters.contains('b') {
        ColumnKind::Boolean
    } else if letters.contains('y') {
        ColumnKind::Bytes
    } else {
        ColumnKind::Text
    }
}

impl Page {
    /// A column, a unique constraint or a foreign key goes into the table.
    fn add_part(&mut self, spec: &mut TableSpec, word: &str) {
        if let Some((columns, target)) = word.split_once('>') {
            let foreign = ForeignSpec {
                columns: self.names(columns),
                target: self.name(target),
            };
            return self.add(&mut spec.foreigns, foreign);
        }
        if let Some(columns) = word.strip_prefix('!') {
            let unique = self.names(columns);
            return self.add(&mut spec.uniques, unique);
        }
        if let Some((name, letters)) = word.split_once(':') {
            let column = ColumnSpec {
                name: self.name(name),
                kind: kind(letters),
                key: letters.contains('k'),
                not_null: letters.contains('n'),
            };
            self.add(&mut spec.columns, column);
        }
    }

    /// The table of a line: its name, then its columns, unique constraints and foreign keys, with blanks between them. A column is
    /// its name, and behind a colon `i`, `b` or `y` for an integer, a truth value or bytes, `v` for a varchar, with its length behind
    /// it where it has one, and else it is a text; `k` for a column of the key and `n` for NOT NULL stand before a `v`. A unique
    /// constraint is `!` and columns with commas between them, and a foreign key such columns, and behind `>` the table that it
    /// refers to.
    pub fn table(&mut self, line: &str) -> TableSpec {
        let (name, words) = parted(line, ' ');
        let mut spec = TableSpec {
            name: self.name(name),
            columns: ListOf::new(self.alloc()),
            uniques: ListOf::new(self.alloc()),
            foreigns: ListOf::new(self.alloc()),
        };
        for word in words.split(' ') {
            self.add_part(&mut spec, word);
        }
        spec
    }

    /// Declares the table of a line, where fewer than 1000 are declared. The page notes where it is refused.
    pub fn declare(&mut self, schema: &mut Schema, line: &str) {
        let spec = self.table(line);
        if schema.count() < 1000 {
            self.note(schema.declare_table(spec));
        }
    }

    /// A table's name, `?` where there is no such table.
    pub fn put_table(&mut self, schema: &Schema, table: TableId) {
        if table.0 < schema.count() {
            self.put(schema.spec(table).name.get());
        } else {
            self.put("?");
        }
    }

    /// A cell of a row: its value, or `^PLACE.PART` for a part of the key of the new row of that place.
    pub fn put_cell(&mut self, cell: &RowCell) {
        match cell {
            RowCell::Given(value) => self.put_value(value),
            RowCell::KeyOf(place, part) => {
                self.put_number("^", u64::from(*place));
                self.put_number(".", u64::from(*part));
            }
        }
    }

    /// Cells, each behind its column's number.
    pub fn put_cells(&mut self, cells: &[(ColumnNo, RowCell)]) {
        for cell in cells {
            self.put_number(" ", u64::from(cell.0.0));
            self.put("=");
            self.put_cell(&cell.1);
        }
    }

    /// The table of a name; where there is none, a number that no table has.
    pub fn table_of(&mut self, schema: &Schema, word: &str) -> TableId {
        let name = self.name(word);
        schema.find(&name).unwrap_or(TableId(u32::MAX))
    }
}
