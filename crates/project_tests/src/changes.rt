//! What is written of changes.

use base_core::RowName;
use notations::Page;
use schema_core::{RowChanges, Schema};

/// The beginning of a part, behind the one before it.
fn begin(page: &mut Page, part: &str) {
    if !page.is_at_start() {
        page.put("; ");
    }
    page.put(part);
}

fn put_name(page: &mut Page, schema: &Schema, part: &str, name: RowName) {
    begin(page, part);
    page.put_table(schema, name.table);
    page.put_number("@", u64::from(name.object.0));
}

fn put_new(page: &mut Page, schema: &Schema, changes: &RowChanges) {
    for row in changes.fresh.as_slice() {
        put_name(page, schema, "new ", row.name);
        for cell in row.cells.as_slice() {
            page.put(" ");
            page.put_cell(cell);
        }
    }
}

fn put_old(page: &mut Page, schema: &Schema, changes: &RowChanges) {
    for row in changes.changed.as_slice() {
        put_name(page, schema, "set ", row.name);
        page.put_row(" ", &row.key);
        page.put_cells(row.cells.as_slice());
    }
    for row in changes.gone.as_slice() {
        put_name(page, schema, "gone ", row.name);
        page.put_row(" ", &row.base);
    }
}

/// All changes, with `;` between each two rows.
pub(crate) fn put_changes(page: &mut Page, schema: &Schema, changes: &RowChanges) {
    put_new(page, schema, changes);
    put_old(page, schema, changes);
    for late in changes.post.as_slice() {
        begin(page, "late ");
        page.put_table(schema, late.0);
        page.put_number(" ", u64::from(late.1));
    }
    for warning in changes.warnings.as_slice() {
        begin(page, "warning");
        page.put_number(" ", u64::from(warning.object.0));
        page.put_number(" ", u64::from(warning.class.0));
        page.put_number(" ", u64::from(warning.relation.0));
    }
}
