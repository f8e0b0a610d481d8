//! The declared table at a place, and the row of a record.
ghost use Rattle.std.specs.Prelude.{◌≡◌, ◌<◌, length, IfSome};
ghost use Rattle.std.specs.Option.{option_copied};
ghost use Rattle.melon_raw.specs.Rows.{at, at_id, table_at, Fits};
ghost use Rattle.melon_table.specs.Seen.{rows_of};
ghost use Rattle.melon_table.specs.Kept.{IsKept};
ghost use Rattle.melon_change.specs.Changes.{columns_in};
ghost use Rattle.melon_wire.specs.Keys.{key_at};

use melon_raw::steps::new_counter;
use melon_raw::{Id, Raw, Steps};
use melon_schema::{AppSchema, TableSchema};
use melon_table::{Table, Tables};
use std::marker::Brand;
use std::sync::ledger::{Blank, Ledger};

/// The declared table at a place.
pub fn declared_at(schema: &AppSchema, table: usize) -> &TableSchema
    requires { table < length schema.now.tables }
    ensures { result.now ≡ table_at schema.now.tables table }
{
    schema.at(table)
}

fn row_counted<'a, L: Ledger>(counter: Blank, table: &'a Table, id: &Id) -> Option<&'a Raw>
    requires name { counter.name ≡ L.name }
    requires parts { counter.parts ≡ L.parts }
    requires shared { 0 < counter.parts }
    ensures found { option_copied result ≡ at_id id.now table.now.rows }
    ensures kept { IsKept table.now.columns table.now.rows }
{
    let mut steps = Steps::<L>::open(counter);
    table.get(id, &mut steps)
}

fn row_in<'a>(table: &'a Table, id: &Id) -> Option<&'a Raw>
    ensures found { option_copied result ≡ at_id id.now table.now.rows }
    ensures kept { IsKept table.now.columns table.now.rows }
{
    row_counted::<Brand>(new_counter(), table, id)
}

/// The row of an id in the table at a place.
pub fn row_at<'a>(tables: &'a Tables, table: usize, id: &Id) -> Option<&'a Raw>
    requires { table < length tables.now }
    ensures row { option_copied result ≡ at (rows_of tables.now) (key_at table id.now) }
    ensures fits { IfSome result (λ row. Fits (columns_in tables.now table) row.now) }
{
    row_in(tables.of(table), id)
}
