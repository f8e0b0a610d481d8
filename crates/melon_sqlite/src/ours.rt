//! Whether an opening completes a schema to the two tables.

ghost use Rattle.std.specs.Prelude.{◌≡◌, ◌↔◌, [], ◌∷◌, IsTrue};
ghost use Rattle.melon_sqlite.specs.Ours.{IsOurs};
ghost use Rattle.melon_sqlite.specs.Tables.{no_schema, rows_index, rows_schema};

use crate::tables::{is_index, is_kept, is_rows_table};
use sqlite_schema::schema::{Index, Schema, Table};

fn has_nothing(schema: &Schema) -> bool
    ensures { IsTrue result ↔ (schema.now ≡ no_schema) }
{
    schema.tables.is_empty() && schema.indexes.is_empty() && schema.views.is_empty()
}

fn is_rows_alone(tables: &[Table]) -> bool
    ensures { IsTrue result ↔ (tables.now ≡ rows_schema.tables) }
{
    match tables {
        [rows] => is_rows_table(rows),
        _ => false,
    }
}

fn is_rows_index_alone(indexes: &[Index]) -> bool
    ensures { IsTrue result ↔ (indexes.now ≡ rows_index ∷ []) }
{
    match indexes {
        [rows] => is_index(rows, b"sqlite_autoindex_kept_rows_1", 1, 0, &[1, 2, 3]),
        _ => false,
    }
}

/// The schema has the table of the rows, and nothing else.
fn has_rows_alone(schema: &Schema) -> bool
    ensures { IsTrue result ↔ (schema.now ≡ rows_schema) }
{
    if !is_rows_alone(schema.tables.as_slice()) {
        return false;
    }
    if !is_rows_index_alone(schema.indexes.as_slice()) {
        return false;
    }
    schema.views.is_empty()
}

/// An opening completes the schema to the two tables.
pub(crate) fn is_ours(schema: &Schema) -> bool
    ensures { IsTrue result ↔ IsOurs schema.now }
{
    has_nothing(schema) || has_rows_alone(schema) || is_kept(schema)
}
