//! Whether a schema has exactly the two tables.

ghost use Rattle.std.specs.Prelude.{◌≡◌, ◌↔◌, [], ◌∷◌, true, None, IsTrue};
ghost use Rattle.sqlite_value.specs.declared.value.Value.TheVariants.{Null};
ghost use Rattle.sqlite_value.specs.Keys.{plain};
ghost use Rattle.melon_sqlite.specs.Tables.{kept_schema, rows_table, values_table, rows_index, values_index};

use sqlite_items::Items;
use sqlite_schema::code::Terms;
use sqlite_schema::schema::{Column, Index, Kind, Schema, Stamps, Table};
use sqlite_value::keys::{Collation, Order};
use sqlite_value::value::{Bytes, Value};

fn same_text(bytes: &Bytes, text: &[u8]) -> bool
    ensures { IsTrue result ↔ (bytes.now ≡ text.now) }
{
    bytes.as_slice() == text
}

fn same_places(items: &Items<usize>, places: &[usize]) -> bool
    ensures { IsTrue result ↔ (items.now ≡ places.now) }
{
    items.as_slice() == places
}

fn no_terms(terms: &Terms) -> bool
    ensures { IsTrue result ↔ (terms.now ≡ []) }
{
    terms.roots.is_empty()
}

fn is_null(value: &Value) -> bool
    ensures { IsTrue result ↔ (value.now ≡ Null) }
{
    match value {
        Value::Null => true,
        _ => false,
    }
}

fn is_column(column: &Column, name: &[u8], kind: Kind) -> bool
    ensures { IsTrue result ↔ (column.now ≡ record { name = name.now; kind = kind; is_strict = true; not_null = true; default = Null; collation = Collation.Binary }) }
{
    same_text(&column.name, name)
        && column.kind == kind
        && column.is_strict
        && column.not_null
        && is_null(&column.default)
        && column.collation == Collation::Binary
}

fn are_row_columns(columns: &[Column]) -> bool
    ensures { IsTrue result ↔ (columns.now ≡ rows_table.columns) }
{
    match columns {
        [store, table, id, body] => is_column(store, b"store", Kind::Text)
            && is_column(table, b"tbl", Kind::Text)
            && is_column(id, b"id", Kind::Text)
            && is_column(body, b"body", Kind::Blob),
        _ => false,
    }
}

fn is_one_key(keys: &[Items<usize>], places: &[usize]) -> bool
    ensures { IsTrue result ↔ (keys.now ≡ places.now ∷ []) }
{
    match keys {
        [one] => same_places(one, places),
        _ => false,
    }
}

fn is_one_order(orders: &[Order]) -> bool
    ensures { IsTrue result ↔ (orders.now ≡ plain ∷ []) }
{
    match orders {
        [one] => *one == Order::PLAIN,
        _ => false,
    }
}

fn no_stamps(stamps: &Stamps) -> bool
    ensures { IsTrue result ↔ (stamps.now ≡ record { places = []; terms = []; formats = [] }) }
{
    stamps.places.is_empty() && no_terms(&stamps.terms) && stamps.formats.is_empty()
}

/// It is the table of the rows.
pub(crate) fn is_rows_table(table: &Table) -> bool
    ensures { IsTrue result ↔ (table.now ≡ rows_table) }
{
    same_text(&table.name, b"kept_rows")
        && table.tree == 0
        && are_row_columns(table.columns.as_slice())
        && table.key.is_none()
        && same_places(&table.primary, &[1, 2, 3])
        && is_one_key(table.uniques.as_slice(), &[1, 2, 3])
        && is_one_order(table.orders.as_slice())
        && no_terms(&table.checks)
        && table.references.is_empty()
        && table.computed.is_empty()
        && no_stamps(&table.stamps)
        && !table.is_counted
}

fn are_value_columns(columns: &[Column]) -> bool
    ensures { IsTrue result ↔ (columns.now ≡ values_table.columns) }
{
    match columns {
        [store, name, value] => is_column(store, b"store", Kind::Text)
            && is_column(name, b"name", Kind::Text)
            && is_column(value, b"value", Kind::Integer),
        _ => false,
    }
}

/// It is the table of the values.
pub(crate) fn is_values_table(table: &Table) -> bool
    ensures { IsTrue result ↔ (table.now ≡ values_table) }
{
    same_text(&table.name, b"kept_values")
        && table.tree == 2
        && are_value_columns(table.columns.as_slice())
        && table.key.is_none()
        && same_places(&table.primary, &[1, 2])
        && is_one_key(table.uniques.as_slice(), &[1, 2])
        && is_one_order(table.orders.as_slice())
        && no_terms(&table.checks)
        && table.references.is_empty()
        && table.computed.is_empty()
        && no_stamps(&table.stamps)
        && !table.is_counted
}

pub(crate) fn is_index(index: &Index, name: &[u8], tree: u32, table: u32, columns: &[usize]) -> bool
    ensures { IsTrue result ↔ (index.now ≡ record { name = name.now; tree = tree; table = table; columns = columns.now; order = plain; is_unique = true }) }
{
    same_text(&index.name, name)
        && index.tree == tree
        && index.table == table
        && same_places(&index.columns, columns)
        && index.order == Order::PLAIN
        && index.is_unique
}

fn are_tables(tables: &[Table]) -> bool
    ensures { IsTrue result ↔ (tables.now ≡ kept_schema.tables) }
{
    match tables {
        [rows, values] => is_rows_table(rows) && is_values_table(values),
        _ => false,
    }
}

fn are_indexes(indexes: &[Index]) -> bool
    ensures { IsTrue result ↔ (indexes.now ≡ rows_index ∷ values_index ∷ []) }
{
    match indexes {
        [rows, values] => is_index(rows, b"sqlite_autoindex_kept_rows_1", 1, 0, &[1, 2, 3])
            && is_index(values, b"sqlite_autoindex_kept_values_1", 3, 2, &[1, 2]),
        _ => false,
    }
}

/// The schema has the two tables, and nothing else.
#[tactic(auto, using(crate::proofs::Texts::schema_is))]
pub(crate) fn is_kept(schema: &Schema) -> bool
    ensures { IsTrue result ↔ (schema.now ≡ kept_schema) }
{
    if !are_tables(schema.tables.as_slice()) {
        return false;
    }
    if !are_indexes(schema.indexes.as_slice()) {
        return false;
    }
    schema.views.is_empty()
}
