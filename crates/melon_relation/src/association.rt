//! The keys of declared associations.
ghost use Rattle.std.specs.Prelude.{◌≡◌, slice_get};
ghost use Rattle.std.specs.Option.{option_copied};
ghost use Rattle.melon_relation.specs.Relations.{association, own_key, their_key, parent_key, child_key};

use melon_query::{Join, join_with};
use melon_schema::{AppSchema, TableSchema};

/// The table declared at a place, where there is one.
fn declared(schema: &AppSchema, place: usize) -> Option<&TableSchema>
    ensures { option_copied result ≡ slice_get schema.now.tables place }
{
    if place < schema.len() {
        Some(schema.at(place))
    } else {
        None
    }
}

fn association_of(schema: &AppSchema, table: usize, to: usize) -> Option<Join>
    ensures { result ≡ association schema.now.tables table to }
{
    match declared(schema, table) {
        Some(own) => match declared(schema, to) {
            Some(other) => join_with(own, other, other.name.as_str()),
            None => None,
        },
        None => None,
    }
}

/// The key column of a table whose rows belong to those of the other.
pub fn parent_key(schema: &AppSchema, table: usize, to: usize) -> Option<usize>
    ensures { result ≡ parent_key schema.now.tables table to }
{
    match association_of(schema, table, to) {
        Some(Join::OwnKey(column)) => Some(column),
        Some(Join::TheirKey(_)) => None,
        None => None,
    }
}

/// The key column of the other table, whose rows a row of this one has.
pub fn child_key(schema: &AppSchema, table: usize, to: usize) -> Option<usize>
    ensures { result ≡ child_key schema.now.tables table to }
{
    match association_of(schema, table, to) {
        Some(Join::OwnKey(_)) => None,
        Some(Join::TheirKey(column)) => Some(column),
        None => None,
    }
}
