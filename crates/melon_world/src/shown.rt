//! What is shown of observers and relations.
ghost use Rattle.std.specs.Prelude.{◌≡◌, map, IfOk};
ghost use Rattle.melon_raw.specs.Encoding.{encoding};
ghost use Rattle.melon_raw.specs.Rows.{column_at, table_at};
ghost use Rattle.melon_machine.specs.Showing.{field_of, fields_of, given_row, given_emission, given_parent};
ghost use Rattle.melon_views.specs.Members.{columns_of};

use melon_raw::{Datum, OpField, Raw};
use melon_schema::{AppSchema, ColumnSchema, List, TableSchema, Text, Twin};
use melon_script::{Given, GivenRow};
use melon_views::{Emission, Parent, Shape, Shown};
use std::alloc::{AllocError, Global};

/// The columns of the table at a place; past the last table there are none.
pub fn columns_at(schema: &AppSchema, place: usize) -> &[ColumnSchema]
    ensures { result.now ≡ (table_at schema.now.tables place).columns }
{
    if place < schema.len() {
        schema.at(place).columns.as_slice()
    } else {
        &[]
    }
}

/// The name of the column at a place; past the last column it is empty.
fn name_at(alloc: Global, columns: &[ColumnSchema], place: usize) -> Result<Text, AllocError>
    ensures { IfOk result (λ name. name ≡ (column_at columns.now place).name) }
{
    match columns.get(place) {
        Some(column) => column.name.copy(alloc),
        None => Ok(Text::empty(alloc)),
    }
}

fn field_of(
    alloc: Global,
    columns: &[ColumnSchema],
    place: usize,
    cell: &Datum,
) -> Result<OpField, AllocError>
    ensures { IfOk result (λ field. field ≡ field_of columns.now place cell.now) }
{
    Ok(OpField {
        column: name_at(alloc, columns, place)?,
        value: cell.copy(alloc)?,
    })
}

/// Each cell under the name of its column.
fn fields_of(
    alloc: Global,
    columns: &[ColumnSchema],
    places: &[usize],
    cells: &[Datum],
) -> Result<List<OpField>, AllocError>
    ensures { IfOk result (λ fields. fields ≡ fields_of columns.now places.now cells.now) }
{
    let mut fields = List::new(alloc);
    for (place, cell) in places.iter().zip(cells) {
        fields.push(field_of(alloc, columns, *place, cell)?)?;
    }
    Ok(fields)
}

fn given_row(
    alloc: Global,
    columns: &[ColumnSchema],
    places: &[usize],
    row: Shown,
) -> Result<GivenRow, AllocError>
    ensures { IfOk result (λ given. given ≡ given_row columns.now places.now row) }
{
    Ok(GivenRow {
        fields: fields_of(alloc, columns, places, row.cells.as_slice())?,
        id: row.id,
    })
}

fn given_rows(
    alloc: Global,
    columns: &[ColumnSchema],
    places: &[usize],
    rows: List<Shown>,
) -> Result<List<GivenRow>, AllocError>
    ensures { IfOk result (λ given. given ≡ map (given_row columns.now places.now) rows) }
{
    let mut given = List::new(alloc);
    for row in rows.into_vec() {
        given.push(given_row(alloc, columns, places, row)?)?;
    }
    Ok(given)
}

/// The places of the columns that a shape names.
fn columns_of(shape: &Shape) -> &[usize]
    ensures { result.now ≡ columns_of shape.now }
{
    match shape {
        Shape::Ids => &[],
        Shape::Columns(places) => places.as_slice(),
    }
}

/// An emission over a table of these columns, as it is printed.
pub fn given_emission(
    alloc: Global,
    columns: &[ColumnSchema],
    shape: &Shape,
    emission: Emission,
) -> Result<Given, AllocError>
    ensures { IfOk result (λ given. given ≡ given_emission columns.now shape.now emission) }
{
    match emission {
        Emission::Ids(ids) => Ok(Given::Ids(ids)),
        Emission::Rows(rows) => {
            let places = columns_of(shape);
            Ok(Given::Rows(given_rows(alloc, columns, places, rows)?))
        }
    }
}

/// The encoding of a row of the table at a place; past the last table there are no columns.
fn encoded(
    alloc: Global,
    schema: &AppSchema,
    place: usize,
    row: &Raw,
) -> Result<List<u8>, AllocError>
    ensures { IfOk result (λ body. body ≡ encoding (table_at schema.now.tables place) row.now) }
{
    if place < schema.len() {
        return Ok(List::from_vec(row.encode(alloc, schema.at(place))?));
    }
    let undeclared = TableSchema {
        name: Text::empty(alloc),
        columns: List::new(alloc),
        associations: List::new(alloc),
    };
    Ok(List::from_vec(row.encode(alloc, &undeclared)?))
}

/// What a relation to a row of the table at a place gives, as it is printed.
pub fn given_parent(
    alloc: Global,
    schema: &AppSchema,
    place: usize,
    parent: &Parent,
) -> Result<Given, AllocError>
    ensures { IfOk result (λ given. given ≡ given_parent (table_at schema.now.tables place) parent.now) }
{
    match parent {
        Parent::Nothing => Ok(Given::Nothing),
        Parent::Missing => Ok(Given::Missing),
        Parent::Row(row) => Ok(Given::Row(encoded(alloc, schema, place, row)?)),
    }
}
