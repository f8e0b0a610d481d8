//! What new values do to a row.
ghost use Rattle.std.specs.Prelude.{◌≡◌, ◌∷◌, ◌++◌, ◌<◌, ◌≤◌, [], length, slice_set, slice_get, filter, not, if◌then◌else◌, IfOk, OnOk, IsTrue, ◌↔◌};
ghost use Rattle.std.specs.List.{prefix_len};
ghost use Rattle.melon_raw.specs.Datum.{fit, datum_eq};
ghost use Rattle.melon_raw.specs.Order.{is_below};
ghost use Rattle.melon_raw.specs.Rows.{Fits, column_at, has};
ghost use Rattle.melon_change.specs.Edited.{name_at, cells_with, put_column, by_name, differs, differing, appended, status_after, row_updated};

use melon_raw::{Datum, Marks, Raw, Status, sanitise};
use melon_schema::{ColumnSchema, List, Twin};
use std::alloc::{AllocError, Global};
use std::cmp::Ordering;

/// Puts into a cell what its column keeps of a value. A place past the columns is left out.
fn put_cell(
    alloc: Global,
    columns: &[ColumnSchema],
    cells: &mut Vec<Datum>,
    place: usize,
    value: Datum,
)
    requires { length cells.old.items ≡ length columns.now }
    ensures { cells.new.items ≡ slice_set cells.old.items place (fit (column_at columns.now place) value) }
{
    if place < columns.len() {
        cells[place] = sanitise(alloc, &columns[place], value);
    }
}

/// The cells with the given values. Of a place that stands twice the first value counts.
fn cells_with(
    alloc: Global,
    columns: &[ColumnSchema],
    old: List<Datum>,
    fields: List<(usize, Datum)>,
) -> Vec<Datum>
    requires { length old ≡ length columns.now }
    ensures { result.items ≡ cells_with fields 0 columns.now old }
{
    let mut left = fields.into_vec();
    let mut cells = old.into_vec();
    while let Some((place, value)) = left.pop() {
        put_cell(alloc, columns, &mut cells, place, value);
    }
    cells
}

/// Whether a name stands before another, by their bytes.
pub fn is_below(name: &str, other: &str) -> bool
    ensures { result ≡ is_below name.now other.now }
{
    name.cmp(other) == Ordering::Less
}

/// The name of the column at a place.
pub fn name_at(columns: &[ColumnSchema], c: usize) -> &str
    ensures { result.now ≡ name_at columns.now c }
{
    match columns.get(c) {
        Some(column) => column.name.as_str(),
        None => "",
    }
}

fn stands_before(columns: &[ColumnSchema], place: usize, c: usize) -> bool
    ensures { result ≡ is_below (name_at columns.now place) (name_at columns.now c) }
{
    is_below(name_at(columns, place), name_at(columns, c))
}

/// How many of these columns, from the front on, have names before that of the column at `c`.
fn count_before(columns: &[ColumnSchema], places: &[usize], c: usize) -> usize
    ensures { result ≡ prefix_len (λ d. is_below (name_at columns.now d) (name_at columns.now c)) places.now }
{
    places
        .iter()
        .take_while(|place| stands_before(columns, **place, c))
        .count()
}

fn put_column(columns: &[ColumnSchema], places: &mut Vec<usize>, c: usize) -> Result<(), AllocError>
    ensures { OnOk result (places.new.items ≡ put_column columns.now c places.old.items) }
{
    let at = count_before(columns, places.as_slice(), c);
    places.insert(at, c)?;
    Ok(())
}

/// Puts a column in its place where its cells differ.
fn put_differing(
    columns: &[ColumnSchema],
    places: &mut Vec<usize>,
    c: usize,
    before: &Datum,
    after: &Datum,
) -> Result<(), AllocError>
    ensures { OnOk result (places.new.items ≡ (if not (datum_eq before.now after.now) then put_column columns.now c places.old.items else places.old.items)) }
{
    if before.is(after) {
        return Ok(());
    }
    put_column(columns, places, c)
}

/// The columns whose cells differ, ascending by name.
fn differing(
    alloc: Global,
    columns: &[ColumnSchema],
    before: &[Datum],
    after: &[Datum],
) -> Result<Vec<usize>, AllocError>
    requires before { length before.now ≡ length columns.now }
    requires after { length after.now ≡ length columns.now }
    ensures { IfOk result (λ places. places.items ≡ differing columns.now before.now after.now) }
{
    let mut places = Vec::new(alloc);
    for c in (0..columns.len()).rev() {
        put_differing(columns, &mut places, c, &before[c], &after[c])?;
    }
    Ok(places)
}

/// The marks, and behind them these columns, but for those that are marked.
fn appended(alloc: Global, marks: &Marks, columns: &[usize]) -> Result<Marks, AllocError>
    ensures { IfOk result (λ all. all ≡ appended marks.now columns.now) }
{
    let mut all = marks.copy(alloc)?;
    for c in columns {
        if !marks.has(*c) {
            all.push(*c)?;
        }
    }
    Ok(all)
}

fn status_after(status: Status, columns: &[usize]) -> Status
    ensures { result ≡ status_after status columns.now }
{
    match (status, columns) {
        (Status::Created, _) => Status::Created,
        (Status::Updated, _) => Status::Updated,
        (Status::Deleted, _) => Status::Deleted,
        (Status::Synced, []) => Status::Synced,
        (Status::Synced, [_, ..]) => Status::Updated,
    }
}

/// A copy of the row with the given values, by the places of their columns.
pub fn updated(
    alloc: Global,
    columns: &[ColumnSchema],
    row: &Raw,
    fields: List<(usize, Datum)>,
) -> Result<Raw, AllocError>
    requires { Fits columns.now row.now }
    ensures { IfOk result (λ after. after ≡ row_updated columns.now fields row.now) }
{
    let cells = cells_with(alloc, columns, row.cells.copy(alloc)?, fields);
    let differing = differing(alloc, columns, row.cells.as_slice(), cells.as_slice())?;
    Ok(Raw {
        id: row.id.copy(alloc)?,
        status: status_after(row.status, differing.as_slice()),
        marks: appended(alloc, &row.marks, differing.as_slice())?,
        cells: List::from_vec(cells),
    })
}
