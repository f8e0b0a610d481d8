//! What becomes of a record that is listed.
ghost use Rattle.std.specs.Prelude.{◌≡◌, IfOk};
ghost use Rattle.std.specs.Option.{option_copied, ForSome};
ghost use Rattle.melon_raw.specs.Rows.{Fits};
ghost use Rattle.melon_wire.specs.Fates.{fate};
ghost use Rattle.melon_wire.specs.Resolution.{row_resolved, row_born};
ghost use Rattle.melon_pull.specs.Listing.{row_after, standing_seen};

use crate::listed::{InList, Listed};
use crate::resolution::{born, resolved};
use melon_raw::{OpField, Raw};
use melon_schema::ColumnSchema;
use std::alloc::{AllocError, Global};

/// What becomes of a record's row: it stays as it is, it goes, or it becomes another, which may be equal to it.
#[derive(Debug, Drop)]
pub enum Fate {
    Stays,
    Gone,
    Becomes(Raw),
}

fn resolved_fate(
    alloc: Global,
    columns: &[ColumnSchema],
    row: &Raw,
    fields: &[OpField],
) -> Result<Fate, AllocError>
    requires { Fits columns.now row.now }
    ensures { IfOk result (λ fate. fate ≡ Fate.Becomes (row_resolved columns.now row.now fields.now)) }
{
    Ok(Fate::Becomes(resolved(alloc, columns, row, fields)?))
}

fn born_fate(
    alloc: Global,
    columns: &[ColumnSchema],
    one: &Listed<'_>,
    fields: &[OpField],
) -> Result<Fate, AllocError>
    ensures { IfOk result (λ fate. fate ≡ Fate.Becomes (row_born columns.now one.now.id.now fields.now)) }
{
    Ok(Fate::Becomes(born(alloc, columns, one.id, fields)?))
}

/// The fate of a listed record by the row that it meets.
pub(crate) fn fate_of(
    alloc: Global,
    columns: &[ColumnSchema],
    one: &Listed<'_>,
    before: Option<&Raw>,
) -> Result<Fate, AllocError>
    requires { ForSome before (λ row. Fits columns.now row.now) }
    ensures { IfOk result (λ to. row_after to (option_copied before.entry) ≡ fate columns.now one.now.id.now (option_copied before.entry) (standing_seen one.now.list)) }
{
    match (one.list, before) {
        (InList::Created(fields), None) => born_fate(alloc, columns, one, fields),
        (InList::Created(fields), Some(row)) => {
            if row.is_visible() {
                resolved_fate(alloc, columns, row, fields)
            } else {
                born_fate(alloc, columns, one, fields)
            }
        }
        (InList::Updated(fields), None) => born_fate(alloc, columns, one, fields),
        (InList::Updated(fields), Some(row)) => {
            if row.is_visible() {
                resolved_fate(alloc, columns, row, fields)
            } else {
                Ok(Fate::Stays)
            }
        }
        (InList::Deleted, None) => Ok(Fate::Stays),
        (InList::Deleted, Some(_)) => Ok(Fate::Gone),
    }
}
