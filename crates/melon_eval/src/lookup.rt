//! Tables by place.
ghost use Rattle.std.specs.Prelude.{◌≡◌};
ghost use Rattle.std.specs.Option.{option_copied};
ghost use Rattle.melon_table.specs.Seen.{rows_of as all_rows};
ghost use Rattle.melon_query.specs.Tuples.{rows_of};
ghost use Rattle.melon_eval.specs.Seen.{rows_in};

use melon_table::{Table, Tables};

/// The table at a place, where there is one.
pub fn table_at(tables: &Tables, place: usize) -> Option<&Table>
    ensures { rows_in (option_copied result) ≡ rows_of place (all_rows tables.now) }
{
    if place < tables.len() {
        Some(tables.of(place))
    } else {
        None
    }
}
