//! Tests of what a keeper in memory may be made with.

ghost use Rattle.std.specs.Prelude.{◌≡◌, not, bytes_eq};
ghost use Rattle.std.specs.List.{list_all};
ghost use Rattle.std.specs.Ordering.{is_lt};
ghost use Rattle.melon_outside.specs.Ascending.{ascends};
ghost use Rattle.melon_outside.specs.Kept.{key_cmp, key_of, name_of, text_cmp, is_in_order};
ghost use Rattle.melon_outside.specs.Keeping.{are_stores};

use crate::kept::{Kept, KeptRow, KeptStore, KeptValue};

fn is_row_below(row: &KeptRow, next: &KeptRow) -> bool
    ensures { result ≡ is_lt (key_cmp (key_of row.now) (key_of next.now)) }
{
    let tables = row.table.as_str().cmp(next.table.as_str());
    tables.then(row.id.as_str().cmp(next.id.as_str())).is_lt()
}

fn do_rows_ascend(rows: &[KeptRow]) -> bool
    ensures { result ≡ ascends key_cmp key_of rows.now }
{
    let mut rest = rows;
    while let Some((row, later)) = rest.split_first() {
        if let Some(next) = later.first()
            && !is_row_below(row, next)
        {
            return false;
        }
        rest = later;
    }
    true
}

fn is_value_below(value: &KeptValue, next: &KeptValue) -> bool
    ensures { result ≡ is_lt (text_cmp (name_of value.now) (name_of next.now)) }
{
    value.name.as_str().cmp(next.name.as_str()).is_lt()
}

fn do_values_ascend(values: &[KeptValue]) -> bool
    ensures { result ≡ ascends text_cmp name_of values.now }
{
    let mut rest = values;
    while let Some((value, later)) = rest.split_first() {
        if let Some(next) = later.first()
            && !is_value_below(value, next)
        {
            return false;
        }
        rest = later;
    }
    true
}

impl Kept {
    ghost use Rattle.std.specs.Prelude.{◌≡◌};
    ghost use Rattle.melon_outside.specs.Kept.{is_in_order};

    /// Whether the rows ascend by table and id, and the values by name, none of them twice.
    pub fn is_in_order(&self) -> bool
        ensures { result ≡ is_in_order self.now }
    {
        do_rows_ascend(self.rows.as_slice()) && do_values_ascend(self.values.as_slice())
    }
}

fn is_new_name(store: &KeptStore, others: &[KeptStore]) -> bool
    ensures { result ≡ list_all (λ t. not (bytes_eq store.now.name t.name)) others.now }
{
    others
        .iter()
        .all(|other| !store.name.is(other.name.as_str()))
}

/// Whether a keeper in memory can be made with these stores: their names differ, and what is kept
/// of each is in order.
pub fn are_stores(stores: &[KeptStore]) -> bool
    ensures { result ≡ are_stores stores.now }
{
    match stores.split_first() {
        Some((store, others)) => {
            is_new_name(store, others) && (store.kept.is_in_order() && are_stores(others))
        }
        None => true,
    }
}
