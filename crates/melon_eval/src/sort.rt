//! The order of an answer.
ghost use Rattle.std.specs.Prelude.{◌≡◌, OnOk, map};
ghost use Rattle.melon_query.specs.Order.{key_cmp, row_cmp, in_order, comes_before};
ghost use Rattle.melon_eval.specs.Seen.{rows_at};

use crate::value::value_at;
use melon_query::SortKey;
use melon_raw::Raw;
use std::alloc::AllocError;
use std::cmp::Ordering;

/// Compares by one column. Descending reverses it, null included.
fn compare_by(key: &SortKey, a: &Raw, b: &Raw) -> Ordering
    ensures { result ≡ key_cmp key.now a.now b.now }
{
    let (a, b) = (value_at(key.column, a), value_at(key.column, b));
    if key.descending {
        b.compare(a)
    } else {
        a.compare(b)
    }
}

/// Compares by the sort columns in their order, and then by id.
fn compare_rows(keys: &[SortKey], a: &Raw, b: &Raw) -> Ordering
    ensures { result ≡ row_cmp keys.now a.now b.now }
{
    for key in keys {
        let ordering = compare_by(key, a, b);
        if ordering.is_ne() {
            return ordering;
        }
    }
    a.id.as_str().cmp(b.id.as_str())
}

/// Whether a row comes before another.
pub fn comes_before(keys: &[SortKey], a: &Raw, b: &Raw) -> bool
    ensures { result ≡ comes_before keys.now a.now b.now }
{
    compare_rows(keys, a, b).is_lt()
}

/// Puts rows in the order of an answer.
pub fn sort_rows(rows: &mut Vec<&Raw>, keys: &[SortKey]) -> Result<(), AllocError>
    ensures { OnOk result (rows_at rows.new.items ≡ in_order (comes_before keys.now) (rows_at rows.old.items)) }
{
    rows.sort_by(|a, b| compare_rows(keys, a, b))
}
