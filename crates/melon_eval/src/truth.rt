//! When a comparison is true of a row.
ghost use Rattle.std.specs.Prelude.{◌≡◌};
ghost use Rattle.melon_query.specs.Truth.{is_null, is_same, is_greater, is_less, are_both, is_like, includes, is_true_of, is_between, is_true_of_list, is_true_of_right, compares};
ghost use Rattle.std.specs.List.{list_any};
ghost use Rattle.melon_eval.specs.Seen.{datum_of};

use crate::like::is_like;
use crate::value::{Value, value_at, value_of};
use melon_query::{Compare, CompareOp, Right};
use melon_raw::{Datum, Raw};

impl Value<'_> {
    fn is_null(self) -> bool
        ensures { result ≡ is_null (datum_of self.entry) }
    {
        match self {
            Value::Null => true,
            Value::Words(_) | Value::Whole(_) | Value::Truth(_) => false,
        }
    }

    fn is_same(self, other: Value<'_>) -> bool
        ensures { result ≡ is_same (datum_of self.entry) (datum_of other.entry) }
    {
        self.compare(other).is_eq()
    }

    fn is_greater(self, other: Value<'_>) -> bool
        ensures { result ≡ is_greater (datum_of self.entry) (datum_of other.entry) }
    {
        self.compare(other).is_gt()
    }

    fn is_less(self, other: Value<'_>) -> bool
        ensures { result ≡ is_less (datum_of self.entry) (datum_of other.entry) }
    {
        self.compare(other).is_lt()
    }

    fn is_like(self, pattern: Value<'_>) -> bool
        ensures { result ≡ is_like (datum_of self.entry) (datum_of pattern.entry) }
    {
        match (self, pattern) {
            (Value::Words(text), Value::Words(pattern)) => is_like(text, pattern),
            _ => false,
        }
    }

    fn includes(self, part: Value<'_>) -> bool
        ensures { result ≡ includes (datum_of self.entry) (datum_of part.entry) }
    {
        match (self, part) {
            (Value::Words(text), Value::Words(part)) => text.contains(part),
            _ => false,
        }
    }
}

/// Whether neither is null.
fn are_both(left: Value<'_>, right: Value<'_>) -> bool
    ensures { result ≡ are_both (datum_of left.entry) (datum_of right.entry) }
{
    !left.is_null() && !right.is_null()
}

fn is_true_of(op: CompareOp, left: Value<'_>, right: Value<'_>) -> bool
    ensures { result ≡ is_true_of op (datum_of left.entry) (datum_of right.entry) }
{
    match op {
        CompareOp::Eq => left.is_same(right),
        CompareOp::NotEq => !left.is_same(right),
        CompareOp::Gt => are_both(left, right) && left.is_greater(right),
        CompareOp::Gte => are_both(left, right) && !left.is_less(right),
        CompareOp::WeakGt => !left.is_null() && (right.is_null() || left.is_greater(right)),
        CompareOp::Lt => are_both(left, right) && left.is_less(right),
        CompareOp::Lte => are_both(left, right) && !left.is_greater(right),
        CompareOp::Like => left.is_like(right),
        CompareOp::NotLike => are_both(left, right) && !left.is_like(right),
        CompareOp::Includes => left.includes(right),
        CompareOp::Between | CompareOp::OneOf | CompareOp::NotIn => false,
    }
}

fn is_in(left: Value<'_>, values: &[Datum]) -> bool
    ensures { result ≡ list_any (is_same (datum_of left.entry)) values.now }
{
    values.iter().any(|value| left.is_same(value_of(value)))
}

fn is_between(left: Value<'_>, bounds: &[Datum]) -> bool
    ensures { result ≡ is_between (datum_of left.entry) bounds.now }
{
    match bounds {
        [low, high] => {
            !left.is_null() && !left.is_less(value_of(low)) && !left.is_greater(value_of(high))
        }
        _ => false,
    }
}

fn is_true_of_list(op: CompareOp, left: Value<'_>, values: &[Datum]) -> bool
    ensures { result ≡ is_true_of_list op (datum_of left.entry) values.now }
{
    match op {
        CompareOp::Between => is_between(left, values),
        CompareOp::OneOf => !left.is_null() && is_in(left, values),
        CompareOp::NotIn => !left.is_null() && !is_in(left, values),
        CompareOp::Eq
        | CompareOp::NotEq
        | CompareOp::Gt
        | CompareOp::Gte
        | CompareOp::WeakGt
        | CompareOp::Lt
        | CompareOp::Lte
        | CompareOp::Like
        | CompareOp::NotLike
        | CompareOp::Includes => false,
    }
}

fn is_true_of_right(op: CompareOp, left: Value<'_>, right: &Right, row: &Raw) -> bool
    ensures { result ≡ is_true_of_right op (datum_of left.entry) right.now row.now }
{
    match right {
        Right::One(value) => is_true_of(op, left, value_of(value)),
        Right::Many(values) => is_true_of_list(op, left, values.as_slice()),
        Right::Other(column) => is_true_of(op, left, value_at(*column, row)),
    }
}

/// Whether a comparison is true of a row.
#[tactic(auto, unfolding(melon_query::specs::Truth::compares))]
pub fn compares(by: &Compare, row: &Raw) -> bool
    ensures { result ≡ compares by.now row.now }
{
    is_true_of_right(by.op, value_at(by.column, row), &by.right, row)
}
