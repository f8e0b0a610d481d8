//! Looking up the names of a query's conditions, with the first fault in order.
ghost use Rattle.std.specs.Prelude.{◌≡◌, bytes_eq};
ghost use Rattle.std.specs.Option.{option_copied};
ghost use Rattle.std.specs.List.{list_any, list_all};
ghost use Rattle.melon_schema.specs.Faults.{Gives};
ghost use Rattle.melon_schema.specs.Places.{column_named};
ghost use Rattle.melon_schema.specs.Schema.{is_words};
ghost use Rattle.melon_query.specs.Setting.{names_of};
ghost use Rattle.melon_query.specs.Kinds.{kind_of, is_same_kind, takes_kind, takes_one, takes_column, is_value_of, is_number, are_two_numbers, takes_list, takes_right, lists_null};
ghost use Rattle.melon_query.specs.Truth.{is_null};
ghost use Rattle.melon_query.specs.Reading.{col_named, right_in, compare_in, key_named, other_table, association_with, joined_by, join_with, is_within, may_stand, part_of, on_in, cond_in, conds_in, compared, all_of, any_of, join_named, joins_named};

use crate::{
    Col, Compare, CompareForm, CompareOp, Cond, CondForm, Join, QueryFault, Right, RightForm,
};
use melon_raw::Datum;
use melon_schema::{AppSchema, Association, ColumnSchema, Kind, List, TableSchema, Text, Twin};
use sqlite_items::{Items, at};
use std::alloc::Global;

// ---- columns and kinds

/// The place of the column of that name.
fn column_named(name: &str, columns: &[ColumnSchema]) -> Option<usize>
    ensures { result ≡ column_named name.now columns.now }
{
    columns.iter().position(|column| column.name.is(name))
}

pub(crate) fn col_named(name: &str, columns: &[ColumnSchema]) -> Option<Col>
    ensures { result ≡ col_named name.now columns.now }
{
    if name == "id" {
        return Some(Col::Id);
    }
    match column_named(name, columns) {
        Some(place) => Some(Col::Cell(place)),
        None => None,
    }
}

fn kind_of(column: Col, columns: &[ColumnSchema]) -> Kind
    ensures { result ≡ kind_of column columns.now }
{
    match column {
        Col::Id => Kind::Words,
        Col::Cell(place) => match at(columns, place) {
            Some(column) => column.kind,
            None => Kind::Words,
        },
    }
}

fn is_same_kind(a: Kind, b: Kind) -> bool
    ensures { result ≡ is_same_kind a b }
{
    match (a, b) {
        (Kind::Words, Kind::Words) => true,
        (Kind::Whole, Kind::Whole) => true,
        (Kind::Truth, Kind::Truth) => true,
        _ => false,
    }
}

fn takes_kind(op: CompareOp, kind: Kind) -> bool
    ensures { result ≡ takes_kind op kind }
{
    match op {
        CompareOp::Eq | CompareOp::NotEq | CompareOp::OneOf | CompareOp::NotIn => true,
        CompareOp::Gt | CompareOp::Gte | CompareOp::WeakGt | CompareOp::Lt | CompareOp::Lte =>
            !is_same_kind(kind, Kind::Truth),
        CompareOp::Between => is_same_kind(kind, Kind::Whole),
        CompareOp::Like | CompareOp::NotLike | CompareOp::Includes => {
            is_same_kind(kind, Kind::Words)
        }
    }
}

fn takes_one(op: CompareOp) -> bool
    ensures { result ≡ takes_one op }
{
    match op {
        CompareOp::Between | CompareOp::OneOf | CompareOp::NotIn => false,
        CompareOp::Eq
        | CompareOp::NotEq
        | CompareOp::Gt
        | CompareOp::Gte
        | CompareOp::WeakGt
        | CompareOp::Lt
        | CompareOp::Lte
        | CompareOp::Like
        | CompareOp::NotLike
        | CompareOp::Includes => true,
    }
}

fn takes_column(op: CompareOp) -> bool
    ensures { result ≡ takes_column op }
{
    match op {
        CompareOp::Eq
        | CompareOp::NotEq
        | CompareOp::Gt
        | CompareOp::Gte
        | CompareOp::WeakGt
        | CompareOp::Lt
        | CompareOp::Lte => true,
        CompareOp::Between
        | CompareOp::OneOf
        | CompareOp::NotIn
        | CompareOp::Like
        | CompareOp::NotLike
        | CompareOp::Includes => false,
    }
}

// ---- right sides

fn is_null(value: &Datum) -> bool
    ensures { result ≡ is_null value.now }
{
    match value {
        Datum::Null => true,
        Datum::Words(_) | Datum::Whole(_) | Datum::Truth(_) => false,
    }
}

fn is_value_of(kind: Kind, value: &Datum) -> bool
    ensures { result ≡ is_value_of kind value.now }
{
    match value {
        Datum::Null => true,
        Datum::Words(_) => is_same_kind(kind, Kind::Words),
        Datum::Whole(_) => is_same_kind(kind, Kind::Whole),
        Datum::Truth(_) => is_same_kind(kind, Kind::Truth),
    }
}

fn is_number(value: &Datum) -> bool
    ensures { result ≡ is_number value.now }
{
    match value {
        Datum::Whole(_) => true,
        Datum::Null | Datum::Words(_) | Datum::Truth(_) => false,
    }
}

fn are_two_numbers(values: &[Datum]) -> bool
    ensures { result ≡ are_two_numbers values.now }
{
    match values {
        [low, high] => is_number(low) && is_number(high),
        _ => false,
    }
}

fn are_values_of(kind: Kind, values: &[Datum]) -> bool
    ensures { result ≡ list_all (is_value_of kind) values.now }
{
    values.iter().all(|value| is_value_of(kind, value))
}

fn takes_list(op: CompareOp, kind: Kind, values: &[Datum]) -> bool
    ensures { result ≡ takes_list op kind values.now }
{
    match op {
        CompareOp::Between => are_two_numbers(values),
        CompareOp::OneOf | CompareOp::NotIn => are_values_of(kind, values),
        CompareOp::Eq
        | CompareOp::NotEq
        | CompareOp::Gt
        | CompareOp::Gte
        | CompareOp::WeakGt
        | CompareOp::Lt
        | CompareOp::Lte
        | CompareOp::Like
        | CompareOp::NotLike
        | CompareOp::Includes => false,
    }
}

fn takes_right(op: CompareOp, kind: Kind, columns: &[ColumnSchema], right: &Right) -> bool
    ensures { result ≡ takes_right op kind columns.now right.now }
{
    match right {
        Right::One(value) => takes_one(op) && is_value_of(kind, value),
        Right::Many(values) => takes_list(op, kind, values.as_slice()),
        Right::Other(column) => {
            takes_column(op) && is_same_kind(kind, kind_of(*column, columns))
        }
    }
}

fn have_null(values: &[Datum]) -> bool
    ensures { result ≡ list_any is_null values.now }
{
    values.iter().any(is_null)
}

fn lists_null(right: &Right) -> bool
    ensures { result ≡ lists_null right.now }
{
    match right {
        Right::One(_) | Right::Other(_) => false,
        Right::Many(values) => have_null(values.as_slice()),
    }
}

// ---- comparisons

fn right_in(alloc: Global, columns: &[ColumnSchema], form: &RightForm) -> Result<Right, QueryFault>
    ensures { Gives QueryFault.Memory result (right_in columns.now form.now) }
{
    match form {
        RightForm::One(value) => Ok(Right::One(value.copy(alloc)?)),
        RightForm::Many(values) => Ok(Right::Many(values.copy(alloc)?)),
        RightForm::Other(name) => match col_named(name.as_str(), columns) {
            Some(column) => Ok(Right::Other(column)),
            None => Err(QueryFault::UnknownColumn),
        },
    }
}

#[tactic(auto, unfolding(crate::specs::Reading::compare_in))]
fn compare_in(
    alloc: Global,
    columns: &[ColumnSchema],
    form: &CompareForm,
) -> Result<Compare, QueryFault>
    ensures { Gives QueryFault.Memory result (compare_in columns.now form.now) }
{
    let column = col_named(form.column.as_str(), columns).ok_or(QueryFault::UnknownColumn)?;
    let right = right_in(alloc, columns, &form.right)?;
    let kind = kind_of(column, columns);
    if !(takes_kind(form.op, kind) && takes_right(form.op, kind, columns, &right)) {
        return Err(QueryFault::WrongKind);
    }
    if lists_null(&right) {
        return Err(QueryFault::NullInList);
    }
    Ok(Compare {
        column,
        op: form.op,
        right,
    })
}

// ---- associations

fn is_words(kind: Kind) -> bool
    ensures { result ≡ is_words kind }
{
    match kind {
        Kind::Words => true,
        Kind::Whole | Kind::Truth => false,
    }
}

fn key_named(name: &str, columns: &[ColumnSchema]) -> Option<usize>
    ensures { result ≡ key_named name.now columns.now }
{
    columns
        .iter()
        .position(|column| column.name.is(name) && is_words(column.kind))
}

fn is_with(association: &Association, name: &str) -> bool
    ensures { result ≡ bytes_eq (other_table association.now) name.now }
{
    match association {
        Association::BelongsTo { table, key: _ } => table.is(name),
        Association::HasMany { table, key: _ } => table.is(name),
    }
}

fn association_with<'a>(name: &str, associations: &'a [Association]) -> Option<&'a Association>
    ensures { option_copied result ≡ association_with name.now associations.now }
{
    associations
        .iter()
        .find(|association| is_with(association, name))
}

fn joined_by(own: &TableSchema, other: &TableSchema, association: &Association) -> Option<Join>
    ensures { result ≡ joined_by own.now other.now association.now }
{
    match association {
        Association::BelongsTo { table: _, key } => {
            key_named(key.as_str(), own.columns.as_slice()).map(Join::OwnKey)
        }
        Association::HasMany { table: _, key } => {
            key_named(key.as_str(), other.columns.as_slice()).map(Join::TheirKey)
        }
    }
}

/// How a table is associated with another, which has that name: by a key of its own, or by one of the other's.
pub fn join_with(own: &TableSchema, other: &TableSchema, name: &str) -> Option<Join>
    ensures { result ≡ join_with own.now other.now name.now }
{
    match association_with(name, own.associations.as_slice()) {
        Some(association) => joined_by(own, other, association),
        None => None,
    }
}

/// Tells where a table isn't declared, or isn't associated with the main one.
#[tactic(auto, unfolding(crate::specs::Reading::join_named))]
fn join_named(schema: &AppSchema, main: &TableSchema, name: &str) -> Result<(), QueryFault>
    ensures { Gives QueryFault.Memory result (join_named schema.now.tables main.now name.now) }
{
    let other = schema.named(name).ok_or(QueryFault::UnknownTable)?;
    if join_with(main, other, name).is_none() {
        return Err(QueryFault::NoAssociation);
    }
    Ok(())
}

pub(crate) fn joins_named(
    schema: &AppSchema,
    main: &TableSchema,
    names: &[Text],
) -> Result<(), QueryFault>
    ensures { Gives QueryFault.Memory result (joins_named schema.now.tables main.now names.now) }
{
    for name in names {
        join_named(schema, main, name.as_str())?;
    }
    Ok(())
}

// ---- conditions

/// What stands above a condition: nothing, `and` or `or` alone, or an `on`.
#[derive(Clone, Copy, Debug, PartialEq, Eq)]
pub enum Reach {
    Top,
    Below,
    Within,
}

/// What the names in the conditions of a query speak of.
#[derive(Clone, Copy)]
pub(crate) struct Setting<'a> {
    pub schema: &'a AppSchema,
    pub main: &'a TableSchema,
    pub joins: &'a [Text],
}

fn is_within(reach: Reach) -> bool
    ensures { result ≡ is_within reach }
{
    match reach {
        Reach::Top | Reach::Below => false,
        Reach::Within => true,
    }
}

fn is_one_of(name: &str, names: &[Text]) -> bool
    ensures { result ≡ list_any (λ n. bytes_eq n name.now) names.now }
{
    names.iter().any(|other| other.is(name))
}

fn may_stand(reach: Reach, table: &str, joins: &[Text]) -> bool
    ensures { result ≡ may_stand reach table.now joins.now }
{
    match reach {
        Reach::Top => true,
        Reach::Below => is_one_of(table, joins),
        Reach::Within => false,
    }
}

fn part_of(reach: Reach) -> Reach
    ensures { result ≡ part_of reach }
{
    match reach {
        Reach::Top | Reach::Below => Reach::Below,
        Reach::Within => Reach::Within,
    }
}

fn compared(alloc: Global, columns: &[ColumnSchema], form: &CompareForm) -> Result<Cond, QueryFault>
    ensures { Gives QueryFault.Memory result (compared columns.now form.now) }
{
    Ok(Cond::Compare(compare_in(alloc, columns, form)?))
}

#[cycle(reading)]
#[tactic(auto, using(crate::proofs::Readings::equations))]
fn cond_in(
    alloc: Global,
    setting: Setting<'_>,
    form: &CondForm,
    columns: &[ColumnSchema],
    reach: Reach,
) -> Result<Cond, QueryFault>
    ensures { Gives QueryFault.Memory result (cond_in (names_of setting.entry) form.now columns.now reach) }
{
    match form {
        CondForm::Compare(by) => compared(alloc, columns, by),
        CondForm::All(parts) => all_in(alloc, setting, parts.as_slice(), columns, part_of(reach)),
        CondForm::Any(parts) => any_in(alloc, setting, parts.as_slice(), columns, part_of(reach)),
        CondForm::On { table, conds } => {
            on_in(alloc, setting, table.as_str(), reach, conds.as_slice())
        }
    }
}

#[cycle(reading)]
fn all_in(
    alloc: Global,
    setting: Setting<'_>,
    forms: &[CondForm],
    columns: &[ColumnSchema],
    reach: Reach,
) -> Result<Cond, QueryFault>
    ensures { Gives QueryFault.Memory result (all_of (conds_in (names_of setting.entry) forms.now columns.now reach)) }
{
    let conds = conds_in(alloc, setting, forms, columns, reach)?;
    Ok(Cond::All(Items::from_vec(conds.into_vec())))
}

#[cycle(reading)]
fn any_in(
    alloc: Global,
    setting: Setting<'_>,
    forms: &[CondForm],
    columns: &[ColumnSchema],
    reach: Reach,
) -> Result<Cond, QueryFault>
    ensures { Gives QueryFault.Memory result (any_of (conds_in (names_of setting.entry) forms.now columns.now reach)) }
{
    let conds = conds_in(alloc, setting, forms, columns, reach)?;
    Ok(Cond::Any(Items::from_vec(conds.into_vec())))
}

#[cycle(reading)]
#[tactic(auto, unfolding(crate::specs::Reading::on_in, crate::specs::Reading::on_by))]
fn on_in(
    alloc: Global,
    setting: Setting<'_>,
    table: &str,
    reach: Reach,
    parts: &[CondForm],
) -> Result<Cond, QueryFault>
    ensures { Gives QueryFault.Memory result (on_in (names_of setting.entry) table.now reach parts.now) }
{
    if is_within(reach) {
        return Err(QueryFault::Form);
    }
    let place = setting.schema.table(table).ok_or(QueryFault::UnknownTable)?;
    let other = setting.schema.named(table).ok_or(QueryFault::UnknownTable)?;
    let join = join_with(setting.main, other, table).ok_or(QueryFault::NoAssociation)?;
    if !may_stand(reach, table, setting.joins) {
        return Err(QueryFault::UndeclaredJoin);
    }
    let conds = conds_in(
        alloc,
        setting,
        parts,
        other.columns.as_slice(),
        Reach::Within,
    )?;
    Ok(Cond::On {
        table: place,
        join,
        conds: Items::from_vec(conds.into_vec()),
    })
}

#[cycle(reading)]
#[tactic(auto, unfolding(crate::specs::Reading::conds_in))]
pub(crate) fn conds_in(
    alloc: Global,
    setting: Setting<'_>,
    forms: &[CondForm],
    columns: &[ColumnSchema],
    reach: Reach,
) -> Result<List<Cond>, QueryFault>
    ensures { Gives QueryFault.Memory result (conds_in (names_of setting.entry) forms.now columns.now reach) }
{
    let mut conds = List::new(alloc);
    for form in forms {
        conds.push(cond_in(alloc, setting, form, columns, reach)?)?;
    }
    Ok(conds)
}
