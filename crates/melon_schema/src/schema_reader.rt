//! Reading a schema: its form, then its faults in their order.
ghost use Rattle.std.specs.Prelude.{◌≡◌, ◌&&◌, [], nat_le, length, bytes_eq, not};
ghost use Rattle.std.specs.List.{list_all, list_any};
ghost use Rattle.serde_json.specs.View.{view};
ghost use Rattle.melon_schema.specs.Faults.{Gives, in_turn, or_fault, unless};
ghost use Rattle.melon_schema.specs.SchemaForm.{schema_form};
ghost use Rattle.melon_schema.specs.Schema.{is_within_limits, kind_named, with_column, with_table, is_words, has_text_column, is_association, are_associations, schema_of};

use crate::names::{Named, has_name, is_name, is_reserved_column, is_reserved_table};
use crate::reader::FromJson;
use crate::schema_form::{ColumnForm, SchemaForm, TableForm};
use crate::{AppSchema, Association, ColumnSchema, Kind, List, Refusal, SchemaFault, TableSchema};
use serde_json::Value;
use std::alloc::Global;

fn schema_form(alloc: Global, json: &Value) -> Result<SchemaForm, SchemaFault>
    ensures { Gives SchemaFault.Memory result (or_fault (schema_form (view json.now)) SchemaFault.Form) }
{
    match SchemaForm::from_json(alloc, json) {
        Ok(form) => Ok(form),
        Err(Refusal::Form) => Err(SchemaFault::Form),
        Err(Refusal::Memory) => Err(SchemaFault::Memory),
    }
}

// ---- limits

fn have_few_columns(tables: &[TableForm]) -> bool
    ensures { result ≡ list_all (λ t. nat_le (length t.columns) 64) tables.now }
{
    tables.iter().all(|table| table.columns.len() <= 64)
}

fn is_within_limits(form: &SchemaForm) -> bool
    ensures { result ≡ is_within_limits form.now }
{
    form.tables.len() <= 64 && have_few_columns(form.tables.as_slice())
}

// ---- columns

fn kind_named(word: &str) -> Result<Kind, SchemaFault>
    ensures { Gives SchemaFault.Memory result (or_fault (kind_named word.now) SchemaFault.UnknownKind) }
{
    match word {
        "string" => Ok(Kind::Words),
        "number" => Ok(Kind::Whole),
        "boolean" => Ok(Kind::Truth),
        _ => Err(SchemaFault::UnknownKind),
    }
}

#[tactic(auto, unfolding(crate::specs::Schema::with_column))]
fn with_column(
    mut columns: List<ColumnSchema>,
    form: ColumnForm,
) -> Result<List<ColumnSchema>, SchemaFault>
    ensures { Gives SchemaFault.Memory result (with_column columns form) }
{
    if !is_name(form.name.as_str()) {
        return Err(SchemaFault::BadName);
    }
    if is_reserved_column(form.name.as_str()) {
        return Err(SchemaFault::Reserved);
    }
    if has_name(columns.as_slice(), form.name.as_str()) {
        return Err(SchemaFault::Repeated);
    }
    let kind = kind_named(form.word.as_str())?;
    columns.push(ColumnSchema {
        name: form.name,
        kind,
        optional: form.optional,
        indexed: form.indexed,
    })?;
    Ok(columns)
}

fn columns_of(alloc: Global, forms: List<ColumnForm>) -> Result<List<ColumnSchema>, SchemaFault>
    ensures { Gives SchemaFault.Memory result (in_turn with_column [] forms) }
{
    let mut columns = List::new(alloc);
    for form in forms.into_vec() {
        columns = with_column(columns, form)?;
    }
    Ok(columns)
}

// ---- tables

#[tactic(auto, unfolding(crate::specs::Schema::with_table))]
fn with_table(
    alloc: Global,
    mut schema: AppSchema,
    form: TableForm,
) -> Result<AppSchema, SchemaFault>
    ensures { Gives SchemaFault.Memory result (with_table schema form) }
{
    if !is_name(form.name.as_str()) {
        return Err(SchemaFault::BadName);
    }
    if is_reserved_table(form.name.as_str()) {
        return Err(SchemaFault::Reserved);
    }
    if schema.table(form.name.as_str()).is_some() {
        return Err(SchemaFault::Repeated);
    }
    let columns = columns_of(alloc, form.columns)?;
    schema.push(
        alloc,
        TableSchema {
            name: form.name,
            columns,
            associations: form.associations,
        },
    )?;
    Ok(schema)
}

fn tables_of(alloc: Global, form: SchemaForm) -> Result<AppSchema, SchemaFault>
    ensures { Gives SchemaFault.Memory result (in_turn with_table (record { version = form.version; tables = [] }) form.tables) }
{
    let mut schema = AppSchema::empty(alloc, form.version);
    for table in form.tables.into_vec() {
        schema = with_table(alloc, schema, table)?;
    }
    Ok(schema)
}

// ---- associations

fn is_words(kind: Kind) -> bool
    ensures { result ≡ is_words kind }
{
    match kind {
        Kind::Words => true,
        Kind::Whole | Kind::Truth => false,
    }
}

fn has_text_column(name: &str, columns: &[ColumnSchema]) -> bool
    ensures { result ≡ has_text_column name.now columns.now }
{
    columns
        .iter()
        .any(|column| column.name.is(name) && is_words(column.kind))
}

fn is_association(schema: &AppSchema, own: &TableSchema, association: &Association) -> bool
    ensures { result ≡ is_association schema.now.tables own.now association.now }
{
    match association {
        Association::BelongsTo { table, key } => {
            schema.named(table.as_str()).is_some()
                && has_text_column(key.as_str(), own.columns.as_slice())
        }
        Association::HasMany { table, key } => match schema.named(table.as_str()) {
            Some(other) => has_text_column(key.as_str(), other.columns.as_slice()),
            None => false,
        },
    }
}

pub(crate) fn are_own_associations(schema: &AppSchema, own: &TableSchema) -> bool
    ensures { result ≡ list_all (is_association schema.now.tables own.now) own.now.associations }
{
    own.associations
        .as_slice()
        .iter()
        .all(|association| is_association(schema, own, association))
}

impl AppSchema {
    /// The schema that the JSON is: an object of a version from 1 to 9007199254740991 and at most 64 tables, each with
    /// a name, at most 64 columns and, where it has any, associations by the names of declared tables. For any other
    /// JSON it tells the first fault.
    #[tactic(auto, unfolding(crate::specs::Schema::schema_of))]
    pub fn read(alloc: Global, json: &Value) -> Result<AppSchema, SchemaFault>
        ensures { Gives SchemaFault.Memory result (schema_of (view json.now)) }
    {
        let form = schema_form(alloc, json)?;
        if !is_within_limits(&form) {
            return Err(SchemaFault::Limit);
        }
        let schema = tables_of(alloc, form)?;
        if !schema.are_associations() {
            return Err(SchemaFault::NoAssociation);
        }
        Ok(schema)
    }
}
