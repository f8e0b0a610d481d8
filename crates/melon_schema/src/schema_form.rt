//! The form of a schema in JSON, before any name in it is judged.
ghost use Rattle.std.specs.Prelude.{◌≡◌};
ghost use Rattle.serde_json.specs.View.{view};
ghost use Rattle.melon_schema.specs.Refusals.{Answers};
ghost use Rattle.melon_schema.specs.SchemaForm.{belongs_to, has_many, version_at, schema_form};

use crate::reader::{FromJson, FromMember, flag_at, has_only, list_at, members_at, text_at};
use crate::{Association, List, Refusal, Text};
use serde_json::Value;
use std::alloc::Global;

/// A column as it is written; its type may be any word.
#[derive(Debug, Drop)]
pub struct ColumnForm {
    pub name: Text,
    pub word: Text,
    pub optional: bool,
    pub indexed: bool,
}

/// A table as it is written.
#[derive(Debug, Drop)]
pub struct TableForm {
    pub name: Text,
    pub columns: List<ColumnForm>,
    pub associations: List<Association>,
}

/// A schema as it is written.
#[derive(Debug, Drop)]
pub struct SchemaForm {
    pub version: u64,
    pub tables: List<TableForm>,
}

impl FromJson for ColumnForm {
    ghost use Rattle.melon_schema.specs.SchemaForm.{column_form};

    ghost form = { column_form };

    #[tactic(auto, unfolding(crate::specs::SchemaForm::column_form))]
    fn from_json(alloc: Global, json: &Value) -> Result<ColumnForm, Refusal> {
        if !has_only(json, &["name", "type", "isOptional", "isIndexed"]) {
            return Err(Refusal::Form);
        }
        let name = text_at(alloc, json, "name")?;
        let word = text_at(alloc, json, "type")?;
        let optional = flag_at(json, "isOptional")?;
        let indexed = flag_at(json, "isIndexed")?;
        Ok(ColumnForm {
            name,
            word,
            optional,
            indexed,
        })
    }
}

#[tactic(auto, unfolding(crate::specs::SchemaForm::belongs_to))]
fn belongs_to(alloc: Global, table: &str, json: &Value) -> Result<Association, Refusal>
    ensures { Answers result (belongs_to table.now (view json.now)) }
{
    if !has_only(json, &["type", "key"]) {
        return Err(Refusal::Form);
    }
    let key = text_at(alloc, json, "key")?;
    let table = Text::new(alloc, table)?;
    Ok(Association::BelongsTo { table, key })
}

#[tactic(auto, unfolding(crate::specs::SchemaForm::has_many))]
fn has_many(alloc: Global, table: &str, json: &Value) -> Result<Association, Refusal>
    ensures { Answers result (has_many table.now (view json.now)) }
{
    if !has_only(json, &["type", "foreignKey"]) {
        return Err(Refusal::Form);
    }
    let key = text_at(alloc, json, "foreignKey")?;
    let table = Text::new(alloc, table)?;
    Ok(Association::HasMany { table, key })
}

impl FromMember for Association {
    ghost use Rattle.melon_schema.specs.SchemaForm.{association_form};

    ghost member_form = { association_form };

    #[tactic(auto, unfolding(crate::specs::SchemaForm::association_form))]
    fn from_member(alloc: Global, key: &str, json: &Value) -> Result<Association, Refusal> {
        let word = text_at(alloc, json, "type")?;
        match word.as_str() {
            "belongs_to" => belongs_to(alloc, key, json),
            "has_many" => has_many(alloc, key, json),
            _ => Err(Refusal::Form),
        }
    }
}

impl FromJson for TableForm {
    ghost use Rattle.melon_schema.specs.SchemaForm.{table_form};

    ghost form = { table_form };

    #[tactic(auto, unfolding(crate::specs::SchemaForm::table_form))]
    fn from_json(alloc: Global, json: &Value) -> Result<TableForm, Refusal> {
        if !has_only(json, &["name", "columns", "associations"]) {
            return Err(Refusal::Form);
        }
        let name = text_at(alloc, json, "name")?;
        let columns = list_at(alloc, json, "columns")?;
        let associations = members_at(alloc, json, "associations")?;
        Ok(TableForm {
            name,
            columns,
            associations,
        })
    }
}

fn version_at(json: &Value, key: &str) -> Result<u64, Refusal>
    ensures { Answers result (version_at key.now (view json.now)) }
{
    match json.get(key).and_then(Value::as_u64) {
        Some(version) if version >= 1 && version <= 9007199254740991 => Ok(version),
        _ => Err(Refusal::Form),
    }
}

impl FromJson for SchemaForm {
    ghost form = { schema_form };

    #[tactic(auto, unfolding(crate::specs::SchemaForm::schema_form))]
    fn from_json(alloc: Global, json: &Value) -> Result<SchemaForm, Refusal> {
        if !has_only(json, &["version", "tables"]) {
            return Err(Refusal::Form);
        }
        let version = version_at(json, "version")?;
        let tables = list_at(alloc, json, "tables")?;
        Ok(SchemaForm { version, tables })
    }
}
