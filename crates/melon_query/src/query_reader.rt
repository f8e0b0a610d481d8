//! Reading a query: its form, its limits, then the faults of its names in their order.
ghost use Rattle.std.specs.Prelude.{◌≡◌, IfOk, true};
ghost use Rattle.serde_json.specs.View.{view};
ghost use Rattle.melon_schema.specs.Faults.{Gives, or_fault, each_read};
ghost use Rattle.melon_query.specs.QueryForm.{query_form};
ghost use Rattle.melon_query.specs.Sound.{is_well_formed};
ghost use Rattle.melon_query.specs.Reading.{sort_key, query_in, query_of};

use crate::limits::is_within_limits;
use crate::resolve::{Reach, Setting, col_named, conds_in, joins_named};
use crate::{Query, QueryFault, QueryForm, SortForm, SortKey};
use melon_schema::reader::FromJson;
use melon_schema::{AppSchema, ColumnSchema, List, Refusal};
use serde_json::Value;
use std::alloc::Global;

fn query_form(alloc: Global, json: &Value) -> Result<QueryForm, QueryFault>
    ensures { Gives QueryFault.Memory result (or_fault (query_form (view json.now)) QueryFault.Form) }
{
    match QueryForm::from_json(alloc, json) {
        Ok(form) => Ok(form),
        Err(Refusal::Form) => Err(QueryFault::Form),
        Err(Refusal::Memory) => Err(QueryFault::Memory),
    }
}

fn sort_key(columns: &[ColumnSchema], form: &SortForm) -> Result<SortKey, QueryFault>
    ensures { Gives QueryFault.Memory result (sort_key columns.now form.now) }
{
    match col_named(form.column.as_str(), columns) {
        Some(column) => Ok(SortKey {
            column,
            descending: form.descending,
        }),
        None => Err(QueryFault::UnknownColumn),
    }
}

fn sort_keys(
    alloc: Global,
    columns: &[ColumnSchema],
    forms: &[SortForm],
) -> Result<List<SortKey>, QueryFault>
    ensures { Gives QueryFault.Memory result (each_read (sort_key columns.now) forms.now) }
{
    let mut keys = List::new(alloc);
    for form in forms {
        keys.push(sort_key(columns, form)?)?;
    }
    Ok(keys)
}

#[tactic(auto, unfolding(crate::specs::Reading::query_in))]
fn query_in(
    alloc: Global,
    schema: &AppSchema,
    table: &str,
    form: &QueryForm,
) -> Result<Query, QueryFault>
    ensures { Gives QueryFault.Memory result (query_in schema.now.tables table.now form.now) }
{
    let place = schema.table(table).ok_or(QueryFault::UnknownTable)?;
    let main = schema.named(table).ok_or(QueryFault::UnknownTable)?;
    let joins = form.joins.as_slice();
    joins_named(schema, main, joins)?;
    let setting = Setting {
        schema,
        main,
        joins,
    };
    let columns = main.columns.as_slice();
    let conds = conds_in(alloc, setting, form.conds.as_slice(), columns, Reach::Top)?;
    let sort = sort_keys(alloc, columns, form.sort.as_slice())?;
    if form.skip.is_some() && form.take.is_none() {
        return Err(QueryFault::SkipWithoutTake);
    }
    Ok(Query {
        table: place,
        conds,
        sort,
        take: form.take,
        skip: form.skip.unwrap_or(0),
    })
}

impl Query {
    /// The query that the JSON is over a table of the schema. It is an object of any of the keys `where`, `joins`,
    /// `sortBy`, `take` and `skip`, whose conditions are comparisons, `and`, `or` and `on`, as WatermelonDB's page
    /// "Query API" has them. For any other JSON it tells the first fault.
    #[tactic(auto, unfolding(crate::specs::Reading::query_of))]
    pub fn read(
        alloc: Global,
        json: &Value,
        schema: &AppSchema,
        table: &str,
    ) -> Result<Query, QueryFault>
        ensures gives { Gives QueryFault.Memory result (query_of schema.now.tables table.now (view json.now)) }
        ensures well_formed { IfOk result (λ query. is_well_formed schema.now.tables query ≡ true) }
    {
        let form = query_form(alloc, json)?;
        if !is_within_limits(alloc, &form)? {
            return Err(QueryFault::Limit);
        }
        query_in(alloc, schema, table, &form)
    }
}
