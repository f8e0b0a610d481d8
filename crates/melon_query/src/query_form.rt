//! The form of a query in JSON, before any name in it is judged.
ghost use Rattle.std.specs.Prelude.{◌≡◌, map};
ghost use Rattle.serde_json.specs.View.{view};
ghost use Rattle.melon_schema.specs.Json.{each, list_at};
ghost use Rattle.melon_schema.specs.Refusals.{Answers};
ghost use Rattle.melon_query.specs.QueryForm.{direction_named, query_form};

use crate::CondForm;
use crate::cond_form::cond_form;
use melon_schema::reader::{FromJson, count_at, has_only, items_of, list_if_at};
use melon_schema::{List, Refusal, Text};
use serde_json::Value;
use std::alloc::Global;

/// A sort column as it is written.
#[derive(Debug, Drop)]
pub struct SortForm {
    pub column: Text,
    pub descending: bool,
}

/// A query as it is written.
#[derive(Debug, Drop)]
pub struct QueryForm {
    pub conds: List<CondForm>,
    pub joins: List<Text>,
    pub sort: List<SortForm>,
    pub take: Option<u64>,
    pub skip: Option<u64>,
}

fn direction_named(word: &str) -> Result<bool, Refusal>
    ensures { Answers result (direction_named word.now) }
{
    match word {
        "asc" => Ok(false),
        "desc" => Ok(true),
        _ => Err(Refusal::Form),
    }
}

impl FromJson for SortForm {
    ghost use Rattle.melon_query.specs.QueryForm.{sort_form};

    ghost form = { sort_form };

    fn from_json(alloc: Global, json: &Value) -> Result<SortForm, Refusal> {
        match items_of(json) {
            Some([column, word]) => {
                let column = Text::from_json(alloc, column)?;
                let word = Text::from_json(alloc, word)?;
                let descending = direction_named(word.as_str())?;
                Ok(SortForm { column, descending })
            }
            _ => Err(Refusal::Form),
        }
    }
}

impl FromJson for CondForm {
    ghost use Rattle.std.specs.Prelude.{true};
    ghost use Rattle.melon_query.specs.QueryForm.{cond_form};

    ghost form = { λ d. cond_form d true };

    fn from_json(alloc: Global, json: &Value) -> Result<CondForm, Refusal> {
        cond_form(alloc, json, true)
    }
}

impl FromJson for QueryForm {
    ghost form = { query_form };

    #[tactic(auto, unfolding(crate::specs::QueryForm::query_form))]
    fn from_json(alloc: Global, json: &Value) -> Result<QueryForm, Refusal> {
        if json.as_object().is_none() {
            return Err(Refusal::Form);
        }
        if !has_only(json, &["where", "joins", "sortBy", "take", "skip"]) {
            return Err(Refusal::Form);
        }
        let conds = list_if_at(alloc, json, "where")?;
        let joins = list_if_at(alloc, json, "joins")?;
        let sort = list_if_at(alloc, json, "sortBy")?;
        let take = count_at(json, "take")?;
        let skip = count_at(json, "skip")?;
        Ok(QueryForm {
            conds,
            joins,
            sort,
            take,
            skip,
        })
    }
}
