//! The server of the script: its opening, and its rows.
ghost use Rattle.std.specs.Prelude.{◌≡◌, IfOk, OnErr, Ok, None, Some, false};
ghost use Rattle.std.specs.Option.{option_copied};
ghost use Rattle.serde_json.specs.View.{view};
ghost use Rattle.melon_schema.specs.Places.{table_named};
ghost use Rattle.melon_schema.specs.Schema.{schema_of};
ghost use Rattle.melon_machine.specs.Refusals.{is_of_keeper};
ghost use Rattle.melon_machine.specs.State.{with_rows, server_store};
ghost use Rattle.melon_machine.specs.Outcomes.{stepped, on_table};
ghost use Rattle.melon_machine.specs.Servers.{begins_under, backend_step, server_rows_shown, server_shown};
ghost use Rattle.melon_world.specs.Handled.{IsHandled};

use crate::refusals::{backend_refusal, open_refusal, schema_refusal, table_refusal};
use melon_backend::Backend;
use melon_outside::Keeper;
use melon_schema::{AppSchema, List, SchemaFault, Text, Twin};
use melon_script::Item;
use serde_json::Value;
use std::alloc::{AllocError, Global};

/// The name under which the server's rows are kept.
const STORE: &str = "backend";

/// Opens the server under a schema.
fn open_under<K: Keeper>(
    server: &mut Option<Backend>,
    alloc: Global,
    keeper: &mut K,
    schema: AppSchema,
) -> Result<Item, AllocError>
    requires { server.old ≡ None }
    ensures { IsHandled (begins_under with_rows (Ok schema)) (stepped server.new) is_of_keeper (K.seen keeper.old) (K.seen keeper.new) server.old server.new result }
{
    match Backend::open(alloc, keeper, STORE, schema) {
        Ok(backend) => {
            let revision = backend.revision();
            *server = Some(backend);
            Ok(Item::Backend { revision })
        }
        Err(fault) => open_refusal(alloc, fault),
    }
}

/// Opens the server, where it isn't open.
#[tactic(auto, using(crate::proofs::Meeting::handled_unasked))]
fn open_first<K: Keeper>(
    server: &mut Option<Backend>,
    alloc: Global,
    keeper: &mut K,
    json: &Value,
) -> Result<Item, AllocError>
    requires { server.old ≡ None }
    ensures { IsHandled (begins_under with_rows (schema_of (view json.now))) (stepped server.new) is_of_keeper (K.seen keeper.old) (K.seen keeper.new) server.old server.new result }
{
    match AppSchema::read(alloc, json) {
        Ok(schema) => open_under(server, alloc, keeper, schema),
        Err(SchemaFault::Memory) => Err(AllocError),
        Err(fault) => Ok(schema_refusal(alloc, fault)),
    }
}

/// Opens the server over what the keeper keeps of it.
#[tactic(auto, using(crate::proofs::Meeting::handled_unasked))]
pub fn open_backend<K: Keeper>(
    server: &mut Option<Backend>,
    alloc: Global,
    keeper: &mut K,
    json: &Value,
) -> Result<Item, AllocError>
    ensures { IsHandled (backend_step with_rows server.old (view json.now)) (stepped server.new) is_of_keeper (K.seen keeper.old) (K.seen keeper.new) server.old server.new result }
{
    match server {
        Some(_) => Ok(backend_refusal(alloc, 1)),
        None => open_first(server, alloc, keeper, json),
    }
}

/// The rows of a declared table, as they stand on the server.
fn rows_shown(server: &Backend, alloc: Global, table: &Text) -> Result<Item, AllocError>
    ensures item { IfOk result (λ item. item ≡ on_table table.now (server_rows_shown with_rows server.now table.now) (table_named table.now server.now.schema.tables)) }
    ensures quiet { IfOk result (λ item. is_of_keeper item ≡ false) }
{
    match server.schema().table(table.as_str()) {
        Some(place) => Ok(Item::Server {
            table: table.copy(alloc)?,
            revision: server.revision(),
            rows: List::from_vec(server.rows(alloc, place)?),
        }),
        None => table_refusal(alloc, table),
    }
}

/// The server's rows of a table.
pub fn server_rows(
    server: &Option<Backend>,
    alloc: Global,
    table: &Text,
) -> Result<Item, AllocError>
    ensures item { IfOk result (λ item. item ≡ server_shown with_rows table.now server.now) }
    ensures quiet { IfOk result (λ item. is_of_keeper item ≡ false) }
{
    match server {
        Some(backend) => rows_shown(backend, alloc, table),
        None => Ok(backend_refusal(alloc, 2)),
    }
}
