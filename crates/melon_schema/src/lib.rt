//! App schemas, and the small types and readers that every layer shares.
#![tactic(auto)]

pub mod app_schema;
pub mod list;
pub mod names;
pub mod reader;
pub mod refusal;
pub mod schema;
pub mod schema_fault;
pub mod schema_form;
mod schema_reader;
mod tests;
pub mod text;
pub mod twin;

pub use app_schema::AppSchema;
pub use list::List;
pub use refusal::Refusal;
pub use schema::{Association, ColumnSchema, Kind, TableSchema};
pub use schema_fault::SchemaFault;
pub use text::Text;
pub use twin::Twin;
