//! A keeper over SQLite: two tables, and six statements on them.
#![tactic(auto)]

mod batch;
mod file;
mod keeper;
pub mod laws;
mod opening;
mod ours;
mod statements;
mod tables;
mod transaction;

pub use file::open_file;
pub use keeper::SqliteKeeper;
