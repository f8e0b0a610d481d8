//! The rows of each declared table, found by their ids, with room that is made before it is used.
#![tactic(auto)]

mod keys;
mod search;
mod shelf;
pub mod table;
pub mod tables;
mod tests;

pub use table::Table;
pub use tables::Tables;
