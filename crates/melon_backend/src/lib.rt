//! The rows of a server over what a keeper keeps of them: pulls tell what was touched, and pushes are accepted or refused.
#![tactic(auto)]

mod backend;
mod body;
mod cells;
mod commit;
mod draft;
pub mod laws;
mod listed;
mod named;
mod opening;
mod order;
mod pull;
mod put;
mod refusal;
mod table;

pub use backend::Backend;
