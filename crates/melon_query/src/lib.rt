//! Queries: how they are read from JSON, and what they mean.
#![tactic(auto)]

mod cond_form;
mod limits;
mod query;
mod query_fault;
mod query_form;
mod query_reader;
mod resolve;
mod shown;
mod simple;

pub use cond_form::{CompareForm, CondForm, RightForm};
pub use query::{Col, Compare, CompareOp, Cond, Join, Joined, Query, Right, SortKey};
pub use query_fault::QueryFault;
pub use query_form::{QueryForm, SortForm};
pub use resolve::join_with;
pub use shown::Shown;
