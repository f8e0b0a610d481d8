//! What observers show of an app's rows, when an emission is due, and the parent of a row: definitions, and laws about
//! them.
#![tactic(auto)]

pub mod emission;
pub mod laws;
pub mod parent;

pub use emission::{Emission, Shape, Turn};
pub use melon_query::Shown;
pub use parent::Parent;
