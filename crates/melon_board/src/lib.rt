//! The journal of an app beside its rows, and the store that a keeper keeps.
#![tactic(auto)]

mod apply;
pub mod board;
mod draft;
pub mod fault;
pub mod laws;
mod opening;
pub mod store;

pub use board::Board;
pub use fault::WriteFault;
pub use melon_change::{Entry, Origin};
pub use store::Store;
