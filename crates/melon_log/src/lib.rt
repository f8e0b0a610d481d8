//! The log of a server: the pushes that it accepted, the rows that they amount to, and what it answers to a pull and to
//! a push. Definitions, and laws of them.
#![tactic(auto)]

pub mod fault;
pub mod laws;
pub mod server_row;

pub use fault::{AskFault, PushFault};
pub use server_row::ServerRow;
