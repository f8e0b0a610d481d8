//! What a pull does to an app's rows: a remote row is resolved column by column, and each record meets its fate.
#![tactic(auto)]

mod applying;
pub mod fate;
pub mod fault;
pub mod laws;
pub mod listed;
mod lookup;
mod refusal;
mod resolution;
mod tests;

pub use applying::incoming;
pub use fault::PullFault;
pub use resolution::resolve;
