//! The top calls: words in, a script through the machine, and how it ended.
#![tactic(auto)]

pub mod laws;
mod lines;
mod pending;
pub mod run;
pub mod status;

pub use run::melon_run;
pub use status::Status;
