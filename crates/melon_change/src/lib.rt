//! Operations and batches, changes of records, and the histories that they make.
#![tactic(auto)]

mod batch;
pub mod change;
mod edit;
mod fields;
pub mod history;
pub mod laws;
mod named;
pub mod op;
mod reading;
pub mod rule;

pub use batch::prepare;
pub use change::{Change, ChangeSet, Told};
pub use history::{Entry, Origin};
pub use op::{Op, OpsFault};
pub use reading::read_ops;
pub use rule::BatchFault;
