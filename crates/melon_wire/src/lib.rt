//! What goes over the wire between an app and its backend, and what an app remembers of a push.
#![tactic(auto)]

pub mod changes;
pub mod fetch;
pub mod keyed;
pub mod pull;
pub mod reading;
pub mod wire_fault;
pub mod writing;

pub use changes::{Changes, Remote, TableChanges};
pub use fetch::{Fetch, Gone, Held};
pub use pull::{PullAsk, PullReply};
pub use reading::{read_changes, read_reply};
pub use wire_fault::WireFault;
pub use writing::{write_changes, write_reply};
