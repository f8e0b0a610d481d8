//! The queue of an app's writers.
#![tactic(auto)]

pub mod queue;

pub use queue::{Left, Queue, QueueFault};
