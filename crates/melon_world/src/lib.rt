//! The machine that runs scripts: its open apps, and a handler for each form of line.
#![tactic(auto)]

pub mod app;
pub mod apps;
mod ids;
pub mod kind;
pub mod observer;
pub mod observing;
pub mod queueing;
pub mod reading;
pub mod refusals;
pub mod relating;
pub mod serving;
mod shown;
pub mod turning;
pub mod world;
pub mod writing;

pub use app::App;
pub use observer::{NamedObserver, Watching};
pub use world::World;
