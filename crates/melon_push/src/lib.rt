//! What a push collects of an app's rows, what it sends of that, and what it settles once it was accepted.
#![tactic(auto)]

mod collecting;
pub mod fetched;
pub mod laws;
mod lookup;
mod ordering;
pub mod runs;
mod sending;
mod settling;
mod tests;

pub use collecting::collect;
pub use sending::outgoing;
pub use settling::settle;
