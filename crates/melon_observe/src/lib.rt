//! Observers of an app's rows. A simple one is patched by the changes of the journal; any other evaluates its query
//! again.
#![tactic(auto)]

mod finding;
mod held;
mod members;
pub mod observer;
mod patching;
pub mod reloading;
mod showing;
pub mod simple;
pub mod turning;

pub use melon_views::{Emission, Shape, Shown, Turn};
pub use observer::Observer;
pub use simple::Simple;
pub use turning::turn_until_still;
