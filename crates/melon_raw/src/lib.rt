//! Rows of records: what a column keeps, how a row is made and edited, and the bytes it is kept as.
#![tactic(auto)]

pub mod datum;
mod decoding;
pub mod encoding;
pub mod id;
pub mod marks;
pub mod raw;
pub mod steps;

pub use datum::{Datum, OpField, sanitise};
pub use decoding::encoding_is_unique;
pub use id::{Id, IdFault};
pub use marks::Marks;
pub use raw::{Raw, Status};
pub use steps::Steps;
