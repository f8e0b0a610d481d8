//! When a condition holds, and what a query answers.
#![tactic(auto)]

mod answer;
mod asks;
mod groups;
mod joined;
mod like;
mod lookup;
mod matching;
mod plan;
mod projection;
mod select;
mod sort;
mod sources;
mod truth;
mod value;
mod walk;

pub use answer::run;
pub use matching::matches;
pub use melon_query::Shown;
pub use projection::project;
