//! Script lines and printed texts: what each form of line is, and what is printed for each answer.
#![tactic(auto)]

pub mod answer;
pub mod item;
pub mod line;
pub mod lines;
pub mod printing;

pub use answer::Answer;
pub use item::{Detail, Given, GivenRow, Group, Item};
pub use line::{Line, LineFault, LineShape};
pub use lines::next_line;
pub use printing::print;
