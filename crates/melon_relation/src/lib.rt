//! Relations between rows: the row to which a row belongs, watched or not, and the rows that a row has.
#![tactic(auto)]

mod association;
pub mod fault;
pub mod laws;
pub mod observer;
mod offspring;
mod parents;
pub mod relation;
mod target;

pub use fault::RelationFault;
pub use melon_views::Parent;
pub use observer::ParentObserver;
pub use offspring::children;
pub use parents::parent;
pub use relation::Relation;
