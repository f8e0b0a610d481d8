use crate::ChangeSet;
use melon_schema::Twin;
use std::alloc::{AllocError, Global};

/// What made an entry.
#[derive(Clone, Copy, Debug, PartialEq, Eq)]
pub enum Origin {
    /// A batch of the app.
    Local,
    /// The changes of a pull.
    Applied,
    /// The settlement of a push.
    Settled,
}

/// An entry of an app's journal.
#[derive(Debug, Drop)]
pub struct Entry {
    pub origin: Origin,
    pub set: ChangeSet,
}

impl Twin for Entry {
    fn copy(&self, alloc: Global) -> Result<Entry, AllocError> {
        Ok(Entry {
            origin: self.origin,
            set: self.set.copy(alloc)?,
        })
    }

    fn same(&self, other: &Entry) -> bool {
        self.origin == other.origin && self.set.same(&other.set)
    }
}
