use melon_raw::OpField;
use melon_schema::{List, Text};

/// One operation of a batch.
#[derive(Debug, Drop)]
pub enum Op {
    /// Makes a record with these values.
    Create {
        table: Text,
        id: Text,
        set: List<OpField>,
    },
    /// Gives columns of a record new values.
    Update {
        table: Text,
        id: Text,
        set: List<OpField>,
    },
    /// Marks a record as deleted, for the server to be told.
    MarkDeleted {
        table: Text,
        id: Text,
    },
    /// Removes a record, and tells the server nothing.
    Destroy {
        table: Text,
        id: Text,
    },
}

/// Why no operations were read. Operations are counted from 1.
#[derive(Clone, Copy, Debug, PartialEq, Eq)]
pub enum OpsFault {
    /// The first operation outside the form, or 0 where the value isn't a list.
    Form { op: u64 },
    /// The first operation with a number outside the profile, where each is in the form.
    Number { op: u64 },
    Memory,
}
