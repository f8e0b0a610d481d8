//! What is printed, as values.
use melon_raw::{Id, OpField};
use melon_schema::{List, Text};

/// One printed line.
#[derive(Debug, Drop)]
pub enum Item {
    Open {
        app: Text,
        rows: u64,
        last: u64,
    },
    Close {
        app: Text,
    },
    EnterHolds {
        app: Text,
        writer: Id,
    },
    /// So many stand before the writer.
    EnterWaits {
        app: Text,
        writer: Id,
        before: u64,
    },
    Nest {
        app: Text,
        writer: Id,
        depth: u64,
    },
    LeaveDepth {
        app: Text,
        writer: Id,
        depth: u64,
    },
    LeaveNext {
        app: Text,
        writer: Id,
        next: Id,
    },
    LeaveFree {
        app: Text,
        writer: Id,
    },
    Write {
        app: Text,
        at: u64,
    },
    Fetch {
        app: Text,
        ids: List<Id>,
    },
    /// Each row is its encoding.
    Rows {
        app: Text,
        table: Text,
        rows: List<List<u8>>,
    },
    /// What an observer or a watch shows after so many entries.
    Emit {
        app: Text,
        name: Id,
        at: u64,
        given: Given,
    },
    /// Nothing new up to this number of entries.
    Still {
        app: Text,
        name: Id,
        at: u64,
    },
    Drop {
        app: Text,
        name: Id,
    },
    Parent {
        app: Text,
        given: Given,
    },
    Children {
        app: Text,
        ids: List<Id>,
    },
    Backend {
        revision: u64,
    },
    /// The rows are written as a list already.
    Server {
        table: Text,
        revision: u64,
        rows: List<u8>,
    },
    Refused {
        group: Group,
        number: u64,
        details: List<Detail>,
    },
}

/// What is shown: the ids of an answer, or its ids with named columns; or of a relation to one row nothing, that the row
/// is missing, or the row's encoding.
#[derive(Debug, Drop)]
pub enum Given {
    Ids(List<Id>),
    Rows(List<GivenRow>),
    Nothing,
    Missing,
    Row(List<u8>),
}

/// A row of an answer: its id, and the named columns with their values. Of several fields of one column the last counts.
#[derive(Debug, Drop)]
pub struct GivenRow {
    pub id: Id,
    pub fields: List<OpField>,
}

/// What a refusal speaks of.
#[derive(Clone, Copy, Debug, PartialEq, Eq)]
pub enum Group {
    App,
    Open,
    Schema,
    Backend,
    Table,
    Queue,
    Ops,
    Batch,
    Full,
    Query,
    Observer,
    Relation,
    Keeper,
}

/// What a refusal says beside its group and number.
#[derive(Debug, Drop)]
pub enum Detail {
    Number(u64),
    Words(Text),
    /// Nobody.
    Absent,
}
