use melon_raw::Datum;
use melon_schema::List;
use sqlite_items::Items;

/// A column of a row: its id, or the cell at a place.
#[derive(Clone, Copy, Debug, PartialEq, Eq)]
pub enum Col {
    Id,
    Cell(usize),
}

/// The operators of comparisons, named as on WatermelonDB's page "Query API".
#[derive(Clone, Copy, Debug, PartialEq, Eq)]
pub enum CompareOp {
    Eq,
    NotEq,
    Gt,
    Gte,
    WeakGt,
    Lt,
    Lte,
    Between,
    OneOf,
    NotIn,
    Like,
    NotLike,
    Includes,
}

/// What a column is compared with: a value, a list of values, or another column of the same row.
#[derive(Debug, Drop)]
pub enum Right {
    One(Datum),
    Many(List<Datum>),
    Other(Col),
}

/// A comparison of a column with its right side.
#[derive(Debug, Drop)]
pub struct Compare {
    pub column: Col,
    pub op: CompareOp,
    pub right: Right,
}

/// Where the key of an association stands: at a place of the main row, where it holds the joined row's id, or at a place
/// of the joined row, where it holds the main row's id.
#[derive(Clone, Copy, Debug, PartialEq, Eq)]
pub enum Join {
    OwnKey(usize),
    TheirKey(usize),
}

/// A condition on a main row and the rows that are joined with it.
#[derive(Debug, Drop)]
pub enum Cond {
    Compare(Compare),
    All(Items<Cond>),
    Any(Items<Cond>),
    On {
        table: usize,
        join: Join,
        conds: Items<Cond>,
    },
}

/// A column to sort by. Descending reverses it whole, null included.
#[derive(Clone, Copy, Debug, PartialEq, Eq)]
pub struct SortKey {
    pub column: Col,
    pub descending: bool,
}

/// A query over the table at a place. All its conditions must hold.
#[derive(Debug, Drop)]
pub struct Query {
    pub table: usize,
    pub conds: List<Cond>,
    pub sort: List<SortKey>,
    pub take: Option<u64>,
    pub skip: u64,
}

/// A table that conditions speak of, and its association with the main table.
#[derive(Clone, Copy, Debug, PartialEq, Eq)]
pub struct Joined {
    pub table: usize,
    pub join: Join,
}
