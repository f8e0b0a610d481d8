use melon_raw::Id;

/// The relation by which the row of an id belongs to a row of another table: the places of both tables, and that of the
/// key column, which keeps the other row's id.
#[derive(Debug, Drop)]
pub struct Relation {
    pub table: usize,
    pub id: Id,
    pub column: usize,
    pub to: usize,
}
