use melon_log::ServerRow;

/// A row, and the place of its table.
#[derive(Debug, Drop)]
pub(crate) struct Put {
    pub(crate) table: usize,
    pub(crate) row: ServerRow,
}
