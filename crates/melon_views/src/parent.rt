use melon_raw::Raw;

/// What a relation to one row gives: nothing where its key is null or empty, or its own row isn't visible; missing where
/// the row that the key names isn't visible; else that row.
#[derive(Debug, Drop)]
pub enum Parent {
    Nothing,
    Missing,
    Row(Raw),
}
