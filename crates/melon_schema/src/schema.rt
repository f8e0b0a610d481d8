ghost use Rattle.std.specs.Prelude.{◌≡◌};
ghost use Rattle.melon_schema.specs.Places.{column_named};

use crate::names::Named;
use crate::{List, Text};

/// What a column keeps: texts, whole numbers or truth values.
#[derive(Clone, Copy, Debug, PartialEq, Eq)]
pub enum Kind {
    Words,
    Whole,
    Truth,
}

/// A declared column.
#[derive(Debug, Drop)]
pub struct ColumnSchema {
    pub name: Text,
    pub kind: Kind,
    pub optional: bool,
    pub indexed: bool,
}

/// How a table's rows lead to those of a declared table, which may be their own: by a key column of their own, or by one
/// of that table.
#[derive(Debug, Drop)]
pub enum Association {
    BelongsTo { table: Text, key: Text },
    HasMany { table: Text, key: Text },
}

/// A declared table. Its associations ascend by the names of the tables to which they lead.
#[derive(Debug, Drop)]
pub struct TableSchema {
    pub name: Text,
    pub columns: List<ColumnSchema>,
    pub associations: List<Association>,
}

impl Named for ColumnSchema {
    ghost name_of = { λ c. c.name };

    fn name(&self) -> &str {
        self.name.as_str()
    }
}

impl Named for TableSchema {
    ghost name_of = { λ t. t.name };

    fn name(&self) -> &str {
        self.name.as_str()
    }
}

impl TableSchema {
    /// The place of the column of that name.
    pub fn column(&self, name: &str) -> Option<usize>
        ensures { result ≡ column_named name.now self.now.columns }
    {
        self.columns
            .as_slice()
            .iter()
            .position(|column| column.name.is(name))
    }
}
