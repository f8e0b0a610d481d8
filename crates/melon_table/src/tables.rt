ghost use Rattle.std.specs.Prelude.{◌≡◌, ◌<◌, [], length, slice_get, Some, IfOk, map};
ghost use Rattle.std.specs.Borrow.{sem};
ghost use Rattle.melon_table.specs.Seen.{rows_of, columns_of, declared_columns};

use crate::Table;
use melon_schema::{AppSchema, ColumnSchema, List, Twin};
use std::alloc::{AllocError, Global};
use std::marker::Model;

/// A table for each declared one, in the order in which they are declared.
#[derive(Debug, Drop)]
pub struct Tables {
    tables: List<Table>,
}

impl Model for Tables {
    ghost use Rattle.std.specs.Prelude.{List as Sequence};
    ghost use Rattle.melon_table.specs.Seen.{SeenTable};

    ghost Value = { Sequence SeenTable };

    ghost view = { λ t. t.tables };
}

fn column_copy(alloc: Global, column: &ColumnSchema) -> Result<ColumnSchema, AllocError>
    ensures { IfOk result (λ copy. copy ≡ column.now) }
{
    Ok(ColumnSchema {
        name: column.name.copy(alloc)?,
        kind: column.kind,
        optional: column.optional,
        indexed: column.indexed,
    })
}

pub(crate) fn columns_copy(
    alloc: Global,
    columns: &[ColumnSchema],
) -> Result<List<ColumnSchema>, AllocError>
    ensures { IfOk result (λ copy. copy ≡ columns.now) }
{
    let mut copy = List::new(alloc);
    for column in columns {
        copy.push(column_copy(alloc, column)?)?;
    }
    Ok(copy)
}

impl Tables {
    ghost use Rattle.melon_table.specs.Lent.{lends_table};

    /// A table without rows for each that is declared.
    pub fn new(alloc: Global, schema: &AppSchema) -> Result<Tables, AllocError>
        ensures columns { IfOk result (λ tables. columns_of tables ≡ declared_columns schema.now.tables) }
        ensures rows { IfOk result (λ tables. rows_of tables ≡ map (λ _. []) schema.now.tables) }
    {
        let mut tables = List::new(alloc);
        for place in 0..schema.len() {
            let columns = columns_copy(alloc, schema.at(place).columns.as_slice())?;
            tables.push(Table::new(alloc, columns))?;
        }
        Ok(Tables { tables })
    }

    /// How many tables there are.
    pub fn len(&self) -> usize
        ensures { result ≡ length self.now }
    {
        self.tables.len()
    }

    /// The table at a place.
    pub fn of(&self, table: usize) -> &Table
        requires { table < length self.now }
        ensures { slice_get self.now table ≡ Some result.now }
    {
        &self.tables.as_slice()[table]
    }

    /// The table at a place, to change it.
    pub fn of_mut(&mut self, table: usize) -> &mut Table
        requires { table < length self.old }
        ensures* lends { sem 𝓛 (lends_table self.entry table result) }
        ensures value { slice_get self.old table ≡ Some result.now }
    {
        self.tables.at_mut(table)
    }
}
