ghost use Rattle.std.specs.Prelude.{◌≡◌, ◌∷◌, ◌++◌, ◌<◌, [], length, slice_get, Some, None, OnOk};
ghost use Rattle.std.specs.Option.{option_copied};
ghost use Rattle.melon_schema.specs.Schema.{are_associations};
ghost use Rattle.melon_schema.specs.Places.{table_named, declared_table};
ghost use Rattle.melon_schema.specs.Sound.{AreSound, IsSoundSchema};

use crate::TableSchema;
use crate::schema_reader::are_own_associations;
use indexmap::IndexMap;
use std::alloc::{AllocError, Global};
use std::marker::Model;

/// The tables that an app declares, each found by its name, and the version of their declaration. The tables have
/// different names, and so have the columns of each.
#[derive(Drop)]
pub struct AppSchema {
    version: u64,
    tables: IndexMap<String, TableSchema>,
}

impl Model for AppSchema {
    ghost use Rattle.melon_schema.specs.Seen.{SeenSchema};
    ghost use Rattle.melon_schema.specs.Inside.{declared_in, IsDeclared};

    ghost Value = { SeenSchema };

    ghost view = { declared_in };

    ghost invariant = { IsDeclared };
}

impl AppSchema {
    /// The schema that declares no table yet.
    pub(crate) fn empty(alloc: Global, version: u64) -> AppSchema
        ensures { result ≡ record { version = version; tables = [] } }
    {
        AppSchema {
            version,
            tables: IndexMap::new(alloc),
        }
    }

    /// Declares a table with a new name after the others.
    pub(crate) fn push(&mut self, alloc: Global, table: TableSchema) -> Result<(), AllocError>
        requires free { table_named table.name self.old.tables ≡ None }
        requires sound { AreSound table.columns }
        ensures { OnOk result (self.new ≡ record { version = self.old.version; tables = self.old.tables ++ table ∷ [] }) }
    {
        let name = String::from_str(alloc, table.name.as_str())?;
        self.tables.insert(name, table)?;
        Ok(())
    }

    /// The version, from 1 to 9007199254740991.
    pub fn version(&self) -> u64
        ensures value { result ≡ self.now.version }
        ensures sound { IsSoundSchema self.now }
    {
        self.version
    }

    /// How many tables are declared.
    pub fn len(&self) -> usize
        ensures { result ≡ length self.now.tables }
    {
        self.tables.len()
    }

    /// The place of the table of that name.
    pub fn table(&self, name: &str) -> Option<usize>
        ensures value { result ≡ table_named name.now self.now.tables }
        ensures sound { IsSoundSchema self.now }
    {
        self.tables.get_index_of(name)
    }

    /// The table of that name.
    pub fn named(&self, name: &str) -> Option<&TableSchema>
        ensures value { option_copied result ≡ declared_table name.now self.now.tables }
        ensures sound { IsSoundSchema self.now }
    {
        self.tables.get(name)
    }

    /// The table at a place.
    pub fn at(&self, table: usize) -> &TableSchema
        requires { table < length self.now.tables }
        ensures value { slice_get self.now.tables table ≡ Some result.now }
        ensures sound { IsSoundSchema self.now }
    {
        match self.tables.get_index(table) {
            Some((_, found)) => found,
            None => unreachable!(),
        }
    }

    /// Whether each association of each table leads to a declared table by a text column.
    pub(crate) fn are_associations(&self) -> bool
        ensures { result ≡ are_associations self.now.tables }
    {
        self.tables
            .values()
            .all(|own| are_own_associations(self, own))
    }
}
