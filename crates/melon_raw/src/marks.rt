ghost use Rattle.std.specs.Prelude.{◌≡◌, [], ◌∷◌, ◌++◌, OnOk, OnErr};
ghost use Rattle.melon_raw.specs.Rows.{has};
ghost use Rattle.melon_raw.specs.Edits.{marked};

use melon_schema::{List, Twin};
use std::alloc::{AllocError, Global};
use std::marker::Model;

/// The columns that were edited, by their places, in the order of first marking.
#[derive(Debug, Drop)]
pub struct Marks {
    places: List<usize>,
}

impl Model for Marks {
    ghost use Rattle.std.specs.Prelude.{List, ℕ};

    ghost Value = { List ℕ };

    ghost view = { λ m. m.places };
}

impl Marks {
    /// No marks, which takes no memory.
    pub fn new(alloc: Global) -> Marks
        ensures { result ≡ [] }
    {
        Marks {
            places: List::new(alloc),
        }
    }

    /// Whether the column at this place is marked.
    pub fn has(&self, column: usize) -> bool
        ensures { result ≡ has column self.now }
    {
        self.places.as_slice().contains(&column)
    }

    /// The places, in the order of first marking.
    pub fn as_slice(&self) -> &[usize]
        ensures { result.now ≡ self.now }
    {
        self.places.as_slice()
    }

    /// Puts a place at the end.
    pub fn push(&mut self, column: usize) -> Result<(), AllocError>
        ensures ok { OnOk result (self.new ≡ self.old ++ column ∷ []) }
        ensures err { OnErr result (self.new ≡ self.old) }
    {
        self.places.push(column)
    }

    /// Marks a column, once.
    pub fn mark(&mut self, column: usize) -> Result<(), AllocError>
        ensures ok { OnOk result (self.new ≡ marked column self.old) }
        ensures err { OnErr result (self.new ≡ self.old) }
    {
        if self.has(column) {
            return Ok(());
        }
        self.push(column)
    }
}

impl Twin for Marks {
    fn copy(&self, alloc: Global) -> Result<Marks, AllocError> {
        Ok(Marks {
            places: self.places.copy(alloc)?,
        })
    }

    fn same(&self, other: &Marks) -> bool {
        self.places.same(&other.places)
    }
}
