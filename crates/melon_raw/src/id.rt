ghost use Rattle.std.specs.Prelude.{◌≡◌, true};
ghost use Rattle.melon_schema.specs.Names.{is_id};

use melon_schema::names::is_id;
use melon_schema::{Text, Twin};
use std::alloc::{AllocError, Global};
use std::cmp::Ordering;
use std::marker::Model;

/// The id of a record: 1 to 64 ASCII letters, digits, `_`, `-` and `.`.
#[derive(Debug, Drop)]
pub struct Id {
    text: Text,
}

impl Model for Id {
    ghost use Rattle.std.specs.Prelude.{◌≡◌, List, ℕ, true};
    ghost use Rattle.melon_schema.specs.Names.{is_id};

    ghost Value = { List ℕ };

    ghost view = { λ id. id.text };

    ghost invariant = { λ id. is_id id.text ≡ true };
}

/// Why a text was not read as an id.
#[derive(Clone, Copy, Debug, PartialEq, Eq)]
pub enum IdFault {
    /// The text is outside the form of ids.
    Bad,
    Memory,
}

impl From<AllocError> for IdFault {
    ghost use Rattle.std.specs.Prelude.{◌≡◌};
    ghost use Rattle.melon_raw.specs.declared.id.IdFault.TheVariants.{Memory};

    ghost from_gives = { λ _ e. e ≡ Memory };

    fn from(_: AllocError) -> Self {
        IdFault::Memory
    }
}

impl Id {
    ghost use Rattle.std.specs.Prelude.{List, ℕ};
    ghost use Rattle.melon_raw.specs.Ids.{Identifies};
    ghost use Rattle.melon_raw.specs.Order.{id_cmp};

    /// The id that the text is.
    pub fn read(alloc: Global, text: &str) -> Result<Id, IdFault>
        ensures { Identifies text.now result }
    {
        if !is_id(text) {
            return Err(IdFault::Bad);
        }
        Ok(Id {
            text: Text::new(alloc, text)?,
        })
    }

    /// The id as text.
    pub fn as_str(&self) -> &str
        ensures { result.now ≡ self.now }
    {
        self.text.as_str()
    }

    /// How the ids stand to each other, by their bytes.
    pub fn order(&self, other: &Id) -> Ordering
        ensures { result ≡ id_cmp self.now other.now }
    {
        self.text.as_str().cmp(other.text.as_str())
    }
}

impl Twin for Id {
    fn copy(&self, alloc: Global) -> Result<Id, AllocError> {
        Ok(Id {
            text: self.text.copy(alloc)?,
        })
    }

    fn same(&self, other: &Id) -> bool {
        self.text.same(&other.text)
    }
}
