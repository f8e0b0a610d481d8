ghost use Rattle.std.specs.Prelude.{◌≡◌, IfOk, Some, None, if◌then◌else◌};
ghost use Rattle.melon_schema.specs.Names.{is_id};

use melon_raw::{Id, IdFault};
use melon_schema::Text;
use std::alloc::{AllocError, Global};

/// The id that a name is, where it has the form of one.
pub fn id_of(alloc: Global, name: &Text) -> Result<Option<Id>, AllocError>
    ensures { IfOk result (λ id. id ≡ (if is_id name.now then Some name.now else None)) }
{
    match Id::read(alloc, name.as_str()) {
        Ok(id) => Ok(Some(id)),
        Err(IdFault::Bad) => Ok(None),
        Err(IdFault::Memory) => Err(AllocError),
    }
}
