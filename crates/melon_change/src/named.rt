//! Which records a batch names already.
ghost use Rattle.std.specs.Prelude.{◌≡◌, ◌<◌, length, IfOk, OnOk, not, ◌||◌, false};
ghost use Rattle.melon_raw.specs.Rows.{Key, is_key};
ghost use Rattle.melon_change.specs.Changes.{key};
ghost use Rattle.melon_change.specs.Named.{is_named, NamesAlso, NamesNone};

use melon_raw::Id;
use std::alloc::{AllocError, Global};
use std::collections::HashSet;

/// The ids that are named, by the places of their tables.
pub type Named = Vec<HashSet<String>>;

/// No ids, for each table.
pub fn none_named(alloc: Global, tables: usize) -> Result<Named, AllocError>
    ensures none { IfOk result (λ named. NamesNone named.items) }
    ensures len { IfOk result (λ named. length named.items ≡ tables) }
{
    let mut named = Vec::with_capacity(alloc, tables)?;
    for _ in 0..tables {
        named.push(HashSet::new(alloc))?;
    }
    Ok(named)
}

/// Names a record, and tells whether it wasn't named before.
pub fn name_record(
    alloc: Global,
    named: &mut Named,
    table: usize,
    id: &Id,
) -> Result<bool, AllocError>
    requires { table < length named.old.items }
    ensures new { IfOk result (λ new. new ≡ not (is_named named.old.items (key table id.now))) }
    ensures names { OnOk result (NamesAlso named.old.items named.new.items (key table id.now)) }
    ensures len { length named.new.items ≡ length named.old.items }
{
    let text = String::from_str(alloc, id.as_str())?;
    let new = named[table].insert(text)?;
    Ok(new)
}
