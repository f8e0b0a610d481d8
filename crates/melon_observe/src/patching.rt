//! Members patched by the changes of an entry.
ghost use Rattle.std.specs.Prelude.{◌≡◌, ◌+◌, ◌<◌, ◌≤◌, ◌∷◌, ◌++◌, [], length, true, IfOk, OnOk};
ghost use Rattle.std.specs.Vec.{vec_len, vec_capacity};
ghost use Rattle.melon_observe.specs.Members.{is_ascending};
ghost use Rattle.melon_observe.specs.Gap.{whole};
ghost use Rattle.melon_observe.specs.Patches.{patch_of, patches_of, id_of, by_id, patched, all_patched};

use crate::members::{close, part_at};
use crate::showing::chosen;
use melon_change::Change;
use melon_query::Query;
use melon_raw::Id;
use melon_schema::Twin;
use melon_views::Shown;
use std::alloc::{AllocError, Global};

/// What a change leaves of a member: what it shows, or nothing.
#[derive(Debug, Drop)]
pub enum Patch {
    Put(Shown),
    Remove(Id),
}

impl Patch {
    fn id(&self) -> &Id
        ensures { result.now ≡ id_of self.now }
    {
        match self {
            Patch::Put(member) => &member.id,
            Patch::Remove(id) => id,
        }
    }
}

fn patch_of(
    alloc: Global,
    query: &Query,
    columns: &[usize],
    change: &Change,
) -> Result<Patch, AllocError>
    ensures { IfOk result (λ patch. patch ≡ patch_of query.now columns.now change.now) }
{
    match chosen(query.conds.as_slice(), &change.after) {
        Some(row) => Ok(Patch::Put(Shown::of(alloc, columns, row)?)),
        None => Ok(Patch::Remove(change.id.copy(alloc)?)),
    }
}

fn add_patch(
    patches: &mut Vec<Patch>,
    alloc: Global,
    query: &Query,
    columns: &[usize],
    change: &Change,
) -> Result<(), AllocError>
    ensures { OnOk result (patches.new.items ≡ patches.old.items ++ patches_of query.now columns.now (change.now ∷ [])) }
{
    if change.table == query.table {
        patches.push(patch_of(alloc, query, columns, change)?)?;
    }
    Ok(())
}

fn collect_patches(
    alloc: Global,
    query: &Query,
    columns: &[usize],
    changes: &[Change],
) -> Result<Vec<Patch>, AllocError>
    ensures { IfOk result (λ patches. patches.items ≡ patches_of query.now columns.now changes.now) }
{
    let mut patches = Vec::new(alloc);
    for change in changes {
        add_patch(&mut patches, alloc, query, columns, change)?;
    }
    Ok(patches)
}

/// What the changes leave of members of the query's answer, in the order of their ids.
pub fn patches_of(
    alloc: Global,
    query: &Query,
    columns: &[usize],
    changes: &[Change],
) -> Result<Vec<Patch>, AllocError>
    ensures { IfOk result (λ patches. patches.items ≡ by_id (patches_of query.now columns.now changes.now)) }
{
    let mut patches = collect_patches(alloc, query, columns, changes)?;
    patches.sort_by(|one, other| one.id().order(other.id()))?;
    Ok(patches)
}

fn copy_patch(alloc: Global, patch: &Patch) -> Result<Patch, AllocError>
    ensures { IfOk result (λ copy. copy ≡ patch.now) }
{
    match patch {
        Patch::Put(member) => Ok(Patch::Put(member.copy(alloc)?)),
        Patch::Remove(id) => Ok(Patch::Remove(id.copy(alloc)?)),
    }
}

/// Copies of patches.
pub fn copy_patches(alloc: Global, patches: &[Patch]) -> Result<Vec<Patch>, AllocError>
    ensures { IfOk result (λ copies. copies.items ≡ patches.now) }
{
    let mut copies = Vec::with_capacity(alloc, patches.len())?;
    for patch in patches {
        copies.push(copy_patch(alloc, patch)?)?;
    }
    Ok(copies)
}

fn patch_one(before: &mut Vec<Shown>, behind: &mut Vec<Shown>, patch: Patch)
    requires ascending { is_ascending (whole before.old.items behind.old.items) ≡ true }
    requires room { vec_len before.old + vec_len behind.old < vec_capacity before.old }
    requires room_behind { vec_len before.old + vec_len behind.old < vec_capacity behind.old }
    ensures patched { whole before.new.items behind.new.items ≡ patched patch (whole before.old.items behind.old.items) }
    ensures len { vec_len before.new + vec_len behind.new ≤ vec_len before.old + vec_len behind.old + 1 }
    ensures capacity { vec_capacity before.new ≡ vec_capacity before.old }
    ensures capacity_behind { vec_capacity behind.new ≡ vec_capacity behind.old }
{
    match patch {
        Patch::Put(member) => {
            part_at(before, behind, &member.id);
            before.push_reserved(member);
        }
        Patch::Remove(id) => part_at(before, behind, &id),
    }
}

/// Patches members that have room for the patches. `behind` is empty before and after, and has room for all of both. It
/// takes no memory.
pub fn patch_all(members: &mut Vec<Shown>, behind: &mut Vec<Shown>, patches: Vec<Patch>)
    requires ascending { is_ascending members.old.items ≡ true }
    requires none { behind.old.items ≡ [] }
    requires room { vec_len members.old + length patches.items ≤ vec_capacity members.old }
    requires room_behind { vec_len members.old + length patches.items ≤ vec_capacity behind.old }
    ensures members { members.new.items ≡ all_patched members.old.items patches.items }
    ensures none { behind.new.items ≡ [] }
    ensures capacity { vec_capacity behind.new ≡ vec_capacity behind.old }
{
    for patch in patches {
        patch_one(members, behind, patch);
    }
    close(members, behind);
}
