ghost use Rattle.std.specs.Prelude.{◌≡◌};
ghost use Rattle.melon_change.specs.Changes.{is_shown, told_by, told_of};

use melon_raw::{Id, Raw};
use melon_schema::{List, Twin};
use std::alloc::{AllocError, Global};
use std::marker::Model;

/// What became of one record: its row before and after, if there was one.
#[derive(Debug, Drop)]
pub struct Change {
    /// The place of the table.
    pub table: usize,
    pub id: Id,
    pub before: Option<Raw>,
    pub after: Option<Raw>,
}

/// What an observer is told of a change.
#[derive(Clone, Copy, Debug, PartialEq, Eq)]
pub enum Told {
    /// The record became visible.
    Created,
    /// It was visible and is.
    Updated,
    /// It stopped being visible.
    Destroyed,
    /// It is visible neither before nor after.
    Hidden,
}

fn is_shown(row: &Option<Raw>) -> bool
    ensures { result ≡ is_shown row.now }
{
    match row {
        Some(row) => row.is_visible(),
        None => false,
    }
}

fn told_by(before: bool, after: bool) -> Told
    ensures { result ≡ told_by before after }
{
    match (before, after) {
        (false, true) => Told::Created,
        (true, true) => Told::Updated,
        (true, false) => Told::Destroyed,
        (false, false) => Told::Hidden,
    }
}

impl Change {
    /// How it is told, by whether the record is visible before and after.
    pub fn told(&self) -> Told
        ensures { result ≡ told_of self.now }
    {
        told_by(is_shown(&self.before), is_shown(&self.after))
    }
}

impl Twin for Change {
    fn copy(&self, alloc: Global) -> Result<Change, AllocError> {
        Ok(Change {
            table: self.table,
            id: self.id.copy(alloc)?,
            before: self.before.copy(alloc)?,
            after: self.after.copy(alloc)?,
        })
    }

    fn same(&self, other: &Change) -> bool {
        self.table == other.table
            && self.id.same(&other.id)
            && self.before.same(&other.before)
            && self.after.same(&other.after)
    }
}

/// Changes that are made together.
#[derive(Debug, Drop)]
pub struct ChangeSet {
    changes: List<Change>,
}

impl Model for ChangeSet {
    ghost use Rattle.std.specs.Prelude.{List};
    ghost use Rattle.melon_change.specs.declared.change.Change.{Change};

    ghost Value = { List Change };

    ghost view = { λ s. s.changes };
}

impl ChangeSet {
    ghost use Rattle.std.specs.Prelude.{[], ◌↔◌, IsTrue, length};

    /// The set of these changes.
    pub fn from_list(changes: List<Change>) -> ChangeSet
        ensures { result ≡ changes }
    {
        ChangeSet { changes }
    }

    /// The changes in their order.
    pub fn as_slice(&self) -> &[Change]
        ensures { result.now ≡ self.now }
    {
        self.changes.as_slice()
    }

    /// How many changes there are.
    pub fn len(&self) -> usize
        ensures { result ≡ length self.now }
    {
        self.changes.len()
    }

    /// Whether there is none.
    pub fn is_empty(&self) -> bool
        ensures { IsTrue result ↔ (self.now ≡ []) }
    {
        self.changes.is_empty()
    }
}

impl Twin for ChangeSet {
    fn copy(&self, alloc: Global) -> Result<ChangeSet, AllocError> {
        Ok(ChangeSet {
            changes: self.changes.copy(alloc)?,
        })
    }

    fn same(&self, other: &ChangeSet) -> bool {
        self.changes.same(&other.changes)
    }
}
