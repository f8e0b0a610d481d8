ghost use Rattle.std.specs.Prelude.{◌≡◌, ◌<◌, ◌+◌, [], ◌∷◌, ◌++◌, length, slice_get, Some, None, OnOk, OnErr, true};
ghost use Rattle.std.specs.Vec.{vec_len, vec_capacity};
ghost use Rattle.melon_table.specs.Seen.{rows_of, columns_of};
ghost use Rattle.melon_change.specs.Changes.{after_set};
ghost use Rattle.melon_board.specs.Boards.{are_within, IsReady, IsOneHistory, IsNext};

use crate::apply::{apply, copy_afters, make_room};
use melon_change::{ChangeSet, Entry};
use melon_raw::{Raw, Steps};
use melon_schema::List;
use melon_table::Tables;
use std::alloc::{AllocError, Global};
use std::marker::Model;
use std::sync::ledger::Ledger;

/// The rows now of an app, and the journal of the entries that led to them since the opening: one legal history. The
/// opening rows are not kept beside them.
#[derive(Debug, Drop)]
pub struct Board {
    tables: Tables,
    entries: Vec<Entry>,
    ready: Option<List<Option<Raw>>>,
}

impl Model for Board {
    ghost use Rattle.melon_board.specs.Boards.{SeenBoard};

    ghost Value = { SeenBoard };

    ghost use Rattle.melon_board.specs.Inside.{board_in, HoldsHistory};

    ghost view = { board_in };

    ghost invariant = { HoldsHistory };
}

/// A push that takes no memory, since there is room.
fn push_reserved(entries: &mut Vec<Entry>, entry: Entry)
    requires { vec_len entries.old < vec_capacity entries.old }
    ensures { entries.new.items ≡ entries.old.items ++ entry ∷ [] }
{
    match entries.push(entry) {
        Ok(()) => (),
        Err(_) => unreachable!(),
    }
}

fn tick_all<L: Ledger>(count: usize, steps: &mut Steps<L>)
    ensures { steps.new ≡ steps.old + count }
{
    for _ in 0..count {
        steps.tick();
    }
}

impl Board {
    /// A board over these opening rows, with an empty journal.
    pub fn open(alloc: Global, opening: Tables) -> Board
        ensures { result ≡ record { opening = rows_of opening; tables = opening; entries = []; ready = None } }
    {
        Board {
            tables: opening,
            entries: Vec::new(alloc),
            ready: None,
        }
    }

    /// How many entries the journal has.
    pub fn len(&self) -> usize
        ensures { result ≡ length self.now.entries }
    {
        self.entries.len()
    }

    /// The rows now.
    pub fn tables(&self) -> &Tables
        ensures { result.now ≡ self.now.tables }
    {
        &self.tables
    }

    /// The entry with this many before it. It costs a step for each of its changes.
    pub fn entry<L: Ledger>(&self, i: usize, steps: &mut Steps<L>) -> &Entry
        requires { i < length self.now.entries }
        ensures entry { slice_get self.now.entries i ≡ Some result.now }
        ensures cost { steps.new ≡ steps.old + length result.now.set }
        ensures history { IsOneHistory self.now }
    {
        let entry = &self.entries[i];
        tick_all(entry.set.len(), steps);
        entry
    }

    /// Makes all room that an entry with this set needs, and copies the rows after, so that `install` takes no memory.
    pub fn room(&mut self, alloc: Global, set: &ChangeSet) -> Result<(), AllocError>
        requires { are_within (length self.old.tables) set.now ≡ true }
        ensures ready { OnOk result (IsReady self.new set.now) }
        ensures rows { rows_of self.new.tables ≡ rows_of self.old.tables }
        ensures columns { columns_of self.new.tables ≡ columns_of self.old.tables }
        ensures entries { self.new.entries ≡ self.old.entries }
        ensures opening { self.new.opening ≡ self.old.opening }
        ensures history { IsOneHistory self.new }
        ensures err { OnErr result (self.new.ready ≡ self.old.ready) }
    {
        let changes = set.as_slice();
        self.entries.reserve(1)?;
        let rows = copy_afters(alloc, changes)?;
        make_room(&mut self.tables, changes)?;
        self.ready = Some(rows);
        Ok(())
    }

    /// Does the changes of an entry for whose set room was made, and puts the entry at the end of the journal.
    pub fn install(&mut self, entry: Entry)
        requires ready { IsReady self.old entry.set }
        requires next { IsNext (columns_of self.old.tables) (rows_of self.old.tables) entry }
        ensures rows { rows_of self.new.tables ≡ after_set (rows_of self.old.tables) entry.set }
        ensures columns { columns_of self.new.tables ≡ columns_of self.old.tables }
        ensures entries { self.new.entries ≡ self.old.entries ++ entry ∷ [] }
        ensures opening { self.new.opening ≡ self.old.opening }
        ensures history { IsOneHistory self.new }
        ensures ready { self.new.ready ≡ None }
    {
        if let Some(rows) = self.ready.take() {
            apply(&mut self.tables, entry.set.as_slice(), rows);
            push_reserved(&mut self.entries, entry);
        }
    }
}
