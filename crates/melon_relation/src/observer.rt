ghost use Rattle.std.specs.Prelude.{◌≡◌, ◌<◌, length, IfOk, OnErr};
ghost use Rattle.melon_schema.specs.Faults.{Gives};
ghost use Rattle.melon_table.specs.Seen.{rows_of};
ghost use Rattle.melon_change.specs.History.{History};
ghost use Rattle.melon_relation.specs.Relations.{parent_in};
ghost use Rattle.melon_relation.specs.Watching.{changed, parent_view, watch_turn, Watches, turn_given, watch_moved, IsJournal, watch_told};

use crate::parents::{related, shown_by};
use crate::target::target_of;
use crate::{Relation, RelationFault};
use melon_board::Board;
use melon_raw::steps::new_counter;
use melon_raw::{Id, Steps};
use melon_schema::{AppSchema, Twin};
use melon_table::Tables;
use melon_views::Parent;
use std::alloc::{AllocError, Global};
use std::marker::{Brand, Model};
use std::sync::ledger::{Blank, Ledger};

/// A watch on the row to which a row belongs. It gives what the relation shows when it is opened, and then only what
/// differs from the last that it gave.
#[derive(Debug, Drop)]
pub struct ParentObserver {
    relation: Relation,
    at: u64,
    kept: Parent,
}

impl Model for ParentObserver {
    ghost use Rattle.melon_relation.specs.Watching.{Watched};

    ghost Value = { Watched };

    ghost use Rattle.melon_relation.specs.Inside.{watched_in};

    ghost view = { watched_in };
}

fn copy_of(alloc: Global, parent: &Parent) -> Result<Parent, AllocError>
    ensures { IfOk result (λ copy. copy ≡ parent.now) }
{
    match parent {
        Parent::Nothing => Ok(Parent::Nothing),
        Parent::Missing => Ok(Parent::Missing),
        Parent::Row(row) => Ok(Parent::Row(row.copy(alloc)?)),
    }
}

/// What a relation shows now, where it is something else than was kept. Nothing is copied where it is the same.
fn changed_counted<L: Ledger>(
    counter: Blank,
    alloc: Global,
    tables: &Tables,
    relation: &Relation,
    kept: &Parent,
) -> Result<Option<Parent>, AllocError>
    requires name { counter.name ≡ L.name }
    requires parts { counter.parts ≡ L.parts }
    requires shared { 0 < counter.parts }
    ensures { IfOk result (λ given. given ≡ changed kept.now (parent_in relation.now (rows_of tables.now))) }
{
    let mut steps = Steps::<L>::open(counter);
    let target = target_of(tables, relation, &mut steps);
    if target.is(kept) {
        return Ok(None);
    }
    Ok(Some(target.copied(alloc)?))
}

impl ParentObserver {
    /// Opens a watch on a board, and gives what the relation shows there, under the journal's length. It is refused as
    /// `parent` is.
    pub fn open(
        alloc: Global,
        board: &Board,
        schema: &AppSchema,
        table: usize,
        id: &Id,
        to: usize,
    ) -> Result<(ParentObserver, Parent), RelationFault>
        ensures watch { Gives RelationFault.Memory result (watch_told schema.now.tables board.now table id.now to) }
        ensures stands { (h : History) → IsJournal h board.now → IfOk result (λ both. Watches h both.0) }
        ensures view { (h : History) → IsJournal h board.now → IfOk result (λ both. both.1 ≡ parent_view both.0.relation h (length h.entries)) }
    {
        let relation = related(alloc, board.tables(), schema, table, id, to)?;
        let parent = shown_by(alloc, board.tables(), &relation)?;
        let kept = copy_of(alloc, &parent)?;
        let observer = ParentObserver {
            relation,
            at: board.len() as u64,
            kept,
        };
        Ok((observer, parent))
    }

    /// The relation that it watches.
    pub fn relation(&self) -> &Relation
        ensures { result.now ≡ self.now.relation }
    {
        &self.relation
    }

    /// How many entries of the journal it has seen.
    pub fn at(&self) -> u64
        ensures { result ≡ self.now.at }
    {
        self.at
    }

    /// Goes on to the journal's end, and gives what the relation shows there, with the journal's length, where it is
    /// something else than was kept. It searches for two rows, and reads no table.
    pub fn turn(
        &mut self,
        alloc: Global,
        board: &Board,
    ) -> Result<Option<(u64, Parent)>, AllocError>
        ensures turned { (h : History) → IsJournal h board.now → Watches h self.old → IfOk result (λ given. given ≡ watch_turn self.old.relation h self.old.at) }
        ensures given { IfOk result (λ given. given ≡ turn_given (length board.now.entries) (rows_of board.now.tables) self.old) }
        ensures stands { (h : History) → IsJournal h board.now → Watches h self.old → Watches h self.new }
        ensures moved { IfOk result (λ given. self.new ≡ watch_moved (length board.now.entries) (rows_of board.now.tables) self.old) }
        ensures err { OnErr result (self.new ≡ self.old) }
    {
        let end = board.len() as u64;
        let changed = changed_counted::<Brand>(
            new_counter(),
            alloc,
            board.tables(),
            &self.relation,
            &self.kept,
        )?;
        let Some(parent) = changed else {
            self.at = end;
            return Ok(None);
        };
        let kept = copy_of(alloc, &parent)?;
        self.kept = kept;
        self.at = end;
        Ok(Some((end, parent)))
    }
}
