ghost use Rattle.std.specs.Prelude.{◌≡◌, ◌+◌, ◌<◌, ◌≤◌, ◌^◌, ◌∷◌, ◌++◌, [], List as Sequence, length, drop, map, filter, true, IfOk, IfSome, OnOk, OnErr};
ghost use Rattle.std.specs.Vec.{vec_len, vec_capacity};
ghost use Rattle.melon_schema.specs.declared.schema.TableSchema.{TableSchema};
ghost use Rattle.melon_raw.specs.Rows.{Rows, is_ascending};
ghost use Rattle.melon_table.specs.Seen.{rows_of as all_rows};
ghost use Rattle.melon_query.specs.Tuples.{rows_of};
ghost use Rattle.melon_query.specs.Simple.{is_simple};
ghost use Rattle.melon_eval.specs.Seen.{rows_in};
ghost use Rattle.melon_change.specs.Changes.{after_set};
ghost use Rattle.melon_change.specs.History.{AreChanges};
ghost use Rattle.melon_change.specs.declared.history.Origin.{Origin};
ghost use Rattle.melon_change.specs.declared.history.Entry.{Entry as SeenEntry};
ghost use Rattle.melon_views.specs.Views.{shown};
ghost use Rattle.melon_views.specs.Due.{turn_from, number_of};
ghost use Rattle.melon_query.specs.Shown.{shown_row};
ghost use Rattle.melon_views.specs.Members.{chooses};
ghost use Rattle.melon_views.specs.Turns.{IsAhead};
ghost use Rattle.melon_views.specs.Standing.{Stands, moved};
ghost use Rattle.melon_views.specs.Laws.{Ascend, IsHistory};
ghost use Rattle.melon_observe.specs.Members.{is_ascending as are_ascending};
ghost use Rattle.melon_observe.specs.Journals.{history, opened, IsFound, reached, turn_by};

use crate::finding::first_in;
use crate::patching::{copy_patches, patch_all, patches_of};
use crate::showing::{chooses, columns_of, told};
use melon_board::{Board, Entry};
use melon_change::Change;
use melon_query::Query;
use melon_raw::steps::new_counter;
use melon_raw::{Raw, Steps};
use melon_schema::Twin;
use melon_table::{Table, Tables};
use melon_views::{Emission, Shape, Shown, Turn};
use std::alloc::{AllocError, Global};
use std::marker::{Brand, Model};
use std::sync::ledger::{Blank, Ledger};

/// An observer of a query without `on`, sort, take and skip. It reads the table once, when it is opened, and is given
/// entries from then on.
#[derive(Debug, Drop)]
pub struct Simple {
    query: Query,
    shape: Shape,
    at: u64,
    members: Vec<Shown>,
}

impl Model for Simple {
    ghost use Rattle.std.specs.Coded.{codes};
    ghost use Rattle.melon_query.specs.contracts.query.Cond as cond;
    ghost use Rattle.melon_views.specs.Standing.{Observed};

    ghost Value = { Observed };

    ghost coded = { Prim.hlevel (codes, cond.the_row.coded) };

    ghost use Rattle.melon_observe.specs.Inside.{simple_in, KeepsMembers};

    ghost view = { simple_in };

    ghost invariant = { KeepsMembers };
}

// ---- opening

fn add_member(
    members: &mut Vec<Shown>,
    alloc: Global,
    query: &Query,
    columns: &[usize],
    row: &Raw,
) -> Result<(), AllocError>
    ensures { OnOk result (members.new.items ≡ members.old.items ++ map (shown_row columns.now) (filter (chooses query.now.conds) (row.now ∷ []))) }
{
    if chooses(query.conds.as_slice(), row) {
        members.push(Shown::of(alloc, columns, row)?)?;
    }
    Ok(())
}

fn members_counted<L: Ledger>(
    counter: Blank,
    alloc: Global,
    query: &Query,
    columns: &[usize],
    table: &Table,
) -> Result<Vec<Shown>, AllocError>
    requires name { counter.name ≡ L.name }
    requires parts { counter.parts ≡ L.parts }
    requires shared { 0 < counter.parts }
    ensures members { IfOk result (λ members. members.items ≡ map (shown_row columns.now) (filter (chooses query.now.conds) table.now.rows)) }
    ensures ascending { is_ascending table.now.rows ≡ true }
{
    let mut steps = Steps::<L>::open(counter);
    let mut members = Vec::new(alloc);
    for i in 0..table.len() {
        add_member(
            &mut members,
            alloc,
            query,
            columns,
            table.row(i, &mut steps),
        )?;
    }
    Ok(members)
}

/// The members of the query's answer, as they are shown. It reads each row of the table once.
fn members_of(
    alloc: Global,
    query: &Query,
    columns: &[usize],
    tables: &Tables,
) -> Result<Vec<Shown>, AllocError>
    ensures members { IfOk result (λ members. members.items ≡ map (shown_row columns.now) (filter (chooses query.now.conds) (rows_of query.now.table (all_rows tables.now)))) }
    ensures ascending { is_ascending (rows_of query.now.table (all_rows tables.now)) ≡ true }
{
    if query.table < tables.len() {
        members_counted::<Brand>(new_counter(), alloc, query, columns, tables.of(query.table))
    } else {
        Ok(Vec::new(alloc))
    }
}

/// Copies of members, with room for `more`.
fn copies_of(alloc: Global, members: &[Shown], more: usize) -> Result<Vec<Shown>, AllocError>
    ensures items { IfOk result (λ copies. copies.items ≡ members.now) }
    ensures room { IfOk result (λ copies. vec_len copies + more ≤ vec_capacity copies) }
{
    let mut copies = Vec::with_capacity(alloc, members.len().saturating_add(more))?;
    for member in members {
        copies.push(member.copy(alloc)?)?;
    }
    copies.reserve(more)?;
    Ok(copies)
}

impl Simple {
    /// Opens an observer on a board, and gives its first emission.
    pub fn open(
        alloc: Global,
        query: Query,
        shape: Shape,
        board: &Board,
    ) -> Result<(Simple, Emission), AllocError>
        requires { is_simple query ≡ true }
        ensures observer { IfOk result (λ both. both.0 ≡ opened query shape board.now) }
        ensures emission { IfOk result (λ both. both.1 ≡ shown query shape (all_rows board.now.tables)) }
    {
        let members = members_of(alloc, &query, columns_of(&shape), board.tables())?;
        let emission = told(alloc, &shape, copies_of(alloc, members.as_slice(), 0)?)?;
        let simple = Simple {
            query,
            shape,
            at: board.len() as u64,
            members,
        };
        Ok((simple, emission))
    }

    /// The query that it observes.
    pub fn query(&self) -> &Query
        ensures { result.now ≡ self.now.query }
    {
        &self.query
    }

    /// What it shows of the answer.
    pub fn shape(&self) -> &Shape
        ensures { result.now ≡ self.now.shape }
    {
        &self.shape
    }

    /// How many entries of the journal it has seen.
    pub fn at(&self) -> u64
        ensures { result ≡ self.now.at }
    {
        self.at
    }

    /// Takes in the changes of an entry that matters, and gives what is shown after it. All memory is taken before the
    /// members are patched.
    fn take_in(
        &mut self,
        alloc: Global,
        number: u64,
        changes: &[Change],
    ) -> Result<Emission, AllocError>
        ensures shows { (schema : Sequence TableSchema) (rows : Rows) (origin : Origin) → Ascend rows → AreChanges schema rows origin changes.now → self.old.kept ≡ shown self.old.query self.old.shape rows
            → IfOk result (λ emission. emission ≡ shown self.old.query self.old.shape (after_set rows changes.now)) }
        ensures moved { IfOk result (λ emission. self.new ≡ moved (Turn.Emit number emission) self.old) }
        ensures err { OnErr result (self.new ≡ self.old) }
        ensures simple { is_simple self.old.query ≡ true }
    {
        let columns = columns_of(&self.shape);
        let patches = patches_of(alloc, &self.query, columns, changes)?;
        let twins = copy_patches(alloc, patches.as_slice())?;
        let mut shown = copies_of(alloc, self.members.as_slice(), patches.len())?;
        let mut behind = Vec::new(alloc);
        behind.reserve(shown.capacity())?;
        self.members.reserve(patches.len())?;
        patch_all(&mut shown, &mut behind, twins);
        let emission = told(alloc, &self.shape, shown)?;
        patch_all(&mut self.members, &mut behind, patches);
        self.at = number;
        Ok(emission)
    }

    /// Goes on to the first later entry that matters, where one was found with its number, and gives the emission after
    /// it, or to the end. It is given no table.
    pub(crate) fn go_on(
        &mut self,
        alloc: Global,
        found: Option<(u64, &Entry)>,
        end: u64,
    ) -> Result<Turn, AllocError>
        ensures turned { (schema : Sequence TableSchema) (opening : Rows) (entries : Sequence SeenEntry) → IsHistory schema (history opening entries) → Stands (history opening entries) self.old
            → IsFound self.old.query self.old.shape entries self.old.at found.entry → end ≡ length entries → IfOk result (λ turn. turn ≡ turn_from self.old.query self.old.shape (history opening entries) self.old.at) }
        ensures moved { IfOk result (λ turn. self.new ≡ moved turn self.old) }
        ensures ahead { (entries : Sequence SeenEntry) → IsFound self.old.query self.old.shape entries self.old.at found.entry → end ≡ length entries → IfOk result (λ turn. IsAhead self.old.at (length entries) turn) }
        ensures number { IfOk result (λ turn. number_of turn ≡ reached end found.entry) }
        ensures err { OnErr result (self.new ≡ self.old) }
    {
        match found {
            Some((number, entry)) => {
                let emission = self.take_in(alloc, number, entry.set.as_slice())?;
                Ok(Turn::Emit(number, emission))
            }
            None => {
                self.at = end;
                Ok(Turn::Still(end))
            }
        }
    }

    /// Goes on to the first of these entries that matters, and gives its number and the emission after it, or behind all
    /// of them. They are the entries after the position.
    pub fn patch<L: Ledger>(
        &mut self,
        alloc: Global,
        tail: &[Entry],
        steps: &mut Steps<L>,
    ) -> Result<Option<(u64, Emission)>, AllocError>
        requires { self.old.at + length tail.now < 2 ^ 64 }
        ensures given { (schema : Sequence TableSchema) (opening : Rows) (entries : Sequence SeenEntry) → IsHistory schema (history opening entries) → Stands (history opening entries) self.old
            → drop self.old.at entries ≡ tail.now → IfOk result (λ given. turn_by (length entries) given ≡ turn_from self.old.query self.old.shape (history opening entries) self.old.at) }
        ensures moved { IfOk result (λ given. self.new ≡ moved (turn_by (self.old.at + length tail.now) given) self.old) }
        ensures err { OnErr result (self.new ≡ self.old) }
        ensures cost { steps.new ≡ steps.old }
    {
        match first_in(&self.query, &self.shape, tail) {
            Some((place, entry)) => {
                let number = self.at + place;
                let emission = self.take_in(alloc, number, entry.set.as_slice())?;
                Ok(Some((number, emission)))
            }
            None => {
                self.at += tail.len() as u64;
                Ok(None)
            }
        }
    }
}
