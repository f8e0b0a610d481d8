ghost use Rattle.std.specs.Prelude.{◌≡◌, ◌<◌, ◌++◌, ◌∷◌, [], length, IfOk, IfErr, OnOk, OnErr, IsErrOf, string_bytes, true, Some, None, Ok, MatchResult};
ghost use Rattle.melon_schema.specs.Faults.{Fails};
ghost use Rattle.melon_schema.specs.Sound.{IsSoundSchema};
ghost use Rattle.melon_raw.specs.Rows.{Rows};
ghost use Rattle.melon_table.specs.Seen.{rows_of, columns_of, declared_columns};
ghost use Rattle.melon_outside.specs.Causes.{Rose};
ghost use Rattle.melon_outside.specs.SeenKeeper.{Later};
ghost use Rattle.melon_outside.specs.Asking.{Asks};
ghost use Rattle.melon_change.specs.History.{AreChanges, IsEntry};
ghost use Rattle.melon_change.specs.Changes.{after_set};
ghost use Rattle.melon_board.specs.Boards.{AreKept, are_within, IsNext, IsOneHistory};
ghost use Rattle.melon_board.specs.Sizes.{stored_bytes, journal_bytes};
ghost use Rattle.melon_board.specs.Stores.{store_key, with_entry, with_last, opening_of, Continues, KeepsHistory};
ghost use Rattle.melon_board.specs.Batches.{last_batch};
ghost use Rattle.melon_board.specs.Plans.{entry_plan, install_plan, write_plan, asked};
ghost use Rattle.melon_board.specs.Opening.{open_plan};
ghost use Rattle.melon_board.specs.Opened.{IsOfKept};
ghost use Rattle.melon_board.specs.Carried.{LeavesOpened, IsOfKeeper, Refuses, IsWritten, Opens, HoldsStore};

use crate::WriteFault;
use crate::board::Board;
use crate::draft::{Draft, Sizes, draft_of, sizes_with};
use crate::opening::{Opened, batch_if_any, missing_values, open_rows, same_version, value_in};
use melon_change::{ChangeSet, Entry, Op, Origin, prepare};
use melon_outside::{Keeper, KeeperError, Kept, KeptBatch, KeptValue, OpenFault};
use melon_schema::{AppSchema, List, Text};
use std::alloc::{AllocError, Global};
use std::marker::Model;

/// The rows of an app and the journal of this opening, over what a keeper keeps of them.
#[derive(Drop)]
pub struct Store {
    name: Text,
    schema: AppSchema,
    board: Board,
    last: u64,
    stored: u64,
    journal: u64,
}

impl Model for Store {
    ghost use Rattle.melon_board.specs.Stores.{SeenStore};

    ghost Value = { SeenStore };

    ghost use Rattle.melon_board.specs.Inside.{store_in, IsSummed};

    ghost view = { store_in };

    ghost invariant = { IsSummed };
}

/// What is to be committed for an entry, and the sizes once it is.
#[derive(Drop)]
struct Planned {
    key: String,
    batch: KeptBatch,
    sizes: Sizes,
}

/// The name under which a keeper keeps the store.
fn store_key(alloc: Global, name: &str) -> Result<String, AllocError>
    ensures { IfOk result (λ key. string_bytes key ≡ store_key name.now) }
{
    let mut key = String::from_str(alloc, "app:")?;
    key.push_str(name)?;
    Ok(key)
}

/// A batch that keeps one value.
fn last_batch(alloc: Global, at: u64) -> Result<KeptBatch, AllocError>
    ensures { IfOk result (λ batch. batch ≡ last_batch at) }
{
    let mut values = List::new(alloc);
    values.push(KeptValue {
        name: Text::new(alloc, "last_pulled_at")?,
        number: at,
    })?;
    Ok(KeptBatch {
        clear: false,
        removes: List::new(alloc),
        puts: List::new(alloc),
        values,
    })
}

/// Takes all room on the board, commits, and installs, which takes none.
fn commit_entry<K: Keeper>(
    board: &mut Board,
    alloc: Global,
    keeper: &mut K,
    planned: &Planned,
    entry: Entry,
) -> Result<(), WriteFault>
    requires within { are_within (length board.old.tables) entry.set ≡ true }
    requires next { IsNext (columns_of board.old.tables) (rows_of board.old.tables) entry }
    ensures rows { OnOk result (rows_of board.new.tables ≡ after_set (rows_of board.old.tables) entry.set) }
    ensures entries { OnOk result (board.new.entries ≡ board.old.entries ++ entry ∷ []) }
    ensures columns { columns_of board.new.tables ≡ columns_of board.old.tables }
    ensures opening { board.new.opening ≡ board.old.opening }
    ensures history { IsOneHistory board.new }
    ensures same_rows { OnErr result (rows_of board.new.tables ≡ rows_of board.old.tables) }
    ensures same_entries { OnErr result (board.new.entries ≡ board.old.entries) }
    ensures fault { IfErr result IsOfKeeper }
    ensures keeper { Asks (Some planned.now.batch) (string_bytes planned.now.key) WriteFault.KeeperFault result (K.seen keeper.old) (K.seen keeper.new) }
{
    board.room(alloc, &entry.set)?;
    keeper.commit(alloc, planned.key.as_str(), &planned.batch)?;
    board.install(entry);
    Ok(())
}

/// Has the keeper do a batch, if there is one.
fn commit_any<K: Keeper>(
    alloc: Global,
    keeper: &mut K,
    key: &str,
    batch: &Option<KeptBatch>,
) -> Result<(), KeeperError>
    ensures keeper { Asks batch.now key.now KeeperError.Failed result (K.seen keeper.old) (K.seen keeper.new) }
    ensures was_honest { (K.seen keeper.new).honest → (K.seen keeper.old).honest }
{
    match batch {
        Some(batch) => keeper.commit(alloc, key, batch),
        None => Ok(()),
    }
}

/// A store over what is kept, and what is missing there.
#[tactic(auto, unfolding(crate::specs::Opening::open_plan))]
fn laid_out(
    alloc: Global,
    name: Text,
    schema: AppSchema,
    kept: Kept,
) -> Result<(Store, Option<KeptBatch>), OpenFault>
    ensures plan { MatchResult result (λ p. open_plan name schema kept ≡ Ok (record { batch = p.1; after = p.0 })) (λ f. Fails OpenFault.Memory f (open_plan name schema kept)) }
    ensures fault { IfErr result IsOfKept }
    ensures sound { OnOk result (IsSoundSchema schema) }
{
    let Kept { rows, values } = kept;
    let Opened { tables, stored } = open_rows(alloc, &schema, rows.as_slice())?;
    let version = schema.version();
    same_version(value_in(values.as_slice(), "schema_version"), version)?;
    let missing = missing_values(alloc, version, values.as_slice())?;
    let last = value_in(values.as_slice(), "last_pulled_at").unwrap_or(0);
    let store = Store {
        name,
        schema,
        board: Board::open(alloc, tables),
        last,
        stored,
        journal: 0,
    };
    Ok((store, batch_if_any(alloc, missing)))
}

impl Store {
    /// Opens the store of that name over what the keeper keeps of it, and keeps the values that have no value yet.
    pub fn open<K: Keeper>(
        alloc: Global,
        keeper: &mut K,
        name: &str,
        schema: AppSchema,
    ) -> Result<Store, OpenFault>
        ensures opens { Opens (K.seen keeper.old) (K.seen keeper.new) name.now schema result }
        ensures keeps { IfOk result (HoldsStore (K.seen keeper.new)) }
        ensures stops { LeavesOpened (K.seen keeper.old) (K.seen keeper.new) name.now schema }
        ensures later { Later (K.seen keeper.old) (K.seen keeper.new) }
        ensures cause { IsErrOf result OpenFault.KeeperFault → Rose (K.seen keeper.old).faults (K.seen keeper.new).faults }
        ensures never { (K.seen keeper.old).sound → IsErrOf result OpenFault.KeeperFault → ⊥ }
    {
        let key = store_key(alloc, name)?;
        let name = Text::new(alloc, name)?;
        let kept = keeper.load(alloc, key.as_str())?;
        let laid = laid_out(alloc, name, schema, kept)?;
        commit_any(alloc, keeper, key.as_str(), &laid.1)?;
        let (store, _) = laid;
        Ok(store)
    }

    /// The name of the app whose store it is.
    pub fn name(&self) -> &str
        ensures { result.now ≡ self.now.name }
    {
        self.name.as_str()
    }

    /// The rows now, which ascend and fit their tables, and the journal.
    pub fn board(&self) -> &Board
        ensures rows { rows_of result.now.tables ≡ self.now.rows }
        ensures columns { columns_of result.now.tables ≡ declared_columns self.now.schema.tables }
        ensures entries { result.now.entries ≡ self.now.entries }
        ensures kept { AreKept self.now.schema.tables self.now.rows }
        ensures opening { result.now.opening ≡ opening_of self.now }
        ensures history { Continues result.now.opening self.now }
    {
        &self.board
    }

    /// The schema under which it was opened.
    pub fn schema(&self) -> &AppSchema
        ensures { result.now ≡ self.now.schema }
    {
        &self.schema
    }

    /// The timestamp of the last pull that was applied, 0 at first.
    pub fn last(&self) -> u64
        ensures { result ≡ self.now.last }
    {
        self.last
    }

    /// Makes a batch: its change set is one entry of the journal. Gives the journal's length. All memory is taken before
    /// the keeper is asked. A batch of no operations asks nothing of it.
    pub fn write<K: Keeper>(
        &mut self,
        alloc: Global,
        keeper: &mut K,
        ops: List<Op>,
    ) -> Result<u64, WriteFault>
        ensures written { IsWritten (write_plan self.old ops) self.old self.new result }
        ensures keeper { Asks (asked (write_plan self.old ops)) (store_key self.old.name) WriteFault.KeeperFault result (K.seen keeper.old) (K.seen keeper.new) }
        ensures keeps { HoldsStore (K.seen keeper.old) self.old → HoldsStore (K.seen keeper.new) self.new }
        ensures history { KeepsHistory self.old self.new }
        ensures continues { (opening : Rows) → Continues opening self.old → Continues opening self.new }
    {
        let set = prepare(alloc, self.board.tables(), &self.schema, ops)?;
        self.install(alloc, keeper, Origin::Local, set)
    }

    /// Installs a change set as one entry of the journal, as `write` does with that of a batch.
    pub fn install<K: Keeper>(
        &mut self,
        alloc: Global,
        keeper: &mut K,
        origin: Origin,
        set: ChangeSet,
    ) -> Result<u64, WriteFault>
        requires { AreChanges self.old.schema.tables self.old.rows origin set }
        ensures written { IsWritten (install_plan self.old origin set) self.old self.new result }
        ensures keeper { Asks (asked (install_plan self.old origin set)) (store_key self.old.name) WriteFault.KeeperFault result (K.seen keeper.old) (K.seen keeper.new) }
        ensures keeps { HoldsStore (K.seen keeper.old) self.old → HoldsStore (K.seen keeper.new) self.new }
        ensures history { KeepsHistory self.old self.new }
        ensures continues { (opening : Rows) → Continues opening self.old → Continues opening self.new }
    {
        if set.is_empty() {
            return Ok(self.board.len() as u64);
        }
        self.install_entry(alloc, keeper, Entry { origin, set })
    }

    /// What is to be committed for an entry, where the sizes stay within their limits.
    fn planned(&self, alloc: Global, entry: &Entry) -> Result<Planned, WriteFault>
        requires { AreChanges self.now.schema.tables self.now.rows entry.now.origin entry.now.set }
        ensures plan { IfOk result (λ p. entry_plan self.now entry.now ≡ Ok (record { batch = Some p.batch; after = with_entry self.now entry.now })) }
        ensures key { IfOk result (λ p. string_bytes p.key ≡ store_key self.now.name) }
        ensures stored { IfOk result (λ p. p.sizes.stored ≡ stored_bytes self.now.schema.tables (after_set self.now.rows entry.now.set)) }
        ensures journal { IfOk result (λ p. p.sizes.journal ≡ journal_bytes self.now.schema.tables (self.now.entries ++ entry.now ∷ [])) }
        ensures refused { IfErr result (Refuses (entry_plan self.now entry.now)) }
    {
        let draft = draft_of(alloc, &self.schema, entry.set.as_slice())?;
        let sizes = sizes_with(self.stored, self.journal, &draft)?;
        let key = store_key(alloc, self.name.as_str())?;
        let Draft {
            batch,
            before: _,
            after: _,
        } = draft;
        Ok(Planned { key, batch, sizes })
    }

    fn install_entry<K: Keeper>(
        &mut self,
        alloc: Global,
        keeper: &mut K,
        entry: Entry,
    ) -> Result<u64, WriteFault>
        requires { IsEntry self.old.schema.tables self.old.rows entry }
        ensures written { IsWritten (entry_plan self.old entry) self.old self.new result }
        ensures keeper { Asks (asked (entry_plan self.old entry)) (store_key self.old.name) WriteFault.KeeperFault result (K.seen keeper.old) (K.seen keeper.new) }
        ensures keeps { HoldsStore (K.seen keeper.old) self.old → HoldsStore (K.seen keeper.new) self.new }
        ensures history { KeepsHistory self.old self.new }
        ensures continues { (opening : Rows) → Continues opening self.old → Continues opening self.new }
    {
        let planned = self.planned(alloc, &entry)?;
        commit_entry(&mut self.board, alloc, keeper, &planned, entry)?;
        self.stored = planned.sizes.stored;
        self.journal = planned.sizes.journal;
        Ok(self.board.len() as u64)
    }

    /// Saves the timestamp of a pull that was applied.
    pub fn save_last<K: Keeper>(
        &mut self,
        alloc: Global,
        keeper: &mut K,
        at: u64,
    ) -> Result<(), KeeperError>
        ensures ok { OnOk result (self.new ≡ with_last at self.old) }
        ensures err { OnErr result (self.new ≡ self.old) }
        ensures keeper { Asks (Some (last_batch at)) (store_key self.old.name) KeeperError.Failed result (K.seen keeper.old) (K.seen keeper.new) }
        ensures keeps { HoldsStore (K.seen keeper.old) self.old → HoldsStore (K.seen keeper.new) self.new }
        ensures history { KeepsHistory self.old self.new }
        ensures continues { (opening : Rows) → Continues opening self.old → Continues opening self.new }
    {
        let key = store_key(alloc, self.name.as_str())?;
        let batch = last_batch(alloc, at)?;
        keeper.commit(alloc, key.as_str(), &batch)?;
        self.last = at;
        Ok(())
    }
}
