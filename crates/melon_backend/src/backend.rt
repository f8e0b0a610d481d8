ghost use Rattle.std.specs.Prelude.{◌≡◌, ◌<◌, [], ◌∷◌, length, map, get_or, true, false, IfOk, IfErr, OnOk, OnErr, IsErrOf, MatchResult, None, Some, Ok};
ghost use Rattle.std.specs.List.{AllByRecursion};
ghost use Rattle.melon_schema.specs.Faults.{Gives, Fails};
ghost use Rattle.melon_raw.specs.Rows.{table_at};
ghost use Rattle.melon_outside.specs.Causes.{Rose};
ghost use Rattle.melon_outside.specs.Keeping.{Stores};
ghost use Rattle.melon_outside.specs.SeenKeeper.{Later};
ghost use Rattle.melon_outside.specs.Asking.{Asks};
ghost use Rattle.melon_wire.specs.Forms.{names_ascend};
ghost use Rattle.melon_wire.specs.Keys.{are_apart};
ghost use Rattle.melon_wire.specs.Sent.{names_something};
ghost use Rattle.melon_log.specs.ServerRows.{at};
ghost use Rattle.melon_log.specs.Log.{Log};
ghost use Rattle.melon_log.specs.Pulled.{pull_of, pulled};
ghost use Rattle.melon_log.specs.Verdict.{judged, verdict};
ghost use Rattle.melon_log.specs.Laws.{NamesApart};
ghost use Rattle.melon_backend.specs.Bodies.{rows_text};
ghost use Rattle.melon_backend.specs.Rows.{live_rows};
ghost use Rattle.melon_backend.specs.Backends.{open_plan, asked, value, revision_name};
ghost use Rattle.melon_backend.specs.Opened.{IsOfKept};
ghost use Rattle.melon_backend.specs.Listing.{namings_seen, IsOfTable};
ghost use Rattle.melon_backend.specs.Pushing.{namings, key_named, IsNowOf, next_revision, within_limit, with_push, named_plan, push_plan};
ghost use Rattle.melon_backend.specs.Pushed.{IsPushed, IsVerdict, IsOfKeeper, IsOfPush};
ghost use Rattle.melon_backend.specs.Standing.{Stands, opened_log};
ghost use Rattle.melon_backend.specs.Keeps.{KeepsLog, KeepsOn, log_after};
ghost use Rattle.melon_backend.specs.Ready.{CanBePut, CanBePutIfAny, IsPlanOf};
ghost use Rattle.melon_backend.specs.Carried.{Opens};

use crate::body::rows_text;
use crate::commit::commit_puts;
use crate::draft::draft_of;
use crate::named::{Named, name_all};
use crate::opening::{
    Opened, batch_if_any, missing_values, open_rows, same_version, sum, value_in,
};
use crate::order::declared_at;
use crate::pull::changes_told;
use crate::put::Put;
use crate::refusal::{has_something, refuse_named, refuse_unknown};
use crate::table::ServerTable;
use melon_log::{AskFault, PushFault};
use melon_outside::{Keeper, KeeperError, Kept, KeptBatch, KeptRow, KeptValue, OpenFault};
use melon_schema::{AppSchema, List, Text};
use melon_wire::{Changes, PullAsk, PullReply};
use std::alloc::{AllocError, Global};
use std::marker::Model;

/// The rows of a server, as they stand after the last push that it accepted. The pushes themselves are not kept.
#[derive(Drop)]
pub struct Backend {
    name: Text,
    schema: AppSchema,
    tables: Vec<ServerTable>,
    revision: u64,
    stored: u64,
    live: u64,
}

impl Model for Backend {
    ghost use Rattle.melon_backend.specs.Backends.{SeenBackend};

    ghost Value = { SeenBackend };

    ghost use Rattle.melon_backend.specs.Fields.{backend_in, IsSummed};

    ghost view = { backend_in };

    ghost invariant = { IsSummed };
}

/// What is to be committed for a push, and the sums once it is.
#[derive(Drop)]
struct Planned {
    batch: KeptBatch,
    puts: Vec<Put>,
    revision: u64,
    stored: u64,
    live: u64,
}

/// The most bytes that the bodies of a store may have.
const LONGEST: u64 = 134217728;

/// The revision of the next push.
fn next_revision(revision: u64) -> u64
    ensures { result ≡ next_revision revision }
{
    if revision < 9007199254740991 {
        return revision + 1;
    }
    revision
}

fn names_something(changes: &Changes) -> bool
    ensures { result ≡ names_something changes.now }
{
    changes.tables.as_slice().iter().any(has_something)
}

fn within_limit(bytes: u64) -> Result<(), PushFault>
    ensures { Gives PushFault.Memory result (within_limit bytes) }
{
    if bytes > LONGEST {
        return Err(PushFault::StoreFull { bytes });
    }
    Ok(())
}

fn push_batch(alloc: Global, revision: u64, rows: List<KeptRow>) -> Result<KeptBatch, AllocError>
    ensures { IfOk result (λ batch. batch ≡ record { clear = false; removes = []; puts = rows; values = value revision_name revision ∷ [] }) }
{
    let mut values = List::new(alloc);
    values.push(KeptValue {
        name: Text::new(alloc, "revision")?,
        number: revision,
    })?;
    Ok(KeptBatch {
        clear: false,
        removes: List::new(alloc),
        puts: rows,
        values,
    })
}

/// Has the keeper do a batch, if there is one.
fn commit_any<K: Keeper>(
    alloc: Global,
    keeper: &mut K,
    key: &str,
    batch: &Option<KeptBatch>,
) -> Result<(), KeeperError>
    ensures keeper { Asks batch.now key.now KeeperError.Failed result (K.seen keeper.old) (K.seen keeper.new) }
{
    match batch {
        Some(batch) => keeper.commit(alloc, key, batch),
        None => Ok(()),
    }
}

/// A backend over what is kept, and what is missing there.
#[tactic(auto, unfolding(crate::specs::Backends::open_plan))]
fn laid_out(
    alloc: Global,
    name: Text,
    schema: AppSchema,
    kept: Kept,
) -> Result<(Backend, Option<KeptBatch>), OpenFault>
    ensures plan { MatchResult result (λ p. open_plan name schema kept ≡ Ok (record { batch = p.1; after = p.0 })) (λ f. Fails OpenFault.Memory f (open_plan name schema kept)) }
    ensures fault { IfErr result IsOfKept }
{
    let Kept { rows, values } = kept;
    let Opened {
        tables,
        stored,
        live,
    } = open_rows(alloc, &schema, rows.as_slice())?;
    let version = schema.version();
    same_version(value_in(values.as_slice(), "schema_version"), version)?;
    let missing = missing_values(alloc, version, values.as_slice())?;
    let revision = value_in(values.as_slice(), "revision").unwrap_or(1);
    let backend = Backend {
        name,
        schema,
        tables,
        revision,
        stored,
        live,
    };
    Ok((backend, batch_if_any(alloc, missing)))
}

impl Backend {
    fn open_kept<K: Keeper>(
        alloc: Global,
        keeper: &mut K,
        name: &str,
        schema: AppSchema,
    ) -> Result<Backend, OpenFault>
        ensures opens { Opens (K.seen keeper.old) (K.seen keeper.new) name.now schema result }
        ensures later { Later (K.seen keeper.old) (K.seen keeper.new) }
        ensures cause { IsErrOf result OpenFault.KeeperFault → Rose (K.seen keeper.old).faults (K.seen keeper.new).faults }
        ensures never { (K.seen keeper.old).sound → IsErrOf result OpenFault.KeeperFault → ⊥ }
    {
        let copy = Text::new(alloc, name)?;
        let kept = keeper.load(alloc, name)?;
        let laid = laid_out(alloc, copy, schema, kept)?;
        commit_any(alloc, keeper, name, &laid.1)?;
        let (backend, _) = laid;
        Ok(backend)
    }

    /// Opens the backend of that name over what the keeper keeps of it, and keeps the values that have no value yet. It
    /// stands for the log that begins with its rows, which are those that are kept.
    pub fn open<K: Keeper>(
        alloc: Global,
        keeper: &mut K,
        name: &str,
        schema: AppSchema,
    ) -> Result<Backend, OpenFault>
        ensures opens { Opens (K.seen keeper.old) (K.seen keeper.new) name.now schema result }
        ensures later { Later (K.seen keeper.old) (K.seen keeper.new) }
        ensures cause { IsErrOf result OpenFault.KeeperFault → Rose (K.seen keeper.old).faults (K.seen keeper.new).faults }
        ensures never { (K.seen keeper.old).sound → IsErrOf result OpenFault.KeeperFault → ⊥ }
        ensures stands { NamesApart schema.tables → IfOk result (λ backend. Stands (opened_log backend) backend) }
        ensures keeps { NamesApart schema.tables → (m : Stores) → (K.seen keeper.new).holds m → IfOk result (λ backend. KeepsLog (opened_log backend) schema.version (m name.now)) }
    {
        Backend::open_kept(alloc, keeper, name, schema)
    }

    /// The schema under which it was opened.
    pub fn schema(&self) -> &AppSchema
        ensures { result.now ≡ self.now.schema }
    {
        &self.schema
    }

    /// The revision of the last push that was accepted, 1 at first.
    pub fn revision(&self) -> u64
        ensures { result ≡ self.now.revision }
    {
        self.revision
    }

    /// How many rows are live.
    pub fn live(&self) -> u64
        ensures { result ≡ live_rows self.now.rows }
    {
        self.live
    }

    /// The bodies of a table's rows as a JSON array, ascending by id.
    pub fn rows(&self, alloc: Global, table: usize) -> Result<Vec<u8>, AllocError>
        requires { table < length self.now.schema.tables }
        ensures { IfOk result (λ bytes. bytes.items ≡ rows_text (table_at self.now.schema.tables table) (get_or self.now.rows table [])) }
    {
        rows_text(alloc, declared_at(&self.schema, table), &self.tables[table])
    }

    /// What was touched after the timestamp of the last pull. It costs by the rows that were touched. For every log for
    /// which the backend stands, it is what the log tells.
    pub fn pull(&self, alloc: Global, ask: &PullAsk) -> Result<PullReply, AskFault>
        ensures told { Gives AskFault.Memory result (pull_of self.now.schema.tables self.now.revision self.now.rows ask.now.last) }
        ensures log { (g : Log) → Stands g self.now → Gives AskFault.Memory result (pulled g ask.now.last) }
    {
        self.tell(alloc, ask)
    }

    #[tactic(auto, unfolding(melon_log::specs::Pulled::pull_of))]
    fn tell(&self, alloc: Global, ask: &PullAsk) -> Result<PullReply, AskFault>
        ensures { Gives AskFault.Memory result (pull_of self.now.schema.tables self.now.revision self.now.rows ask.now.last) }
    {
        let timestamp = self.revision;
        if ask.last > timestamp {
            return Err(AskFault::Future {
                revision: timestamp,
            });
        }
        let changes = changes_told(alloc, &self.schema, self.tables.as_slice(), ask.last)?;
        Ok(PullReply { changes, timestamp })
    }

    /// The records of a push that only the store's limit may refuse.
    #[tactic(auto, unfolding(melon_log::specs::Verdict::judged))]
    fn judged<'a>(
        &'a self,
        alloc: Global,
        last: u64,
        changes: &'a Changes,
    ) -> Result<Vec<Named<'a>>, PushFault>
        requires { names_ascend (λ t. t.table) changes.now.tables ≡ true }
        ensures judged { MatchResult result (λ _. judged self.now.schema.tables self.now.revision (at self.now.rows) last changes.now ≡ Ok tt) (λ f. Fails PushFault.Memory f (judged self.now.schema.tables self.now.revision (at self.now.rows) last changes.now)) }
        ensures named { IfOk result (λ named. namings_seen named.items ≡ namings self.now.schema.tables self.now.rows changes.now) }
    {
        if last > self.revision {
            return Err(PushFault::Future {
                revision: self.revision,
            });
        }
        refuse_unknown(alloc, &self.schema, changes)?;
        let named = name_all(alloc, &self.schema, self.tables.as_slice(), changes)?;
        refuse_named(alloc, &self.schema, last, named.as_slice())?;
        Ok(named)
    }

    /// What is to be committed for the records of a push, where the rows stay within their limit.
    fn planned(&self, alloc: Global, named: &[Named<'_>]) -> Result<Planned, PushFault>
        requires declared { AllByRecursion (IsOfTable (length self.now.schema.tables)) (namings_seen named.now) }
        requires now { AllByRecursion (IsNowOf self.now.rows) (namings_seen named.now) }
        requires apart { are_apart (map key_named (namings_seen named.now)) ≡ true }
        ensures plan { MatchResult result (λ p. named_plan self.now (namings_seen named.now) ≡ Ok (record { batch = Some p.batch; after = with_push self.now p.revision p.puts.items })) (λ f. Fails PushFault.Memory f (named_plan self.now (namings_seen named.now))) }
        ensures ready { IfOk result (CanBePut self.now) }
    {
        let revision = next_revision(self.revision);
        let draft = draft_of(alloc, &self.schema, revision, named)?;
        let stored = sum(self.stored, draft.stored_after)? - draft.stored_before;
        let live = sum(self.live, draft.live_after)? - draft.live_before;
        within_limit(stored)?;
        Ok(Planned {
            batch: push_batch(alloc, revision, draft.rows)?,
            puts: draft.puts,
            revision,
            stored,
            live,
        })
    }

    /// What is to be committed for a push, if it names something.
    #[tactic(auto, unfolding(crate::specs::Pushing::push_plan))]
    fn plan(
        &self,
        alloc: Global,
        last: u64,
        changes: &Changes,
    ) -> Result<Option<Planned>, PushFault>
        requires { names_ascend (λ t. t.table) changes.now.tables ≡ true }
        ensures plan { MatchResult result (IsPlanOf self.now (push_plan self.now last changes.now)) (λ f. Fails PushFault.Memory f (push_plan self.now last changes.now)) }
        ensures ready { IfOk result (CanBePutIfAny self.now) }
        ensures fault { IfErr result IsOfPush }
    {
        let named = self.judged(alloc, last, changes)?;
        if !names_something(changes) {
            return Ok(None);
        }
        Ok(Some(self.planned(alloc, named.as_slice())?))
    }

    fn install<K: Keeper>(
        &mut self,
        alloc: Global,
        keeper: &mut K,
        planned: Planned,
    ) -> Result<u64, PushFault>
        requires { CanBePut self.old planned }
        ensures ok { IfOk result (λ revision. revision ≡ planned.revision) }
        ensures after { OnOk result (self.new ≡ with_push self.old planned.revision planned.puts.items) }
        ensures err { OnErr result (self.new ≡ self.old) }
        ensures fault { IfErr result IsOfKeeper }
        ensures keeper { Asks (Some planned.batch) self.old.name PushFault.KeeperFault result (K.seen keeper.old) (K.seen keeper.new) }
    {
        let Planned {
            batch,
            puts,
            revision,
            stored,
            live,
        } = planned;
        let key = self.name.as_str();
        commit_puts(&mut self.tables, alloc, keeper, key, &batch, puts)?;
        self.revision = revision;
        self.stored = stored;
        self.live = live;
        Ok(revision)
    }

    /// Takes a push into the rows, or refuses it.
    fn accept<K: Keeper>(
        &mut self,
        alloc: Global,
        keeper: &mut K,
        last: u64,
        changes: &Changes,
    ) -> Result<u64, PushFault>
        requires { names_ascend (λ t. t.table) changes.now.tables ≡ true }
        ensures pushed { IsPushed (push_plan self.old last changes.now) self.old self.new result }
        ensures keeper { Asks (asked (push_plan self.old last changes.now)) self.old.name PushFault.KeeperFault result (K.seen keeper.old) (K.seen keeper.new) }
    {
        match self.plan(alloc, last, changes)? {
            None => Ok(self.revision),
            Some(planned) => self.install(alloc, keeper, planned),
        }
    }

    /// Takes a push into the rows, or refuses it; the answer is the revision. All memory is taken before the keeper is
    /// asked. A push that names nothing asks nothing of it. The tables of a push ascend by name, each once, as in changes
    /// that were read. For every log for which the backend stands, it stands afterwards for the log after the push, and
    /// where the log's rows were kept, those of the log after it are.
    pub fn push<K: Keeper>(
        &mut self,
        alloc: Global,
        keeper: &mut K,
        last: u64,
        changes: &Changes,
    ) -> Result<u64, PushFault>
        requires { names_ascend (λ t. t.table) changes.now.tables ≡ true }
        ensures pushed { IsPushed (push_plan self.old last changes.now) self.old self.new result }
        ensures keeper { Asks (asked (push_plan self.old last changes.now)) self.old.name PushFault.KeeperFault result (K.seen keeper.old) (K.seen keeper.new) }
        ensures verdict { (g : Log) → Stands g self.old → IsVerdict (verdict g last changes.now) result }
        ensures stands { (g : Log) → Stands g self.old → Stands (log_after g changes.now result) self.new }
        ensures keeps { (g : Log) → Stands g self.old → (m : Stores) → (K.seen keeper.new).holds m → (was : Stores) × (K.seen keeper.old).holds was × KeepsOn self.old.name self.old.schema.version g (log_after g changes.now result) was m }
    {
        self.accept(alloc, keeper, last, changes)
    }
}
