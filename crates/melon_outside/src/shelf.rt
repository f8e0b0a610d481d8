//! What is kept of one store in memory: its rows by key, and its values by name.

ghost use Rattle.std.specs.Prelude.{◌≡◌, ◌++◌, ◌∷◌, [], true, map, if◌then◌else◌, OnOk, OnErr, IfOk, position, bytes_eq};
ghost use Rattle.std.specs.BTreeMap.{is_at, IsOrdered};
ghost use Rattle.std.specs.Map.{set_value};
ghost use Rattle.melon_outside.specs.declared.kept.KeptKey.{KeptKey};
ghost use Rattle.melon_outside.specs.Ascending.{below, above, with_item, with_items, without_keys};
ghost use Rattle.melon_outside.specs.Kept.{key_cmp, key_of, name_of, text_cmp, is_in_order, batched, nothing};
ghost use Rattle.melon_outside.specs.Keeping.{find, with_store, made, are_in_order};
ghost use Rattle.melon_outside.specs.Shelved.{shown, has_place, have_places, row_of, seen_store};

use crate::kept::{Kept, KeptBatch, KeptKey, KeptRow, KeptStore, KeptValue};
use melon_schema::{List, Text, Twin};
use std::alloc::{AllocError, Global};
use std::collections::BTreeMap;

/// A place may be without a row while its store changes.
pub(crate) type Places = BTreeMap<KeptKey, Option<List<u8>>>;

/// What is kept of a store.
#[derive(Drop)]
pub(crate) struct Shelf {
    pub(crate) name: Text,
    pub(crate) places: Places,
    pub(crate) values: List<KeptValue>,
}

/// A row on its way to its place.
#[derive(Drop)]
struct Filing {
    key: KeptKey,
    body: List<u8>,
}

/// Writes the row of a key that has a place.
fn set_row(places: &mut Places, key: &KeptKey, row: Option<List<u8>>)
    ensures entries { places.new.entries ≡ set_value (is_at (key_cmp key.now)) places.old.entries row }
    ensures ordered { IsOrdered key_cmp places.old }
{
    if let Some(place) = places.get_mut(key) {
        *place = row;
    }
}

/// Makes a place without a row, where the key has none.
fn make_place(places: &mut Places, alloc: Global, key: &KeptKey) -> Result<(), AllocError>
    ensures shown { shown places.new.entries ≡ shown places.old.entries }
    ensures made { OnOk result (has_place key.now places.new.entries ≡ true) }
    ensures keeps { (q : KeptKey) → has_place q places.old.entries ≡ true → has_place q places.new.entries ≡ true }
{
    if !places.contains_key(key) {
        places.insert(key.copy(alloc)?, None)?;
    }
    Ok(())
}

fn make_places(places: &mut Places, alloc: Global, filings: &[Filing]) -> Result<(), AllocError>
    ensures shown { shown places.new.entries ≡ shown places.old.entries }
    ensures made { OnOk result (have_places filings.now places.new.entries ≡ true) }
{
    for filing in filings {
        make_place(places, alloc, &filing.key)?;
    }
    Ok(())
}

fn copy_filings(alloc: Global, rows: &[KeptRow]) -> Result<Vec<Filing>, AllocError>
    ensures { IfOk result (λ filings. map row_of filings.items ≡ rows.now) }
{
    let mut filings = Vec::with_capacity(alloc, rows.len())?;
    for row in rows {
        let key = KeptKey {
            table: row.table.copy(alloc)?,
            id: row.id.copy(alloc)?,
        };
        filings.push(Filing {
            key,
            body: row.body.copy(alloc)?,
        })?;
    }
    Ok(filings)
}

/// Takes the rows of the keys out of their places.
fn empty(places: &mut Places, keys: &[KeptKey])
    ensures shown { shown places.new.entries ≡ without_keys key_cmp key_of keys.now (shown places.old.entries) }
    ensures keeps { (q : KeptKey) → has_place q places.new.entries ≡ has_place q places.old.entries }
{
    for key in keys {
        set_row(places, key, None);
    }
}

/// Puts each row into its place.
fn fill(places: &mut Places, filings: Vec<Filing>)
    requires { have_places filings.items places.old.entries ≡ true }
    ensures { shown places.new.entries ≡ with_items key_cmp key_of (map row_of filings.items) (shown places.old.entries) }
{
    for filing in filings {
        let Filing { key, body } = filing;
        set_row(places, &key, Some(body));
    }
}

/// Takes the place of the key away where it has no row.
fn sweep_place(places: &mut Places, key: &KeptKey)
    ensures { shown places.new.entries ≡ shown places.old.entries }
{
    if let Some(None) = places.get(key) {
        places.remove(key);
    }
}

/// Takes the places of the keys away where they have no row.
fn sweep(places: &mut Places, keys: &[KeptKey])
    ensures { shown places.new.entries ≡ shown places.old.entries }
{
    for key in keys {
        sweep_place(places, key);
    }
}

/// Takes all memory first, so that nothing is changed where there is none.
fn change(
    places: &mut Places,
    alloc: Global,
    removes: &[KeptKey],
    puts: &[KeptRow],
) -> Result<(), AllocError>
    ensures ok { OnOk result (shown places.new.entries ≡ with_items key_cmp key_of puts.now (without_keys key_cmp key_of removes.now (shown places.old.entries))) }
    ensures err { OnErr result (shown places.new.entries ≡ shown places.old.entries) }
{
    let filings = copy_filings(alloc, puts)?;
    make_places(places, alloc, filings.as_slice())?;
    empty(places, removes);
    fill(places, filings);
    sweep(places, removes);
    Ok(())
}

fn rows_of(places: &Places, alloc: Global) -> Result<List<KeptRow>, AllocError>
    ensures { IfOk result (λ rows. rows ≡ shown places.now.entries) }
{
    let mut rows = List::new(alloc);
    for (key, row) in places {
        if let Some(body) = row {
            rows.push(KeptRow {
                table: key.table.copy(alloc)?,
                id: key.id.copy(alloc)?,
                body: body.copy(alloc)?,
            })?;
        }
    }
    Ok(rows)
}

/// Copies the values whose names are below this one.
fn push_below(
    all: &mut List<KeptValue>,
    alloc: Global,
    values: &[KeptValue],
    name: &str,
) -> Result<(), AllocError>
    ensures { OnOk result (all.new ≡ all.old ++ below text_cmp name_of name.now values.now) }
{
    for value in values {
        if value.name.as_str().cmp(name).is_lt() {
            all.push(value.copy(alloc)?)?;
        }
    }
    Ok(())
}

/// Copies the values whose names are above this one.
fn push_above(
    all: &mut List<KeptValue>,
    alloc: Global,
    values: &[KeptValue],
    name: &str,
) -> Result<(), AllocError>
    ensures { OnOk result (all.new ≡ all.old ++ above text_cmp name_of name.now values.now) }
{
    for value in values {
        if name.cmp(value.name.as_str()).is_lt() {
            all.push(value.copy(alloc)?)?;
        }
    }
    Ok(())
}

/// The values with this one in the place of its name.
fn with_value(
    alloc: Global,
    values: &[KeptValue],
    new: &KeptValue,
) -> Result<List<KeptValue>, AllocError>
    ensures { IfOk result (λ all. all ≡ with_item text_cmp name_of new.now values.now) }
{
    let mut all = List::new(alloc);
    push_below(&mut all, alloc, values, new.name.as_str())?;
    all.push(new.copy(alloc)?)?;
    push_above(&mut all, alloc, values, new.name.as_str())?;
    Ok(all)
}

fn with_values(
    alloc: Global,
    values: &List<KeptValue>,
    changes: &[KeptValue],
) -> Result<List<KeptValue>, AllocError>
    ensures { IfOk result (λ all. all ≡ with_items text_cmp name_of changes.now values.now) }
{
    let mut all = values.copy(alloc)?;
    for change in changes {
        all = with_value(alloc, all.as_slice(), change)?;
    }
    Ok(all)
}

/// A shelf with what is kept of a store.
fn shelf_of(alloc: Global, store: &KeptStore) -> Result<Shelf, AllocError>
    requires { is_in_order store.now.kept ≡ true }
    ensures { IfOk result (λ shelf. seen_store shelf ≡ store.now) }
{
    let mut places = BTreeMap::new(alloc);
    change(&mut places, alloc, &[], store.kept.rows.as_slice())?;
    Ok(Shelf {
        name: store.name.copy(alloc)?,
        places,
        values: store.kept.values.copy(alloc)?,
    })
}

/// Changes the rows, all of them or none.
fn commit_rows(
    places: &mut Places,
    alloc: Global,
    clear: bool,
    removes: &[KeptKey],
    puts: &[KeptRow],
) -> Result<(), AllocError>
    ensures ok { OnOk result (shown places.new.entries ≡ with_items key_cmp key_of puts.now (without_keys key_cmp key_of removes.now (if clear then [] else shown places.old.entries))) }
    ensures err { OnErr result (shown places.new.entries ≡ shown places.old.entries) }
{
    if !clear {
        return change(places, alloc, removes, puts);
    }
    let mut anew = BTreeMap::new(alloc);
    change(&mut anew, alloc, removes, puts)?;
    *places = anew;
    Ok(())
}

impl Shelf {
    ghost use Rattle.std.specs.Prelude.{◌≡◌, OnOk, OnErr, IfOk};
    ghost use Rattle.melon_outside.specs.Kept.{batched};
    ghost use Rattle.melon_outside.specs.Shelved.{seen_kept};

    pub(crate) fn load(&self, alloc: Global) -> Result<Kept, AllocError>
        ensures { IfOk result (λ kept. kept ≡ seen_kept self.now) }
    {
        Ok(Kept {
            rows: rows_of(&self.places, alloc)?,
            values: self.values.copy(alloc)?,
        })
    }

    pub(crate) fn commit(&mut self, alloc: Global, batch: &KeptBatch) -> Result<(), AllocError>
        ensures name { self.new.name ≡ self.old.name }
        ensures ok { OnOk result (seen_kept self.new ≡ batched batch.now (seen_kept self.old)) }
        ensures err { OnErr result (seen_kept self.new ≡ seen_kept self.old) }
    {
        let (removes, puts) = (batch.removes.as_slice(), batch.puts.as_slice());
        if batch.values.is_empty() {
            return commit_rows(&mut self.places, alloc, batch.clear, removes, puts);
        }
        let values = with_values(alloc, &self.values, batch.values.as_slice())?;
        commit_rows(&mut self.places, alloc, batch.clear, removes, puts)?;
        self.values = values;
        Ok(())
    }
}

/// Shelves with what is kept of each store.
pub(crate) fn shelves_of(alloc: Global, stores: &[KeptStore]) -> Result<Vec<Shelf>, AllocError>
    requires { are_in_order stores.now ≡ true }
    ensures { IfOk result (λ shelves. map seen_store shelves.items ≡ stores.now) }
{
    let mut shelves = Vec::with_capacity(alloc, stores.len())?;
    for store in stores {
        shelves.push(shelf_of(alloc, store)?)?;
    }
    Ok(shelves)
}

fn place_of(shelves: &[Shelf], name: &str) -> Option<usize>
    ensures { result ≡ position (λ s. bytes_eq s.name name.now) shelves.now }
{
    shelves.iter().position(|shelf| shelf.name.is(name))
}

/// What is kept under a name.
pub(crate) fn load_store(shelves: &[Shelf], alloc: Global, name: &str) -> Result<Kept, AllocError>
    ensures { IfOk result (λ kept. kept ≡ find (map seen_store shelves.now) name.now) }
{
    match place_of(shelves, name) {
        Some(at) => shelves[at].load(alloc),
        None => Ok(Kept {
            rows: List::new(alloc),
            values: List::new(alloc),
        }),
    }
}

/// A shelf more, with what the batch makes of nothing.
fn add_shelf(
    shelves: &mut Vec<Shelf>,
    alloc: Global,
    name: &str,
    batch: &KeptBatch,
) -> Result<(), AllocError>
    ensures ok { OnOk result (map seen_store shelves.new.items ≡ map seen_store shelves.old.items ++ made name.now (batched batch.now nothing) ∷ []) }
    ensures err { OnErr result (shelves.new.items ≡ shelves.old.items) }
{
    let mut shelf = Shelf {
        name: Text::new(alloc, name)?,
        places: BTreeMap::new(alloc),
        values: List::new(alloc),
    };
    shelf.commit(alloc, batch)?;
    shelves.push(shelf)?;
    Ok(())
}

/// Does the batch to what is kept under a name, all of it or nothing.
pub(crate) fn commit_store(
    shelves: &mut Vec<Shelf>,
    alloc: Global,
    name: &str,
    batch: &KeptBatch,
) -> Result<(), AllocError>
    ensures ok { OnOk result (map seen_store shelves.new.items ≡ with_store name.now (batched batch.now (find (map seen_store shelves.old.items) name.now)) (map seen_store shelves.old.items)) }
    ensures err { OnErr result (map seen_store shelves.new.items ≡ map seen_store shelves.old.items) }
{
    match place_of(shelves.as_slice(), name) {
        Some(at) => shelves[at].commit(alloc, batch),
        None => add_shelf(shelves, alloc, name, batch),
    }
}
