//! The rows of one table by id, and their order by the last revision of each.
ghost use Rattle.std.specs.Prelude.{◌≡◌, ◌==◌, List as Sequence, ℕ, false, bytes_eq, OnOk};
ghost use Rattle.std.proofs.Common.{rules};
ghost use Rattle.std.specs.Option.{option_copied};
ghost use Rattle.std.specs.Cmp.{partial_order_from_own_ties};
ghost use Rattle.std.specs.Cmp.Rules.{comparing};
ghost use Rattle.std.specs.Ordering.{nat_cmp, on, flip_args, then_cmp, eq_of_both, as_partial_cmp};
ghost use Rattle.std.specs.Cmp.Lexicographic.{pointwise, slice_cmp};
ghost use Rattle.melon_log.specs.ServerRows.{greatest, at_id};
ghost use Rattle.melon_log.specs.declared.server_row.ServerRow.{ServerRow};
ghost use Rattle.melon_backend.specs.Rows.{put_row};
ghost use Rattle.std.specs.Prelude.{[], true, IfOk, Some};
ghost use Rattle.std.specs.BTreeMap.{is_at, IsOrdered};
ghost use Rattle.std.specs.Map.{lookup, set_value};
ghost use Rattle.melon_backend.specs.Inside.{id_order, string_cmp, shown, rows_in, has_place, flat, AreOwn, stamp_of, has_stamp, is_ready, IsKept};

use melon_log::ServerRow;
use melon_raw::Id;
use melon_schema::Twin;
use std::alloc::{AllocError, Global};
use std::cmp::Ordering;
use std::collections::{BTreeMap, BTreeSet};
use std::mem;

/// A record by the last revision of its row. Of two stamps the one of the later revision comes first.
#[derive(Debug, Drop)]
pub(crate) struct Stamp {
    pub(crate) revision: u64,
    pub(crate) id: Id,
}

impl PartialEq for Stamp {
    ghost eq = { eq_of_both (on (λ s. s.revision) ◌==◌) (on (λ s. s.id) (pointwise ◌==◌)) };

    ghost laws = { Prim.search (comparing, rules) };

    fn eq(&self, other: &Stamp) -> bool {
        self.revision == other.revision && self.id.as_str() == other.id.as_str()
    }
}

impl Eq for Stamp {
    ghost laws = { Prim.search (comparing, rules) };
}

impl Ord for Stamp {
    ghost cmp = { then_cmp (flip_args (on (λ s. s.revision) nat_cmp)) (on (λ s. s.id) (slice_cmp nat_cmp)) };

    ghost total = { Prim.search (comparing, rules) };

    ghost matches_partial_cmp = { Prim.search (comparing, rules) };

    ghost matches_eq = { Prim.search (comparing, rules) };

    fn cmp(&self, other: &Stamp) -> Ordering {
        let revisions = other.revision.cmp(&self.revision);
        revisions.then(self.id.order(&other.id))
    }
}

impl PartialOrd for Stamp {
    ghost partial_cmp = { as_partial_cmp (then_cmp (flip_args (on (λ s. s.revision) nat_cmp)) (on (λ s. s.id) (slice_cmp nat_cmp))) };

    ghost laws = { partial_order_from_own_ties (Prim.search (comparing, rules)) (Prim.search (comparing, rules)) };

    fn partial_cmp(&self, other: &Stamp) -> Option<Ordering> {
        Some(self.cmp(other))
    }
}

/// A place may be without a row while its table changes. A stamp may be left of a push that was not kept, whose record has
/// an earlier revision or no row; such stamps are passed over.
#[derive(Drop)]
pub(crate) struct ServerTable {
    pub(crate) places: BTreeMap<String, Option<ServerRow>>,
    pub(crate) stamps: BTreeSet<Stamp>,
}

/// The greatest of the row's revisions.
pub(crate) fn greatest(row: &ServerRow) -> u64
    ensures { result ≡ greatest row.now }
{
    let changed = row.changed.max(row.deleted.unwrap_or(0));
    row.created.max(changed)
}

fn stamp_of(alloc: Global, row: &ServerRow) -> Result<Stamp, AllocError>
    ensures { IfOk result (λ stamp. stamp ≡ stamp_of row.now) }
{
    Ok(Stamp {
        revision: greatest(row),
        id: row.id.copy(alloc)?,
    })
}

/// Makes a place without a row, where the id has none.
fn make_place(
    places: &mut BTreeMap<String, Option<ServerRow>>,
    alloc: Global,
    id: &Id,
) -> Result<(), AllocError>
    requires kept { AreOwn places.old.entries }
    ensures shown { shown places.new.entries ≡ shown places.old.entries }
    ensures kept { AreOwn places.new.entries }
    ensures ordered { IsOrdered string_cmp places.old → IsOrdered string_cmp places.new }
    ensures made { OnOk result (has_place id.now places.new.entries ≡ true) }
    ensures keeps { (q : Sequence ℕ) → has_place q places.old.entries ≡ true → has_place q places.new.entries ≡ true }
{
    if !places.contains_key(id.as_str()) {
        let key = String::from_str(alloc, id.as_str())?;
        places.insert(key, None)?;
    }
    Ok(())
}

/// Writes the row of an id that has a place, and gives back what stood there.
fn set_row(places: &mut BTreeMap<String, Option<ServerRow>>, row: ServerRow) -> Option<ServerRow>
    ensures was { result ≡ flat (lookup (is_at (id_order row.id)) places.old.entries) }
    ensures entries { places.new.entries ≡ set_value (is_at (id_order row.id)) places.old.entries (Some row) }
{
    match places.get_mut(row.id.as_str()) {
        Some(place) => mem::replace(place, Some(row)),
        None => None,
    }
}

fn make_stamp(
    stamps: &mut BTreeSet<Stamp>,
    alloc: Global,
    row: &ServerRow,
) -> Result<(), AllocError>
    ensures made { OnOk result (has_stamp row.now stamps.new ≡ true) }
    ensures keeps { (q : ServerRow) → has_stamp q stamps.old ≡ true → has_stamp q stamps.new ≡ true }
{
    stamps.insert(stamp_of(alloc, row)?)?;
    Ok(())
}

/// Takes the stamp of a row away that was replaced at this revision.
fn drop_stamp(stamps: &mut BTreeSet<Stamp>, was: ServerRow, revision: u64)
    ensures keeps { (q : ServerRow) → bytes_eq q.id was.id ≡ false → has_stamp q stamps.old ≡ true → has_stamp q stamps.new ≡ true }
    ensures later { (q : ServerRow) → greatest q ≡ revision → has_stamp q stamps.old ≡ true → has_stamp q stamps.new ≡ true }
{
    let last = greatest(&was);
    if last != revision {
        let ServerRow { id, .. } = was;
        stamps.remove(&Stamp { revision: last, id });
    }
}

impl ServerTable {
    pub(crate) fn new(alloc: Global) -> ServerTable
        ensures shown { rows_in result ≡ [] }
        ensures kept { IsKept result }
    {
        ServerTable {
            places: BTreeMap::new(alloc),
            stamps: BTreeSet::new(alloc),
        }
    }

    /// The row of an id.
    pub(crate) fn get(&self, id: &Id) -> Option<&ServerRow>
        requires { IsKept self.now }
        ensures { option_copied result ≡ at_id id.now (rows_in self.now) }
    {
        match self.places.get(id.as_str()) {
            Some(place) => place.as_ref(),
            None => None,
        }
    }

    /// Makes the place of a row and its stamp.
    pub(crate) fn ready(&mut self, alloc: Global, row: &ServerRow) -> Result<(), AllocError>
        requires { IsKept self.old }
        ensures kept { IsKept self.new }
        ensures shown { rows_in self.new ≡ rows_in self.old }
        ensures ready { OnOk result (is_ready row.now self.new ≡ true) }
        ensures keeps { (q : ServerRow) → is_ready q self.old ≡ true → is_ready q self.new ≡ true }
    {
        make_place(&mut self.places, alloc, &row.id)?;
        make_stamp(&mut self.stamps, alloc, row)
    }

    /// Puts a row into its place, which takes no memory.
    pub(crate) fn put(&mut self, row: ServerRow)
        requires kept { IsKept self.old }
        requires ready { is_ready row self.old ≡ true }
        ensures kept { IsKept self.new }
        ensures shown { rows_in self.new ≡ put_row row (rows_in self.old) }
        ensures keeps { (q : ServerRow) → bytes_eq q.id row.id ≡ false → is_ready q self.old ≡ true → is_ready q self.new ≡ true }
    {
        let revision = greatest(&row);
        if let Some(was) = set_row(&mut self.places, row) {
            drop_stamp(&mut self.stamps, was, revision);
        }
    }
}
