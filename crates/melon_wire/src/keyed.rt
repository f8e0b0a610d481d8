//! Things that stand for records, put in the order of these: by the place of the table, and then by id.
ghost use Rattle.std.specs.Prelude.{◌≡◌, map, option_map, true, OnOk};
ghost use Rattle.std.specs.List.Sorted.{IsPermutation};
ghost use Rattle.std.specs.Option.{option_copied};
ghost use Rattle.melon_raw.specs.Rows.{Key, is_key};
ghost use Rattle.melon_wire.specs.Keys.{key_cmp, do_rise, first_again};

use melon_raw::Id;
use std::alloc::AllocError;
use std::cmp::Ordering;

/// What stands for one record.
pub trait Keyed {
    ghost key_of: { Self → Key };

    /// The place of the record's table.
    fn table(&self) -> usize
        ensures { result ≡ (key_of self.now).table };

    /// The record's id.
    fn id(&self) -> &Id
        ensures { result.now ≡ (key_of self.now).id };
}

fn order<T: Keyed>(one: &T, other: &T) -> Ordering
    ensures { result ≡ key_cmp (T.key_of one.now) (T.key_of other.now) }
{
    match one.table().cmp(&other.table()) {
        Ordering::Less => Ordering::Less,
        Ordering::Equal => one.id().order(other.id()),
        Ordering::Greater => Ordering::Greater,
    }
}

fn is_same<T: Keyed>(one: &T, other: &T) -> bool
    ensures { result ≡ is_key (T.key_of one.now) (T.key_of other.now) }
{
    one.table() == other.table() && one.id().as_str() == other.id().as_str()
}

/// Puts them in the order of their records.
pub fn sort_keyed<T: Keyed>(items: &mut Vec<T>) -> Result<(), AllocError>
    ensures moved { IsPermutation items.old.items items.new.items }
    ensures rising { OnOk result (do_rise (map T.key_of items.new.items) ≡ true) }
{
    items.sort_by(|one, other| order(one, other))?;
    Ok(())
}

/// The first of them whose record the next one stands for, too.
pub fn first_again<T: Keyed>(items: &[T]) -> Option<&T>
    ensures { option_map T.key_of (option_copied result) ≡ first_again (map T.key_of items.now) }
{
    for i in 1..items.len() {
        if is_same(&items[i - 1], &items[i]) {
            return Some(&items[i - 1]);
        }
    }
    None
}
