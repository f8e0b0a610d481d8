//! Keys one after another, among which others are put at a small cost. Those that came last stand in a short list beside
//! the settled ones, each with the number of settled ones before it. Once the short list is full, all of its keys settle.
//! So a key is put among n others at a cost of about n / 2048 + 2048 moves in the place of n.
ghost use Rattle.std.specs.Prelude.{◌≡◌, ◌+◌, ◌++◌, ◌<◌, ◌≤◌, ℕ, [], length, take, drop, map, slice_get, Some, OnOk, OnErr};
ghost use Rattle.std.specs.List.{insert, remove};
ghost use Rattle.std.specs.Vec.{vec_len, vec_capacity};
ghost use Rattle.melon_table.specs.Late.{joined, AreLate, IsCut, less};

use std::alloc::{AllocError, Global};
use std::marker::Model;
use std::mem;

/// The most keys of the short list.
const MOST_LATE: usize = 2048;

/// A key that came lately, and how many of the settled keys stand before it.
#[derive(Clone, Copy, Debug)]
pub struct Late {
    pub behind: usize,
    pub key: usize,
}

/// Keys in their order, with room for more.
#[derive(Debug, Drop)]
pub struct Keys {
    settled: Vec<usize>,
    late: Vec<Late>,
    // Without keys, but while the late ones settle.
    scratch: Vec<usize>,
    // For how many keys there is memory.
    most: usize,
}

impl Model for Keys {
    ghost use Rattle.melon_table.specs.Late.{SeenKeys};

    ghost Value = { SeenKeys };

    ghost use Rattle.melon_table.specs.Keyed.{keys_in, KeepsKeys};

    ghost view = { keys_in };

    ghost invariant = { KeepsKeys };
}

/// How many of the late keys stand before a place.
fn late_before(late: &[Late], place: usize) -> usize
    requires { (settled : ℕ) × AreLate 0 settled late.now }
    ensures cut { IsCut place late.now result }
    ensures few { result ≤ place }
{
    let mut low = 0;
    let mut high = late.len();
    while low < high {
        let middle = low + (high - low) / 2;
        if middle < place && late[middle].behind < place - middle {
            low = middle + 1;
        } else {
            high = middle;
        }
    }
    low
}

/// The key at a place.
fn key_at(settled: &[usize], late: &[Late], place: usize) -> usize
    requires late { AreLate 0 (length settled.now) late.now }
    requires within { place < length settled.now + length late.now }
    ensures { slice_get (joined 0 settled.now late.now) place ≡ Some result }
{
    let before = late_before(late, place);
    if before < late.len() && late[before].behind == place - before {
        return late[before].key;
    }
    settled[place - before]
}

/// Takes the late keys among the settled ones. It takes no memory.
fn settle(settled: &mut Vec<usize>, late: &mut Vec<Late>, scratch: &mut Vec<usize>)
    requires late { AreLate 0 (length settled.old.items) late.old.items }
    requires empty { scratch.old.items ≡ [] }
    requires fit { length settled.old.items + length late.old.items ≤ vec_capacity scratch.old }
    ensures keys { settled.new.items ≡ joined 0 settled.old.items late.old.items }
    ensures none { late.new.items ≡ [] }
    ensures empty { scratch.new.items ≡ [] }
    ensures settled { vec_capacity settled.new ≡ vec_capacity scratch.old }
    ensures scratch { vec_capacity scratch.new ≡ vec_capacity settled.old }
    ensures late { vec_capacity late.new ≡ vec_capacity late.old }
{
    for place in 0..settled.len() + late.len() {
        scratch.push_reserved(key_at(settled.as_slice(), late.as_slice(), place));
    }
    mem::swap(settled, scratch);
    scratch.clear();
    late.clear();
}

/// An insertion that takes no memory, since there is room.
fn insert_reserved<T: Drop>(items: &mut Vec<T>, place: usize, item: T)
    requires within { place ≤ vec_len items.old }
    requires room { vec_len items.old < vec_capacity items.old }
    ensures items { items.new.items ≡ insert items.old.items place item }
    ensures capacity { vec_capacity items.new ≡ vec_capacity items.old }
    ensures len { vec_len items.new ≡ vec_len items.old + 1 }
{
    match items.insert(place, item) {
        Ok(()) => (),
        Err(_) => unreachable!(),
    }
}

/// Puts a key among the late ones, or after the settled ones where there is none.
fn put(settled: &mut Vec<usize>, late: &mut Vec<Late>, place: usize, key: usize)
    requires late { AreLate 0 (length settled.old.items) late.old.items }
    requires within { place ≤ length settled.old.items + length late.old.items }
    requires settled_room { vec_len settled.old < vec_capacity settled.old }
    requires late_room { vec_len late.old < vec_capacity late.old }
    ensures keys { joined 0 settled.new.items late.new.items ≡ insert (joined 0 settled.old.items late.old.items) place key }
    ensures late { AreLate 0 (length settled.new.items) late.new.items }
    ensures few { vec_len late.new ≤ vec_len late.old + 1 }
    ensures settled_capacity { vec_capacity settled.new ≡ vec_capacity settled.old }
    ensures late_capacity { vec_capacity late.new ≡ vec_capacity late.old }
{
    if late.is_empty() && place == settled.len() {
        settled.push_reserved(key);
        return;
    }
    let before = late_before(late.as_slice(), place);
    let behind = place - before;
    insert_reserved(late, before, Late { behind, key });
}

/// Counts one settled key less before each late one from a place of theirs on.
fn count_less(late: &mut Vec<Late>, from: usize)
    requires within { from ≤ length late.old.items }
    ensures items { late.new.items ≡ take from late.old.items ++ map less (drop from late.old.items) }
    ensures capacity { vec_capacity late.new ≡ vec_capacity late.old }
{
    for place in from..late.len() {
        let Late { behind, key } = late[place];
        late[place] = Late {
            behind: behind.saturating_sub(1),
            key,
        };
    }
}

/// Takes the key at a place out.
fn take_out(settled: &mut Vec<usize>, late: &mut Vec<Late>, place: usize) -> usize
    requires late { AreLate 0 (length settled.old.items) late.old.items }
    requires within { place < length settled.old.items + length late.old.items }
    ensures was { slice_get (joined 0 settled.old.items late.old.items) place ≡ Some result }
    ensures keys { joined 0 settled.new.items late.new.items ≡ remove (joined 0 settled.old.items late.old.items) place }
    ensures late { AreLate 0 (length settled.new.items) late.new.items }
    ensures few { vec_len late.new ≤ vec_len late.old }
    ensures settled_capacity { vec_capacity settled.new ≡ vec_capacity settled.old }
    ensures late_capacity { vec_capacity late.new ≡ vec_capacity late.old }
{
    let before = late_before(late.as_slice(), place);
    if before < late.len() && late[before].behind == place - before {
        return late.remove(before).key;
    }
    count_less(late, before);
    settled.remove(place - before)
}

impl Keys {
    /// No keys.
    pub fn new(alloc: Global) -> Keys
        ensures { result ≡ record { keys = []; most = 0 } }
    {
        Keys {
            settled: Vec::new(alloc),
            late: Vec::new(alloc),
            scratch: Vec::new(alloc),
            most: 0,
        }
    }

    /// How many keys there are.
    pub fn len(&self) -> usize
        ensures { result ≡ length self.now.keys }
    {
        self.settled.len() + self.late.len()
    }

    /// The key at a place.
    pub fn at(&self, place: usize) -> usize
        requires { place < length self.now.keys }
        ensures { slice_get self.now.keys place ≡ Some result }
    {
        key_at(self.settled.as_slice(), self.late.as_slice(), place)
    }

    /// Makes room for `n` more keys.
    pub fn room(&mut self, n: usize) -> Result<(), AllocError>
        ensures ok { OnOk result (length self.new.keys + n ≤ self.new.most) }
        ensures keys { self.new.keys ≡ self.old.keys }
        ensures later { self.old.most ≤ self.new.most }
        ensures fits { self.new.most ≤ 18446744073709551615 }
    {
        let most = self.len().saturating_add(n);
        if self.most < most {
            self.settled.reserve(self.late.len().saturating_add(n))?;
            self.scratch.reserve(most)?;
            self.late
                .reserve(most.min(MOST_LATE).saturating_sub(self.late.len()))?;
            self.most = most;
        }
        Ok(())
    }

    /// Puts a key before that of a place, or after all. It takes no memory.
    pub fn insert(&mut self, place: usize, key: usize)
        requires within { place ≤ length self.old.keys }
        requires room { length self.old.keys < self.old.most }
        ensures keys { self.new.keys ≡ insert self.old.keys place key }
        ensures most { self.new.most ≡ self.old.most }
    {
        if self.late.len() == MOST_LATE {
            settle(&mut self.settled, &mut self.late, &mut self.scratch);
        }
        put(&mut self.settled, &mut self.late, place, key);
    }

    /// Takes the key at a place out.
    pub fn remove(&mut self, place: usize) -> usize
        requires { place < length self.old.keys }
        ensures was { slice_get self.old.keys place ≡ Some result }
        ensures keys { self.new.keys ≡ remove self.old.keys place }
        ensures most { self.new.most ≡ self.old.most }
    {
        take_out(&mut self.settled, &mut self.late, place)
    }
}
