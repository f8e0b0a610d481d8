//! Members in the order of their ids, with a gap between two of them: one list has those before the gap, and another
//! those behind it from the last on. A member comes or goes at the gap without another being moved, and the gap moves past
//! one member after another. So patches that ascend by their ids cost by the members and the patches together.
ghost use Rattle.std.specs.Prelude.{◌≡◌, ◌+◌, ◌<◌, ◌≤◌, [], true, reverse};
ghost use Rattle.std.specs.Vec.{vec_len, vec_capacity};
ghost use Rattle.melon_observe.specs.Members.{is_ascending, below, above, are_below, are_not_below};
ghost use Rattle.melon_observe.specs.Gap.{whole};

use melon_raw::Id;
use melon_views::Shown;

/// Moves the gap down until all members before it are below an id.
fn move_down(before: &mut Vec<Shown>, behind: &mut Vec<Shown>, id: &Id)
    requires ascending { is_ascending (whole before.old.items behind.old.items) ≡ true }
    requires room { vec_len before.old + vec_len behind.old < vec_capacity before.old }
    requires room_behind { vec_len before.old + vec_len behind.old < vec_capacity behind.old }
    ensures whole { whole before.new.items behind.new.items ≡ whole before.old.items behind.old.items }
    ensures below { are_below id.now before.new.items ≡ true }
    ensures len { vec_len before.new + vec_len behind.new ≡ vec_len before.old + vec_len behind.old }
    ensures capacity { vec_capacity before.new ≡ vec_capacity before.old }
    ensures capacity_behind { vec_capacity behind.new ≡ vec_capacity behind.old }
{
    while let Some(member) = before.pop() {
        if member.id.order(id).is_lt() {
            before.push_reserved(member);
            return;
        }
        behind.push_reserved(member);
    }
}

/// Moves the gap up until no member behind it is below an id.
fn move_up(before: &mut Vec<Shown>, behind: &mut Vec<Shown>, id: &Id)
    requires ascending { is_ascending (whole before.old.items behind.old.items) ≡ true }
    requires below { are_below id.now before.old.items ≡ true }
    requires room { vec_len before.old + vec_len behind.old < vec_capacity before.old }
    requires room_behind { vec_len before.old + vec_len behind.old < vec_capacity behind.old }
    ensures whole { whole before.new.items behind.new.items ≡ whole before.old.items behind.old.items }
    ensures below { are_below id.now before.new.items ≡ true }
    ensures not_below { are_not_below id.now (reverse behind.new.items) ≡ true }
    ensures len { vec_len before.new + vec_len behind.new ≡ vec_len before.old + vec_len behind.old }
    ensures capacity { vec_capacity before.new ≡ vec_capacity before.old }
    ensures capacity_behind { vec_capacity behind.new ≡ vec_capacity behind.old }
{
    while let Some(member) = behind.pop() {
        if !member.id.order(id).is_lt() {
            behind.push_reserved(member);
            return;
        }
        before.push_reserved(member);
    }
}

/// Takes the first member behind the gap out, where it is that of an id.
fn drop_same(behind: &mut Vec<Shown>, id: &Id)
    requires ascending { is_ascending (reverse behind.old.items) ≡ true }
    requires not_below { are_not_below id.now (reverse behind.old.items) ≡ true }
    requires room { vec_len behind.old < vec_capacity behind.old }
    ensures above { reverse behind.new.items ≡ above id.now (reverse behind.old.items) }
    ensures len { vec_len behind.new ≤ vec_len behind.old }
    ensures capacity { vec_capacity behind.new ≡ vec_capacity behind.old }
{
    if let Some(member) = behind.pop() {
        if member.id.order(id).is_ne() {
            behind.push_reserved(member);
        }
    }
}

/// Moves the gap to an id, and takes the member of the id out, where there is one.
pub fn part_at(before: &mut Vec<Shown>, behind: &mut Vec<Shown>, id: &Id)
    requires ascending { is_ascending (whole before.old.items behind.old.items) ≡ true }
    requires room { vec_len before.old + vec_len behind.old < vec_capacity before.old }
    requires room_behind { vec_len before.old + vec_len behind.old < vec_capacity behind.old }
    ensures below { before.new.items ≡ below id.now (whole before.old.items behind.old.items) }
    ensures above { reverse behind.new.items ≡ above id.now (whole before.old.items behind.old.items) }
    ensures len { vec_len before.new + vec_len behind.new ≤ vec_len before.old + vec_len behind.old }
    ensures capacity { vec_capacity before.new ≡ vec_capacity before.old }
    ensures capacity_behind { vec_capacity behind.new ≡ vec_capacity behind.old }
{
    move_down(before, behind, id);
    move_up(before, behind, id);
    drop_same(behind, id);
}

/// Moves the gap behind all members.
pub fn close(before: &mut Vec<Shown>, behind: &mut Vec<Shown>)
    requires { vec_len before.old + vec_len behind.old ≤ vec_capacity before.old }
    ensures whole { before.new.items ≡ whole before.old.items behind.old.items }
    ensures none { behind.new.items ≡ [] }
    ensures capacity { vec_capacity behind.new ≡ vec_capacity behind.old }
{
    while let Some(member) = behind.pop() {
        before.push_reserved(member);
    }
}
