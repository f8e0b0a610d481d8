use melon_observe::Observer;
use melon_raw::Id;
use melon_relation::ParentObserver;
use std::marker::Model;

/// What is watched: the answer of a query, or the row to which a row belongs.
#[derive(Drop)]
pub enum Watching {
    Answer(Observer),
    Owner(ParentObserver),
}

/// An observer under the name that its app gave it.
#[derive(Drop)]
pub struct NamedObserver {
    pub(crate) name: Id,
    pub(crate) watching: Watching,
}

impl Model for NamedObserver {
    ghost use Rattle.std.specs.Coded.{codes};
    ghost use Rattle.melon_query.specs.contracts.query.Cond as cond;
    ghost use Rattle.melon_machine.specs.State.{KeptObserver};

    ghost Value = { KeptObserver };

    ghost coded = { Prim.hlevel (codes, cond.the_row.coded) };

    ghost use Rattle.melon_world.specs.Inside.{observer_in};

    ghost view = { observer_in };
}
