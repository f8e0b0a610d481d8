use crate::observer::NamedObserver;
use melon_board::Store;
use melon_queue::Queue;
use std::marker::Model;

/// An open app: its store, the queue of its writers, and its observers in the order of their opening.
#[derive(Drop)]
pub struct App {
    pub(crate) store: Store,
    pub(crate) queue: Queue,
    pub(crate) observers: Vec<NamedObserver>,
}

impl Model for App {
    ghost use Rattle.std.specs.Coded.{codes};
    ghost use Rattle.melon_query.specs.contracts.query.Cond as cond;
    ghost use Rattle.melon_machine.specs.State.{KeptApp};

    ghost Value = { KeptApp };

    ghost coded = { Prim.hlevel (codes, cond.the_row.coded) };

    ghost use Rattle.melon_world.specs.Inside.{app_in};

    ghost view = { app_in };
}
