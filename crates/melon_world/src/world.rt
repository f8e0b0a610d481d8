ghost use Rattle.std.specs.Prelude.{◌≡◌, [], true, false, IfOk, OnErr};
ghost use Rattle.std.specs.List.{list_any};
ghost use Rattle.melon_outside.specs.Causes.{Rose};
ghost use Rattle.melon_outside.specs.SeenKeeper.{Later};
ghost use Rattle.melon_outside.specs.Asking.{HoldsAsBefore};
ghost use Rattle.melon_script.specs.Seen.{seen};
ghost use Rattle.melon_machine.specs.Refusals.{is_of_keeper};
ghost use Rattle.melon_machine.specs.State.{none_open};
ghost use Rattle.melon_machine.specs.Outcomes.{stepped, ends_with};
ghost use Rattle.melon_machine.specs.Apps.{plain_app_step};
ghost use Rattle.melon_machine.specs.Step.{step, is_turn, is_of_server};
ghost use Rattle.melon_world.specs.Handled.{IsHandled, MeetsAs, InterruptsAs, IsBounded, line_bound, IsLeft};

use crate::app::App;
use crate::apps::{close, open};
use crate::kind::{LineKind, kind_of};
use crate::observing::{drop_observer, observe, watch};
use crate::queueing::{enter, leave, nest};
use crate::reading::{fetch, rows};
use crate::relating::{children, parent};
use crate::serving::{open_backend, server_rows};
use crate::turning::turn;
use crate::writing::write;
use melon_backend::Backend;
use melon_outside::Keeper;
use melon_raw::Steps;
use melon_script::{Answer, Item, Line};
use std::alloc::{AllocError, Global};
use std::marker::Model;
use std::sync::ledger::Ledger;

/// The machine: the open apps, and the server once it is open.
#[derive(Drop)]
pub struct World {
    apps: Vec<App>,
    server: Option<Backend>,
}

impl Model for World {
    ghost use Rattle.std.specs.Coded.{codes};
    ghost use Rattle.melon_query.specs.contracts.query.Cond as cond;
    ghost use Rattle.melon_machine.specs.State.{KeptMachine};

    ghost Value = { KeptMachine };

    ghost coded = { Prim.hlevel (codes, cond.the_row.coded) };

    ghost use Rattle.melon_world.specs.Inside.{world_in};

    ghost view = { world_in };
}

/// The item that a line of an app prints which isn't a turn.
#[tactic(auto, using(crate::proofs::Meeting::handled_quietly), unfolding(melon_machine::specs::Apps::plain_app_step))]
fn take<K: Keeper, N: Ledger>(
    apps: &mut Vec<App>,
    alloc: Global,
    keeper: &mut K,
    line: &Line,
    steps: &mut Steps<N>,
) -> Result<Item, AllocError>
    requires turns { is_turn (seen line.now) ≡ false }
    requires server { is_of_server (seen line.now) ≡ false }
    ensures { IsHandled (plain_app_step apps.old.items (seen line.now)) (stepped apps.new.items) is_of_keeper (K.seen keeper.old) (K.seen keeper.new) apps.old.items apps.new.items result }
{
    match line {
        Line::Open { app, schema } => open(apps, alloc, keeper, app, schema),
        Line::Close { app } => close(apps, alloc, app),
        Line::Enter { app, writer } => enter(apps, alloc, app, writer),
        Line::Nest { app, writer } => nest(apps, alloc, app, writer),
        Line::Leave { app, writer } => leave(apps, alloc, app, writer),
        Line::Write { app, ops, writer } => write(apps, alloc, keeper, app, ops, writer),
        Line::Fetch { app, table, query } => {
            fetch(apps.as_slice(), alloc, app, table, query, steps)
        }
        Line::Rows { app, table } => rows(apps.as_slice(), alloc, app, table),
        Line::Observe {
            app,
            name,
            table,
            query,
            shape,
        } => observe(apps, alloc, app, name, table, query, shape),
        Line::Watch {
            app,
            name,
            table,
            id,
            to,
        } => watch(apps, alloc, app, name, table, id, to),
        Line::Turn { .. } => unreachable!(),
        Line::Drop { app, name } => drop_observer(apps, alloc, app, name),
        Line::Parent { app, table, id, to } => {
            parent(apps.as_slice(), alloc, app, table, id, to)
        }
        Line::Children { app, table, id, to } => {
            children(apps.as_slice(), alloc, app, table, id, to, steps)
        }
        Line::Backend { .. } => unreachable!(),
        Line::Server { .. } => unreachable!(),
    }
}

impl World {
    /// The machine without open apps and without a server.
    pub fn new(alloc: Global) -> World
        ensures { result ≡ none_open }
    {
        World {
            apps: Vec::new(alloc),
            server: None,
        }
    }

    /// One step of the machine. All memory but that of a turn is taken before anything is done; turns that were taken stay
    /// taken. A turn of an observer of a simple query takes at most one step for each change behind its position.
    #[tactic(auto, using(crate::proofs::Stepping::unasked_as))]
    pub fn step<K: Keeper, N: Ledger>(
        &mut self,
        alloc: Global,
        keeper: &mut K,
        line: &Line,
        steps: &mut Steps<N>,
    ) -> Result<Answer, AllocError>
        ensures met { IfOk result (λ items. MeetsAs (λ m. step m (seen line.now)) self.old (K.seen keeper.old) (K.seen keeper.new) (ends_with self.new items)) }
        ensures left { OnErr result (IsLeft (seen line.now) self.old self.new) }
        ensures held { OnErr result (HoldsAsBefore (K.seen keeper.old) (K.seen keeper.new)) }
        ensures interrupted { OnErr result (InterruptsAs (λ m. step m (seen line.now)) self.old (K.seen keeper.old) (K.seen keeper.new)) }
        ensures later { Later (K.seen keeper.old) (K.seen keeper.new) }
        ensures cause { IfOk result (λ items. list_any is_of_keeper items ≡ true → Rose (K.seen keeper.old).faults (K.seen keeper.new).faults) }
        ensures cost { IfOk result (λ _. IsBounded (line_bound self.old.apps (seen line.now)) steps.old steps.new) }
    {
        match kind_of(line) {
            LineKind::Turn(app, name) => turn(&mut self.apps, alloc, app, name, steps),
            LineKind::Backend(schema) => {
                let answer = Answer::new(alloc)?;
                let item = open_backend(&mut self.server, alloc, keeper, schema)?;
                Ok(answer.with_first(item))
            }
            LineKind::Server(table) => {
                let answer = Answer::new(alloc)?;
                let item = server_rows(&self.server, alloc, table)?;
                Ok(answer.with_first(item))
            }
            LineKind::App => {
                let answer = Answer::new(alloc)?;
                let item = take(&mut self.apps, alloc, keeper, line, steps)?;
                Ok(answer.with_first(item))
            }
        }
    }
}
