//! Which part of the machine a line is about.
ghost use Rattle.melon_script.specs.Seen.{seen};
ghost use Rattle.melon_world.specs.Handled.{IsKind};

use melon_schema::Text;
use melon_script::Line;
use serde_json::Value;

/// A turn of an observer of an app, a line of the server, or any other line of an app.
pub enum LineKind<'a> {
    Turn(&'a Text, &'a Text),
    Backend(&'a Value),
    Server(&'a Text),
    App,
}

pub fn kind_of(line: &Line) -> LineKind<'_>
    ensures { IsKind (seen line.now) result }
{
    match line {
        Line::Turn { app, name } => LineKind::Turn(app, name),
        Line::Backend { schema } => LineKind::Backend(schema),
        Line::Server { table } => LineKind::Server(table),
        Line::Open { .. } => LineKind::App,
        Line::Close { .. } => LineKind::App,
        Line::Enter { .. } => LineKind::App,
        Line::Nest { .. } => LineKind::App,
        Line::Leave { .. } => LineKind::App,
        Line::Write { .. } => LineKind::App,
        Line::Fetch { .. } => LineKind::App,
        Line::Rows { .. } => LineKind::App,
        Line::Observe { .. } => LineKind::App,
        Line::Watch { .. } => LineKind::App,
        Line::Drop { .. } => LineKind::App,
        Line::Parent { .. } => LineKind::App,
        Line::Children { .. } => LineKind::App,
    }
}
