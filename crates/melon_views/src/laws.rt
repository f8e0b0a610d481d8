//! What holds of views, and of observers that stand on a history.
ghost use Rattle.melon_views.specs.Laws.{EmissionsCompareExactly, EntriesChangeViews, OthersChangeNothing, UntouchedViewsStay, FirstDue, NoneDue, GrownViewsStay, GrownHistoriesKeepStanding, TurnsKeepStanding};
ghost use Rattle.melon_views.specs.Turns.{TurnsGoAhead, TurnsFollow, TurnsShowViews};

/// A legal entry changes what a simple query shows exactly where some change of it makes a member come, go or show other
/// cells.
pub fn entries_change_views()
    ensures { EntriesChangeViews }
{}

/// What a query shows stays where no table that it reads is changed.
pub fn other_tables_change_nothing()
    ensures set { OthersChangeNothing }
    ensures views { UntouchedViewsStay }
{}

/// An emission is due at the first entry after a position that changes what a simple query shows, and none is due where no
/// entry does.
pub fn emissions_are_due()
    ensures first { FirstDue }
    ensures none { NoneDue }
{}

/// Two emissions are told apart exactly where they are different.
pub fn emissions_compare_exactly()
    ensures { EmissionsCompareExactly }
{}

/// A history that has grown shows what it showed, and keeps every observer standing.
pub fn grown_histories_keep_standing()
    ensures views { GrownViewsStay }
    ensures standing { GrownHistoriesKeepStanding }
{}

/// An observer that stands on a history stands on it after its turn.
pub fn turns_keep_standing()
    ensures { TurnsKeepStanding }
{}

/// An observer that takes turns until it is still goes ahead with each emission, which is the view at its number, and is
/// still at the history's end.
pub fn turns_go_on()
    ensures ahead { TurnsGoAhead }
    ensures follow { TurnsFollow }
    ensures views { TurnsShowViews }
{}
