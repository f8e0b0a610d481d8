//! What holds of watches, and of the rows that a row has.
ghost use Rattle.melon_relation.specs.Laws.{ComparesExactly, OpenedWatchesStand, TurnsAreGiven, SecondTurnsAreStill, TurnsKeepWatching, GrownParentsStay, GrownHistoriesKeepWatching, ChildrenAreAnswered};

/// What a relation shows is compared by all that it is.
pub fn parents_compare_exactly()
    ensures { ComparesExactly }
{}

/// A watch that was opened at the end of a history stands on it.
pub fn opened_watches_stand()
    ensures { OpenedWatchesStand }
{}

/// A turn gives what the history says, and nothing a second time, and the watch stands at the history's end afterwards.
pub fn turns_keep_watching()
    ensures given { TurnsAreGiven }
    ensures second { SecondTurnsAreStill }
    ensures standing { TurnsKeepWatching }
{}

/// A history that has grown shows what it showed, and keeps every watch standing.
pub fn grown_histories_keep_watching()
    ensures views { GrownParentsStay }
    ensures standing { GrownHistoriesKeepWatching }
{}

/// The query of the rows that a row has answers the visible rows whose key is its id, by ascending id.
pub fn children_are_answered()
    ensures { ChildrenAreAnswered }
{}
