//! What holds of every fetch, of what is sent of it, and of every settlement.
ghost use Rattle.melon_push.specs.Laws.{CollectedIsFetch, RowsStayInOrder, SentStandsAsFetched, SentNamesSomething, SettledLeavesCopies, SettledIsAllowed};

/// What is collected has the form of a fetch, and is made of copies of the rows.
pub fn collected_is_fetch()
    ensures { CollectedIsFetch }
{}

/// Rows stay in order, whatever changes are made.
pub fn rows_stay_in_order()
    ensures { RowsStayInOrder }
{}

/// A record stands in what is sent as it was collected.
pub fn sent_stands_as_fetched()
    ensures { SentStandsAsFetched }
{}

/// What is sent of a fetch that isn't empty names something.
pub fn sent_names_something()
    ensures { SentNamesSomething }
{}

/// On the rows after a settlement each record has the row that it is settled to.
pub fn settled_leaves_copies()
    ensures { SettledLeavesCopies }
{}

/// The change set of a settlement is one that a settled entry of the app may have.
pub fn settled_is_allowed()
    ensures { SettledIsAllowed }
{}
