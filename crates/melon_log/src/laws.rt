//! Laws of the log.
ghost use Rattle.melon_log.specs.Laws.{RowFollowsPush, UnlistedStays, RevisionsGrow, TouchedIsNewer, ServerRowsAreNow, PullTellsRows, PullTellsTouched, DeletedLast};

/// The row of a record after one push more is made of the row before it: the induction step for whoever keeps the rows
/// now and no log.
pub fn row_follows_push()
    ensures follows { RowFollowsPush }
    ensures unlisted { UnlistedStays }
{}

/// Revisions only grow.
pub fn revisions_grow()
    ensures grow { RevisionsGrow }
    ensures touched { TouchedIsNewer }
{}

/// The rows of the log are found by their records, and ascend.
pub fn server_rows_are_now()
    ensures { ServerRowsAreNow }
{}

/// What a pull at t tells is what was touched after t.
pub fn pull_tells_touched()
    ensures rows { PullTellsRows }
    ensures touched { PullTellsTouched }
    ensures last { DeletedLast }
{}
