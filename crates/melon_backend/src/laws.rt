//! Laws of a backend that stands for a log.
ghost use Rattle.melon_backend.specs.Laws.{OpeningStands, OpeningBeginsLog, PullIsLogs, VerdictIsLogs, PushFollowsLog, PushKeepsLog, RowsAreLogs, ReadTablesAscend};

/// A backend that was opened stands for the log that begins with it, and what is kept then is what that log amounts to.
pub fn opening_stands()
    ensures stands { OpeningStands }
    ensures begins { OpeningBeginsLog }
{}

/// A pull is answered as the log answers it.
pub fn pull_is_logs()
    ensures { PullIsLogs }
{}

/// A push is accepted or refused as the log has it, and after an accepted one the backend stands for the log after it.
pub fn push_follows_log()
    ensures verdict { VerdictIsLogs }
    ensures follows { PushFollowsLog }
{}

/// What is kept of a backend is what its log amounts to, and stays so.
pub fn rows_are_kept()
    ensures pushed { PushKeepsLog }
    ensures alike { RowsAreLogs }
{}

/// Changes that were read can be pushed.
pub fn read_changes_can_be_pushed()
    ensures { ReadTablesAscend }
{}
