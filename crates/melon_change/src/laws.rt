//! What holds of every batch and of every legal history.
ghost use Rattle.melon_change.specs.Legality.{BatchesAreLegal};
ghost use Rattle.melon_change.specs.Marks.{RowsCarryMarks, MarksEndOnlySo};

/// The change set of a batch that breaks no rule is one that an entry of the app may have.
pub fn batches_are_legal()
    ensures { BatchesAreLegal }
{}

/// After every entry of a legal history the marks that a row carries are those that looking back over the history gives.
pub fn rows_carry_marks()
    ensures { RowsCarryMarks }
{}

/// A mark ends only where its row is destroyed or, marked as deleted, is replaced, or at a settled entry.
pub fn marks_end_only_so()
    ensures { MarksEndOnlySo }
{}
