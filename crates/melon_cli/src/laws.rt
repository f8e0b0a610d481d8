//! What holds of every run.
ghost use Rattle.melon_cli.specs.Fixed.{FixesOutcomes, NoneFails};

/// Over a keeper in memory the outcomes of a run are those that its list of failing calls plans for its calls, and where the
/// list is empty none fails.
pub fn memory_fixes_outcomes()
    ensures fixed { FixesOutcomes }
    ensures none_fails { NoneFails }
{}
