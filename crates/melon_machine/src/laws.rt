//! What holds of every run.
ghost use Rattle.melon_machine.specs.Sound.{RunsAreSound};

/// After every script each open app has one legal history, and what is kept of it are the encodings of the rows that the
/// history leaves.
pub fn runs_are_sound()
    ensures { RunsAreSound }
{}
