//! What holds of every change set of a pull.
ghost use Rattle.melon_pull.specs.Laws.{IncomingLeavesFates, IncomingIsAllowed, TwiceIsOnce};

/// On the rows after the change set each record has the row that its fate says.
pub fn incoming_leaves_fates()
    ensures { IncomingLeavesFates }
{}

/// The change set is one that an applied entry of the app may have.
pub fn incoming_is_allowed()
    ensures { IncomingIsAllowed }
{}

/// Applied to the rows after its own change set, a changes object changes nothing.
pub fn twice_is_once()
    ensures { TwiceIsOnce }
{}
