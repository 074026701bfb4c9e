// Laws of wake-ups. Each is a function that does nothing, whose clause is the law.
ghost use Rattle.xds_flows.specs.WakeLaws.{OnlyReachedWritesCount, ReplicasAreOrderly, WakesCoverTheDue, WakesCoverTheHeld, WakesCoverTheOwed, WantsBegin, WantsCoverRequests};

// rule: wake-ups
/// A write changes what a stream is owed by a name alone that the stream asked for, so it wakes all who may be owed something by it; and so
/// do all writes together that were made while writers were held back.
pub fn wakes_cover_the_owed()
    ensures reached { OnlyReachedWritesCount }
    ensures owed { WakesCoverTheOwed }
    ensures due { WakesCoverTheDue }
    ensures held { WakesCoverTheHeld }
{}

// rule: wake-ups
/// What a stream wants covers all that its requests asked for, from its opening on.
pub fn wants_cover_requests()
    ensures begin { WantsBegin }
    ensures requests { WantsCoverRequests }
{}

/// What the laws of wake-ups premise of a replica, every replica keeps.
pub fn replicas_are_orderly()
    ensures { ReplicasAreOrderly }
{}
