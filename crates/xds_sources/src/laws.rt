//! Laws of what is to be changed, as statements that the prover checks. The functions do nothing.
ghost use Rattle.xds_sources.specs.Differences.{LeavesTheWanted};

/// Once the changes of a difference are made, one after another, exactly what is wanted is live, for all clients. What is held and what is
/// wanted stand each under its type and name.
pub fn exactly_the_wanted_is_left()
    ensures { LeavesTheWanted }
{}
