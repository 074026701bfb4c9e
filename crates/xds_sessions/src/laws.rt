//! What the responses of sessions are, as statements that the prover checks. The functions do nothing.
ghost use Rattle.xds_sessions.specs.Laws.{ResponseStatesTheOffer};

// rule: best-writes
/// A response states each name that its offer states, at the version that the offer states.
pub fn responses_state_what_is_offered()
    ensures { ResponseStatesTheOffer }
{}
