//! What clients want and hold, as statements that the prover checks. The functions do nothing.
ghost use Rattle.xds_cache.specs.Laws.{WantsWhatIsReached, ListIsInterest, ListIsAsked, FirstIsAsked, FirstChangeIsAsked, ChangeIsAsked, WantedByName, ShownByName, KeptByName, HoldsWhatIsWanted};

// rule: listed-names, rule: delta-names
/// What a client wants is what its interest reaches, and that is the interest that a server makes of its requests.
pub fn interests_agree()
    ensures reached { WantsWhatIsReached }
    ensures listed { ListIsInterest }
    ensures asked { ListIsAsked }
    ensures first { FirstIsAsked }
    ensures first_change { FirstChangeIsAsked }
    ensures changed { ChangeIsAsked }
{}

// rule: delta-names, rule: whole-response
/// What is wanted after a change, and what is held after a change and after a response, name by name. Nothing is held
/// that isn't wanted.
pub fn name_by_name()
    ensures wanted { WantedByName }
    ensures shown { ShownByName }
    ensures kept { KeptByName }
    ensures within { HoldsWhatIsWanted }
{}
