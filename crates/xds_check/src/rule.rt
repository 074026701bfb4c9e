// The eight rules, by name.
ghost use Rattle.std.specs.Prelude.{◌≡◌};
ghost use Rattle.xds_check.specs.Rules.{word_of};

/// A rule that every trace of a replica keeps.
#[derive(Clone, Copy, Debug, PartialEq, Eq)]
pub enum Rule {
    /// A response has a nonce that is new on its stream.
    FreshNonce,
    /// A response states the best live writes of names, with their bodies and versions.
    BestResources,
    /// A response states what the interest covers.
    CoveredResources,
    /// A response of the state of the world, of a complete type, states every name that is live and covered.
    WholeResponse,
    /// A response removes no name that is live and covered.
    RightRemovals,
    /// A response is sent once the one before it is answered.
    OneAtATime,
    /// A response offers something else than the one that was refused last.
    NothingRefusedAgain,
    /// That nothing is owed is said once every name that waits for an answer has one.
    NothingPending,
}

impl Rule {
    /// The word that programs print, from `P1` to `P8`.
    pub fn word(self) -> &'static str
        ensures { result.now ≡ word_of self }
    {
        match self {
            Rule::FreshNonce => "P1",
            Rule::BestResources => "P2",
            Rule::CoveredResources => "P3",
            Rule::WholeResponse => "P4",
            Rule::RightRemovals => "P5",
            Rule::OneAtATime => "P6",
            Rule::NothingRefusedAgain => "P7",
            Rule::NothingPending => "P8",
        }
    }
}
