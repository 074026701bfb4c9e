// What each rule of a trace says, in plain English.
ghost use Rattle.std.specs.Prelude.{◌≡◌};
ghost use Rattle.xds_explain.specs.Sentences.{sentence};

use xds_check::Rule;

// rule: new-nonce, rule: best-writes, rule: covered-only, rule: whole-response, rule: no-live-removal
// rule: one-unanswered, rule: refused-offer, rule: awaited-names
/// What a rule says.
pub fn sentence_of(rule: Rule) -> &'static str
    ensures { result.now ≡ sentence rule }
{
    match rule {
        Rule::FreshNonce =>
            "A response has a nonce, and no response before it on its stream, of whatever type, had the same.",
        Rule::BestResources =>
            "A response states of a name the greatest write that the replica has taken, with its body, and in the incremental variant with its version; a name whose greatest write is a deletion isn't stated.",
        Rule::CoveredResources =>
            "A response states only what the client asks for: by its name, or by the star where the write is open to the client's cluster.",
        Rule::WholeResponse =>
            "A state-of-the-world response of clusters or listeners states every live name that the client asks for, since the client drops what it lacks.",
        Rule::RightRemovals =>
            "A response removes no name that is live and that the client asks for.",
        Rule::OneAtATime =>
            "A response is sent only once the client has accepted or rejected the one before it of its type.",
        Rule::NothingRefusedAgain =>
            "What the client has rejected isn't offered again as it was, unless another response of the type was accepted since.",
        Rule::NothingPending =>
            "That nothing is owed is said only once each name that the client asked for was stated or removed; in the state of the world a name that isn't live needs no answer.",
    }
}
