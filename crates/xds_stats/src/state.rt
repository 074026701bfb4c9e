// How a stream and a replica stand to each other of a type, in a word.
ghost use Rattle.std.specs.Prelude.{◌≡◌};
ghost use Rattle.xds_stats.specs.States.{since_after, state_by, state_word};

/// How a stream stands of a type.
#[derive(Clone, Copy, Debug, PartialEq, Eq)]
pub enum TypeState {
    /// It didn't ask for it.
    NeverAsked,
    /// The last response isn't answered.
    Pending,
    /// The last response that it answered is rejected.
    Rejected,
    /// It accepted the last response, or there was none.
    Synced,
}

impl TypeState {
    /// Its word.
    pub fn word(self) -> &'static str
        ensures { result.now ≡ state_word self }
    {
        match self {
            TypeState::NeverAsked => "NEVER ASKED",
            TypeState::Pending => "PENDING",
            TypeState::Rejected => "REJECTED",
            TypeState::Synced => "SYNCED",
        }
    }
}

/// How a stream stands that asked for a type or didn't, whose last answer is a rejection or isn't, and which has a response to answer or
/// hasn't.
pub(crate) fn state_by(is_asked: bool, is_rejected: bool, is_pending: bool) -> TypeState
    ensures { result ≡ state_by is_asked is_rejected is_pending }
{
    if !is_asked {
        return TypeState::NeverAsked;
    }
    if is_rejected {
        return TypeState::Rejected;
    }
    if is_pending {
        return TypeState::Pending;
    }
    TypeState::Synced
}

/// Since when something is in a state, where it was in another since then, and is noted now.
pub(crate) fn since_after(before: TypeState, after: TypeState, since: u64, now: u64) -> u64
    ensures { result ≡ since_after before after since now }
{
    if before == after { since } else { now }
}
