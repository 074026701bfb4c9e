// How the thread that tells what changed ends.

use xds_resource::Refusal;

/// How [`crate::replication::to_peer::exchange_out`] ends well.
#[derive(Clone, Copy, Debug, PartialEq, Eq, Drop)]
pub enum Ended {
    /// The node was stopped, and after that all was told.
    Stopped,
    /// The other end of a channel is gone.
    Unlinked,
}

// Why a batch isn't sent.
#[derive(Clone, Copy, Debug, PartialEq, Eq, Drop)]
pub enum SendFailure {
    Unlinked,
    Refused(Refusal),
}
