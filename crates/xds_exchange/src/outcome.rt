// What a round tells of itself.

/// What a round did.
#[derive(Clone, Copy, Debug, PartialEq, Eq)]
pub struct Round {
    /// How many writes were told.
    pub sent: usize,
    /// In how many parts.
    pub parts: usize,
    /// By how much the changes of the peer grew, over all types.
    pub grown: u128,
}
