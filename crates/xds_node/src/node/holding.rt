// What a token stands for.
use std::collections::LinkedList;

/// What a token stands for, as contracts see it. No value of it is made. An entry is a record with its number.
pub struct TokenHolding<E> {
    /// 1 at the one token that knows all records, else 0.
    pub keepers: u64,
    /// How many seats were made, as far as the keeper knows; else 0.
    pub made: u64,
    /// All entries that were cut, and those of the journal since, at the keeper; else none.
    pub cut: LinkedList<(u64, E)>,
    pub journal: LinkedList<(u64, E)>,
    /// How many seats it stands for, and what they were told.
    pub seats: u64,
    pub told: LinkedList<(u64, E)>,
    /// The calls of its seats that left no record, each as its event and its refusal.
    pub refused: LinkedList<E>,
    /// Its shares of what was cut, and what was cut before each of them.
    pub share: LinkedList<(u64, E)>,
    pub pasts: LinkedList<LinkedList<(u64, E)>>,
}
