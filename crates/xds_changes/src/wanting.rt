// What a request for writes asks for.
ghost use Rattle.std.specs.Prelude.{◌≡◌, ◌≤◌, IfSome};
ghost use Rattle.std.specs.Option.{option_map};
ghost use Rattle.xds_changes.specs.MarkTexts.{pieces_in};
ghost use Rattle.xds_changes.specs.Queries.{any_writes, key_of, most_wait, replica_in, wait_in, wanted_by, wanted_in, with_key, with_part};

use crate::marking::{is_over, number_within, read_marks, split_first};
use xds_events::Marks;

/// As many seconds as a request for writes may wait.
pub const MAX_WAIT: u64 = 300;

/// What a request for writes asks for.
#[derive(Clone, Copy)]
pub struct WantedWrites {
    /// The place of the replica, from 1.
    pub replica: u16,
    /// The counts of changes after which writes are wanted.
    pub since: Marks,
    /// For as many seconds it waits while none changed.
    pub wait: u64,
}

impl WantedWrites {
    /// All writes of the first replica, at once.
    pub fn any() -> WantedWrites
        ensures { result ≡ any_writes }
    {
        WantedWrites {
            replica: 1,
            since: Marks {
                cluster: 0,
                endpoint: 0,
                listener: 0,
                route: 0,
                secret: 0,
            },
            wait: 0,
        }
    }

    // The same, but for what a part of a query says.
    fn with(self, part: &str) -> Option<WantedWrites>
        ensures { result ≡ with_part self part.now }
    {
        let (key, value) = split_first(Some(part), '=')?;
        let (value, rest) = split_first(value, '=')?;
        if !is_over(rest, '=') {
            return None;
        }
        with_key(self, key_of(key)?, value)
    }
}

/// What a part of a query speaks of.
#[derive(Clone, Copy, Debug, PartialEq, Eq)]
pub enum Key {
    Replica,
    Since,
    Wait,
}

// The key of this name.
fn key_of(name: &str) -> Option<Key>
    ensures { result ≡ key_of name.now }
{
    match name {
        "replica" => Some(Key::Replica),
        "since" => Some(Key::Since),
        "wait" => Some(Key::Wait),
        _ => None,
    }
}

// The same as is wanted, but for the value of a key.
fn with_key(wanted: WantedWrites, key: Key, value: &str) -> Option<WantedWrites>
    ensures { result ≡ with_key wanted key value.now }
{
    let mut wanted = wanted;
    match key {
        Key::Replica => wanted.replica = replica_in(value)?,
        Key::Since => wanted.since = read_marks(value)?,
        Key::Wait => wanted.wait = wait_in(value)?,
    }
    Some(wanted)
}

/// The place of a replica.
pub fn replica_in(value: &str) -> Option<u16>
    ensures { result ≡ replica_in value.now }
{
    u16::try_from(number_within(1, 65_535, value)?).ok()
}

// How many seconds to wait.
fn wait_in(value: &str) -> Option<u64>
    ensures { result ≡ wait_in value.now }
{
    number_within(0, MAX_WAIT, value)
}

/// What a query asks for: parts `replica=K`, `since=MARKS` and `wait=SECONDS` in any order, with `&` between each two; of two of one
/// name the last counts, and what isn't there is as in [`WantedWrites::any`]. None for any other query.
pub fn read_wanted(query: &str) -> Option<WantedWrites>
    ensures { result ≡ wanted_in query.now }
{
    if query.is_empty() {
        return Some(WantedWrites::any());
    }
    let mut wanted = WantedWrites::any();
    let mut left = Some(query);
    while let Some((part, rest)) = split_first(left, '&') {
        wanted = wanted.with(part)?;
        left = rest;
    }
    Some(wanted)
}
