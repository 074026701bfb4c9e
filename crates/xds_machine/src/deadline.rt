// A time that may be set, at which to give up.
use std::io;
use std::time::{Clock, Duration, Instant};

/// When it is time to give up, if ever.
#[derive(Clone, Copy)]
pub struct Deadline {
    at: Option<Instant>,
}

impl Deadline {
    /// In so many seconds from now; never, where none are given, or the time isn't known.
    pub fn after<C: Clock>(clock: &C, seconds: Option<u16>) -> Deadline {
        let at = match (seconds, Instant::now(clock)) {
            (Some(seconds), Ok(now)) => now.checked_add(Duration::from_secs(u64::from(seconds))),
            _ => None,
        };
        Deadline { at }
    }

    /// In this time from now; never, where the time isn't known.
    pub fn within<C: Clock>(clock: &C, time: Duration) -> Deadline {
        let at = match Instant::now(clock) {
            Ok(now) => now.checked_add(time),
            Err(_) => None,
        };
        Deadline { at }
    }

    /// How long it is until then: no time, once it has come, and where it isn't known.
    pub fn rest<C: Clock>(self, clock: &C) -> Duration {
        match self.left(clock) {
            Ok(Some(left)) => left,
            _ => Duration::from_secs(0),
        }
    }

    /// Never.
    pub fn never() -> Deadline {
        Deadline { at: None }
    }

    /// Whether it comes at all.
    pub fn is_set(self) -> bool {
        self.at.is_some()
    }

    /// How long it is until then, if it comes at all: no time, once it has come.
    pub fn left<C: Clock>(self, clock: &C) -> io::Result<Option<Duration>> {
        match self.at {
            None => Ok(None),
            Some(at) => Ok(Some(at.saturating_duration_since(Instant::now(clock)?))),
        }
    }

    /// Whether it has come.
    pub fn has_come<C: Clock>(self, clock: &C) -> bool {
        match self.left(clock) {
            Ok(Some(left)) => left.is_zero(),
            _ => false,
        }
    }
}
