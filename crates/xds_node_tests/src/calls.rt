// What calls of a node are answered.
use xds_core::{Event, Marks, Reply};
use xds_node::Unrecorded;
use xds_resource::{Refusal, Stamp};

/// What is looked for in what a call of a node answers. It is told by reference, and dropped by a
/// function that doesn't know the type.
pub(crate) trait Told: Drop {
    /// An event that comes back.
    type Event: Drop;

    /// The refusal, if it is one, whether it was recorded or not.
    fn refused(&self) -> Result<(), Refusal>;

    /// The stamp of the write that was made.
    fn stamp(&self) -> Option<Stamp>;

    /// The number of the stream that was opened.
    fn stream(&self) -> Option<u64>;

    /// How many clusters a snapshot has, and the writer of the first.
    fn clusters(&self) -> Option<(usize, u16)>;

    /// The event that comes back of a call that left no record, and why.
    fn back(self) -> Option<(Self::Event, Refusal)>;
}

impl Told for Result<Result<Reply, Refusal>, Unrecorded> {
    type Event = Event;

    fn refused(&self) -> Result<(), Refusal> {
        match self {
            Ok(Ok(_)) => Ok(()),
            Ok(Err(refusal)) => Err(*refusal),
            Err(unrecorded) => Err(unrecorded.refusal),
        }
    }

    fn stamp(&self) -> Option<Stamp> {
        match self {
            Ok(Ok(Reply::Written(stamp))) => Some(*stamp),
            _ => None,
        }
    }

    fn stream(&self) -> Option<u64> {
        match self {
            Ok(Ok(Reply::Opened(number))) => Some(*number),
            _ => None,
        }
    }

    fn clusters(&self) -> Option<(usize, u16)> {
        match self {
            Ok(Ok(Reply::Entries(batch))) => {
                let first = batch.cluster.first()?;
                Some((batch.cluster.len(), first.stamp().writer))
            }
            _ => None,
        }
    }

    fn back(self) -> Option<(Event, Refusal)> {
        back(self)
    }
}

// The same, of any answer.
fn back<A: Drop>(answer: Result<A, Unrecorded>) -> Option<(Event, Refusal)> {
    match answer {
        Ok(_) => None,
        Err(Unrecorded { refusal, event }) => Some((event, refusal)),
    }
}

/// The counter of the write that was made; any other answer is a bad one.
pub(crate) fn counter<T: Told>(answer: T) -> Result<u64, Refusal> {
    answer.refused()?;
    match answer.stamp() {
        Some(stamp) => Ok(stamp.counter),
        None => Err(Refusal::BadTrace),
    }
}

/// The number of the stream that was opened.
pub(crate) fn stream<T: Told>(answer: T) -> Result<u64, Refusal> {
    answer.refused()?;
    answer.stream().ok_or(Refusal::BadTrace)
}

/// How many clusters a snapshot has, and the writer of the first.
pub(crate) fn clusters<T: Told>(answer: T) -> Result<(usize, u16), Refusal> {
    answer.refused()?;
    answer.clusters().ok_or(Refusal::NotFound)
}

/// The refusal, if it is one.
pub(crate) fn refused<T: Told>(answer: T) -> Result<(), Refusal> {
    answer.refused()
}

/// The marks of a replica at which nothing changed.
pub(crate) const NOTHING: Marks = Marks {
    cluster: 0,
    endpoint: 0,
    listener: 0,
    route: 0,
    secret: 0,
};
