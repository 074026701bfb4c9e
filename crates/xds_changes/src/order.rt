// What a replica's thread is asked to do.
use crate::change::Change;
use crate::made::Made;
use crossbeam_channel::{Receiver, Sender};
use std::alloc::Global;
use xds_events::{Marks, Reply};
use xds_message::Batch;
use xds_notes::Fault;
use xds_resource::{Refusal, Stamp};
use xds_stats::ReplicaSizes;

/// What a replica's thread is asked to do.
#[derive(Drop)]
pub enum Order {
    /// To make a change, of which only a refusal is told.
    Change(Change),
    /// To make a change, and answer its stamp.
    Asked(Change, Sender<Result<Stamp, Fault>>),
    /// To look at what it holds.
    Look(Sender<Result<ReplicaSizes, Refusal>>),
    /// To answer its counts of changes.
    Marks(Sender<Result<Marks, Refusal>>),
    /// To answer what changed after these counts of changes, and the counts now.
    Since(Marks, Sender<Result<(Batch, Marks), Refusal>>),
    /// To answer all that it holds.
    Entries(Sender<Result<Batch, Refusal>>),
    /// To merge what another holds, and answer how many names grew.
    Merge(Batch, Sender<Result<u128, Refusal>>),
    /// To make changes, all of them or none, or to look alone at what would become of them, and to answer that of each.
    All(Vec<Change>, bool, Sender<Result<Vec<Made>, Refusal>>),
    /// To make changes that a folder says, all of them or none, and to answer what became of each.
    Sourced(Vec<Change>, Sender<Result<Vec<Made>, Refusal>>),
}

/// What a replica's thread answers to a question.
pub type Answers<T> = Receiver<Result<T, Refusal>>;

/// How many names grew, as a reply says, if it is of a merge.
pub fn grown_in(reply: &Reply) -> Result<u128, Refusal> {
    match reply {
        Reply::Merged(grown) => Ok(*grown),
        _ => Err(Refusal::OutOfMemory),
    }
}

/// The stamp that a reply says, if it is of a write.
pub fn stamp_in(reply: &Reply) -> Result<Stamp, Refusal> {
    match reply {
        Reply::Written(stamp) => Ok(*stamp),
        _ => Err(Refusal::OutOfMemory),
    }
}

/// Shares of what changes are sent by.
pub fn copies(alloc: Global, senders: &[Sender<Order>]) -> Result<Vec<Sender<Order>>, Refusal> {
    let mut copies = Vec::new(alloc);
    for sender in senders {
        copies.push(sender.clone()?)?;
    }
    Ok(copies)
}
