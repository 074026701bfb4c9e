// The time until clients are answered: what each replica holds then, all others hold, too.
use crossbeam_channel::{Sender, unbounded};
use std::alloc::Global;
use std::sync::Wait;
use xds_changes::order::Order;
use xds_machine::wires::both;
use xds_message::Batch;
use xds_notes::Ending;
use xds_resource::Refusal;

// rule: loaded-first
/// Waits until clients are to be answered, lets each replica merge what all others hold then, and lets clients be answered. Where the
/// server ends before, it does nothing. Where there is no memory for that, replicas are told by each other as ever.
pub fn open_when_asked<R: Wait>(
    rt: &R,
    alloc: Global,
    replicas: &[Sender<Order>],
    ending: &Ending,
) {
    if ending.wait_asked(rt) {
        let _ = level(rt, alloc, replicas);
        ending.open(rt);
    }
}

// Lets each replica merge what all others hold now.
fn level<R: Wait>(rt: &R, alloc: Global, replicas: &[Sender<Order>]) -> Result<(), Refusal> {
    let mut done = Ok(());
    for from in replicas {
        done = both(done, spread(rt, alloc, from, replicas));
    }
    done
}

// Lets each replica merge what one of them holds now, which for that one changes nothing.
fn spread<R: Wait>(
    rt: &R,
    alloc: Global,
    from: &Sender<Order>,
    replicas: &[Sender<Order>],
) -> Result<(), Refusal> {
    let held = entries_of(rt, alloc, from)?;
    let mut done = Ok(());
    for to in replicas {
        done = both(done, merged_at(rt, alloc, to, &held));
    }
    drop(held);
    done
}

/// All that a replica holds, once it has done what it was asked before.
pub fn entries_of<R: Wait>(
    rt: &R,
    alloc: Global,
    replica: &Sender<Order>,
) -> Result<Batch, Refusal> {
    let (to, from) = unbounded(alloc)?;
    let _ = replica.send(rt, Order::Entries(to));
    match from.recv(rt) {
        Ok(entries) => entries,
        Err(_) => Err(Refusal::Device),
    }
}

// Lets a replica merge a batch.
fn merged_at<R: Wait>(
    rt: &R,
    alloc: Global,
    replica: &Sender<Order>,
    batch: &Batch,
) -> Result<(), Refusal> {
    let batch = batch.try_copy(alloc)?;
    let (to, from) = match unbounded(alloc) {
        Ok(channel) => channel,
        Err(_) => {
            drop(batch);
            return Err(Refusal::OutOfMemory);
        }
    };
    let _ = replica.send(rt, Order::Merge(batch, to));
    match from.recv(rt) {
        Ok(Ok(_)) => Ok(()),
        Ok(Err(refusal)) => Err(refusal),
        Err(_) => Err(Refusal::Device),
    }
}
