// Seats in threads of their own.
ghost use Rattle.std.specs.Prelude.{◌≡◌};

use crate::calls::clusters;
use crate::sites::{Happens, Left, Site, put};
use crate::threads::all_work;
use std::alloc::Global;
use std::marker::Brand;
use std::sync::Wait;
use std::test::Fail;
use std::thread::Threads;
use xds_node::{JournalLine, NodeName, Opened, SharedNode};
use xds_resource::Refusal;

const SEATS: usize = 4;

const PUTS: usize = 1000;

// A seat with the number of its thread, and the counters that it was told.
#[derive(Drop)]
pub(crate) struct Worker<S> {
    seat: S,
    number: usize,
    counters: Vec<u64>,
    done: Result<(), Refusal>,
}

pub(crate) fn workers<A: Site, R: Wait>(
    rt: &R,
    alloc: Global,
    node: &A,
) -> Result<Vec<Worker<A::Seat>>, Refusal> {
    let mut workers = Vec::new(alloc);
    for number in 0..SEATS {
        workers.push(Worker {
            seat: node.seat(rt)?,
            number,
            counters: Vec::new(alloc),
            done: Ok(()),
        })?;
    }
    Ok(workers)
}

// Puts clusters with names of its own.
pub(crate) fn worked<A: Site, R: Wait>(
    rt: &R,
    alloc: Global,
    node: &A,
    worker: Worker<A::Seat>,
) -> Worker<A::Seat> {
    let mut worker = worker;
    worker.done = puts(
        rt,
        alloc,
        node,
        &mut worker.seat,
        worker.number,
        &mut worker.counters,
    );
    worker
}

fn puts<A: Site, R: Wait>(
    rt: &R,
    alloc: Global,
    node: &A,
    seat: &mut A::Seat,
    number: usize,
    counters: &mut Vec<u64>,
) -> Result<(), Refusal> {
    for index in 0..PUTS {
        let name = format!(in alloc; "{number}-{index}")?;
        counters.push(put(rt, alloc, node, seat, name.as_str())?)?;
    }
    Ok(())
}

// What four threads were told.
#[derive(Clone, Copy)]
struct Outcome {
    // How many counters from 1 to 4,000 were told, and how many others, or again.
    told: usize,
    others: usize,
    complete: bool,
    records: usize,
}

// Counts what a worker was told.
fn count(outcome: &mut Outcome, seen: &mut Vec<bool>, counters: &Vec<u64>) {
    for counter in counters.as_slice() {
        match seen.get_mut(counter.wrapping_sub(1) as usize) {
            Some(place) if !*place => {
                *place = true;
                outcome.told = outcome.told.wrapping_add(1);
            }
            _ => outcome.others = outcome.others.wrapping_add(1),
        }
    }
}

// The same of a worker that is done, whose seat is put to the others.
fn collect<S: Drop>(
    outcome: &mut Outcome,
    seen: &mut Vec<bool>,
    seats: &mut Vec<S>,
    worker: Worker<S>,
) -> Result<(), Refusal> {
    let Worker {
        seat,
        counters,
        done,
        ..
    } = worker;
    count(outcome, seen, &counters);
    drop(counters);
    seats.push(seat)?;
    done
}

// Counts what all workers were told, and gives back their seats.
fn counted<S: Drop>(
    alloc: Global,
    outcome: &mut Outcome,
    workers: Vec<Worker<S>>,
) -> Result<Vec<S>, Refusal> {
    let mut seen = Vec::new(alloc);
    seen.resize(SEATS * PUTS, false)?;
    let mut seats = Vec::new(alloc);
    for worker in workers {
        collect(outcome, &mut seen, &mut seats, worker)?;
    }
    Ok(seats)
}

// What is left of a node, and what its workers were told.
fn four<A: Site>(
    alloc: Global,
    node: A,
    done: Result<Vec<Worker<A::Seat>>, Refusal>,
) -> Result<Outcome, Refusal> {
    let mut outcome = Outcome {
        told: 0,
        others: 0,
        complete: false,
        records: 0,
    };
    let seats = counted(alloc, &mut outcome, done?)?;
    let left = node.close(seats);
    outcome.complete = left.is_complete();
    outcome.records = left.count();
    Ok(outcome)
}

fn four_seats<N: NodeName + Send + Sync, R: Threads + Wait + Sync>(
    rt: &R,
    alloc: Global,
    opened: Opened<JournalLine>,
) -> Result<Outcome, Refusal>
    requires name { opened ≡ N.id }
    requires number { N.replica ≡ 1 }
{
    let node = SharedNode::<N>::new(alloc, opened, 1)?;
    let done = all_work(rt, alloc, &node);
    four(alloc, node, done)
}

// rule: one-seat
#[test]
fn four_seats_are_told_each_counter_once(rt: HostRuntime) -> Result<(), Fail> {
    let opened = Opened::<JournalLine>::new(rt.alloc())?;
    let outcome = four_seats::<Brand, _>(&rt, rt.alloc(), opened)?;
    assert!(rt;
        outcome.told == 4000,
        "each counter from 1 to 4,000 was told"
    );
    assert!(rt; outcome.others == 0, "none was told twice, and no other");
    assert!(rt; outcome.complete, "all four seats were handed in");
    assert!(rt; outcome.records == 4000, "each put is in the journal");
    Ok(())
}

// How many clusters a seat that put one finds in a snapshot, and the writer of the first.
fn found<A: Site, R: Wait>(
    rt: &R,
    alloc: Global,
    node: Result<A, Refusal>,
) -> Result<(usize, u16), Refusal> {
    let node = node?;
    let mut seat = node.seat(rt)?;
    put(rt, alloc, &node, &mut seat, "a")?;
    clusters(node.call(rt, &mut seat, A::Event::snapshot()))
}

fn finds_its_write<N: NodeName, R: Wait>(
    rt: &R,
    alloc: Global,
    opened: Opened<JournalLine>,
) -> Result<(usize, u16), Refusal>
    requires name { opened ≡ N.id }
    requires number { N.replica ≡ 7 }
{
    found(rt, alloc, SharedNode::<N>::new(alloc, opened, 7))
}

// rule: one-seat
#[test]
fn a_seat_reads_what_it_wrote(rt: HostRuntime) -> Result<(), Fail> {
    let opened = Opened::<JournalLine>::new(rt.alloc())?;
    let (clusters, writer) = finds_its_write::<Brand, _>(&rt, rt.alloc(), opened)?;
    assert!(rt; clusters == 1, "the snapshot has the cluster");
    assert!(rt;
        writer == 7,
        "the node's replica has the number that it was given"
    );
    Ok(())
}
