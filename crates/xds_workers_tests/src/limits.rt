// What waits, and what doesn't. Each thread that another might leave waiting is let go once it was
// waited for long enough.
ghost use Rattle.std.specs.Prelude.{◌≡◌};

use crate::calls::{holds, open, put, refused};
use crate::exchanges::NOTHING;
use crate::sites::Site;
use std::alloc::Global;
use std::marker::Brand;
use std::sync::{Mutex, Wait};
use std::test::Fail;
use std::thread;
use std::thread::{Threads, join, map_vec};
use std::time::{Clock, Duration};
use xds_core::{Event, Marks, Request};
use xds_exchange::{Incoming, Outgoing, link};
use xds_message::DeltaDiscoveryRequest;
use xds_node::{Host, JournalLine, NodeName, Opened, Seat, SharedNode, WaitEnd};
use xds_resource::Refusal;

// How often a thread looks before it gives up, and how long it sleeps before each look: ten seconds
// in all.
const MOST_LOOKS: u64 = 1_000;

const NAP: u64 = 10;

// How many naps a thread is given to do what it should not.
const EARLY: u64 = 10;

// What one thread sets, and another looks for.
#[derive(Drop)]
struct Flag {
    is_set: Mutex<bool>,
}

impl Flag {
    fn new() -> Flag {
        Flag {
            is_set: Mutex::new(false),
        }
    }

    fn set<R: Wait>(&self, rt: &R) {
        *self.is_set.lock(rt) = true;
    }

    // Whether it is set before it was looked for so often.
    fn comes<R: Wait + Clock>(&self, rt: &R, looks: u64) -> bool {
        for _ in 0..looks {
            if *self.is_set.lock(rt) {
                return true;
            }
            thread::sleep(rt, Duration::from_millis(NAP));
        }
        false
    }
}

// As many items as a channel holds.
const ROOM: u64 = 16;

fn puts_all<R: Wait>(rt: &R, out: Outgoing<u64>, done: &Flag) {
    let mut out = out;
    for number in 0..ROOM {
        let _ = out.put(rt, number);
    }
    done.set(rt);
    out.end(rt);
}

// Whether all was put before anything is taken; then all is taken.
fn takes_late<R: Wait + Clock>(rt: &R, from: Incoming<u64>, done: &Flag) -> bool {
    let mut from = from;
    let came = done.comes(rt, MOST_LOOKS);
    for _ in 0..=ROOM {
        let _ = from.take(rt);
    }
    came
}

fn sixteen<R: Threads + Wait + Clock + Sync>(rt: &R, alloc: Global) -> Result<bool, Refusal> {
    let (out, from) = link(alloc)?;
    let done = Flag::new();
    let flag = &done;
    let ((), came) = join(
        rt,
        move || puts_all(rt, out, flag),
        move || takes_late(rt, from, flag),
    );
    Ok(came)
}

#[test]
fn sixteen_items_are_put_before_one_is_taken(rt: HostRuntime) -> Result<(), Fail> {
    let came = sixteen(&rt, rt.alloc())?;
    assert!(rt; came, "a channel holds sixteen");
    Ok(())
}

// What a thread waits for.
#[derive(Clone, Copy, Drop)]
enum Awaited {
    Stream(u64),
    Change(Marks),
}

// How its waiting ends.
#[derive(Clone, Copy, Debug, PartialEq, Eq, Drop)]
enum End {
    Ready,
    Closed,
    Changed,
    Stopped,
}

// What another thread does meanwhile.
#[derive(Clone, Copy, Drop)]
enum Deed {
    Put,
    Close,
    Stop,
}

// What another thread does to a node, and what it does where that let nobody go.
#[derive(Clone, Copy, Drop)]
struct Deeds {
    first: Deed,
    then: Deed,
    stream: u64,
}

fn waits<A: Host, R: Wait>(rt: &R, node: &A, awaited: Awaited, done: &Flag) -> End {
    let end = match awaited {
        Awaited::Stream(stream) => match node.wait_due(rt, stream) {
            WaitEnd::Ready => End::Ready,
            WaitEnd::Closed => End::Closed,
        },
        Awaited::Change(seen) => match node.wait_changed(rt, seen) {
            Some(_) => End::Changed,
            None => End::Stopped,
        },
    };
    done.set(rt);
    end
}

fn does<A: Site, R: Wait>(
    rt: &R,
    alloc: Global,
    node: &A,
    seat: &mut A::Seat,
    deed: Deed,
    stream: u64,
) -> Result<(), Refusal> {
    match deed {
        Deed::Put => put(rt, alloc, node, seat, "a"),
        Deed::Close => refused(node.call(rt, seat, Event::Close(stream))),
        Deed::Stop => {
            node.stop(rt);
            Ok(())
        }
    }
}

// Whether the waiting ended before anything was done, and whether it ended by what was done first.
fn acts<A: Site, R: Wait + Clock>(
    rt: &R,
    alloc: Global,
    node: &A,
    seat: A::Seat,
    deeds: Deeds,
    done: &Flag,
) -> Result<(bool, bool), Refusal> {
    let mut seat = seat;
    let early = done.comes(rt, EARLY);
    let first = does(rt, alloc, node, &mut seat, deeds.first, deeds.stream);
    let came = done.comes(rt, MOST_LOOKS);
    if !came {
        let _ = does(rt, alloc, node, &mut seat, deeds.then, deeds.stream);
    }
    first?;
    Ok((early, came))
}

// How a wait ends, and whether it ended early, and in time.
#[derive(Drop)]
struct Waited {
    end: End,
    early: bool,
    came: bool,
}

fn awaits<A: Site + Sync, R: Threads + Wait + Clock + Sync>(
    rt: &R,
    alloc: Global,
    node: &A,
    seat: A::Seat,
    awaited: Awaited,
    deeds: Deeds,
) -> Result<Waited, Refusal>
where
    A::Seat: Send,
    A::Segment: Send,
{
    let done = Flag::new();
    let flag = &done;
    let (end, acted) = join(
        rt,
        move || waits(rt, node, awaited, flag),
        move || acts(rt, alloc, node, seat, deeds, flag),
    );
    let (early, came) = acted?;
    Ok(Waited { end, early, came })
}

// A client that wants all clusters.
const WANTS_ALL: &[u8] = b"{\"node\":{\"id\":\"c\"},\"resourceNamesSubscribe\":[\"*\"],\
     \"typeUrl\":\"type.googleapis.com/envoy.config.cluster.v3.Cluster\"}";

// A stream whose client wants all clusters, and was told that there are none.
fn settled<A: Site, R: Wait>(
    rt: &R,
    alloc: Global,
    node: &A,
    seat: &mut A::Seat,
) -> Result<u64, Refusal> {
    let stream = open(rt, node, seat)?;
    let request = Request::Delta(DeltaDiscoveryRequest::read(alloc, WANTS_ALL)?);
    refused(node.call(rt, seat, Event::Request(stream, request)))?;
    refused(node.call(rt, seat, Event::Poll(stream, None)))?;
    Ok(stream)
}

// A wait at a new node: for a stream or for a change, once the node was stopped or not, and what is
// done meanwhile.
#[derive(Clone, Copy, Drop)]
struct Case {
    of_stream: bool,
    is_stopped: bool,
    first: Deed,
    then: Deed,
}

fn waited_at<A: Site + Sync, R: Threads + Wait + Clock + Sync>(
    rt: &R,
    alloc: Global,
    node: Result<A, Refusal>,
    case: Case,
) -> Result<Waited, Refusal>
where
    A::Seat: Send,
    A::Segment: Send,
{
    let node = node?;
    let mut seat = node.seat(rt)?;
    let stream = settled(rt, alloc, &node, &mut seat)?;
    if case.is_stopped {
        node.stop(rt);
    }
    let awaited = if case.of_stream {
        Awaited::Stream(stream)
    } else {
        Awaited::Change(NOTHING)
    };
    let deeds = Deeds {
        first: case.first,
        then: case.then,
        stream,
    };
    awaits(rt, alloc, &node, seat, awaited, deeds)
}

fn waited_by<N: NodeName + Send + Sync, R: Threads + Wait + Clock + Sync>(
    rt: &R,
    alloc: Global,
    opened: Opened<JournalLine>,
    case: Case,
) -> Result<Waited, Refusal>
    requires name { opened ≡ N.id }
    requires number { 1 ≡ N.replica }
{
    waited_at(rt, alloc, SharedNode::<N>::new(alloc, opened, 1), case)
}

// Fails unless a wait ends so: by the first thing that is done, or before that where the node was
// stopped.
fn ends<R: Threads + Wait + Clock + Sync>(
    rt: &R,
    alloc: Global,
    case: Case,
    end: End,
) -> Result<(), Fail> {
    let opened = Opened::<JournalLine>::new(alloc)?;
    let waited = waited_by::<Brand, _>(rt, alloc, opened, case)?;
    holds(waited.early == case.is_stopped, "nothing was done yet")?;
    holds(waited.came, "who waits is let go")?;
    holds(waited.end == end, "and is told why")
}

// A wait for a stream or a change at a node that isn't stopped.
fn while_it_runs(of_stream: bool, first: Deed, then: Deed) -> Case {
    Case {
        of_stream,
        is_stopped: false,
        first,
        then,
    }
}

// rule: wake-ups
#[test]
fn who_waits_for_a_stream_is_let_go_by_what_others_do(rt: HostRuntime) -> Result<(), Fail> {
    let put = while_it_runs(true, Deed::Put, Deed::Close);
    ends(&rt, rt.alloc(), put, End::Ready)?;
    let closed = while_it_runs(true, Deed::Close, Deed::Put);
    ends(&rt, rt.alloc(), closed, End::Closed)
}

// rule: wake-ups
#[test]
fn who_waits_for_changes_is_let_go_by_what_others_do(rt: HostRuntime) -> Result<(), Fail> {
    let put = while_it_runs(false, Deed::Put, Deed::Stop);
    ends(&rt, rt.alloc(), put, End::Changed)?;
    let stopped = while_it_runs(false, Deed::Stop, Deed::Put);
    ends(&rt, rt.alloc(), stopped, End::Stopped)?;
    let before = Case {
        is_stopped: true,
        ..while_it_runs(false, Deed::Put, Deed::Stop)
    };
    ends(&rt, rt.alloc(), before, End::Stopped)
}

// How many writers wait at once: more than an event wakes, so that they have to wake one another.
const WRITERS: u64 = 40;

// How many threads are done, of so many.
#[derive(Drop)]
struct Tally {
    count: Mutex<u64>,
    all: u64,
}

impl Tally {
    fn of(all: u64) -> Tally {
        Tally {
            count: Mutex::new(0),
            all,
        }
    }

    fn add<R: Wait>(&self, rt: &R) {
        let mut count = self.count.lock(rt);
        *count = count.saturating_add(1);
    }

    // Whether all are done before it was looked for so often.
    fn comes<R: Wait + Clock>(&self, rt: &R) -> bool {
        for _ in 0..MOST_LOOKS {
            if *self.count.lock(rt) == self.all {
                return true;
            }
            thread::sleep(rt, Duration::from_millis(NAP));
        }
        false
    }
}

// A client that accepts the first response of its stream, if there was one.
const ACCEPTS: &[u8] = b"{\"responseNonce\":\"1\",\
    \"typeUrl\":\"type.googleapis.com/envoy.config.cluster.v3.Cluster\"}";

// What one of several threads does at a node.
#[derive(Drop)]
enum Part<S> {
    Waits(u64),
    Puts(S),
}

// Puts once the writers were given time to wait, and looks whether all were let go. If not, it
// closes all streams.
fn puts_for_all<N: NodeName, R: Wait + Clock>(
    rt: &R,
    alloc: Global,
    node: &SharedNode<N>,
    seat: Seat<N>,
    tally: &Tally,
) -> Result<bool, Refusal> {
    let mut seat = seat;
    thread::sleep(rt, Duration::from_millis(EARLY * NAP));
    let done = put(rt, alloc, node, &mut seat, "a");
    let came = done.is_ok() && tally.comes(rt);
    if !came {
        for stream in 1..=WRITERS + 1 {
            let _ = refused(node.call(rt, &mut seat, Event::Close(stream)));
        }
    }
    done?;
    Ok(came)
}

fn plays<N: NodeName, R: Wait + Clock>(
    rt: &R,
    alloc: Global,
    node: &SharedNode<N>,
    part: Part<Seat<N>>,
    tally: &Tally,
) -> Result<bool, Refusal> {
    match part {
        Part::Waits(stream) => {
            node.wait_due(rt, stream);
            tally.add(rt);
            Ok(true)
        }
        Part::Puts(seat) => puts_for_all(rt, alloc, node, seat, tally),
    }
}

// One thread that puts, and one for each of so many writers.
fn parts<N: NodeName, R: Wait>(
    rt: &R,
    alloc: Global,
    node: &SharedNode<N>,
    writers: u64,
) -> Result<Vec<Part<Seat<N>>>, Refusal> {
    let mut seat = node.seat(rt)?;
    let mut parts = Vec::new(alloc);
    for _ in 0..writers {
        let stream = settled(rt, alloc, node, &mut seat)?;
        let accepts = Request::Delta(DeltaDiscoveryRequest::read(alloc, ACCEPTS)?);
        refused(node.call(rt, &mut seat, Event::Request(stream, accepts)))?;
        parts.push(Part::Waits(stream))?;
    }
    parts.push(Part::Puts(seat))?;
    Ok(parts)
}

// Whether a put lets so many writers go that wait for streams of their own.
fn all_go<N: NodeName + Send + Sync, R: Threads + Wait + Clock + Sync>(
    rt: &R,
    alloc: Global,
    node: &SharedNode<N>,
    writers: u64,
) -> Result<bool, Refusal> {
    let parts = parts(rt, alloc, node, writers)?;
    let tally = Tally::of(writers);
    let went = map_vec(rt, parts, &|part| { plays(rt, alloc, node, part, &tally) })?;
    let mut all = true;
    for one in went {
        all &= one?;
    }
    Ok(all)
}

// Whether a put lets many go, and another one more, while those that went wait no longer.
fn many_go<N: NodeName + Send + Sync, R: Threads + Wait + Clock + Sync>(
    rt: &R,
    alloc: Global,
    opened: Opened<JournalLine>,
) -> Result<(bool, bool), Refusal>
    requires name { opened ≡ N.id }
    requires number { 1 ≡ N.replica }
{
    let node = SharedNode::<N>::new(alloc, opened, 1)?;
    let many = all_go(rt, alloc, &node, WRITERS)?;
    let one = all_go(rt, alloc, &node, 1)?;
    Ok((many, one))
}

// rule: wake-ups
#[test]
fn a_put_lets_more_writers_go_than_it_wakes(rt: HostRuntime) -> Result<(), Fail> {
    let opened = Opened::<JournalLine>::new(rt.alloc())?;
    let (many, one) = many_go::<Brand, _>(&rt, rt.alloc(), opened)?;
    assert!(rt; many, "each writer that is woken wakes the next");
    assert!(rt; one, "who went isn't woken in the place of who waits");
    Ok(())
}
