// A journal that is cut by its weight.
ghost use Rattle.std.specs.Prelude.{◌≡◌};

use std::alloc::{AllocGlobal, Global};
use std::marker::Brand;
use std::sync::{Arc, Wait};
use std::test::Fail;
use std::time::Clock;
use xds_core::{Event, Request};
use xds_message::DiscoveryRequest;
use xds_monitor::{Instrumented, JournalWeight, Observer, SegmentSink, Turns};
use xds_node::{Host, JournalLine, NodeName, Opened, Seat, SharedNode};
use xds_notes::{Ending, Limits, Lookout, Telling};
use xds_resource::{AnyResource, Groups, Refusal};
use xds_rest::Served;

// A cluster whose body has somewhat more than a million bytes.
fn long_cluster(alloc: Global) -> Result<AnyResource, Refusal> {
    let mut text = String::from_str(
        alloc,
        "{\"@type\":\"type.googleapis.com/envoy.config.cluster.v3.Cluster\",\"name\":\"a\",\
         \"x\":\"",
    )?;
    for _ in 0..1000 {
        for _ in 0..10 {
            text.push_str(
                "yyyyyyyyyyyyyyyyyyyyyyyyyyyyyyyyyyyyyyyyyyyyyyyyyy\
                 yyyyyyyyyyyyyyyyyyyyyyyyyyyyyyyyyyyyyyyyyyyyyyyyyy",
            )?;
        }
    }
    text.push_str("\"}")?;
    AnyResource::parse(alloc, text.as_str())
}

// Makes an event that has to leave a record, and not be refused.
fn made<A: Served, R: Wait>(
    rt: &R,
    node: &A,
    seat: &mut A::Seat,
    event: Event,
) -> Result<(), Refusal> {
    match node.call(rt, seat, event) {
        Ok(Ok(_)) => Ok(()),
        Ok(Err(refusal)) => Err(refusal),
        Err(unrecorded) => Err(unrecorded.refusal),
    }
}

// Puts the cluster so many times, by a seat of the node.
fn put_often<A: Served, R: Wait>(
    rt: &R,
    alloc: Global,
    node: &A,
    seat: &mut A::Seat,
    puts: usize,
) -> Result<(), Refusal> {
    let cluster = long_cluster(alloc)?;
    for _ in 0..puts {
        let event = Event::Put(cluster.try_copy(alloc)?, Groups::none());
        made(rt, node, seat, event)?;
    }
    Ok(())
}

// A client that wants all clusters.
const WANTS_ALL: &[u8] = b"{\"node\":{\"id\":\"c\"},\
     \"typeUrl\":\"type.googleapis.com/envoy.config.cluster.v3.Cluster\"}";

// Tells the cluster on so many streams, by three records each.
fn tell_often<A: Served, R: Wait>(
    rt: &R,
    alloc: Global,
    node: &A,
    seat: &mut A::Seat,
    streams: u64,
) -> Result<(), Refusal> {
    for index in 0..streams {
        let stream = index.wrapping_add(1);
        let request = Request::Sotw(DiscoveryRequest::read(alloc, WANTS_ALL)?);
        made(rt, node, seat, Event::Open)?;
        made(rt, node, seat, Event::Request(stream, request))?;
        made(rt, node, seat, Event::Poll(stream, None))?;
    }
    Ok(())
}

// What happens at a node: so many puts, then so many streams, of which each is told the cluster.
#[derive(Clone, Copy)]
struct Story {
    is_recorded: bool,
    puts: usize,
    streams: u64,
}

// What notes the events of the node, and tells nothing.
fn observer_of<C: Clock + Drop>(alloc: Global, clock: C) -> Result<Observer<C>, Refusal> {
    let telling = Telling {
        changes: false,
        events: false,
        json: false,
    };
    let limits = Limits {
        streams: None,
        idle_seconds: None,
        refuses_long: false,
        workers: None,
    };
    let ending = Arc::new(alloc, Ending::after(alloc, None, telling))?;
    let lookout = Arc::new(alloc, Lookout::new(alloc, 1, 1, limits, ending))?;
    Ok(Observer::new(alloc, clock, lookout, Turns::new(alloc)?))
}

// How many records its journal has then.
fn records_after<N: NodeName, R: Wait + Clock + Copy + Drop>(
    rt: &R,
    alloc: Global,
    opened: Opened<JournalLine>,
    story: Story,
) -> Result<usize, Refusal>
    requires name { opened ≡ N.id }
    requires own { 1 ≡ N.replica }
{
    let node = SharedNode::<N>::new(alloc, opened, 1)?;
    let observer = observer_of(alloc, *rt)?;
    let weight = JournalWeight::new(alloc, story.is_recorded);
    let node = Instrumented::new(node, weight, observer, SegmentSink::new(None));
    let mut seat = node.seat(rt)?;
    records_by(rt, alloc, &node, &mut seat, story)
}

// The same, by a seat of the node.
fn records_by<N: NodeName, R: Wait + Clock>(
    rt: &R,
    alloc: Global,
    node: &Instrumented<SharedNode<N>, R>,
    seat: &mut Seat<N>,
    story: Story,
) -> Result<usize, Refusal> {
    put_often(rt, alloc, node, seat, story.puts)?;
    tell_often(rt, alloc, node, seat, story.streams)?;
    let segment = node.node().cut(rt)?;
    Ok(segment.records().len())
}

fn left_after<R: Wait + Clock + AllocGlobal + Copy + Drop>(
    rt: &R,
    story: Story,
) -> Result<usize, Refusal> {
    let alloc = rt.alloc();
    let opened = Opened::<JournalLine>::new(alloc)?;
    records_after::<Brand, R>(rt, alloc, opened, story)
}

fn left_after_puts<R: Wait + Clock + AllocGlobal + Copy + Drop>(
    rt: &R,
    puts: usize,
) -> Result<usize, Refusal> {
    let story = Story {
        is_recorded: false,
        puts,
        streams: 0,
    };
    left_after(rt, story)
}

fn left_after_streams<R: Wait + Clock + AllocGlobal + Copy + Drop>(
    rt: &R,
    is_recorded: bool,
    streams: u64,
) -> Result<usize, Refusal> {
    let story = Story {
        is_recorded,
        puts: 1,
        streams,
    };
    left_after(rt, story)
}

// rule: cuts
#[test]
fn a_heavy_journal_is_cut(rt: HostRuntime) -> Result<(), Fail> {
    assert_eq!(rt; left_after_puts(&rt, 4)?, 4);
    assert_eq!(rt; left_after_puts(&rt, 5)?, 0);
    assert_eq!(rt; left_after_puts(&rt, 14)?, 4);
    Ok(())
}

// A body that responses share takes no room in a journal, and its place in each line of a trace.
#[test]
fn responses_weigh_their_text_where_a_trace_is_recorded(rt: HostRuntime) -> Result<(), Fail> {
    assert_eq!(rt; left_after_streams(&rt, false, 8)?, 25);
    assert_eq!(rt; left_after_streams(&rt, true, 3)?, 10);
    assert_eq!(rt; left_after_streams(&rt, true, 4)?, 0);
    Ok(())
}
