// Where worker threads pass a gate, and what they give it.
use crate::alone::{asked, outcome, reads_by, writes_by};
use crate::calls::{open, refused};
use crate::short::Short;
use crate::sites::{Machine, Site, Trial, tried};
use futures::task::{Context, Poll};
use std::alloc::Global;
use std::sync::{Mutex, Wait};
use std::test::Fail;
use xds_core::Event;
use xds_node::{Gate, Host, Place, called};
use xds_resource::Refusal;

// How often a gate was passed before a read and before a write, and how many segments it was given.
#[derive(Clone, Copy, Debug, PartialEq, Eq, Drop)]
struct Passed {
    reads: u64,
    writes: u64,
    kept: u64,
}

const NOBODY: Passed = Passed {
    reads: 0,
    writes: 0,
    kept: 0,
};

// A gate that lets every thread pass, and counts.
#[derive(Drop)]
struct Counting {
    passed: Mutex<Passed>,
}

impl Counting {
    fn new() -> Counting {
        Counting {
            passed: Mutex::new(NOBODY),
        }
    }

    fn passed<R: Machine>(&self, rt: &R) -> Passed {
        *self.passed.lock(rt)
    }
}

impl<S: Drop> Gate<S> for Counting {
    fn poll_pass<R: Wait>(
        &self,
        rt: &R,
        _cx: &mut Context<'_>,
        place: Place,
        _stream: u64,
    ) -> Poll<()> {
        let mut passed = self.passed.lock(rt);
        match place {
            Place::BeforeRead => passed.reads = passed.reads.saturating_add(1),
            Place::BeforeWrite => passed.writes = passed.writes.saturating_add(1),
        }
        Poll::Ready(())
    }

    fn keep<R: Wait>(&self, rt: &R, segment: S) {
        let mut passed = self.passed.lock(rt);
        passed.kept = passed.kept.saturating_add(1);
        drop(segment);
    }
}

// What a writer passed whose first write fails, and a reader of one request; and what polls of its
// stream are answered then.
#[derive(Drop)]
struct Workers {
    writer: Passed,
    reader: Passed,
    after: Result<(), Refusal>,
}

fn both_pass<A: Host, R: Machine>(
    rt: &R,
    alloc: Global,
    node: &A,
    seat: &mut A::Seat,
) -> Result<Workers, Refusal> {
    let gate = Counting::new();
    let stream = asked(rt, alloc, node, seat)?;
    let _ = writes_by(rt, alloc, node, seat, stream, 1, &gate);
    let writer = gate.passed(rt);
    let gate = Counting::new();
    let stream = open(rt, node, seat)?;
    reads_by(rt, alloc, node, seat, stream, &gate)?;
    let after = refused(node.call(rt, seat, Event::Poll(stream, None)));
    Ok(Workers {
        writer,
        reader: gate.passed(rt),
        after,
    })
}

struct AtGates;

impl Trial for AtGates {
    type Came = Workers;

    fn at<A: Site, R: Machine>(&self, rt: &R, alloc: Global, node: A) -> Result<Workers, Refusal> {
        let mut seat = node.seat(rt)?;
        both_pass(rt, alloc, &node, &mut seat)
    }
}

#[test]
fn each_worker_passes_the_gate_at_its_own_place(rt: HostRuntime) -> Result<(), Fail> {
    let came = tried(&rt, rt.alloc(), &AtGates)?;
    let wrote = Passed {
        writes: 1,
        ..NOBODY
    };
    let read = Passed { reads: 2, ..NOBODY };
    assert!(rt; came.writer == wrote, "one frame was to be written");
    assert!(rt; came.reader == read, "a request came, and the end");
    assert!(rt;
        came.after == Err(Refusal::NoStream),
        "the reader closed its stream"
    );
    Ok(())
}

// What a call passed that finds the journal full, and how often that was cut.
struct WhereFull;

impl Trial for WhereFull {
    type Came = (Result<(), Refusal>, Passed, u64);

    fn at<A: Site, R: Machine>(
        &self,
        rt: &R,
        _alloc: Global,
        node: A,
    ) -> Result<(Result<(), Refusal>, Passed, u64), Refusal> {
        let mut seat = node.seat(rt)?;
        let filler = node.seat(rt)?;
        let node = Short::new(rt, node, filler, 1)?;
        let gate = Counting::new();
        drop(called(rt, &node, &gate, &mut seat, Event::Open));
        let second = outcome(called(rt, &node, &gate, &mut seat, Event::Open));
        Ok((second, gate.passed(rt), node.cuts(rt)))
    }
}

// rule: cuts
#[test]
fn what_is_cut_is_kept(rt: HostRuntime) -> Result<(), Fail> {
    let (second, passed, cuts) = tried(&rt, rt.alloc(), &WhereFull)?;
    let kept = Passed { kept: 1, ..NOBODY };
    assert!(rt; second == Ok(()), "once it is cut there is room");
    assert!(rt; cuts == 1, "it was full once");
    assert!(rt; passed == kept, "the gate has what was cut");
    Ok(())
}
