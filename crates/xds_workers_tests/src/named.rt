// Whom a write wakes of the tasks that wait for streams: those of the streams that asked for its name or for all, also where writers are
// held back meanwhile.

use crate::calls::{holds, open, refused};
use crate::halves::{MOST_POLLS, Waits, put, spawn};
use crate::sites::{Machine, Site, Trial, tried};
use futures::executor::LocalPool;
use futures::task::Doorbell;
use std::alloc::Global;
use std::sync::Mutex;
use std::test::Fail;
use xds_core::{Event, Request};
use xds_message::{Batch, DeltaDiscoveryRequest, DiscoveryRequest};
use xds_resource::{Refusal, TypeName};

const A: &str =
    "{\"@type\":\"type.googleapis.com/envoy.config.endpoint.v3.ClusterLoadAssignment\",\"clusterName\":\"a\"}";

const B: &str =
    "{\"@type\":\"type.googleapis.com/envoy.config.endpoint.v3.ClusterLoadAssignment\",\"clusterName\":\"b\"}";

const C: &str =
    "{\"@type\":\"type.googleapis.com/envoy.config.endpoint.v3.ClusterLoadAssignment\",\"clusterName\":\"c\"}";

// Writes of another replica, of a and of c.
const MERGED_A: &str =
    "{\"writes\":[{\"body\":{\"@type\":\"type.googleapis.com/envoy.config.endpoint.v3.ClusterLoadAssignment\",\"clusterName\":\"a\",\"x\":2},\"counter\":9,\"name\":\"a\",\"typeUrl\":\"type.googleapis.com/envoy.config.endpoint.v3.ClusterLoadAssignment\",\"writer\":2}]}";

const MERGED_C: &str =
    "{\"writes\":[{\"body\":{\"@type\":\"type.googleapis.com/envoy.config.endpoint.v3.ClusterLoadAssignment\",\"clusterName\":\"c\",\"x\":2},\"counter\":9,\"name\":\"c\",\"typeUrl\":\"type.googleapis.com/envoy.config.endpoint.v3.ClusterLoadAssignment\",\"writer\":2}]}";

// What happens at the node while a task waits.
#[derive(Clone, Copy, Drop)]
enum Step {
    Put(&'static str),
    Delete(&'static str),
    Merge(&'static str),
    Hold,
    Release,
}

// A stream with a task that waits, and what happens: some of it before the task is polled first, some that doesn't wake it, and last
// what does.
#[derive(Clone, Copy, Drop)]
struct Story {
    is_delta: bool,
    requests: &'static [&'static str],
    before: &'static [Step],
    quiet: &'static [Step],
    last: Step,
}

fn request_of(alloc: Global, is_delta: bool, text: &str) -> Result<Request, Refusal> {
    let bytes = text.as_bytes();
    if is_delta {
        Ok(Request::Delta(DeltaDiscoveryRequest::read(alloc, bytes)?))
    } else {
        Ok(Request::Sotw(DiscoveryRequest::read(alloc, bytes)?))
    }
}

// A stream that makes these requests, the last of which accepts the response that is polled before it.
fn settled<A: Site, R: Machine>(
    rt: &R,
    alloc: Global,
    node: &A,
    seat: &mut A::Seat,
    story: Story,
) -> Result<u64, Refusal> {
    let stream = open(rt, node, seat)?;
    let last = story.requests.len().saturating_sub(1);
    for (index, text) in story.requests.iter().enumerate() {
        if index == last {
            refused(node.call(rt, seat, Event::Poll(stream, None)))?;
        }
        let request = request_of(alloc, story.is_delta, text)?;
        refused(node.call(rt, seat, Event::Request(stream, request)))?;
    }
    Ok(stream)
}

fn do_step<A: Site, R: Machine>(
    rt: &R,
    alloc: Global,
    node: &A,
    seat: &mut A::Seat,
    step: Step,
) -> Result<(), Refusal> {
    match step {
        Step::Put(text) => put(rt, alloc, node, seat, text),
        Step::Delete(name) => {
            let name = String::from_str(alloc, name)?;
            refused(node.call(rt, seat, Event::Delete(TypeName::Endpoint, name)))
        }
        Step::Merge(text) => {
            let batch = Batch::read(alloc, text.as_bytes())?;
            refused(node.call(rt, seat, Event::Merge(batch)))
        }
        Step::Hold => {
            node.hold(rt);
            Ok(())
        }
        Step::Release => {
            node.release(rt);
            Ok(())
        }
    }
}

fn steps<A: Site, R: Machine>(
    rt: &R,
    alloc: Global,
    node: &A,
    seat: &mut A::Seat,
    steps: &[Step],
) -> Result<(), Refusal> {
    for one in steps {
        do_step(rt, alloc, node, seat, *one)?;
    }
    Ok(())
}

// How often the task was polled: at first, after what doesn't wake it, and after what does.
fn polls<A: Site, R: Machine>(
    rt: &R,
    alloc: Global,
    node: &A,
    seat: &mut A::Seat,
    story: Story,
) -> Result<(u64, u64, u64), Refusal> {
    steps(rt, alloc, node, seat, &[Step::Put(A), Step::Put(B)])?;
    let stream = settled(rt, alloc, node, seat, story)?;
    steps(rt, alloc, node, seat, story.before)?;
    let polls = Mutex::new(0);
    let Ok(mut pool) = LocalPool::with_doorbell(rt, Doorbell::parking()) else {
        return Err(Refusal::OutOfMemory);
    };
    let task = Waits {
        rt,
        node,
        stream,
        polls: &polls,
    };
    spawn(&pool, task)?;
    pool.run_until_stalled(MOST_POLLS);
    let first = *polls.lock(rt);
    for one in story.quiet {
        do_step(rt, alloc, node, seat, *one)?;
        pool.run_until_stalled(MOST_POLLS);
    }
    let second = *polls.lock(rt);
    do_step(rt, alloc, node, seat, story.last)?;
    pool.run_until_stalled(MOST_POLLS);
    Ok((first, second, *polls.lock(rt)))
}

impl Trial for Story {
    type Came = (u64, u64, u64);

    fn at<A: Site, R: Machine>(
        &self,
        rt: &R,
        alloc: Global,
        node: A,
    ) -> Result<(u64, u64, u64), Refusal> {
        let mut seat = node.seat(rt)?;
        polls(rt, alloc, &node, &mut seat, *self)
    }
}

// That of each story what is quiet wakes nobody, and the last step wakes the task.
fn are_so<R: Machine>(rt: &R, alloc: Global, stories: &[Story], why: &str) -> Result<(), Fail> {
    for story in stories {
        let came = tried(rt, alloc, story)?;
        holds(came == (1, 1, 2), why)?;
    }
    Ok(())
}

// rule: wake-ups
#[test]
fn a_write_wakes_the_tasks_of_the_streams_that_named_it(rt: HostRuntime) -> Result<(), Fail> {
    are_so(
        &rt,
        rt.alloc(),
        &[
            Story {
                is_delta: false,
                requests: &[
                    "{\"typeUrl\":\"type.googleapis.com/envoy.config.endpoint.v3.ClusterLoadAssignment\",\"resourceNames\":[\"a\",\"b\"]}",
                    "{\"typeUrl\":\"type.googleapis.com/envoy.config.endpoint.v3.ClusterLoadAssignment\",\"resourceNames\":[\"a\",\"b\"],\"responseNonce\":\"1\",\"versionInfo\":\"1.2\"}",
                ],
                before: &[],
                quiet: &[Step::Put(C), Step::Delete("c"), Step::Merge(MERGED_C)],
                last: Step::Put(B),
            },
            Story {
                is_delta: false,
                requests: &[
                    "{\"typeUrl\":\"type.googleapis.com/envoy.config.endpoint.v3.ClusterLoadAssignment\",\"resourceNames\":[\"a\",\"b\"]}",
                    "{\"typeUrl\":\"type.googleapis.com/envoy.config.endpoint.v3.ClusterLoadAssignment\",\"resourceNames\":[\"a\",\"b\"],\"responseNonce\":\"1\",\"versionInfo\":\"1.2\"}",
                ],
                before: &[],
                quiet: &[Step::Put(C), Step::Delete("c"), Step::Merge(MERGED_C)],
                last: Step::Delete("a"),
            },
            Story {
                is_delta: false,
                requests: &[
                    "{\"typeUrl\":\"type.googleapis.com/envoy.config.endpoint.v3.ClusterLoadAssignment\",\"resourceNames\":[\"a\",\"b\"]}",
                    "{\"typeUrl\":\"type.googleapis.com/envoy.config.endpoint.v3.ClusterLoadAssignment\",\"resourceNames\":[\"a\",\"b\"],\"responseNonce\":\"1\",\"versionInfo\":\"1.2\"}",
                ],
                before: &[],
                quiet: &[Step::Put(C), Step::Delete("c"), Step::Merge(MERGED_C)],
                last: Step::Merge(MERGED_A),
            },
            Story {
                is_delta: true,
                requests: &[
                    "{\"typeUrl\":\"type.googleapis.com/envoy.config.endpoint.v3.ClusterLoadAssignment\",\"resourceNamesSubscribe\":[\"a\",\"b\"]}",
                    "{\"typeUrl\":\"type.googleapis.com/envoy.config.endpoint.v3.ClusterLoadAssignment\",\"responseNonce\":\"1\"}",
                ],
                before: &[],
                quiet: &[Step::Put(C), Step::Delete("c"), Step::Merge(MERGED_C)],
                last: Step::Put(B),
            },
            Story {
                is_delta: true,
                requests: &[
                    "{\"typeUrl\":\"type.googleapis.com/envoy.config.endpoint.v3.ClusterLoadAssignment\",\"resourceNamesSubscribe\":[\"a\",\"b\"]}",
                    "{\"typeUrl\":\"type.googleapis.com/envoy.config.endpoint.v3.ClusterLoadAssignment\",\"responseNonce\":\"1\"}",
                ],
                before: &[],
                quiet: &[Step::Put(C), Step::Delete("c"), Step::Merge(MERGED_C)],
                last: Step::Delete("a"),
            },
            Story {
                is_delta: true,
                requests: &[
                    "{\"typeUrl\":\"type.googleapis.com/envoy.config.endpoint.v3.ClusterLoadAssignment\",\"resourceNamesSubscribe\":[\"a\",\"b\"]}",
                    "{\"typeUrl\":\"type.googleapis.com/envoy.config.endpoint.v3.ClusterLoadAssignment\",\"responseNonce\":\"1\"}",
                ],
                before: &[],
                quiet: &[Step::Put(C), Step::Delete("c"), Step::Merge(MERGED_C)],
                last: Step::Merge(MERGED_A),
            },
            Story {
                is_delta: true,
                requests: &[
                    "{\"typeUrl\":\"type.googleapis.com/envoy.config.endpoint.v3.ClusterLoadAssignment\",\"resourceNamesSubscribe\":[\"a\"]}",
                    "{\"typeUrl\":\"type.googleapis.com/envoy.config.endpoint.v3.ClusterLoadAssignment\",\"resourceNamesSubscribe\":[\"b\"]}",
                    "{\"typeUrl\":\"type.googleapis.com/envoy.config.endpoint.v3.ClusterLoadAssignment\",\"responseNonce\":\"1\"}",
                ],
                before: &[],
                quiet: &[Step::Put(C)],
                last: Step::Put(A),
            },
        ],
        "a write of one of its names wakes it, and no other",
    )
}

// rule: wake-ups
#[test]
fn any_write_wakes_the_task_of_a_stream_that_asked_for_all(rt: HostRuntime) -> Result<(), Fail> {
    are_so(
        &rt,
        rt.alloc(),
        &[
            Story {
                is_delta: false,
                requests: &[
                    "{\"typeUrl\":\"type.googleapis.com/envoy.config.endpoint.v3.ClusterLoadAssignment\"}",
                    "{\"typeUrl\":\"type.googleapis.com/envoy.config.endpoint.v3.ClusterLoadAssignment\",\"responseNonce\":\"1\",\"versionInfo\":\"1.2\"}",
                ],
                before: &[],
                quiet: &[],
                last: Step::Put(C),
            },
            Story {
                is_delta: true,
                requests: &[
                    "{\"typeUrl\":\"type.googleapis.com/envoy.config.endpoint.v3.ClusterLoadAssignment\"}",
                    "{\"typeUrl\":\"type.googleapis.com/envoy.config.endpoint.v3.ClusterLoadAssignment\",\"responseNonce\":\"1\"}",
                ],
                before: &[],
                quiet: &[],
                last: Step::Put(C),
            },
            Story {
                is_delta: true,
                requests: &[
                    "{\"typeUrl\":\"type.googleapis.com/envoy.config.endpoint.v3.ClusterLoadAssignment\",\"resourceNamesSubscribe\":[\"a\"]}",
                    "{\"typeUrl\":\"type.googleapis.com/envoy.config.endpoint.v3.ClusterLoadAssignment\",\"resourceNamesSubscribe\":[\"*\"]}",
                    "{\"typeUrl\":\"type.googleapis.com/envoy.config.endpoint.v3.ClusterLoadAssignment\",\"responseNonce\":\"1\"}",
                ],
                before: &[],
                quiet: &[],
                last: Step::Put(C),
            },
        ],
        "a write of any name wakes it",
    )
}

// rule: wake-ups
#[test]
fn what_is_written_while_writers_are_held_back_wakes_its_tasks_behind_it(
    rt: HostRuntime,
) -> Result<(), Fail> {
    are_so(
        &rt,
        rt.alloc(),
        &[
            Story {
                is_delta: false,
                requests: &[
                    "{\"typeUrl\":\"type.googleapis.com/envoy.config.endpoint.v3.ClusterLoadAssignment\",\"resourceNames\":[\"a\",\"b\"]}",
                    "{\"typeUrl\":\"type.googleapis.com/envoy.config.endpoint.v3.ClusterLoadAssignment\",\"resourceNames\":[\"a\",\"b\"],\"responseNonce\":\"1\",\"versionInfo\":\"1.2\"}",
                ],
                before: &[],
                quiet: &[
                    Step::Hold,
                    Step::Put(C),
                    Step::Release,
                    Step::Hold,
                    Step::Hold,
                    Step::Put(B),
                    Step::Release,
                ],
                last: Step::Release,
            },
            Story {
                is_delta: true,
                requests: &[
                    "{\"typeUrl\":\"type.googleapis.com/envoy.config.endpoint.v3.ClusterLoadAssignment\",\"resourceNamesSubscribe\":[\"a\",\"b\"]}",
                    "{\"typeUrl\":\"type.googleapis.com/envoy.config.endpoint.v3.ClusterLoadAssignment\",\"responseNonce\":\"1\"}",
                ],
                before: &[],
                quiet: &[
                    Step::Hold,
                    Step::Put(C),
                    Step::Release,
                    Step::Hold,
                    Step::Hold,
                    Step::Put(B),
                    Step::Release,
                ],
                last: Step::Release,
            },
        ],
        "its own name wakes it once writers are held back no longer, and another doesn't",
    )
}

// rule: wake-ups
#[test]
fn a_task_that_waits_while_writers_are_held_back_is_woken_behind_it(
    rt: HostRuntime,
) -> Result<(), Fail> {
    are_so(
        &rt,
        rt.alloc(),
        &[
            Story {
                is_delta: false,
                requests: &[
                    "{\"typeUrl\":\"type.googleapis.com/envoy.config.endpoint.v3.ClusterLoadAssignment\",\"resourceNames\":[\"a\",\"b\"]}",
                    "{\"typeUrl\":\"type.googleapis.com/envoy.config.endpoint.v3.ClusterLoadAssignment\",\"resourceNames\":[\"a\",\"b\"],\"responseNonce\":\"1\",\"versionInfo\":\"1.2\"}",
                ],
                before: &[Step::Put(B), Step::Hold],
                quiet: &[Step::Put(C)],
                last: Step::Release,
            },
            Story {
                is_delta: true,
                requests: &[
                    "{\"typeUrl\":\"type.googleapis.com/envoy.config.endpoint.v3.ClusterLoadAssignment\",\"resourceNamesSubscribe\":[\"a\",\"b\"]}",
                    "{\"typeUrl\":\"type.googleapis.com/envoy.config.endpoint.v3.ClusterLoadAssignment\",\"responseNonce\":\"1\"}",
                ],
                before: &[Step::Put(B), Step::Hold],
                quiet: &[Step::Put(C)],
                last: Step::Release,
            },
        ],
        "what was written before it waited wakes it",
    )
}
