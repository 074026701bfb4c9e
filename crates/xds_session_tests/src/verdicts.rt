// Traces and the verdict on each.
use crate::pieces::{is_told, told};
use std::alloc::Global;
use std::test::Fail;
use xds_cases::cases::{Outcome, hold_stories};
use xds_check::{Broken, Trace, TraceFault, check};

// What is told of a trace: that it is well, the first broken line and its rule, or its first bad
// line. The same is told where its bytes come in pieces. A trace whose last line is ended has the
// outcome on a line of its own.
struct Verdict;

impl Outcome for Verdict {
    fn of(alloc: Global, given: &str) -> Result<String, Fail> {
        let told = told(alloc, whole_verdict(alloc, given))?;
        is_told(alloc, given, told.as_str())?;
        Ok(told)
    }
}

// The verdict on a trace that is held whole.
fn whole_verdict(alloc: Global, given: &str) -> Result<Option<Broken>, TraceFault> {
    let trace = Trace::read(alloc, given.as_bytes())?;
    let checked = check(alloc, trace.lines());
    drop(trace);
    match checked {
        Ok(broken) => Ok(broken),
        Err(refusal) => Err(TraceFault { line: 0, refusal }),
    }
}

#[test]
fn traces_that_are_well(rt: HostRuntime) -> Result<(), Fail> {
    hold_stories::<Verdict, HostRuntime>(
        &rt,
        r#" => ok

write {"body":{"@type":"CDS","name":"a","x":1},"counter":1,"name":"a","typeUrl":"CDS","writer":1}
write {"body":{"@type":"CDS","name":"a","x":2},"counter":1,"name":"a","typeUrl":"CDS","writer":2}
open 1
open 2
request 1 3 {"node":{"id":"1"},"resourceNamesSubscribe":["*"],"typeUrl":"CDS"}
response 1 4 {"nonce":"1",
    "resources":[{"name":"a","resource":{"@type":"CDS","name":"a","x":2},"version":"1-2"}],
    "systemVersionInfo":"1.2","typeUrl":"CDS"}
request 1 3 {"responseNonce":"1","typeUrl":"CDS"}
request 2 1 {"node":{"id":"2"},"resourceNames":["q"],"typeUrl":"RDS"}
write {"body":{"@type":"RDS","name":"q"},"counter":1,"name":"q","typeUrl":"RDS","writer":1}
response 2 2 {"nonce":"1","resources":[{"@type":"RDS","name":"q"}],"typeUrl":"RDS",
    "versionInfo":"1.1.named"}
request 2 1 {"resourceNames":["q"],"responseNonce":"1","typeUrl":"RDS","versionInfo":"1.1.named"}
write {"counter":2,"name":"a","typeUrl":"CDS","writer":1}
response 1 4 {"nonce":"2","removedResources":["a"],"systemVersionInfo":"1.3","typeUrl":"CDS"}
request 1 3 {"responseNonce":"2","typeUrl":"CDS"}
request 1 3 {"resourceNamesSubscribe":["b"],"resourceNamesUnsubscribe":["*"],"typeUrl":"CDS"}
response 1 4 {"nonce":"3","removedResources":["b"],"systemVersionInfo":"1.3","typeUrl":"CDS"}
request 1 3 {"responseNonce":"3","typeUrl":"CDS"}
close 1
close 2
 => ok

open 1
request 1 3 {"resourceNamesSubscribe":["m"],"typeUrl":"CDS"}
response 1 4 {"nonce":"1","removedResources":["m"],"systemVersionInfo":"1.0","typeUrl":"CDS"}
request 1 3 {"responseNonce":"1","typeUrl":"CDS"}
idle 1 cluster
 => ok

write {"body":{"@type":"CDS","name":"a"},"counter":1,"name":"a","typeUrl":"CDS","writer":1}
open 1
request 1 3 {"resourceNamesSubscribe":["*"],"typeUrl":"CDS"}
response 1 4 {"nonce":"1","removedResources":[],
    "resources":[{"name":"a","resource":{"@type":"CDS","name":"a"},"version":"1-1"}],
    "systemVersionInfo":"1.9","typeUrl":"CDS"}
request 1 3 {"errorDetail":{"code":3},"responseNonce":"1","typeUrl":"CDS"}
write {"body":{"@type":"CDS","name":"b"},"counter":2,"name":"b","typeUrl":"CDS","writer":1}
response 1 4 {"nonce":"2","removedResources":[],
    "resources":[{"name":"a","resource":{"@type":"CDS","name":"a"},"version":"1-1"},
    {"name":"b","resource":{"@type":"CDS","name":"b"},"version":"2-1"}],"systemVersionInfo":"1.9",
    "typeUrl":"CDS"}
 => ok

open 1
request 1 1 {"resourceNames":["q"],"typeUrl":"RDS"}
idle 1 route
 => ok

write {"body":{"@type":"CDS","name":"a","x":1},"counter":1,"name":"a","typeUrl":"CDS","writer":1}
write {"body":{"@type":"CDS","name":"a","x":2},"counter":1,"name":"a","typeUrl":"CDS","writer":2}
open 1
request 1 3 {"node":{"id":"1"},"resourceNamesSubscribe":["*"],"typeUrl":"CDS"}
response 1 4 {"nonce":"1",
    "resources":[{"name":"a","resource":{"@type":"CDS","name":"a","x":2},"version":"1-2"}],
    "systemVersionInfo":"1.2","typeUrl":"CDS"}
request 1 3 {"responseNonce":"1","typeUrl":"CDS"}
close 1
 => ok"#,
    )
}

// rule: first-variant
#[test]
fn bad_lines_are_told_first(rt: HostRuntime) -> Result<(), Fail> {
    hold_stories::<Verdict, HostRuntime>(
        &rt,
        r#"open 1
request 1 1 {"typeUrl":"CDS"}
request 1 3 {"typeUrl":"CDS"}
 => line 3: 22 BadTrace

write {"body":{"@type":"CDS","name":"a","x":1},"counter":1,"name":"a","typeUrl":"CDS","writer":1}
write {"body":{"@type":"CDS","name":"a","x":2},"counter":1,"name":"a","typeUrl":"CDS","writer":2}
open 1
request 1 3 {"node":{"id":"1"},"resourceNamesSubscribe":["*"],"typeUrl":"CDS"}
response 1 4 {"nonce":"1",
    "resources":[{"name":"a","resource":{"@type":"CDS","name":"a","x":2},"version":"1-2"}],
    "systemVersionInfo":"1.2","typeUrl":"CDS"}
request 1 3 {"responseNonce":"1","typeUrl":"CDS"}
close 1
opened 2
 => line 8: 22 BadTrace

open 1
request 1 1 {"typeUrl":"CDS"}
response 1 2 {"nonce":"1","resources":[{"@type":"CDS"}],"typeUrl":"CDS"}
 => line 3: 22 BadTrace

open 1
request 1 1 {"typeUrl":"x"}
response 1 2 {"nonce":"1","typeUrl":"x"}
 => line 3: 22 BadTrace

request 1 1 {"typeUrl":"CDS"}
 => line 1: 22 BadTrace

open 1
close 1
open 1
 => line 3: 22 BadTrace

open 1
close 1
idle 1 cluster
 => line 3: 22 BadTrace

write {"body":{"@type":"CDS","name":"a","x":1},"counter":1,"name":"a","typeUrl":"CDS","writer":1}
write {"body":{"@type":"CDS","name":"a","x":2},"counter":1,"name":"a","typeUrl":"CDS","writer":2}
open 1
request 1 3 {"node":{"id":"1"},"resourceNamesSubscribe":["*"],"typeUrl":"CDS"}
response 1 4 {"nonce":"1",
    "resources":[{"name":"a","resource":{"@type":"CDS","name":"a","x":2},"version":"1-2"}],
    "systemVersionInfo":"1.2","typeUrl":"CDS"}
request 1 3 {"responseNonce":"1","typeUrl":"CDS"}
close 1 => line 7: 22 BadTrace

write {}
 => line 1: 22 BadTrace"#,
    )
}

// rule: awaited-names, rule: whole-response, rule: covered-only, rule: no-live-removal
// rule: best-writes, rule: one-unanswered, rule: refused-offer, rule: new-nonce
#[test]
fn broken_rules_are_told(rt: HostRuntime) -> Result<(), Fail> {
    hold_stories::<Verdict, HostRuntime>(
        &rt,
        r#"write {"body":{"@type":"CDS","name":"a","x":1},"counter":1,"name":"a",
    "typeUrl":"CDS","writer":1}
write {"body":{"@type":"CDS","name":"a","x":2},"counter":1,"name":"a","typeUrl":"CDS","writer":2}
open 1
request 1 3 {"node":{"id":"1"},"resourceNamesSubscribe":["*"],"typeUrl":"CDS"}
response 1 4 {"nonce":"1",
    "resources":[{"name":"a","resource":{"@type":"CDS","name":"a","x":2},"version":"1-2"}],
    "systemVersionInfo":"1.2","typeUrl":"CDS"}
response 1 4 {"nonce":"1",
    "resources":[{"name":"a","resource":{"@type":"CDS","name":"a","x":2},"version":"1-2"}],
    "systemVersionInfo":"1.2","typeUrl":"CDS"}
request 1 3 {"responseNonce":"1","typeUrl":"CDS"}
close 1
 => broken 6 P1

write {"body":{"@type":"CDS","name":"a"},"counter":1,"name":"a","typeUrl":"CDS","writer":1}
open 1
request 1 3 {"resourceNamesSubscribe":["*"],"typeUrl":"CDS"}
response 1 4 {"nonce":"","removedResources":[],
    "resources":[{"name":"a","resource":{"@type":"CDS","name":"a"},"version":"1-1"}],
    "systemVersionInfo":"1.9","typeUrl":"CDS"}
 => broken 4 P1

open 1
request 1 3 {"resourceNamesSubscribe":["m"],"typeUrl":"CDS"}
idle 1 cluster
 => broken 3 P8

write {"body":{"@type":"CDS","name":"a"},"counter":1,"name":"a","typeUrl":"CDS","writer":1}
open 1
request 1 3 {"resourceNamesSubscribe":["b"],"typeUrl":"CDS"}
response 1 4 {"nonce":"1","removedResources":[],
    "resources":[{"name":"a","resource":{"@type":"CDS","name":"a"},"version":"1-1"}],
    "systemVersionInfo":"1.9","typeUrl":"CDS"}
 => broken 4 P3

write {"body":{"@type":"CDS","name":"a","x":1},"counter":1,"name":"a","typeUrl":"CDS","writer":1}
write {"body":{"@type":"CDS","name":"a","x":2},"counter":1,"name":"a","typeUrl":"CDS","writer":2}
open 1
request 1 3 {"node":{"id":"1"},"resourceNamesSubscribe":["*"],"typeUrl":"CDS"}
response 1 4 {"nonce":"1",
    "resources":[{"name":"a","resource":{"@type":"CDS","name":"a","x":2},"version":"1-1"}],
    "systemVersionInfo":"1.2","typeUrl":"CDS"}
request 1 3 {"responseNonce":"1","typeUrl":"CDS"}
close 1
 => broken 5 P2

write {"body":{"@type":"CDS","name":"a"},"counter":1,"name":"a","typeUrl":"CDS","writer":1}
open 1
request 1 3 {"resourceNamesSubscribe":["*"],"typeUrl":"CDS"}
response 1 4 {"nonce":"1","removedResources":[],
    "resources":[{"name":"a","resource":{"@type":"CDS","name":"a"},"version":"1-1"}],
    "systemVersionInfo":"1.9","typeUrl":"CDS"}
request 1 3 {"errorDetail":{"code":3},"responseNonce":"1","typeUrl":"CDS"}
response 1 4 {"nonce":"2","removedResources":[],
    "resources":[{"name":"a","resource":{"@type":"CDS","name":"a"},"version":"1-1"}],
    "systemVersionInfo":"1.9","typeUrl":"CDS"}
 => broken 6 P7

write {"body":{"@type":"CDS","name":"a"},"counter":1,"name":"a","typeUrl":"CDS","writer":1}
open 1
request 1 3 {"resourceNamesSubscribe":["*"],"typeUrl":"CDS"}
response 1 4 {"nonce":"1","removedResources":["a"],"resources":[],"systemVersionInfo":"1.9",
    "typeUrl":"CDS"}
 => broken 4 P5

open 1
request 1 1 {"resourceNames":["q"],"typeUrl":"RDS"}
write {"body":{"@type":"RDS","name":"q"},"counter":1,"name":"q","typeUrl":"RDS","writer":1}
idle 1 route
 => broken 4 P8

write {"body":{"@type":"CDS","name":"a"},"counter":1,"name":"a","typeUrl":"CDS","writer":1}
open 1
request 1 3 {"resourceNamesSubscribe":["*"],"typeUrl":"CDS"}
response 1 4 {"nonce":"1","removedResources":[],
    "resources":[{"name":"a","resource":{"@type":"CDS","name":"a"},"version":"1-1"}],
    "systemVersionInfo":"1.9","typeUrl":"CDS"}
write {"body":{"@type":"CDS","name":"b"},"counter":2,"name":"b","typeUrl":"CDS","writer":1}
response 1 4 {"nonce":"2","removedResources":[],
    "resources":[{"name":"b","resource":{"@type":"CDS","name":"b"},"version":"2-1"}],
    "systemVersionInfo":"1.9","typeUrl":"CDS"}
 => broken 6 P6

write {"body":{"@type":"CDS","name":"a"},"counter":1,"name":"a","typeUrl":"CDS","writer":1}
open 1
request 1 1 {"typeUrl":"LDS"}
response 1 2 {"nonce":"1","resources":[{"@type":"CDS","name":"a"}],"typeUrl":"CDS",
    "versionInfo":"1.9"}
 => broken 4 P3

write {"body":{"@type":"CDS","name":"a"},"counter":1,"name":"a","typeUrl":"CDS","writer":1}
write {"body":{"@type":"CDS","name":"b"},"counter":2,"name":"b","typeUrl":"CDS","writer":1}
open 1
request 1 1 {"typeUrl":"CDS"}
response 1 2 {"nonce":"1","resources":[{"@type":"CDS","name":"a"}],"typeUrl":"CDS",
    "versionInfo":"1.9"}
 => broken 5 P4"#,
    )
}

// rule: tombstones, rule: groups, rule: stale-nonce, rule: accept-reject, rule: awaited-names
// rule: whole-response, rule: no-live-removal, rule: best-writes, rule: one-unanswered
// rule: refused-offer, rule: new-nonce
#[test]
fn rules_at_their_edges(rt: HostRuntime) -> Result<(), Fail> {
    hold_stories::<Verdict, HostRuntime>(
        &rt,
        r#"open 1
request 1 1 {"resourceNames":[],"typeUrl":"CDS"}
response 1 2 {"nonce":"1","resources":[],"typeUrl":"CDS"}
response 1 2 {"nonce":"","resources":[],"typeUrl":"CDS"}
 => broken 4 P1

write {"body":{"@type":"CDS","name":"a"},"counter":1,"name":"a","typeUrl":"CDS","writer":1}
open 1
request 1 3 {"resourceNamesSubscribe":["b"],"typeUrl":"CDS"}
response 1 4 {"nonce":"",
    "resources":[{"name":"a","resource":{"@type":"CDS","name":"a"},"version":"9-9"}],
    "typeUrl":"CDS"}
 => broken 4 P1

write {"body":{"@type":"CDS","name":"a"},"counter":1,"name":"a","typeUrl":"CDS","writer":1}
open 1
request 1 3 {"resourceNamesSubscribe":["b"],"typeUrl":"CDS"}
response 1 4 {"nonce":"1",
    "resources":[{"name":"a","resource":{"@type":"CDS","name":"a"},"version":"9-9"}],
    "typeUrl":"CDS"}
 => broken 4 P2

open 1
request 1 3 {"resourceNamesSubscribe":["m"],"typeUrl":"CDS"}
idle 1 cluster
idle 1 cluster
 => broken 3 P8

open 1
request 1 3 {"initialResourceVersions":{"m":"1-1"},"resourceNamesSubscribe":["m"],"typeUrl":"CDS"}
idle 1 cluster
 => ok

open 1
request 1 3 {"resourceNamesSubscribe":["m"],"typeUrl":"CDS"}
request 1 3 {"initialResourceVersions":{"n":"1-1"},"resourceNamesSubscribe":["n"],
    "responseNonce":"x","typeUrl":"CDS"}
idle 1 cluster
 => broken 4 P8

open 1
request 1 3 {"initialResourceVersions":{"a":"1-1"},"resourceNamesSubscribe":["a"],"typeUrl":"CDS"}
request 1 3 {"initialResourceVersions":{"b":"1-1"},"resourceNamesSubscribe":["b"],"typeUrl":"CDS"}
response 1 4 {"nonce":"1","removedResources":["a"],"typeUrl":"CDS"}
idle 1 cluster
 => broken 5 P8

open 1
request 1 3 {"resourceNamesSubscribe":["m"],"typeUrl":"CDS"}
request 1 3 {"resourceNamesUnsubscribe":["m"],"typeUrl":"CDS"}
idle 1 cluster
 => ok

open 1
request 1 3 {"resourceNamesSubscribe":["m"],"typeUrl":"CDS"}
request 1 3 {"resourceNamesSubscribe":["m"],"resourceNamesUnsubscribe":["m"],"typeUrl":"CDS"}
idle 1 cluster
 => broken 4 P8

open 1
request 1 3 {"resourceNamesSubscribe":["*"],"typeUrl":"CDS"}
idle 1 cluster
 => ok

open 1
request 1 3 {"resourceNamesSubscribe":["*"],"typeUrl":"RDS"}
idle 1 route
 => broken 3 P8

write {"body":{"@type":"RDS","name":"q"},"counter":1,"name":"q","typeUrl":"RDS","writer":1}
open 1
request 1 1 {"resourceNames":["q"],"typeUrl":"RDS"}
request 1 1 {"resourceNames":[],"typeUrl":"RDS"}
idle 1 route
 => ok

write {"body":{"@type":"RDS","name":"q"},"counter":1,"name":"q","typeUrl":"RDS","writer":1}
open 1
request 1 1 {"resourceNames":["q"],"typeUrl":"RDS"}
idle 1 cluster
 => ok

write {"body":{"@type":"CDS","name":"a"},"counter":1,"name":"a","typeUrl":"CDS","writer":1}
write {"body":{"@type":"CDS","name":"b"},"counter":2,"name":"b","typeUrl":"CDS","writer":1}
open 1
request 1 1 {"resourceNames":[],"typeUrl":"CDS"}
response 1 2 {"nonce":"1","resources":[{"@type":"CDS","name":"a"},{"@type":"CDS","name":"b"}],
    "typeUrl":"CDS"}
request 1 1 {"errorDetail":{},"resourceNames":[],"responseNonce":"1","typeUrl":"CDS"}
request 1 1 {"resourceNames":["a"],"responseNonce":"1","typeUrl":"CDS"}
response 1 2 {"nonce":"2","resources":[{"@type":"CDS","name":"a"}],"typeUrl":"CDS"}
 => ok

write {"body":{"@type":"CDS","name":"a"},"counter":1,"name":"a","typeUrl":"CDS","writer":1}
open 1
request 1 1 {"resourceNames":["a","b"],"typeUrl":"CDS"}
response 1 2 {"nonce":"1","resources":[{"@type":"CDS","name":"a"}],"typeUrl":"CDS"}
request 1 1 {"errorDetail":{},"resourceNames":["a"],"responseNonce":"1","typeUrl":"CDS"}
request 1 1 {"resourceNames":["a","b"],"responseNonce":"1","typeUrl":"CDS"}
response 1 2 {"nonce":"2","resources":[{"@type":"CDS","name":"a"}],"typeUrl":"CDS"}
 => broken 7 P7

write {"body":{"@type":"CDS","name":"a"},"counter":1,"name":"a","typeUrl":"CDS","writer":1}
open 1
request 1 1 {"resourceNames":[],"typeUrl":"CDS"}
response 1 2 {"nonce":"1","resources":[{"@type":"CDS","name":"a"}],"typeUrl":"CDS"}
request 1 1 {"errorDetail":{},"resourceNames":[],"responseNonce":"1","typeUrl":"CDS"}
write {"body":{"@type":"CDS","name":"a"},"counter":2,"name":"a","typeUrl":"CDS","writer":1}
response 1 2 {"nonce":"2","resources":[{"@type":"CDS","name":"a"}],"typeUrl":"CDS"}
request 1 1 {"resourceNames":[],"responseNonce":"2","typeUrl":"CDS"}
write {"body":{"@type":"CDS","name":"b"},"counter":1,"name":"b","typeUrl":"CDS","writer":1}
response 1 2 {"nonce":"3","resources":[{"@type":"CDS","name":"a"},{"@type":"CDS","name":"b"}],
    "typeUrl":"CDS"}
 => ok

write {"body":{"@type":"CDS","name":"a"},"counter":1,"name":"a","typeUrl":"CDS","writer":1}
open 1
request 1 1 {"resourceNames":[],"typeUrl":"CDS"}
response 1 2 {"nonce":"1","resources":[{"@type":"CDS","name":"a"}],"typeUrl":"CDS"}
request 1 1 {"resourceNames":[],"responseNonce":"1","typeUrl":"CDS"}
request 1 1 {"resourceNames":["b"],"responseNonce":"0","typeUrl":"CDS"}
write {"body":{"@type":"CDS","name":"c"},"counter":1,"name":"c","typeUrl":"CDS","writer":1}
response 1 2 {"nonce":"2","resources":[{"@type":"CDS","name":"a"},{"@type":"CDS","name":"c"}],
    "typeUrl":"CDS"}
 => ok

write {"body":{"@type":"CDS","name":"a"},"counter":1,"name":"a","typeUrl":"CDS","writer":1}
open 1
request 1 1 {"resourceNames":[],"typeUrl":"CDS"}
response 1 2 {"nonce":"1","resources":[{"@type":"CDS","name":"a"}],"typeUrl":"CDS"}
request 1 1 {"resourceNames":["a"],"responseNonce":"0","typeUrl":"CDS"}
write {"body":{"@type":"CDS","name":"c"},"counter":1,"name":"c","typeUrl":"CDS","writer":1}
response 1 2 {"nonce":"2","resources":[{"@type":"CDS","name":"a"}],"typeUrl":"CDS"}
 => broken 7 P6

write {"body":{"@type":"CDS","name":"a"},"counter":1,"name":"a","typeUrl":"CDS","writer":1}
write {"body":{"@type":"CDS","name":"b"},"counter":1,"groups":["g"],"name":"b",
    "typeUrl":"CDS","writer":1}
open 1
request 1 1 {"node":{"cluster":"g"},"resourceNames":[],"typeUrl":"CDS"}
response 1 2 {"nonce":"1","resources":[{"@type":"CDS","name":"a"}],"typeUrl":"CDS"}
 => broken 5 P4

write {"body":{"@type":"CDS","name":"a"},"counter":1,"name":"a","typeUrl":"CDS","writer":1}
write {"body":{"@type":"CDS","name":"b"},"counter":1,"groups":["g"],"name":"b",
    "typeUrl":"CDS","writer":1}
open 1
request 1 1 {"node":{"cluster":"h"},"resourceNames":[],"typeUrl":"CDS"}
response 1 2 {"nonce":"1","resources":[{"@type":"CDS","name":"a"}],"typeUrl":"CDS"}
 => ok

write {"body":{"@type":"CDS","name":"b"},"counter":1,"groups":["g"],"name":"b",
    "typeUrl":"CDS","writer":1}
open 1
request 1 1 {"node":{"cluster":"g"},"typeUrl":"x"}
request 1 1 {"node":{"cluster":"h"},"resourceNames":[],"typeUrl":"CDS"}
response 1 2 {"nonce":"1","resources":[],"typeUrl":"CDS"}
 => broken 5 P4

write {"body":{"@type":"CDS","name":"a"},"counter":1,"name":"a","typeUrl":"CDS","writer":1}
write {"counter":2,"name":"a","typeUrl":"CDS","writer":1}
open 1
request 1 1 {"resourceNames":[],"typeUrl":"CDS"}
response 1 2 {"nonce":"1","resources":[],"typeUrl":"CDS"}
 => ok

write {"counter":2,"name":"a","typeUrl":"CDS","writer":1}
write {"body":{"@type":"CDS","name":"a"},"counter":1,"name":"a","typeUrl":"CDS","writer":1}
open 1
request 1 1 {"resourceNames":[],"typeUrl":"CDS"}
response 1 2 {"nonce":"1","resources":[{"@type":"CDS","name":"a"}],"typeUrl":"CDS"}
 => broken 5 P2

open 1
request 1 1 {"resourceNames":[],"typeUrl":"CDS"}
response 1 2 {"nonce":"1","resources":[],"typeUrl":"CDS"}
write {"body":{"@type":"CDS","name":"a"},"counter":1,"name":"a","typeUrl":"CDS","writer":1}
request 1 1 {"resourceNames":[],"responseNonce":"1","typeUrl":"CDS"}
response 1 2 {"nonce":"2","resources":[{"@type":"CDS","name":"a"}],"typeUrl":"CDS"}
 => ok

open 1
request 1 1 {"resourceNames":[],"typeUrl":"CDS"}
response 1 2 {"nonce":"1","resources":[],"typeUrl":"CDS"}
open 2
request 2 1 {"typeUrl":"CDS"}
response 2 2 {"nonce":"1","typeUrl":"CDS"}
request 1 1 {"resourceNames":["e"],"typeUrl":"EDS"}
response 1 2 {"nonce":"1","typeUrl":"EDS"}
 => broken 8 P1

write {"body":{"@type":"CDS","name":"a"},"counter":1,"name":"a","typeUrl":"CDS","writer":1}
open 1
request 1 3 {"resourceNamesSubscribe":["a"],"typeUrl":"CDS"}
response 1 4 {"nonce":"1",
    "resources":[{"name":"a","resource":{"@type":"CDS","name":"a"},"version":"1-1"}],
    "typeUrl":"CDS"}
request 1 3 {"responseNonce":"1","typeUrl":"CDS"}
write {"counter":2,"name":"a","typeUrl":"CDS","writer":1}
response 1 4 {"nonce":"2","removedResources":["a"],"typeUrl":"CDS"}
request 1 3 {"responseNonce":"2","typeUrl":"CDS"}
write {"body":{"@type":"CDS","name":"a"},"counter":3,"name":"a","typeUrl":"CDS","writer":1}
response 1 4 {"nonce":"3","removedResources":["a"],"typeUrl":"CDS"}
 => broken 10 P5"#,
    )
}

#[test]
fn a_bad_line_comes_before_a_broken_rule(rt: HostRuntime) -> Result<(), Fail> {
    hold_stories::<Verdict, HostRuntime>(
        &rt,
        r#"open 1
request 1 3 {"resourceNamesSubscribe":["m"],"typeUrl":"CDS"}
idle 1 cluster
 => broken 3 P8

open 1
request 1 3 {"resourceNamesSubscribe":["m"],"typeUrl":"CDS"}
idle 1 cluster
close 2
 => line 4: 22 BadTrace

open 1
request 1 3 {"resourceNamesSubscribe":["m"],"typeUrl":"CDS"}
idle 1 cluster
close 1
idle 1 cluster
 => line 5: 22 BadTrace

open 1
request 1 3 {"resourceNamesSubscribe":["m"],"typeUrl":"CDS"}
idle 1 cluster
close 1 => line 4: 22 BadTrace

open 1
request 1 3 {"resourceNamesSubscribe":["m"],"typeUrl":"CDS"}
idle 1 cluster
request 1 3 {"resourceNamesSubscribe":["m"],"typeUrl":"EDS"}
idle 1 cluster
idle 1 endpoint
 => broken 3 P8"#,
    )
}

#[test]
fn a_stream_that_was_closed_leaves_others_as_they_are(rt: HostRuntime) -> Result<(), Fail> {
    hold_stories::<Verdict, HostRuntime>(
        &rt,
        r#"open 1
open 2
request 1 3 {"resourceNamesSubscribe":["m"],"typeUrl":"CDS"}
request 2 3 {"resourceNamesSubscribe":["m"],"typeUrl":"CDS"}
close 1
idle 2 cluster
 => broken 6 P8

open 1
request 1 3 {"resourceNamesSubscribe":["m"],"typeUrl":"CDS"}
response 1 4 {"nonce":"1","removedResources":["m"],"systemVersionInfo":"1.0","typeUrl":"CDS"}
close 1
open 2
request 2 3 {"resourceNamesSubscribe":["m"],"typeUrl":"CDS"}
response 2 4 {"nonce":"1","removedResources":["m"],"systemVersionInfo":"1.0","typeUrl":"CDS"}
idle 2 cluster
 => ok"#,
    )
}
