// What is said of a broken trace, of each rule.
use std::alloc::Global;
use std::test::Fail;
use xds_cases::cases::{Outcome, hold_stories, told};
use xds_check::{Broken, Rule, Trace, check};
use xds_explain::explain;
use xds_resource::Refusal;

// What is told of a trace in which a rule is broken, with a full stop behind it.
struct Told;

impl Outcome for Told {
    fn of(alloc: Global, given: &str) -> Result<String, Fail> {
        let told = told(alloc, explanation(alloc, given))?;
        let told = told.as_str();
        Ok(format!(in alloc; "{told}.")?)
    }
}

fn explanation(alloc: Global, given: &str) -> Result<String, Refusal> {
    let trace = match Trace::read(alloc, given.as_bytes()) {
        Ok(trace) => trace,
        Err(fault) => return Err(fault.refusal),
    };
    let checked = check(alloc, trace.lines());
    drop(trace);
    match checked? {
        Some(broken) => explain(alloc, given.as_bytes(), broken),
        None => Ok(String::from_str(alloc, "ok")?),
    }
}

// rule: new-nonce, rule: one-unanswered, rule: refused-offer
#[test]
fn rules_about_nonces(rt: HostRuntime) -> Result<(), Fail> {
    hold_stories::<Told, HostRuntime>(
        &rt,
        r#"write {"body":{"@type":"CDS","name":"a","x":2},"counter":1,"name":"a","typeUrl":"CDS","writer":2}
open 1
open 2
request 2 3 {"node":{"cluster":"c","id":"other"},"typeUrl":"CDS"}
request 1 3 {"node":{"cluster":"c","id":"one"},"resourceNamesSubscribe":["*"],"typeUrl":"CDS"}
response 1 4 {"nonce":"1",
    "resources":[{"name":"a","resource":{"@type":"CDS","name":"a","x":2},"version":"1-2"}],
    "systemVersionInfo":"1.2","typeUrl":"CDS"}
response 2 4 {"nonce":"2",
    "resources":[{"name":"a","resource":{"@type":"CDS","name":"a","x":2},"version":"1-2"}],
    "systemVersionInfo":"1.2","typeUrl":"CDS"}
response 1 4 {"nonce":"1",
    "resources":[{"name":"a","resource":{"@type":"CDS","name":"a","x":2},"version":"1-2"}],
    "systemVersionInfo":"1.2","typeUrl":"CDS"}
close 1
 => line 8 breaks P1: response 1 4 {"nonce":"1",
    "resources":[{"name":"a","resource":{"@type":"CDS","name":"a","x":2},"version":"1-2"}],
    "systemVersionInfo":"1.2","typeUrl":"ty...
P1: A response has a nonce, and no response before it on its stream, of whatever type, had the same.
stream 1: incremental, node id "one", node cluster "c" (line 5)
type: cluster
nonce: "1", as at line 6
last nonce of the stream: "1" at line 6
.

open 1
request 1 1 {"resourceNames":[],"typeUrl":"CDS"}
response 1 2 {"nonce":"","resources":[],"typeUrl":"CDS"}
 => line 3 breaks P1: response 1 2 {"typeUrl":"CDS"}
P1: A response has a nonce, and no response before it on its stream, of whatever type, had the same.
stream 1: state of the world, node id "", node cluster "" (line 2)
type: cluster
nonce: "", which is none
last nonce of the stream: none
.

write {"body":{"@type":"CDS","name":"a"},"counter":1,"name":"a","typeUrl":"CDS","writer":1}
open 1
request 1 3 {"resourceNamesSubscribe":["*"],"typeUrl":"CDS"}
response 1 4 {"nonce":"1","removedResources":[],
    "resources":[{"name":"a","resource":{"@type":"CDS","name":"a"},"version":"1-1"}],
    "systemVersionInfo":"1.9","typeUrl":"CDS"}
request 1 3 {"responseNonce":"0","typeUrl":"CDS"}
write {"body":{"@type":"CDS","name":"b"},"counter":2,"name":"b","typeUrl":"CDS","writer":1}
response 1 4 {"nonce":"2","removedResources":[],
    "resources":[{"name":"b","resource":{"@type":"CDS","name":"b"},"version":"2-1"}],
    "systemVersionInfo":"1.9","typeUrl":"CDS"}
 => line 7 breaks P6: response 1 4 {"nonce":"2",
    "resources":[{"name":"b","resource":{"@type":"CDS","name":"b"},"version":"2-1"}],
    "systemVersionInfo":"1.9","typeUrl":"type.goo...
P6: A response is sent only once the client has accepted or rejected the one before it of its type.
stream 1: incremental, node id "", node cluster "" (line 3)
type: cluster
not answered yet: nonce "1" at line 4
last nonce of the stream: "1" at line 4
.

write {"body":{"@type":"CDS","name":"a"},"counter":1,"name":"a","typeUrl":"CDS","writer":1}
open 1
request 1 3 {"resourceNamesSubscribe":["*"],"typeUrl":"CDS"}
response 1 4 {"nonce":"1","removedResources":[],
    "resources":[{"name":"a","resource":{"@type":"CDS","name":"a"},"version":"1-1"}],
    "systemVersionInfo":"1.9","typeUrl":"CDS"}
request 1 3 {"errorDetail":{"code":3},"responseNonce":"1","typeUrl":"CDS"}
response 1 4 {"nonce":"2","removedResources":[],
    "resources":[{"name":"a","resource":{"@type":"CDS","name":"a"},"version":"1-1"}],
    "systemVersionInfo":"1.9","typeUrl":"CDS"}
 => line 6 breaks P7: response 1 4 {"nonce":"2",
    "resources":[{"name":"a","resource":{"@type":"CDS","name":"a"},"version":"1-1"}],
    "systemVersionInfo":"1.9","typeUrl":"type.goo...
P7: What the client has rejected isn't offered again as it was, unless another response of the type was accepted since.
stream 1: incremental, node id "", node cluster "" (line 3)
type: cluster
offered before: nonce "1" at line 4, rejected by line 5
last nonce of the stream: "1" at line 4
."#,
    )
}

// rule: best-writes, rule: covered-only, rule: whole-response, rule: no-live-removal, rule: greatest-write, rule: tombstones
// rule: groups, rule: stale-nonce
#[test]
fn rules_about_resources(rt: HostRuntime) -> Result<(), Fail> {
    hold_stories::<Told, HostRuntime>(
        &rt,
        r#"write {"body":{"@type":"CDS","name":"a","x":3},"counter":2,"name":"a","typeUrl":"CDS","writer":2}
write {"body":{"@type":"CDS","name":"a","x":1},"counter":1,"name":"a","typeUrl":"CDS","writer":1}
write {"body":{"@type":"CDS","name":"b"},"counter":9,"name":"b","typeUrl":"CDS","writer":1}
write {"body":{"@type":"RDS","name":"a"},"counter":9,"name":"a","typeUrl":"RDS","writer":1}
write {"body":{"@type":"CDS","name":"a","x":3},"counter":2,"name":"a","typeUrl":"CDS","writer":2}
open 1
request 1 3 {"node":{"id":"1"},"resourceNamesSubscribe":["a"],"typeUrl":"CDS"}
response 1 4 {"nonce":"1",
    "resources":[{"name":"a","resource":{"@type":"CDS","name":"a","x":1},"version":"1-1"}],
    "systemVersionInfo":"1.2","typeUrl":"CDS"}
close 1
 => line 8 breaks P2: response 1 4 {"nonce":"1",
    "resources":[{"name":"a","resource":{"@type":"CDS","name":"a","x":1},"version":"1-1"}],
    "systemVersionInfo":"1.2","typeUrl":"ty...
P2: A response states of a name the greatest write that the replica has taken, with its body, and in the incremental variant with its version; a name whose greatest write is a deletion isn't stated.
stream 1: incremental, node id "1", node cluster "" (line 7)
type: cluster
name: "a"
stated: under the name "a" with the version "1-1", present, {"@type":"CDS","name":"a","x":1}
best write so far: line 1, version 2-2, present, {"@type":"CDS","name":"a","x":3}
asked for: "a"
.

write {"body":{"@type":"CDS","name":"a"},"counter":1,"name":"a","typeUrl":"CDS","writer":1}
write {"counter":2,"name":"a","typeUrl":"CDS","writer":1}
open 1
request 1 1 {"resourceNames":["a"],"typeUrl":"CDS"}
response 1 2 {"nonce":"1","resources":[{"@type":"CDS","name":"a"}],"typeUrl":"CDS"}
 => line 5 breaks P2: response 1 2 {"nonce":"1","resources":[{"@type":"CDS","name":"a"}],"typeUrl":"CDS"}
P2: A response states of a name the greatest write that the replica has taken, with its body, and in the incremental variant with its version; a name whose greatest write is a deletion isn't stated.
stream 1: state of the world, node id "", node cluster "" (line 4)
type: cluster
name: "a"
stated: present, {"@type":"CDS","name":"a"}
best write so far: line 2, version 2-1, deleted
asked for: "a"
.

open 1
request 1 1 {"resourceNames":[],"typeUrl":"CDS"}
response 1 2 {"nonce":"1","resources":[{"@type":"CDS","name":"b"}],"typeUrl":"CDS"}
 => line 3 breaks P2: response 1 2 {"nonce":"1","resources":[{"@type":"CDS","name":"b"}],"typeUrl":"CDS"}
P2: A response states of a name the greatest write that the replica has taken, with its body, and in the incremental variant with its version; a name whose greatest write is a deletion isn't stated.
stream 1: state of the world, node id "", node cluster "" (line 2)
type: cluster
name: "b"
stated: present, {"@type":"CDS","name":"b"}
best write so far: none
asked for: the star
.

write {"body":{"@type":"CDS","name":"a"},"counter":1,"groups":["g","h"],"name":"a","typeUrl":"CDS","writer":1}
open 1
request 1 3 {"node":{"cluster":"f"},"resourceNamesSubscribe":["*","b","c"],"typeUrl":"CDS"}
response 1 4 {"nonce":"1",
    "resources":[{"name":"a","resource":{"@type":"CDS","name":"a"},"version":"1-1"}],
    "systemVersionInfo":"1.9","typeUrl":"CDS"}
 => line 4 breaks P3: response 1 4 {"nonce":"1",
    "resources":[{"name":"a","resource":{"@type":"CDS","name":"a"},"version":"1-1"}],
    "systemVersionInfo":"1.9","typeUrl":"type.goo...
P3: A response states only what the client asks for: by its name, or by the star where the write is open to the client's cluster.
stream 1: incremental, node id "", node cluster "f" (line 3)
type: cluster
name: "a"
stated: under the name "a" with the version "1-1", present, {"@type":"CDS","name":"a"}
best write so far: line 1, version 1-1, present, {"@type":"CDS","name":"a"}, for the groups "g", "h"
asked for: the star "b" "c"
.

write {"body":{"@type":"CDS","name":"a"},"counter":1,"name":"a","typeUrl":"CDS","writer":1}
write {"body":{"@type":"CDS","name":"b"},"counter":2,"name":"b","typeUrl":"CDS","writer":1}
open 1
request 1 1 {"typeUrl":"CDS"}
response 1 2 {"nonce":"1","resources":[{"@type":"CDS","name":"a"}],"typeUrl":"CDS",
    "versionInfo":"1.9"}
 => line 5 breaks P4: response 1 2 {"nonce":"1","resources":[{"@type":"CDS","name":"a"}],"typeUrl":"CDS",
    "versionInfo":"1.9"}
P4: A state-of-the-world response of clusters or listeners states every live name that the client asks for, since the client drops what it lacks.
stream 1: state of the world, node id "", node cluster "" (line 4)
type: cluster
name: "b"
stated: nothing
best write so far: line 2, version 2-1, present, {"@type":"CDS","name":"b"}
asked for: the star
.

write {"body":{"@type":"CDS","name":"a"},"counter":1,"name":"a","typeUrl":"CDS","writer":1}
open 1
request 1 1 {"resourceNames":[],"typeUrl":"CDS"}
response 1 2 {"nonce":"1","resources":[{"@type":"CDS","name":"a"}],"typeUrl":"CDS"}
request 1 1 {"resourceNames":[],"responseNonce":"1","typeUrl":"CDS"}
request 1 1 {"resourceNames":["b"],"responseNonce":"0","typeUrl":"CDS"}
write {"body":{"@type":"CDS","name":"c"},"counter":1,"name":"c","typeUrl":"CDS","writer":1}
response 1 2 {"nonce":"2","resources":[{"@type":"CDS","name":"a"}],"typeUrl":"CDS"}
 => line 8 breaks P4: response 1 2 {"nonce":"2","resources":[{"@type":"CDS","name":"a"}],"typeUrl":"CDS"}
P4: A state-of-the-world response of clusters or listeners states every live name that the client asks for, since the client drops what it lacks.
stream 1: state of the world, node id "", node cluster "" (line 3)
type: cluster
name: "c"
stated: nothing
best write so far: line 7, version 1-1, present, {"@type":"CDS","name":"c"}
asked for: the star
.

write {"body":{"@type":"CDS","name":"a"},"counter":1,"name":"a","typeUrl":"CDS","writer":1}
open 1
request 1 3 {"resourceNamesSubscribe":["*"],"typeUrl":"CDS"}
response 1 4 {"nonce":"1","removedResources":["a"],"resources":[],"systemVersionInfo":"1.9",
    "typeUrl":"CDS"}
 => line 4 breaks P5: response 1 4 {"nonce":"1","removedResources":["a"],"systemVersionInfo":"1.9",
    "typeUrl":"CDS"}
P5: A response removes no name that is live and that the client asks for.
stream 1: incremental, node id "", node cluster "" (line 3)
type: cluster
name: "a"
stated: removed
best write so far: line 1, version 1-1, present, {"@type":"CDS","name":"a"}
asked for: the star
."#,
    )
}

// rule: awaited-names, rule: listed-names, rule: delta-names
#[test]
fn a_rule_about_what_is_owed(rt: HostRuntime) -> Result<(), Fail> {
    hold_stories::<Told, HostRuntime>(
        &rt,
        r#"open 1
request 1 3 {"initialResourceVersions":{"k":"1-1"},"resourceNamesSubscribe":["k","m"],
    "resourceNamesUnsubscribe":["*"],"typeUrl":"CDS"}
request 1 3 {"resourceNamesSubscribe":["n"],"resourceNamesUnsubscribe":["m"],"typeUrl":"CDS"}
idle 1 cluster
 => line 4 breaks P8: idle 1 cluster
P8: That nothing is owed is said only once each name that the client asked for was stated or removed; in the state of the world a name that isn't live needs no answer.
stream 1: incremental, node id "", node cluster "" (line 2)
type: cluster
name: "n"
owed: an answer since line 3
best write so far: none
asked for: "k" "n"
.

open 1
request 1 3 {"resourceNamesSubscribe":["a","b","c"],"typeUrl":"RDS"}
response 1 4 {"nonce":"1","removedResources":["a"],"typeUrl":"RDS"}
idle 1 route
 => line 4 breaks P8: idle 1 route
P8: That nothing is owed is said only once each name that the client asked for was stated or removed; in the state of the world a name that isn't live needs no answer.
stream 1: incremental, node id "", node cluster "" (line 2)
type: route
name: "b"
owed: an answer since line 2
best write so far: none
asked for: "a" "b" "c"
.

open 1
request 1 1 {"resourceNames":["p","q"],"typeUrl":"RDS"}
write {"body":{"@type":"RDS","name":"q"},"counter":1,"name":"q","typeUrl":"RDS","writer":1}
request 1 1 {"resourceNames":["q","r"],"typeUrl":"RDS"}
idle 1 route
 => line 5 breaks P8: idle 1 route
P8: That nothing is owed is said only once each name that the client asked for was stated or removed; in the state of the world a name that isn't live needs no answer.
stream 1: state of the world, node id "", node cluster "" (line 2)
type: route
name: "q"
owed: an answer since line 2
best write so far: line 3, version 1-1, present, {"@type":"RDS","name":"q"}
asked for: "q" "r"
."#,
    )
}

// A name that would clear a terminal, and one of a thousand bytes.
#[test]
fn texts_are_cleaned_and_shortened(rt: HostRuntime) -> Result<(), Fail> {
    hold_stories::<Told, HostRuntime>(
        &rt,
        r#"open 1
request 1 3 {"node":{"id":"\u001b[2Jé<x*300>"},"resourceNamesSubscribe":["\u009b\u202ek"],
    "resourceNamesUnsubscribe":["*"],"typeUrl":"CDS"}
idle 1 cluster
 => line 3 breaks P8: idle 1 cluster
P8: That nothing is owed is said only once each name that the client asked for was stated or removed; in the state of the world a name that isn't live needs no answer.
stream 1: incremental, node id "?[2Jé<x*195>...", node cluster "" (line 2)
type: cluster
name: "??k"
owed: an answer since line 2
best write so far: none
asked for: "??k"
."#,
    )
}

// Bytes that have no such line, and bytes that are no trace up to it. What follows it isn't looked at.
#[test]
fn a_line_that_is_not_there(rt: HostRuntime) -> Result<(), Fail> {
    let broken = Broken {
        line: 3,
        rule: Rule::FreshNonce,
    };
    let alloc = rt.alloc();
    let short = explain(alloc, "open 1\nclose 1\n".as_bytes(), broken);
    assert!(rt; is_bad_trace(short));
    let bad = explain(alloc, "open 1\nopen 1\nopen 2\n".as_bytes(), broken);
    assert!(rt; is_bad_trace(bad));
    let well = explain(alloc, "open 1\nopen 2\nopen 3\nopen 3\n".as_bytes(), broken);
    assert!(rt; !is_bad_trace(well));
    Ok(())
}

fn is_bad_trace(explained: Result<String, Refusal>) -> bool {
    match explained {
        Ok(_) => false,
        Err(refusal) => refusal == Refusal::BadTrace,
    }
}
