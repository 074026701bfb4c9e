// Stories of writes for groups, and of streams whose clients are of clusters.
use crate::script::play;
use std::test::Fail;
use xds_core::Core;

// rule: star-covers, rule: groups
// The first streams are of clients of `g1`, of no cluster, and of `g1` again, which names what its
// star wouldn't cover.
#[test]
fn a_star_covers_the_groups_of_its_cluster(rt: HostRuntime) -> Result<(), Fail> {
    play::<Core, HostRuntime>(
        &rt,
        r#"putin g1 {"@type":"CDS","name":"a"} => 1-1
put {"@type":"CDS","name":"b"} => 2-1
putin g2 {"@type":"CDS","name":"c"} => 3-1
open => 1
sotw 1 {"node":{"cluster":"g1","id":"n"},"typeUrl":"CDS"} => taken
poll 1 => {"nonce":"1","resources":[{"@type":"CDS","name":"a"},{"@type":"CDS","name":"b"}],
    "typeUrl":"CDS","versionInfo":"1.3@g1"}
open => 2
sotw 2 {"typeUrl":"CDS"} => taken
poll 2 => {"nonce":"1","resources":[{"@type":"CDS","name":"b"}],"typeUrl":"CDS","versionInfo":"1.3"}
open => 3
sotw 3 {"node":{"cluster":"g1"},"resourceNames":["c"],"typeUrl":"CDS"} => taken
poll 3 => {"nonce":"1","resources":[{"@type":"CDS","name":"c"}],"typeUrl":"CDS",
    "versionInfo":"1.3.named"}
open => 4
sotw 4 {"node":{"cluster":"none"},"typeUrl":"CDS"} => taken
poll 4 => {"nonce":"1","resources":[{"@type":"CDS","name":"b"}],"typeUrl":"CDS",
    "versionInfo":"1.3@none"}
putin g2,g1,g2 {"@type":"CDS","name":"b"} => 4-1
sotw 2 {"responseNonce":"1","typeUrl":"CDS"} => taken
poll 2 => {"nonce":"2","typeUrl":"CDS","versionInfo":"1.4"}
sotw 1 {"responseNonce":"1","typeUrl":"CDS"} => taken
poll 1 => {"nonce":"2","resources":[{"@type":"CDS","name":"a"},{"@type":"CDS","name":"b"}],
    "typeUrl":"CDS","versionInfo":"1.4@g1"}
entries cluster => {"body":{"@type":"CDS","name":"a"},"counter":1,"groups":["g1"],"name":"a",
    "typeUrl":"CDS","writer":1}
     {"body":{"@type":"CDS","name":"b"},"counter":4,"groups":["g1","g2"],"name":"b","typeUrl":"CDS",
    "writer":1}
     {"body":{"@type":"CDS","name":"c"},"counter":3,"groups":["g2"],"name":"c",
    "typeUrl":"CDS","writer":1}"#,
    )
}

// rule: groups
#[test]
fn the_first_request_decides_the_cluster(rt: HostRuntime) -> Result<(), Fail> {
    play::<Core, HostRuntime>(
        &rt,
        r#"putin g1 {"@type":"CDS","name":"a"} => 1-1
putin g2 {"@type":"CDS","name":"c"} => 2-1
open => 1
sotw 1 {"node":{"cluster":"g2"},"typeUrl":"no.type"} => ignored
sotw 1 {"node":{"cluster":"g1"},"typeUrl":"CDS"} => taken
poll 1 => {"nonce":"1","resources":[{"@type":"CDS","name":"c"}],"typeUrl":"CDS",
    "versionInfo":"1.2@g2"}
open => 2
sotw 2 {"node":{"cluster":"g2"}} => 7 BadMessage
sotw 2 {"node":{"cluster":"g1"},"typeUrl":"CDS"} => taken
poll 2 => {"nonce":"1","resources":[{"@type":"CDS","name":"a"}],"typeUrl":"CDS",
    "versionInfo":"1.2@g1"}
sotw 2 {"node":{"cluster":"g2"},"responseNonce":"1","typeUrl":"CDS"} => taken
owes 2 => no
sotw 2 {"node":{"cluster":"g2"},"typeUrl":"LDS"} => taken
poll 2 => {"nonce":"2","typeUrl":"LDS","versionInfo":"1.0@g1"}
open => 3
delta 3 {"typeUrl":"no.type"} => ignored
delta 3 {"node":{"cluster":"g1"},"typeUrl":"CDS"} => taken
poll 3 => none"#,
    )
}

// rule: groups
#[test]
fn what_leaves_the_group_is_removed(rt: HostRuntime) -> Result<(), Fail> {
    play::<Core, HostRuntime>(
        &rt,
        r#"putin g1 {"@type":"CDS","name":"a"} => 1-1
put {"@type":"CDS","name":"b"} => 2-1
putin g2 {"@type":"CDS","name":"c"} => 3-1
open => 1
delta 1 {"node":{"cluster":"g1"},"resourceNamesSubscribe":["*"],"typeUrl":"CDS"} => taken
poll 1 => {"nonce":"1",
    "resources":[{"name":"a","resource":{"@type":"CDS","name":"a"},"version":"1-1"},
    {"name":"b","resource":{"@type":"CDS","name":"b"},"version":"2-1"}],"systemVersionInfo":"1.3",
    "typeUrl":"CDS"}
delta 1 {"responseNonce":"1","typeUrl":"CDS"} => taken
owes 1 => no
delta 1 {"resourceNamesSubscribe":["c"],"typeUrl":"CDS"} => taken
poll 1 => {"nonce":"2",
    "resources":[{"name":"c","resource":{"@type":"CDS","name":"c"},"version":"3-1"}],
    "systemVersionInfo":"1.3","typeUrl":"CDS"}
delta 1 {"responseNonce":"2","typeUrl":"CDS"} => taken
owes 1 => no
delta 1 {"resourceNamesUnsubscribe":["c"],"typeUrl":"CDS"} => taken
poll 1 => {"nonce":"3","removedResources":["c"],"systemVersionInfo":"1.3","typeUrl":"CDS"}
delta 1 {"responseNonce":"3","typeUrl":"CDS"} => taken
owes 1 => no
putin g2 {"@type":"CDS","name":"a"} => 4-1
poll 1 => {"nonce":"4","removedResources":["a"],"systemVersionInfo":"1.4","typeUrl":"CDS"}
delta 1 {"responseNonce":"4","typeUrl":"CDS"} => taken
owes 1 => no
put {"@type":"CDS","name":"a"} => 5-1
poll 1 => {"nonce":"5",
    "resources":[{"name":"a","resource":{"@type":"CDS","name":"a"},"version":"5-1"}],
    "systemVersionInfo":"1.5","typeUrl":"CDS"}
delta 1 {"responseNonce":"5","typeUrl":"CDS"} => taken
merge {"body":{"@type":"CDS","name":"d"},"counter":6,"groups":["h","g1","h"],"name":"d",
    "typeUrl":"CDS","writer":2}
     {"body":{"@type":"CDS","name":"e"},"counter":6,"groups":["h"],"name":"e","typeUrl":"CDS",
    "writer":2} => 2
poll 1 => {"nonce":"6",
    "resources":[{"name":"d","resource":{"@type":"CDS","name":"d"},"version":"6-2"}],
    "systemVersionInfo":"1.7","typeUrl":"CDS"}
entries cluster => {"body":{"@type":"CDS","name":"a"},"counter":5,"name":"a","typeUrl":"CDS",
    "writer":1}
     {"body":{"@type":"CDS","name":"b"},"counter":2,"name":"b","typeUrl":"CDS","writer":1}
     {"body":{"@type":"CDS","name":"c"},"counter":3,"groups":["g2"],"name":"c","typeUrl":"CDS",
    "writer":1}
     {"body":{"@type":"CDS","name":"d"},"counter":6,"groups":["g1","h"],"name":"d","typeUrl":"CDS",
    "writer":2}
     {"body":{"@type":"CDS","name":"e"},"counter":6,"groups":["h"],"name":"e",
    "typeUrl":"CDS","writer":2}"#,
    )
}

// rule: star-covers, rule: groups
#[test]
fn a_name_is_covered_in_any_group(rt: HostRuntime) -> Result<(), Fail> {
    play::<Core, HostRuntime>(
        &rt,
        r#"putin g1 {"@type":"SDS","name":"s"} => 1-1
open => 1
sotw 1 {"node":{"cluster":"g2"},"resourceNames":["s"],"typeUrl":"SDS"} => taken
poll 1 => {"nonce":"1","resources":[{"@type":"SDS","name":"s"}],"typeUrl":"SDS",
    "versionInfo":"1.1.named"}
sotw 1 {"resourceNames":["s"],"responseNonce":"1","typeUrl":"SDS"} => taken
putin g3 {"@type":"SDS","name":"s"} => 2-1
poll 1 => {"nonce":"2","resources":[{"@type":"SDS","name":"s"}],"typeUrl":"SDS",
    "versionInfo":"1.2.named"}"#,
    )
}
