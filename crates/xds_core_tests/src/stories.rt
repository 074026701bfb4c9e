// Stories of streams and writes at one replica.
use crate::script::play;
use std::test::Fail;
use xds_core::Core;

#[test]
fn refusals_come_in_their_order(rt: HostRuntime) -> Result<(), Fail> {
    play::<Core, HostRuntime>(
        &rt,
        r#"delete cluster a => 9 NotFound
sotw 7 {"typeUrl":"CDS"} => 12 NoStream
delta 7 {"typeUrl":"CDS"} => 12 NoStream
sotw 7 {} => 12 NoStream
poll 7 => 12 NoStream
poll 7 route => 12 NoStream
owes 7 => 12 NoStream
owes 7 route => 12 NoStream
close 7 => 12 NoStream
due 7 => none
owed 7 => none
owed 7 cluster => none
open => 1
sotw 1 {"typeUrl":"CDS"} => taken
delta 1 {"typeUrl":"CDS"} => 13 WrongVariant
delta 1 {} => 13 WrongVariant
delta 1 {"typeUrl":"no.type"} => 13 WrongVariant
sotw 1 {} => 7 BadMessage
sotw 7 {"typeUrl":"CDS"} => 12 NoStream
poll 1 => {"nonce":"1","typeUrl":"CDS","versionInfo":"1.0"}
delta 1 {"responseNonce":"1","typeUrl":"CDS"} => 13 WrongVariant
sotw 1 {"responseNonce":"1"} => 7 BadMessage
owes 1 => yes
sotw 1 {"responseNonce":"1","typeUrl":"CDS"} => taken
owes 1 => no
close 1 => closed
close 1 => 12 NoStream
delta 1 {} => 12 NoStream
sotw 1 {"typeUrl":"CDS"} => 12 NoStream
open => 2
put {"@type":"CDS","name":"a"} => 1-1
delete endpoint a => 9 NotFound
delete cluster a => 2-1
delete cluster a => 9 NotFound"#,
    )
}

// rule: first-variant
#[test]
fn the_first_request_decides_the_variant(rt: HostRuntime) -> Result<(), Fail> {
    play::<Core, HostRuntime>(
        &rt,
        r#"open => 1
sotw 1 {} => 7 BadMessage
delta 1 {} => 7 BadMessage
delta 1 {"resourceNamesSubscribe":["m"],"typeUrl":"CDS"} => taken
sotw 1 {"typeUrl":"CDS"} => 13 WrongVariant
poll 1 => {"nonce":"1","removedResources":["m"],"systemVersionInfo":"1.0","typeUrl":"CDS"}
open => 2
delta 2 {} => 7 BadMessage
sotw 2 {"typeUrl":"CDS"} => taken
delta 2 {"typeUrl":"CDS"} => 13 WrongVariant
poll 2 => {"nonce":"1","typeUrl":"CDS","versionInfo":"1.0"}
open => 3
sotw 3 {"resourceNames":["a"],"typeUrl":"no.type"} => ignored
delta 3 {"typeUrl":"CDS"} => 13 WrongVariant
delta 3 {"typeUrl":"no.type"} => 13 WrongVariant
owes 3 => no
due 3 => no
poll 3 => none
sotw 3 {"typeUrl":"no.type"} => ignored
sotw 3 {"typeUrl":"LDS"} => taken
due 3 => yes
poll 3 => {"nonce":"1","typeUrl":"LDS","versionInfo":"1.0"}
open => 4
delta 4 {"resourceNamesSubscribe":["a"],"typeUrl":"no.type"} => ignored
sotw 4 {"typeUrl":"CDS"} => 13 WrongVariant
owes 4 => no
poll 4 => none
delta 4 {"resourceNamesSubscribe":["m"],"typeUrl":"RDS"} => taken
poll 4 => {"nonce":"1","removedResources":["m"],"systemVersionInfo":"1.0","typeUrl":"RDS"}"#,
    )
}

#[test]
fn each_event_is_answered(rt: HostRuntime) -> Result<(), Fail> {
    play::<Core, HostRuntime>(
        &rt,
        r#"marks => 0 0 0 0 0
entries cluster => none
snapshot => none
put {"x":1,"@type":"CDS","name":"a"} => 1-1
put {"@type":"EDS","clusterName":"e"} => 1-1
put {"@type":"LDS","name":"l"} => 1-1
put {"@type":"RDS","name":"r"} => 1-1
put {"@type":"RDS","name":"q"} => 2-1
marks => 1 1 1 2 0
delete route r => 3-1
marks => 1 1 1 3 0
entries route => {"body":{"@type":"RDS","name":"q"},"counter":2,"name":"q","typeUrl":"RDS",
    "writer":1}
     {"counter":3,"name":"r","typeUrl":"RDS","writer":1}
snapshot => {"body":{"@type":"CDS","name":"a","x":1},"counter":1,"name":"a","typeUrl":"CDS",
    "writer":1}
     {"body":{"@type":"EDS","clusterName":"e"},"counter":1,"name":"e","typeUrl":"EDS","writer":1}
     {"body":{"@type":"LDS","name":"l"},"counter":1,"name":"l","typeUrl":"LDS","writer":1}
     {"body":{"@type":"RDS","name":"q"},"counter":2,"name":"q","typeUrl":"RDS","writer":1}
     {"counter":3,"name":"r","typeUrl":"RDS","writer":1}
open => 1
due 1 => no
owed 1 => no
owes 1 => no
poll 1 => none
sotw 1 {"resourceNames":["q"],"typeUrl":"RDS"} => taken
due 1 => yes
owed 1 => yes
owed 1 route => yes
owed 1 cluster => no
owes 1 => yes
owes 1 route => yes
owes 1 listener => no
poll 1 cluster => none
poll 1 => {"nonce":"1","resources":[{"@type":"RDS","name":"q"}],"typeUrl":"RDS",
    "versionInfo":"1.3.named"}
due 1 => no
owed 1 => yes
owes 1 route => yes
poll 1 => none
sotw 1 {"resourceNames":["q"],"responseNonce":"1","typeUrl":"RDS"} => taken
owed 1 => no
owes 1 => no
sotw 1 {"resourceNames":["r"],"responseNonce":"9","typeUrl":"RDS"} => ignored
merge {"body":{"@type":"RDS","name":"q","x":2},"counter":5,"name":"q","typeUrl":"RDS","writer":2}
     {"counter":1,"name":"e","typeUrl":"EDS","writer":2} => 2
marks => 1 2 1 4 0
poll 1 route => {"nonce":"2","resources":[{"@type":"RDS","name":"q","x":2}],"typeUrl":"RDS",
    "versionInfo":"1.4.named"}
put {"@type":"RDS","name":"z"} => 6-1
delete endpoint e => 9 NotFound
close 1 => closed
due 1 => none
owed 1 => none"#,
    )
}

// rule: greatest-write
#[test]
fn a_batch_is_joined_once(rt: HostRuntime) -> Result<(), Fail> {
    play::<Core, HostRuntime>(
        &rt,
        r#"put {"@type":"CDS","name":"a","x":1} => 1-1
open => 1
sotw 1 {"typeUrl":"CDS"} => taken
merge {"body":{"@type":"CDS","name":"a","x":2},"counter":1,"name":"a","typeUrl":"CDS",
    "writer":2} => 1
merge {"body":{"@type":"CDS","name":"a","x":2},"counter":1,"name":"a","typeUrl":"CDS",
    "writer":2} => 0
merge {"body":{"@type":"CDS","name":"a","x":1},"counter":1,"name":"a","typeUrl":"CDS",
    "writer":1} => 0
marks => 2 0 0 0 0
merge => 0
poll 1 => {"nonce":"1","resources":[{"@type":"CDS","name":"a","x":2}],"typeUrl":"CDS",
    "versionInfo":"1.2"}
sotw 1 {"responseNonce":"1","typeUrl":"CDS"} => taken
merge {"body":{"@type":"LDS","name":"l"},"counter":7,"name":"l","typeUrl":"LDS","writer":3}
     {"counter":4,"name":"b","typeUrl":"CDS","writer":2}
     {"body":{"@type":"CDS","name":"b"},"counter":3,"name":"b","typeUrl":"CDS","writer":9} => 2
marks => 3 0 1 0 0
entries cluster => {"body":{"@type":"CDS","name":"a","x":2},"counter":1,"name":"a","typeUrl":"CDS",
    "writer":2}
     {"counter":4,"name":"b","typeUrl":"CDS","writer":2}
delete cluster b => 9 NotFound
delete cluster a => 5-1
merge {"body":{"@type":"CDS","name":"a","x":2},"counter":1,"name":"a","typeUrl":"CDS",
    "writer":2} => 0
merge {"body":{"@type":"CDS","name":"c"},"counter":1,"name":"c","typeUrl":"CDS","writer":2}
     {"body":{"@type":"CDS","name":"c"},"counter":1,"name":"c","typeUrl":"CDS","writer":2} => 1
snapshot => {"counter":5,"name":"a","typeUrl":"CDS","writer":1}
     {"counter":4,"name":"b","typeUrl":"CDS","writer":2}
     {"body":{"@type":"CDS","name":"c"},"counter":1,"name":"c","typeUrl":"CDS","writer":2}
     {"body":{"@type":"LDS","name":"l"},"counter":7,"name":"l","typeUrl":"LDS","writer":3}
poll 1 => {"nonce":"2","resources":[{"@type":"CDS","name":"c"}],"typeUrl":"CDS","versionInfo":"1.5"}
put {"@type":"CDS","name":"b"} => 6-1
put {"@type":"LDS","name":"k"} => 8-1"#,
    )
}

#[test]
fn the_greatest_counter_ends_writes(rt: HostRuntime) -> Result<(), Fail> {
    play::<Core, HostRuntime>(
        &rt,
        r#"put {"@type":"LDS","name":"k"} => 1-1
merge {"body":{"@type":"LDS","name":"z"},"counter":9223372036854775807,"name":"z","typeUrl":"LDS",
    "writer":9} => 1
put {"@type":"LDS","name":"l"} => 10 CounterSpent
delete listener k => 10 CounterSpent
delete listener l => 9 NotFound
marks => 0 0 2 0 0
entries listener => {"body":{"@type":"LDS","name":"k"},"counter":1,"name":"k","typeUrl":"LDS",
    "writer":1}
     {"body":{"@type":"LDS","name":"z"},"counter":9223372036854775807,"name":"z",
    "typeUrl":"LDS","writer":9}
put {"@type":"CDS","name":"l"} => 1-1
merge {"counter":2,"name":"k","typeUrl":"LDS","writer":1} => 1
marks => 1 0 3 0 0"#,
    )
}

// rule: type-order
#[test]
fn types_are_polled_in_their_order(rt: HostRuntime) -> Result<(), Fail> {
    play::<Core, HostRuntime>(
        &rt,
        r#"put {"@type":"SDS","name":"s"} => 1-1
put {"@type":"RDS","name":"r"} => 1-1
put {"@type":"LDS","name":"l"} => 1-1
put {"@type":"EDS","clusterName":"e"} => 1-1
put {"@type":"CDS","name":"c"} => 1-1
marks => 1 1 1 1 1
open => 1
sotw 1 {"resourceNames":["s"],"typeUrl":"SDS"} => taken
owes 1 => yes
owes 1 route => no
sotw 1 {"resourceNames":["r"],"typeUrl":"RDS"} => taken
owes 1 => yes
owes 1 cluster => no
sotw 1 {"typeUrl":"LDS"} => taken
sotw 1 {"resourceNames":["e"],"typeUrl":"EDS"} => taken
sotw 1 {"typeUrl":"CDS"} => taken
poll 1 => {"nonce":"1","resources":[{"@type":"CDS","name":"c"}],"typeUrl":"CDS","versionInfo":"1.1"}
poll 1 => {"nonce":"2","resources":[{"@type":"EDS","clusterName":"e"}],"typeUrl":"EDS",
    "versionInfo":"1.1.named"}
poll 1 => {"nonce":"3","resources":[{"@type":"LDS","name":"l"}],"typeUrl":"LDS","versionInfo":"1.1"}
poll 1 => {"nonce":"4","resources":[{"@type":"RDS","name":"r"}],"typeUrl":"RDS",
    "versionInfo":"1.1.named"}
poll 1 => {"nonce":"5","resources":[{"@type":"SDS","name":"s"}],"typeUrl":"SDS",
    "versionInfo":"1.1.named"}
poll 1 => none
sotw 1 {"resourceNames":["r"],"responseNonce":"4","typeUrl":"RDS"} => taken
sotw 1 {"responseNonce":"1","typeUrl":"CDS"} => taken
owes 1 cluster => no
owes 1 => yes
sotw 1 {"responseNonce":"3","typeUrl":"LDS"} => taken
owes 1 => yes
sotw 1 {"resourceNames":["e"],"responseNonce":"2","typeUrl":"EDS"} => taken
owes 1 => yes
due 1 => no
sotw 1 {"resourceNames":["s"],"responseNonce":"5","typeUrl":"SDS"} => taken
owes 1 => no
snapshot => {"body":{"@type":"CDS","name":"c"},"counter":1,"name":"c","typeUrl":"CDS","writer":1}
     {"body":{"@type":"EDS","clusterName":"e"},"counter":1,"name":"e","typeUrl":"EDS","writer":1}
     {"body":{"@type":"LDS","name":"l"},"counter":1,"name":"l","typeUrl":"LDS","writer":1}
     {"body":{"@type":"RDS","name":"r"},"counter":1,"name":"r","typeUrl":"RDS","writer":1}
     {"body":{"@type":"SDS","name":"s"},"counter":1,"name":"s","typeUrl":"SDS","writer":1}
open => 2
sotw 2 {"typeUrl":"SDS"} => taken
poll 2 => none
owes 2 => no
merge {"counter":2,"name":"s","typeUrl":"SDS","writer":2} => 1
marks => 1 1 1 1 2
owes 1 => no
delete secret s => 9 NotFound"#,
    )
}

// rule: one-unanswered, rule: nonce-numbers
// The first stream is of the state of the world, the second incremental.
#[test]
fn two_streams_of_both_variants(rt: HostRuntime) -> Result<(), Fail> {
    play::<Core, HostRuntime>(
        &rt,
        r#"open => 1
open => 2
put {"@type":"CDS","name":"a"} => 1-1
put {"@type":"CDS","name":"b"} => 2-1
sotw 1 {"node":{"id":"n"},"resourceNames":["*"],"typeUrl":"CDS"} => taken
delta 2 {"node":{"id":"m"},"resourceNamesSubscribe":["*"],"typeUrl":"CDS"} => taken
poll 1 => {"nonce":"1","resources":[{"@type":"CDS","name":"a"},{"@type":"CDS","name":"b"}],
    "typeUrl":"CDS","versionInfo":"1.2"}
poll 2 => {"nonce":"1",
    "resources":[{"name":"a","resource":{"@type":"CDS","name":"a"},"version":"1-1"},
    {"name":"b","resource":{"@type":"CDS","name":"b"},"version":"2-1"}],"systemVersionInfo":"1.2",
    "typeUrl":"CDS"}
sotw 1 {"resourceNames":["*"],"responseNonce":"1","typeUrl":"CDS","versionInfo":"1.2"} => taken
delta 2 {"responseNonce":"1","typeUrl":"CDS"} => taken
owes 1 => no
owes 2 => no
sotw 1 {"resourceNames":["e"],"typeUrl":"EDS"} => taken
owes 1 => no
poll 1 => none
delta 2 {"resourceNamesSubscribe":["e"],"typeUrl":"EDS"} => taken
poll 2 => {"nonce":"2","removedResources":["e"],"systemVersionInfo":"1.0","typeUrl":"EDS"}
put {"@type":"EDS","clusterName":"e"} => 1-1
poll 2 endpoint => none
poll 1 => {"nonce":"2","resources":[{"@type":"EDS","clusterName":"e"}],"typeUrl":"EDS",
    "versionInfo":"1.1.named"}
delta 2 {"responseNonce":"2","typeUrl":"EDS"} => taken
poll 2 => {"nonce":"3",
    "resources":[{"name":"e","resource":{"@type":"EDS","clusterName":"e"},"version":"1-1"}],
    "systemVersionInfo":"1.1","typeUrl":"EDS"}
delete cluster a => 3-1
put {"@type":"LDS","name":"l"} => 1-1
delta 2 {"typeUrl":"LDS"} => taken
poll 2 => {"nonce":"4","removedResources":["a"],"systemVersionInfo":"1.3","typeUrl":"CDS"}
poll 2 listener => {"nonce":"5",
    "resources":[{"name":"l","resource":{"@type":"LDS","name":"l"},"version":"1-1"}],
    "systemVersionInfo":"1.1","typeUrl":"LDS"}
poll 2 => none
poll 1 cluster => {"nonce":"3","resources":[{"@type":"CDS","name":"b"}],"typeUrl":"CDS",
    "versionInfo":"1.3"}
sotw 1 {"errorDetail":{"code":3,"message":"test: b"},"resourceNames":["*"],"responseNonce":"3",
    "typeUrl":"CDS","versionInfo":"1.2"} => taken
poll 1 => none
owes 1 cluster => yes
due 1 => no
put {"@type":"CDS","name":"b","x":1} => 4-1
due 1 => yes
poll 1 => {"nonce":"4","resources":[{"@type":"CDS","name":"b","x":1}],"typeUrl":"CDS",
    "versionInfo":"1.4"}
sotw 1 {"resourceNames":["*"],"responseNonce":"4","typeUrl":"CDS","versionInfo":"1.4"} => taken
sotw 1 {"resourceNames":["e"],"responseNonce":"2","typeUrl":"EDS",
    "versionInfo":"1.1.named"} => taken
owes 1 => no
delta 2 {"responseNonce":"4","typeUrl":"CDS"} => taken
poll 2 => {"nonce":"6",
    "resources":[{"name":"b","resource":{"@type":"CDS","name":"b","x":1},"version":"4-1"}],
    "systemVersionInfo":"1.4","typeUrl":"CDS"}
delta 2 {"resourceNamesUnsubscribe":["*"],"typeUrl":"CDS"} => taken
poll 2 cluster => none
delta 2 {"responseNonce":"6","typeUrl":"CDS"} => taken
poll 2 => {"nonce":"7","removedResources":["b"],"systemVersionInfo":"1.4","typeUrl":"CDS"}
delta 2 {"responseNonce":"7","typeUrl":"CDS"} => taken
owes 2 cluster => no
merge {"body":{"@type":"RDS","name":"q"},"counter":7,"name":"q","typeUrl":"RDS","writer":2}
     {"body":{"@type":"CDS","name":"c"},"counter":9,"name":"c","typeUrl":"CDS","writer":2} => 2
marks => 5 1 1 1 0
owes 2 cluster => no
poll 1 => {"nonce":"5","resources":[{"@type":"CDS","name":"b","x":1},{"@type":"CDS","name":"c"}],
    "typeUrl":"CDS","versionInfo":"1.5"}
put {"@type":"CDS","name":"d"} => 10-1
close 1 => closed
poll 1 => 12 NoStream
owes 2 => yes
poll 2 => none
delta 2 {"responseNonce":"3","typeUrl":"EDS"} => taken
delta 2 {"responseNonce":"5","typeUrl":"LDS"} => taken
owes 2 => no
close 2 => closed
open => 3
snapshot => {"counter":3,"name":"a","typeUrl":"CDS","writer":1}
     {"body":{"@type":"CDS","name":"b","x":1},"counter":4,"name":"b","typeUrl":"CDS","writer":1}
     {"body":{"@type":"CDS","name":"c"},"counter":9,"name":"c","typeUrl":"CDS","writer":2}
     {"body":{"@type":"CDS","name":"d"},"counter":10,"name":"d","typeUrl":"CDS","writer":1}
     {"body":{"@type":"EDS","clusterName":"e"},"counter":1,"name":"e","typeUrl":"EDS","writer":1}
     {"body":{"@type":"LDS","name":"l"},"counter":1,"name":"l","typeUrl":"LDS","writer":1}
     {"body":{"@type":"RDS","name":"q"},"counter":7,"name":"q","typeUrl":"RDS","writer":2}"#,
    )
}
