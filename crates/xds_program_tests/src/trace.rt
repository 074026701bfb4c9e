// Worked traces, checked by the program and made of scripts, over readers and writers in memory.
use crate::program::Run;
use std::test::Fail;
use xds_cases::cases::hold_stories;

#[test]
fn traces_that_keep_the_rules_are_ok(rt: HostRuntime) -> Result<(), Fail> {
    hold_stories::<Run, HostRuntime>(
        &rt,
        r#"check
 => 0 ok~

check
write {"body":{"@type":"CDS","name":"a","x":1},"counter":1,"name":"a","typeUrl":"CDS","writer":1}
write {"body":{"@type":"CDS","name":"a","x":2},"counter":1,"name":"a","typeUrl":"CDS","writer":2}
open 1
open 2
request 1 3 {"node":{"id":"1"},"resourceNamesSubscribe":["*"],"typeUrl":"CDS"}
response 1 4 {"nonce":"1",
    "resources":[{"name":"a","resource":{"@type":"CDS","name":"a","x":2},"version":"1-2"}],
    "systemVersionInfo":"1.2","typeUrl":"CDS"}
request 1 3 {"responseNonce":"1","typeUrl":"CDS"}
request 2 1 {"node":{"id":"2"},"resourceNames":["q"],"typeUrl":"RDS"}
write {"body":{"@type":"RDS","name":"q"},"counter":1,"name":"q","typeUrl":"RDS","writer":1}
response 2 2 {"nonce":"1","resources":[{"@type":"RDS","name":"q"}],"typeUrl":"RDS",
    "versionInfo":"1.1.named"}
request 2 1 {"resourceNames":["q"],"responseNonce":"1","typeUrl":"RDS","versionInfo":"1.1.named"}
write {"counter":2,"name":"a","typeUrl":"CDS","writer":1}
response 1 4 {"nonce":"2","removedResources":["a"],"systemVersionInfo":"1.3","typeUrl":"CDS"}
request 1 3 {"responseNonce":"2","typeUrl":"CDS"}
request 1 3 {"resourceNamesSubscribe":["b"],"resourceNamesUnsubscribe":["*"],"typeUrl":"CDS"}
response 1 4 {"nonce":"3","removedResources":["b"],"systemVersionInfo":"1.3","typeUrl":"CDS"}
request 1 3 {"responseNonce":"3","typeUrl":"CDS"}
close 1
close 2
 => 0 ok~

check
open 1
request 1 3 {"resourceNamesSubscribe":["m"],"typeUrl":"CDS"}
response 1 4 {"nonce":"1","removedResources":["m"],"systemVersionInfo":"1.0","typeUrl":"CDS"}
request 1 3 {"responseNonce":"1","typeUrl":"CDS"}
idle 1 cluster
 => 0 ok~

check
write {"body":{"@type":"CDS","name":"a"},"counter":1,"name":"a","typeUrl":"CDS","writer":1}
open 1
request 1 3 {"resourceNamesSubscribe":["*"],"typeUrl":"CDS"}
response 1 4 {"nonce":"1","removedResources":[],
    "resources":[{"name":"a","resource":{"@type":"CDS","name":"a"},"version":"1-1"}],
    "systemVersionInfo":"1.9","typeUrl":"CDS"}
request 1 3 {"errorDetail":{"code":3},"responseNonce":"1","typeUrl":"CDS"}
write {"body":{"@type":"CDS","name":"b"},"counter":2,"name":"b","typeUrl":"CDS","writer":1}
response 1 4 {"nonce":"2","removedResources":[],
    "resources":[{"name":"a","resource":{"@type":"CDS","name":"a"},"version":"1-1"},
    {"name":"b","resource":{"@type":"CDS","name":"b"},"version":"2-1"}],"systemVersionInfo":"1.9",
    "typeUrl":"CDS"}
 => 0 ok~

check
open 1
request 1 1 {"resourceNames":["q"],"typeUrl":"RDS"}
idle 1 route
 => 0 ok~

check
write {"body":{"@type":"CDS","name":"a","x":1},"counter":1,"name":"a","typeUrl":"CDS","writer":1}
write {"body":{"@type":"CDS","name":"a","x":2},"counter":1,"name":"a","typeUrl":"CDS","writer":2}
open 1
request 1 3 {"node":{"id":"1"},"resourceNamesSubscribe":["*"],"typeUrl":"CDS"}
response 1 4 {"nonce":"1",
    "resources":[{"name":"a","resource":{"@type":"CDS","name":"a","x":2},"version":"1-2"}],
    "systemVersionInfo":"1.2","typeUrl":"CDS"}
request 1 3 {"responseNonce":"1","typeUrl":"CDS"}
close 1
 => 0 ok~"#,
    )
}

// rule: awaited-names, rule: whole-response, rule: covered-only, rule: no-live-removal
// rule: best-writes, rule: one-unanswered, rule: refused-offer, rule: new-nonce
#[test]
fn the_first_broken_rule_is_told(rt: HostRuntime) -> Result<(), Fail> {
    hold_stories::<Run, HostRuntime>(
        &rt,
        r#"check
write {"body":{"@type":"CDS","name":"a","x":1},"counter":1,"name":"a","typeUrl":"CDS","writer":1}
write {"body":{"@type":"CDS","name":"a","x":2},"counter":1,"name":"a","typeUrl":"CDS","writer":2}
open 1
request 1 3 {"node":{"id":"1"},"resourceNamesSubscribe":["*"],"typeUrl":"CDS"}
response 1 4 {"nonce":"1",
    "resources":[{"name":"a","resource":{"@type":"CDS","name":"a","x":2},"version":"1-2"}],
    "systemVersionInfo":"1.2","typeUrl":"CDS"}
response 1 4 {"nonce":"1",
    "resources":[{"name":"a","resource":{"@type":"CDS","name":"a","x":2},"version":"1-2"}],
    "systemVersionInfo":"1.2","typeUrl":"CDS"}
request 1 3 {"responseNonce":"1","typeUrl":"CDS"}
close 1
 => 1 broken 6 P1~

check
write {"body":{"@type":"CDS","name":"a"},"counter":1,"name":"a","typeUrl":"CDS","writer":1}
open 1
request 1 3 {"resourceNamesSubscribe":["*"],"typeUrl":"CDS"}
response 1 4 {"nonce":"","removedResources":[],
    "resources":[{"name":"a","resource":{"@type":"CDS","name":"a"},"version":"1-1"}],
    "systemVersionInfo":"1.9","typeUrl":"CDS"}
 => 1 broken 4 P1~

check
open 1
request 1 3 {"resourceNamesSubscribe":["m"],"typeUrl":"CDS"}
idle 1 cluster
 => 1 broken 3 P8~

check
write {"body":{"@type":"CDS","name":"a"},"counter":1,"name":"a","typeUrl":"CDS","writer":1}
open 1
request 1 3 {"resourceNamesSubscribe":["b"],"typeUrl":"CDS"}
response 1 4 {"nonce":"1","removedResources":[],
    "resources":[{"name":"a","resource":{"@type":"CDS","name":"a"},"version":"1-1"}],
    "systemVersionInfo":"1.9","typeUrl":"CDS"}
 => 1 broken 4 P3~

check
write {"body":{"@type":"CDS","name":"a","x":1},"counter":1,"name":"a","typeUrl":"CDS","writer":1}
write {"body":{"@type":"CDS","name":"a","x":2},"counter":1,"name":"a","typeUrl":"CDS","writer":2}
open 1
request 1 3 {"node":{"id":"1"},"resourceNamesSubscribe":["*"],"typeUrl":"CDS"}
response 1 4 {"nonce":"1",
    "resources":[{"name":"a","resource":{"@type":"CDS","name":"a","x":2},"version":"1-1"}],
    "systemVersionInfo":"1.2","typeUrl":"CDS"}
request 1 3 {"responseNonce":"1","typeUrl":"CDS"}
close 1
 => 1 broken 5 P2~

check
write {"body":{"@type":"CDS","name":"a"},"counter":1,"name":"a","typeUrl":"CDS","writer":1}
open 1
request 1 3 {"resourceNamesSubscribe":["*"],"typeUrl":"CDS"}
response 1 4 {"nonce":"1","removedResources":[],
    "resources":[{"name":"a","resource":{"@type":"CDS","name":"a"},"version":"1-1"}],
    "systemVersionInfo":"1.9","typeUrl":"CDS"}
request 1 3 {"errorDetail":{"code":3},"responseNonce":"1","typeUrl":"CDS"}
response 1 4 {"nonce":"2","removedResources":[],
    "resources":[{"name":"a","resource":{"@type":"CDS","name":"a"},"version":"1-1"}],
    "systemVersionInfo":"1.9","typeUrl":"CDS"}
 => 1 broken 6 P7~

check
write {"body":{"@type":"CDS","name":"a"},"counter":1,"name":"a","typeUrl":"CDS","writer":1}
open 1
request 1 3 {"resourceNamesSubscribe":["*"],"typeUrl":"CDS"}
response 1 4 {"nonce":"1","removedResources":["a"],"resources":[],"systemVersionInfo":"1.9",
    "typeUrl":"CDS"}
 => 1 broken 4 P5~

check
open 1
request 1 1 {"resourceNames":["q"],"typeUrl":"RDS"}
write {"body":{"@type":"RDS","name":"q"},"counter":1,"name":"q","typeUrl":"RDS","writer":1}
idle 1 route
 => 1 broken 4 P8~

check
write {"body":{"@type":"CDS","name":"a"},"counter":1,"name":"a","typeUrl":"CDS","writer":1}
open 1
request 1 3 {"resourceNamesSubscribe":["*"],"typeUrl":"CDS"}
response 1 4 {"nonce":"1","removedResources":[],
    "resources":[{"name":"a","resource":{"@type":"CDS","name":"a"},"version":"1-1"}],
    "systemVersionInfo":"1.9","typeUrl":"CDS"}
write {"body":{"@type":"CDS","name":"b"},"counter":2,"name":"b","typeUrl":"CDS","writer":1}
response 1 4 {"nonce":"2","removedResources":[],
    "resources":[{"name":"b","resource":{"@type":"CDS","name":"b"},"version":"2-1"}],
    "systemVersionInfo":"1.9","typeUrl":"CDS"}
 => 1 broken 6 P6~

check
write {"body":{"@type":"CDS","name":"a"},"counter":1,"name":"a","typeUrl":"CDS","writer":1}
open 1
request 1 1 {"typeUrl":"LDS"}
response 1 2 {"nonce":"1","resources":[{"@type":"CDS","name":"a"}],"typeUrl":"CDS",
    "versionInfo":"1.9"}
 => 1 broken 4 P3~

check
write {"body":{"@type":"CDS","name":"a"},"counter":1,"name":"a","typeUrl":"CDS","writer":1}
write {"body":{"@type":"CDS","name":"b"},"counter":2,"name":"b","typeUrl":"CDS","writer":1}
open 1
request 1 1 {"typeUrl":"CDS"}
response 1 2 {"nonce":"1","resources":[{"@type":"CDS","name":"a"}],"typeUrl":"CDS",
    "versionInfo":"1.9"}
 => 1 broken 5 P4~"#,
    )
}

#[test]
fn the_first_bad_line_of_a_trace_is_told(rt: HostRuntime) -> Result<(), Fail> {
    hold_stories::<Run, HostRuntime>(
        &rt,
        r#"check
open 1
request 1 1 {"typeUrl":"CDS"}
request 1 3 {"typeUrl":"CDS"}
 => 1 line 3: 22 BadTrace~

check
write {"body":{"@type":"CDS","name":"a","x":1},"counter":1,"name":"a","typeUrl":"CDS","writer":1}
write {"body":{"@type":"CDS","name":"a","x":2},"counter":1,"name":"a","typeUrl":"CDS","writer":2}
open 1
request 1 3 {"node":{"id":"1"},"resourceNamesSubscribe":["*"],"typeUrl":"CDS"}
response 1 4 {"nonce":"1",
    "resources":[{"name":"a","resource":{"@type":"CDS","name":"a","x":2},"version":"1-2"}],
    "systemVersionInfo":"1.2","typeUrl":"CDS"}
request 1 3 {"responseNonce":"1","typeUrl":"CDS"}
close 1
opened 2
 => 1 line 8: 22 BadTrace~

check
open 1
request 1 1 {"typeUrl":"CDS"}
response 1 2 {"nonce":"1","resources":[{"@type":"CDS"}],"typeUrl":"CDS"}
 => 1 line 3: 22 BadTrace~

check
open 1
request 1 1 {"typeUrl":"x"}
response 1 2 {"nonce":"1","typeUrl":"x"}
 => 1 line 3: 22 BadTrace~

check
request 1 1 {"typeUrl":"CDS"}
 => 1 line 1: 22 BadTrace~

check
open 1
close 1
open 1
 => 1 line 3: 22 BadTrace~

check
open 1
close 1
idle 1 cluster
 => 1 line 3: 22 BadTrace~

check
write {"body":{"@type":"CDS","name":"a","x":1},"counter":1,"name":"a","typeUrl":"CDS","writer":1}
write {"body":{"@type":"CDS","name":"a","x":2},"counter":1,"name":"a","typeUrl":"CDS","writer":2}
open 1
request 1 3 {"node":{"id":"1"},"resourceNamesSubscribe":["*"],"typeUrl":"CDS"}
response 1 4 {"nonce":"1",
    "resources":[{"name":"a","resource":{"@type":"CDS","name":"a","x":2},"version":"1-2"}],
    "systemVersionInfo":"1.2","typeUrl":"CDS"}
request 1 3 {"responseNonce":"1","typeUrl":"CDS"}
close 1 => 1 line 7: 22 BadTrace~

check
write {}
 => 1 line 1: 22 BadTrace~"#,
    )
}

#[test]
fn traces_of_scripts_are_printed(rt: HostRuntime) -> Result<(), Fail> {
    hold_stories::<Run, HostRuntime>(
        &rt,
        r#"play --trace 1
replica 1
replica 2
client 1 delta
client 2 sotw
change 1 cluster +*
names 2 route q
put 1 {"@type":"CDS","name":"a","x":1}
put 2 {"@type":"CDS","name":"a","x":2}
snapshot 2
merge 1 1
connect 1 1
connect 2 1
settle 1 cluster
settle 2 route
put 1 {"@type":"RDS","name":"q"}
settle 2 route
delete 1 cluster a
settle 1 cluster
change 1 cluster -* +b
settle 1 cluster
lose 1
connect 1 2
settle 1 cluster
poll 2 cluster
lose 2
 => 0 write {"body":{"@type":"CDS","name":"a","x":1},"counter":1,"name":"a",
    "typeUrl":"CDS","writer":1}~
    write {"body":{"@type":"CDS","name":"a","x":2},"counter":1,"name":"a",
    "typeUrl":"CDS","writer":2}~
    open 1~
    open 2~
    request 1 3 {"node":{"id":"1"},"resourceNamesSubscribe":["*"],"typeUrl":"CDS"}~
    response 1 4 {"nonce":"1",
    "resources":[{"name":"a","resource":{"@type":"CDS","name":"a","x":2},"version":"1-2"}],
    "systemVersionInfo":"1.2","typeUrl":"CDS"}~
    request 1 3 {"responseNonce":"1","typeUrl":"CDS"}~
    request 2 1 {"node":{"id":"2"},"resourceNames":["q"],"typeUrl":"RDS"}~
    write {"body":{"@type":"RDS","name":"q"},"counter":1,"name":"q","typeUrl":"RDS","writer":1}~
    response 2 2 {"nonce":"1","resources":[{"@type":"RDS","name":"q"}],"typeUrl":"RDS",
    "versionInfo":"1.1.named"}~
    request 2 1 {"resourceNames":["q"],"responseNonce":"1","typeUrl":"RDS",
    "versionInfo":"1.1.named"}~
    write {"counter":2,"name":"a","typeUrl":"CDS","writer":1}~
    response 1 4 {"nonce":"2","removedResources":["a"],"systemVersionInfo":"1.3","typeUrl":"CDS"}~
    request 1 3 {"responseNonce":"2","typeUrl":"CDS"}~
    request 1 3 {"resourceNamesSubscribe":["b"],"resourceNamesUnsubscribe":["*"],"typeUrl":"CDS"}~
    response 1 4 {"nonce":"3","removedResources":["b"],"systemVersionInfo":"1.3","typeUrl":"CDS"}~
    request 1 3 {"responseNonce":"3","typeUrl":"CDS"}~
    close 1~
    close 2~

play --trace 2
replica 1
replica 2
client 1 delta
client 2 sotw
change 1 cluster +*
names 2 route q
put 1 {"@type":"CDS","name":"a","x":1}
put 2 {"@type":"CDS","name":"a","x":2}
snapshot 2
merge 1 1
connect 1 1
connect 2 1
settle 1 cluster
settle 2 route
put 1 {"@type":"RDS","name":"q"}
settle 2 route
delete 1 cluster a
settle 1 cluster
change 1 cluster -* +b
settle 1 cluster
lose 1
connect 1 2
settle 1 cluster
poll 2 cluster
lose 2
 => 0 write {"body":{"@type":"CDS","name":"a","x":2},"counter":1,"name":"a",
    "typeUrl":"CDS","writer":2}~
    open 1~
    request 1 3 {"node":{"id":"1"},"resourceNamesSubscribe":["b"],"typeUrl":"CDS"}~
    response 1 4 {"nonce":"1","removedResources":["b"],"systemVersionInfo":"2.1","typeUrl":"CDS"}~
    request 1 3 {"responseNonce":"1","typeUrl":"CDS"}~

play --trace 3
replica 1
replica 2
client 1 delta
change 1 cluster +*
put 1 {"@type":"CDS","name":"a","x":1}
put 2 {"@type":"CDS","name":"a","x":2}
snapshot 1
snapshot 2
merge 1 2
merge 2 1
connect 1 1
settle 1 cluster
view 1 cluster
lose 1
put 2 {"@type":"CDS","name":"b"}
connect 1 2
view 1 cluster
settle 1 cluster
view 1 cluster
content 1 cluster
 => 0 

play --trace 2
replica 1
replica 2
client 1 delta
change 1 cluster +*
put 1 {"@type":"CDS","name":"a","x":1}
put 2 {"@type":"CDS","name":"a","x":2}
snapshot 1
snapshot 2
merge 1 2
merge 2 1
connect 1 1
settle 1 cluster
view 1 cluster
lose 1
put 2 {"@type":"CDS","name":"b"}
connect 1 2
view 1 cluster
settle 1 cluster
view 1 cluster
content 1 cluster
 => 0 write {"body":{"@type":"CDS","name":"a","x":2},"counter":1,"name":"a",
    "typeUrl":"CDS","writer":2}~
    write {"body":{"@type":"CDS","name":"a","x":1},"counter":1,"name":"a",
    "typeUrl":"CDS","writer":1}~
    write {"body":{"@type":"CDS","name":"b"},"counter":2,"name":"b","typeUrl":"CDS","writer":2}~
    open 1~
    request 1 3 {"initialResourceVersions":{"a":"1-2"},"node":{"id":"1"},
    "resourceNamesSubscribe":["*"],"typeUrl":"CDS"}~
    response 1 4 {"nonce":"1",
    "resources":[{"name":"b","resource":{"@type":"CDS","name":"b"},"version":"2-2"}],
    "systemVersionInfo":"2.2","typeUrl":"CDS"}~
    request 1 3 {"responseNonce":"1","typeUrl":"CDS"}~

play --trace 1
replica 1
replica 2
client 1 delta
change 1 cluster +*
put 1 {"@type":"CDS","name":"a","x":1}
put 2 {"@type":"CDS","name":"a","x":2}
snapshot 1
snapshot 2
merge 1 2
merge 2 1
connect 1 1
settle 1 cluster
view 1 cluster
lose 1
put 2 {"@type":"CDS","name":"b"}
connect 1 2
view 1 cluster
settle 1 cluster
view 1 cluster
content 1 cluster
 => 0 write {"body":{"@type":"CDS","name":"a","x":1},"counter":1,"name":"a",
    "typeUrl":"CDS","writer":1}~
    write {"body":{"@type":"CDS","name":"a","x":2},"counter":1,"name":"a",
    "typeUrl":"CDS","writer":2}~
    open 1~
    request 1 3 {"node":{"id":"1"},"resourceNamesSubscribe":["*"],"typeUrl":"CDS"}~
    response 1 4 {"nonce":"1",
    "resources":[{"name":"a","resource":{"@type":"CDS","name":"a","x":2},"version":"1-2"}],
    "systemVersionInfo":"1.2","typeUrl":"CDS"}~
    request 1 3 {"responseNonce":"1","typeUrl":"CDS"}~
    close 1~

play --trace 1
replica 01
 => 1 line 1: 21 BadScript~

play --trace=1
content 1 route
 => 0 "#,
    )
}
