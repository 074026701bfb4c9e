// What clients make of changes, responses and lost streams, as the texts that they send and hold.
use crate::caches::delta::Delta;
use crate::caches::script::{play, play_in};
use crate::caches::sotw::Sotw;
use std::test::Fail;

// rule: accept-reject, rule: whole-or-nothing
#[test]
fn state_of_the_world_is_taken_whole(rt: HostRuntime) -> Result<(), Fail> {
    play::<Sotw, HostRuntime>(
        &rt,
        r#"change cluster * => none
connect => {"node":{"id":"7"},"resourceNames":["*"],"typeUrl":"CDS"}
receive {"nonce":"1","resources":[{"@type":"CDS","name":"a","reject":true}],"typeUrl":"CDS",
    "versionInfo":"v1"}
     => {"errorDetail":{"code":3,"message":"test: a"},"resourceNames":["*"],"responseNonce":"1",
    "typeUrl":"CDS"}
view cluster => none
receive {"nonce":"2","resources":[{"name":"b"},{"@type":"CDS","name":"a","reject":true}],
    "typeUrl":"CDS","versionInfo":"v2"}
     => {"errorDetail":{"code":3,"message":"4 BadResource"},"resourceNames":["*"],
    "responseNonce":"2","typeUrl":"CDS"}
receive {"nonce":"3","resources":[{"@type":"CDS","name":"b"},{"x":1,"@type":"CDS","name":"a"}],
    "typeUrl":"CDS","versionInfo":"v3"}
     => {"resourceNames":["*"],"responseNonce":"3","typeUrl":"CDS","versionInfo":"v3"}
view cluster => {"@type":"CDS","name":"a","x":1} {"@type":"CDS","name":"b"}
receive {"nonce":"4","resources":[{"@type":"CDS","name":"c"},{"@type":"CDS","name":"d"},
    {"@type":"CDS","name":"c","reject":true}],"typeUrl":"CDS","versionInfo":"v4"}
     => {"errorDetail":{"code":3,"message":"doubled: c"},"resourceNames":["*"],"responseNonce":"4",
    "typeUrl":"CDS","versionInfo":"v3"}
receive {"nonce":"5","resources":[{"@type":"CDS","name":"c"},{"@type":"CDS","name":"*"},
    {"@type":"CDS","name":"d","x":1.5}],"typeUrl":"CDS","versionInfo":"v5"}
     => {"errorDetail":{"code":3,"message":"5 BadName"},"resourceNames":["*"],"responseNonce":"5",
    "typeUrl":"CDS","versionInfo":"v3"}
view cluster => {"@type":"CDS","name":"a","x":1} {"@type":"CDS","name":"b"}
receive {"nonce":"6","resources":[{"@type":"CDS","name":"b","x":2}],"typeUrl":"CDS",
    "versionInfo":"v6"}
     => {"resourceNames":["*"],"responseNonce":"6","typeUrl":"CDS","versionInfo":"v6"}
view cluster => {"@type":"CDS","name":"b","x":2}
receive {"nonce":"7","typeUrl":"CDS","versionInfo":"v7"}
     => {"resourceNames":["*"],"responseNonce":"7","typeUrl":"CDS","versionInfo":"v7"}
view cluster => none
lose => none
connect => {"node":{"id":"7"},"resourceNames":["*"],"typeUrl":"CDS","versionInfo":"v7"}"#,
    )
}

#[test]
fn state_of_the_world_changes(rt: HostRuntime) -> Result<(), Fail> {
    play::<Sotw, HostRuntime>(
        &rt,
        r#"change route q p q => none
change endpoint e => none
change listener l => none
change listener => none
connect => {"node":{"id":"7"},"resourceNames":["e"],"typeUrl":"EDS"}
     {"resourceNames":["p","q"],"typeUrl":"RDS"}
receive {"nonce":"1","resources":[{"@type":"RDS","name":"r"},{"@type":"RDS","name":"p"}],
    "typeUrl":"RDS","versionInfo":"v1"}
     => {"resourceNames":["p","q"],"responseNonce":"1","typeUrl":"RDS","versionInfo":"v1"}
view route => {"@type":"RDS","name":"p"}
receive {"nonce":"2","resources":[{"@type":"RDS","name":"q"}],"typeUrl":"RDS","versionInfo":"v2"}
     => {"resourceNames":["p","q"],"responseNonce":"2","typeUrl":"RDS","versionInfo":"v2"}
view route => {"@type":"RDS","name":"p"} {"@type":"RDS","name":"q"}
receive {"nonce":"3","resources":[{"@type":"EDS","clusterName":"e"}],"typeUrl":"EDS",
    "versionInfo":"v3"}
     => {"resourceNames":["e"],"responseNonce":"3","typeUrl":"EDS","versionInfo":"v3"}
receive {"nonce":"4","resources":[{"@type":"LDS","name":"l"}],"typeUrl":"LDS","versionInfo":"v4"}
     => 7 BadMessage
receive {"nonce":"4","typeUrl":"no.type","versionInfo":"v4"} => 7 BadMessage
change listener => none
change listener m * l => {"resourceNames":["*","l","m"],"typeUrl":"LDS"}
receive {"nonce":"4","resources":[{"@type":"LDS","name":"l"},{"@type":"LDS","name":"k"}],
    "typeUrl":"LDS","versionInfo":"v4"}
     => {"resourceNames":["*","l","m"],"responseNonce":"4","typeUrl":"LDS","versionInfo":"v4"}
change listener m l => {"resourceNames":["l","m"],"responseNonce":"4","typeUrl":"LDS",
    "versionInfo":"v4"}
view listener => {"@type":"LDS","name":"l"}
change route * q => {"resourceNames":["*","q"],"responseNonce":"2","typeUrl":"RDS",
    "versionInfo":"v2"}
view route => {"@type":"RDS","name":"q"}
receive {"nonce":"5","resources":[{"@type":"RDS","name":"s"}],"typeUrl":"RDS","versionInfo":"v5"}
     => {"resourceNames":["*","q"],"responseNonce":"5","typeUrl":"RDS","versionInfo":"v5"}
view route => {"@type":"RDS","name":"q"}
change route => {"responseNonce":"5","typeUrl":"RDS","versionInfo":"v5"}
view route => none
view endpoint => {"@type":"EDS","clusterName":"e"}
lose => none
change listener l => none
connect => {"node":{"id":"7"},"resourceNames":["e"],"typeUrl":"EDS","versionInfo":"v3"}
     {"resourceNames":["l"],"typeUrl":"LDS","versionInfo":"v4"}
receive {"nonce":"1","typeUrl":"RDS"} => 7 BadMessage
view listener => {"@type":"LDS","name":"l"}"#,
    )
}

// rule: accept-reject, rule: whole-or-nothing
#[test]
fn delta_responses_are_taken_whole(rt: HostRuntime) -> Result<(), Fail> {
    play::<Delta, HostRuntime>(
        &rt,
        r#"change cluster a * => none
connect => {"node":{"id":"7"},"resourceNamesSubscribe":["*","a"],"typeUrl":"CDS"}
receive {"nonce":"1",
    "resources":[{"name":"a","resource":{"@type":"CDS","name":"a"},"version":"1-1"},
    {"name":"a","resource":{"@type":"CDS","name":"a"},"version":"2-1"}],"typeUrl":"CDS"}
     => {"errorDetail":{"code":3,"message":"doubled: a"},"responseNonce":"1","typeUrl":"CDS"}
receive {"nonce":"2","removedResources":["a"],
    "resources":[{"name":"a","resource":{"@type":"CDS","name":"a","reject":true},"version":"1-1"}],
    "typeUrl":"CDS"}
     => {"errorDetail":{"code":3,"message":"doubled: a"},"responseNonce":"2","typeUrl":"CDS"}
receive {"nonce":"3","removedResources":["a"],
    "resources":[{"name":"b","resource":{"@type":"CDS","name":"a"},"version":"1-1"}],
    "typeUrl":"CDS"}
     => {"errorDetail":{"code":3,"message":"name: a"},"responseNonce":"3","typeUrl":"CDS"}
receive {"nonce":"4","resources":[{"name":"b","resource":{"name":"b"},"version":"1-1"},
    {"name":"a","resource":{"@type":"CDS","name":"a","reject":true},"version":"1-1"}],
    "typeUrl":"CDS"}
     => {"errorDetail":{"code":3,"message":"4 BadResource"},"responseNonce":"4","typeUrl":"CDS"}
view cluster => none
receive {"nonce":"5",
    "resources":[{"name":"b","resource":{"@type":"CDS","name":"b"},"version":"2-1"},
    {"name":"a","resource":{"@type":"CDS","name":"a","reject":false},"version":"1-1"}],
    "typeUrl":"CDS"}
     => {"responseNonce":"5","typeUrl":"CDS"}
view cluster => 1-1 {"@type":"CDS","name":"a","reject":false} 2-1 {"@type":"CDS","name":"b"}
receive {"nonce":"6","removedResources":["a"],
    "resources":[{"name":"c","resource":{"@type":"CDS","name":"c","reject":true},"version":"3-1"}],
    "typeUrl":"CDS"}
     => {"errorDetail":{"code":3,"message":"test: c"},"responseNonce":"6","typeUrl":"CDS"}
view cluster => 1-1 {"@type":"CDS","name":"a","reject":false} 2-1 {"@type":"CDS","name":"b"}
receive {"nonce":"7","removedResources":["b","c","b"],
    "resources":[{"name":"a","resource":{"@type":"CDS","name":"a"},"version":"3-1"}],
    "typeUrl":"CDS"}
     => {"responseNonce":"7","typeUrl":"CDS"}
view cluster => 3-1 {"@type":"CDS","name":"a"}"#,
    )
}

// rule: delta-names
#[test]
fn delta_changes(rt: HostRuntime) -> Result<(), Fail> {
    play::<Delta, HostRuntime>(
        &rt,
        r#"connect => none
view route => none
change route - a => none
receive {"nonce":"1","typeUrl":"RDS"} => 7 BadMessage
change route b a b - c => {"node":{"id":"7"},"resourceNamesSubscribe":["a","b"],
    "resourceNamesUnsubscribe":["c"],"typeUrl":"RDS"}
change cluster * => {"resourceNamesSubscribe":["*"],"typeUrl":"CDS"}
receive {"nonce":"1",
    "resources":[{"name":"b","resource":{"@type":"RDS","name":"b"},"version":"1-1"},
    {"name":"c","resource":{"@type":"RDS","name":"c"},"version":"2-1"},
    {"name":"a","resource":{"@type":"RDS","name":"a"},"version":"3-1"}],"typeUrl":"RDS"}
     => {"responseNonce":"1","typeUrl":"RDS"}
receive {"nonce":"2",
    "resources":[{"name":"x","resource":{"@type":"CDS","name":"x"},"version":"4-2"},
    {"name":"v","resource":{"@type":"CDS","name":"v"},"version":"6-2"},
    {"name":"w","resource":{"@type":"CDS","name":"w"},"version":"5-2"}],"typeUrl":"CDS"}
     => {"responseNonce":"2","typeUrl":"CDS"}
view route => 3-1 {"@type":"RDS","name":"a"} 1-1 {"@type":"RDS","name":"b"}
change route a - b a => {"resourceNamesSubscribe":["a"],"resourceNamesUnsubscribe":["a","b"],
    "typeUrl":"RDS"}
view route => 3-1 {"@type":"RDS","name":"a"}
change cluster y x w - u * => {"resourceNamesSubscribe":["w","x","y"],
    "resourceNamesUnsubscribe":["*","u"],"typeUrl":"CDS"}
lose => none
change cluster z => none
view cluster => 5-2 {"@type":"CDS","name":"w"} 4-2 {"@type":"CDS","name":"x"}
connect => {"initialResourceVersions":{"w":"5-2","x":"4-2"},"node":{"id":"7"},
    "resourceNamesSubscribe":["w","x","y","z"],"typeUrl":"CDS"}
     {"initialResourceVersions":{"a":"3-1"},"resourceNamesSubscribe":["a"],"typeUrl":"RDS"}
change route - a => {"resourceNamesUnsubscribe":["a"],"typeUrl":"RDS"}
view route => none
change route => {"typeUrl":"RDS"}
receive {"nonce":"1","removedResources":["a"],"typeUrl":"RDS"}
     => {"responseNonce":"1","typeUrl":"RDS"}
lose => none
connect => {"initialResourceVersions":{"w":"5-2","x":"4-2"},"node":{"id":"7"},
    "resourceNamesSubscribe":["w","x","y","z"],"typeUrl":"CDS"}"#,
    )
}

// rule: groups
#[test]
fn the_first_request_says_the_cluster(rt: HostRuntime) -> Result<(), Fail> {
    play_in::<Sotw, HostRuntime>(
        &rt,
        "edge",
        r#"change cluster * => none
change secret s => none
connect => {"node":{"cluster":"edge","id":"7"},"resourceNames":["*"],"typeUrl":"CDS"}
     {"resourceNames":["s"],"typeUrl":"SDS"}
receive {"nonce":"1","resources":[{"@type":"CDS","name":"a"},{"@type":"CDS","name":"b"}],
    "typeUrl":"CDS","versionInfo":"1.2@other"}
     => {"resourceNames":["*"],"responseNonce":"1","typeUrl":"CDS","versionInfo":"1.2@other"}
receive {"nonce":"2","resources":[{"@type":"SDS","name":"s"},{"@type":"SDS","name":"t"}],
    "typeUrl":"SDS","versionInfo":"1.1.named"}
     => {"resourceNames":["s"],"responseNonce":"2","typeUrl":"SDS","versionInfo":"1.1.named"}
view secret => {"@type":"SDS","name":"s"}
change cluster * b => {"resourceNames":["*","b"],"responseNonce":"1","typeUrl":"CDS",
    "versionInfo":"1.2@other"}
view cluster => {"@type":"CDS","name":"a"} {"@type":"CDS","name":"b"}
lose => none
view cluster => {"@type":"CDS","name":"a"} {"@type":"CDS","name":"b"}
connect => {"node":{"cluster":"edge","id":"7"},"resourceNames":["*","b"],"typeUrl":"CDS",
    "versionInfo":"1.2@other"}
     {"resourceNames":["s"],"typeUrl":"SDS","versionInfo":"1.1.named"}"#,
    )?;
    play_in::<Delta, HostRuntime>(
        &rt,
        "edge",
        r#"connect => none
change secret s => {"node":{"cluster":"edge","id":"7"},"resourceNamesSubscribe":["s"],
    "typeUrl":"SDS"}
change cluster * => {"resourceNamesSubscribe":["*"],"typeUrl":"CDS"}
receive {"nonce":"1",
    "resources":[{"name":"a","resource":{"@type":"CDS","name":"a"},"version":"1-1"}],
    "typeUrl":"CDS"}
     => {"responseNonce":"1","typeUrl":"CDS"}
receive {"nonce":"2",
    "resources":[{"name":"s","resource":{"@type":"SDS","name":"s"},"version":"2-1"}],
    "typeUrl":"SDS"}
     => {"responseNonce":"2","typeUrl":"SDS"}
lose => none
connect => {"initialResourceVersions":{"a":"1-1"},"node":{"cluster":"edge","id":"7"},
    "resourceNamesSubscribe":["*"],"typeUrl":"CDS"}
     {"initialResourceVersions":{"s":"2-1"},"resourceNamesSubscribe":["s"],"typeUrl":"SDS"}"#,
    )
}
