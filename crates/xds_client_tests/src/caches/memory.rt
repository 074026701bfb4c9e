// Clients that find no memory. `bench/hand/fail_each.py` runs these tests with each allocation failing
// in turn: where one fails in `receive`, what is held stays, the client is of no use until its
// stream is lost, and then it goes on. One that polls goes on at once, and so does each where an
// allocation fails in `connect`, from which the client that is down comes back, or in `change`.
use crate::caches::delta::Delta;
use crate::caches::rest::Rest;
use crate::caches::script::{NO_MEMORY, Player, ask, play_on};
use crate::caches::sotw::Sotw;
use std::alloc::Global;
use std::test::Fail;

// Plays a script, then asks for a response to be received. Where that is refused for memory,
// another script is played. Answers whether it was. The last script holds either way.
fn is_refused<P: Player>(
    alloc: Global,
    before: &str,
    response: &str,
    refused: &str,
    at_last: &str,
) -> Result<bool, Fail> {
    let mut player = P::new(alloc, "")?;
    play_on(alloc, &mut player, before)?;
    let answer = ask(alloc, &mut player, response)?;
    let is_refused = answer.as_str() == NO_MEMORY;
    if is_refused {
        play_on(alloc, &mut player, refused)?;
    }
    play_on(alloc, &mut player, at_last)?;
    Ok(is_refused)
}

// The same, and says where it was refused.
fn goes_on<P: Player>(
    rt: &HostRuntime,
    before: &str,
    response: &str,
    refused: &str,
    at_last: &str,
) -> Result<(), Fail> {
    if is_refused::<P>(rt.alloc(), before, response, refused, at_last)? {
        println!(rt; "refused, and went on")?;
    }
    Ok(())
}

#[test]
fn state_of_the_world_without_memory(rt: HostRuntime) -> Result<(), Fail> {
    goes_on::<Sotw>(
        &rt,
        r#"change cluster * => none
connect => {"node":{"id":"7"},"resourceNames":["*"],"typeUrl":"CDS"}
receive {"nonce":"1","resources":[{"@type":"CDS","name":"a"}],"typeUrl":"CDS","versionInfo":"v1"}
     => {"resourceNames":["*"],"responseNonce":"1","typeUrl":"CDS","versionInfo":"v1"}"#,
        r#"receive {"nonce":"2","resources":[{"@type":"CDS","name":"b"}],"typeUrl":"CDS",
    "versionInfo":"v2"}"#,
        r#"view cluster => {"@type":"CDS","name":"a"}
receive {"nonce":"2","typeUrl":"CDS","versionInfo":"v2"} => 12 NoStream
receive {"nonce":"2","typeUrl":"RDS","versionInfo":"v2"} => 12 NoStream
change cluster b => 12 NoStream
view cluster => {"@type":"CDS","name":"a"}
lose => none
connect => {"node":{"id":"7"},"resourceNames":["*"],"typeUrl":"CDS","versionInfo":"v1"}
view cluster => {"@type":"CDS","name":"a"}
receive {"nonce":"1","resources":[{"@type":"CDS","name":"b"}],"typeUrl":"CDS","versionInfo":"v2"}
     => {"resourceNames":["*"],"responseNonce":"1","typeUrl":"CDS","versionInfo":"v2"}"#,
        r#"view cluster => {"@type":"CDS","name":"b"}"#,
    )
}

#[test]
fn delta_without_memory(rt: HostRuntime) -> Result<(), Fail> {
    goes_on::<Delta>(
        &rt,
        r#"change cluster * => none
connect => {"node":{"id":"7"},"resourceNamesSubscribe":["*"],"typeUrl":"CDS"}
receive {"nonce":"1",
    "resources":[{"name":"a","resource":{"@type":"CDS","name":"a"},"version":"1-1"}],
    "typeUrl":"CDS"}
     => {"responseNonce":"1","typeUrl":"CDS"}"#,
        r#"receive {"nonce":"2","removedResources":["a"],
    "resources":[{"name":"b","resource":{"@type":"CDS","name":"b"},"version":"2-1"}],
    "typeUrl":"CDS"}"#,
        r#"view cluster => 1-1 {"@type":"CDS","name":"a"}
receive {"nonce":"2","removedResources":["a"],"typeUrl":"CDS"} => 12 NoStream
receive {"nonce":"2","typeUrl":"RDS"} => 12 NoStream
change cluster b => 12 NoStream
view cluster => 1-1 {"@type":"CDS","name":"a"}
lose => none
connect => {"initialResourceVersions":{"a":"1-1"},"node":{"id":"7"},"resourceNamesSubscribe":["*"],
    "typeUrl":"CDS"}
view cluster => 1-1 {"@type":"CDS","name":"a"}
receive {"nonce":"1","removedResources":["a"],
    "resources":[{"name":"b","resource":{"@type":"CDS","name":"b"},"version":"2-1"}],
    "typeUrl":"CDS"}
     => {"responseNonce":"1","typeUrl":"CDS"}"#,
        r#"view cluster => 2-1 {"@type":"CDS","name":"b"}"#,
    )
}

// What a client holds that polled once, and the steps that may find no memory.
const POLLED: &str = r#"change cluster * => none
receive cluster {"resources":[{"@type":"CDS","name":"a"},{"@type":"CDS","name":"b"}],
    "typeUrl":"CDS","versionInfo":"v1"} => taken"#;

#[test]
fn polling_without_memory(rt: HostRuntime) -> Result<(), Fail> {
    goes_on::<Rest>(
        &rt,
        POLLED,
        r#"receive cluster {"resources":[{"@type":"CDS","name":"b","x":1}],"typeUrl":"CDS",
    "versionInfo":"v2"}"#,
        r#"view cluster => {"@type":"CDS","name":"a"} {"@type":"CDS","name":"b"}
poll cluster => {"node":{"id":"7"},"resourceNames":["*"],"typeUrl":"CDS","versionInfo":"v1"}
receive cluster => taken
receive cluster {"typeUrl":"RDS","versionInfo":"v2"} => 7 BadMessage
receive cluster {"resources":[{"@type":"CDS","name":"b","x":1}],"typeUrl":"CDS",
    "versionInfo":"v2"} => taken"#,
        r#"view cluster => {"@type":"CDS","name":"b","x":1}
poll cluster => {"node":{"id":"7"},"resourceNames":["*"],"typeUrl":"CDS","versionInfo":"v2"}"#,
    )
}

#[test]
fn changing_what_is_polled_without_memory(rt: HostRuntime) -> Result<(), Fail> {
    goes_on::<Rest>(
        &rt,
        POLLED,
        "change cluster b",
        r#"view cluster => {"@type":"CDS","name":"a"} {"@type":"CDS","name":"b"}
poll cluster => {"node":{"id":"7"},"resourceNames":["*"],"typeUrl":"CDS","versionInfo":"v1"}
change cluster b => none"#,
        r#"view cluster => {"@type":"CDS","name":"b"}
poll cluster => {"node":{"id":"7"},"resourceNames":["b"],"typeUrl":"CDS"}"#,
    )
}

#[test]
fn connecting_in_state_of_the_world_without_memory(rt: HostRuntime) -> Result<(), Fail> {
    goes_on::<Sotw>(
        &rt,
        r#"change cluster * => none
change route q => none
connect => {"node":{"id":"7"},"resourceNames":["*"],"typeUrl":"CDS"}
     {"resourceNames":["q"],"typeUrl":"RDS"}
receive {"nonce":"1","resources":[{"@type":"CDS","name":"a"}],"typeUrl":"CDS","versionInfo":"v1"}
     => {"resourceNames":["*"],"responseNonce":"1","typeUrl":"CDS","versionInfo":"v1"}
lose => none"#,
        "connect",
        r#"view cluster => {"@type":"CDS","name":"a"}
connect => {"node":{"id":"7"},"resourceNames":["*"],"typeUrl":"CDS","versionInfo":"v1"}
     {"resourceNames":["q"],"typeUrl":"RDS"}"#,
        r#"view cluster => {"@type":"CDS","name":"a"}
receive {"nonce":"1","typeUrl":"CDS","versionInfo":"v2"}
     => {"resourceNames":["*"],"responseNonce":"1","typeUrl":"CDS","versionInfo":"v2"}
view cluster => none"#,
    )
}

#[test]
fn connecting_in_delta_without_memory(rt: HostRuntime) -> Result<(), Fail> {
    goes_on::<Delta>(
        &rt,
        r#"change cluster * => none
connect => {"node":{"id":"7"},"resourceNamesSubscribe":["*"],"typeUrl":"CDS"}
receive {"nonce":"1",
    "resources":[{"name":"a","resource":{"@type":"CDS","name":"a"},"version":"1-1"}],
    "typeUrl":"CDS"}
     => {"responseNonce":"1","typeUrl":"CDS"}
lose => none"#,
        "connect",
        r#"view cluster => 1-1 {"@type":"CDS","name":"a"}
connect => {"initialResourceVersions":{"a":"1-1"},"node":{"id":"7"},"resourceNamesSubscribe":["*"],
    "typeUrl":"CDS"}"#,
        r#"view cluster => 1-1 {"@type":"CDS","name":"a"}
receive {"nonce":"1","removedResources":["a"],"typeUrl":"CDS"}
     => {"responseNonce":"1","typeUrl":"CDS"}
view cluster => none"#,
    )
}

#[test]
fn changing_in_state_of_the_world_without_memory(rt: HostRuntime) -> Result<(), Fail> {
    goes_on::<Sotw>(
        &rt,
        r#"change cluster * => none
connect => {"node":{"id":"7"},"resourceNames":["*"],"typeUrl":"CDS"}
receive {"nonce":"1","resources":[{"@type":"CDS","name":"a"},{"@type":"CDS","name":"b"}],
    "typeUrl":"CDS","versionInfo":"v1"}
     => {"resourceNames":["*"],"responseNonce":"1","typeUrl":"CDS","versionInfo":"v1"}"#,
        "change cluster b",
        r#"view cluster => {"@type":"CDS","name":"a"} {"@type":"CDS","name":"b"}
receive {"nonce":"2","resources":[{"@type":"CDS","name":"a"},{"@type":"CDS","name":"b"}],
    "typeUrl":"CDS","versionInfo":"v1"}
     => {"resourceNames":["*"],"responseNonce":"2","typeUrl":"CDS","versionInfo":"v1"}
change cluster b => {"resourceNames":["b"],"responseNonce":"2","typeUrl":"CDS",
    "versionInfo":"v1"}"#,
        r#"view cluster => {"@type":"CDS","name":"b"}
receive {"nonce":"3","resources":[{"@type":"CDS","name":"a"}],"typeUrl":"CDS","versionInfo":"v3"}
     => {"resourceNames":["b"],"responseNonce":"3","typeUrl":"CDS","versionInfo":"v3"}
view cluster => none"#,
    )
}

#[test]
fn changing_in_delta_without_memory(rt: HostRuntime) -> Result<(), Fail> {
    goes_on::<Delta>(
        &rt,
        r#"change cluster a b => none
connect => {"node":{"id":"7"},"resourceNamesSubscribe":["a","b"],"typeUrl":"CDS"}
receive {"nonce":"1",
    "resources":[{"name":"a","resource":{"@type":"CDS","name":"a"},"version":"1-1"}],
    "typeUrl":"CDS"}
     => {"responseNonce":"1","typeUrl":"CDS"}"#,
        "change cluster c - a",
        r#"view cluster => 1-1 {"@type":"CDS","name":"a"}
change cluster c - a => {"resourceNamesSubscribe":["c"],"resourceNamesUnsubscribe":["a"],
    "typeUrl":"CDS"}"#,
        r#"view cluster => none
receive {"nonce":"2",
    "resources":[{"name":"c","resource":{"@type":"CDS","name":"c"},"version":"2-1"}],
    "typeUrl":"CDS"}
     => {"responseNonce":"2","typeUrl":"CDS"}
view cluster => 2-1 {"@type":"CDS","name":"c"}"#,
    )
}
