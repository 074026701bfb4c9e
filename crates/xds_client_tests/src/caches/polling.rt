// What a client that polls makes of changes and answers, as the texts that it sends and holds.
// `receive TYPE` alone is 304.
use crate::caches::rest::Rest;
use crate::caches::script::{play, play_in};
use std::test::Fail;

// rule: whole-response
#[test]
fn answers_of_complete_types_are_the_whole(rt: HostRuntime) -> Result<(), Fail> {
    play::<Rest, HostRuntime>(
        &rt,
        r#"poll cluster => none
receive cluster => 7 BadMessage
receive cluster {"typeUrl":"CDS","versionInfo":"1.0"} => 7 BadMessage
change cluster * => none
poll cluster => {"node":{"id":"7"},"resourceNames":["*"],"typeUrl":"CDS"}
receive cluster {"nonce":"9","resources":[{"@type":"CDS","name":"b"},
    {"x":1,"@type":"CDS","name":"a"}],"typeUrl":"CDS","versionInfo":"1.2"} => taken
view cluster => {"@type":"CDS","name":"a","x":1} {"@type":"CDS","name":"b"}
poll cluster => {"node":{"id":"7"},"resourceNames":["*"],"typeUrl":"CDS","versionInfo":"1.2"}
receive cluster => taken
view cluster => {"@type":"CDS","name":"a","x":1} {"@type":"CDS","name":"b"}
poll cluster => {"node":{"id":"7"},"resourceNames":["*"],"typeUrl":"CDS","versionInfo":"1.2"}
receive cluster {"resources":[{"@type":"CDS","name":"b","x":2}],"typeUrl":"CDS",
    "versionInfo":"1.3"} => taken
view cluster => {"@type":"CDS","name":"b","x":2}
poll cluster => {"node":{"id":"7"},"resourceNames":["*"],"typeUrl":"CDS","versionInfo":"1.3"}
receive cluster {"typeUrl":"CDS","versionInfo":"1.4"} => taken
view cluster => none
poll listener => none"#,
    )
}

// rule: not-modified
#[test]
fn a_change_forgets_the_version(rt: HostRuntime) -> Result<(), Fail> {
    play::<Rest, HostRuntime>(
        &rt,
        r#"change cluster * => none
receive cluster {"resources":[{"@type":"CDS","name":"a"},{"@type":"CDS","name":"b"}],
    "typeUrl":"CDS","versionInfo":"1.2"} => taken
change cluster * => none
poll cluster => {"node":{"id":"7"},"resourceNames":["*"],"typeUrl":"CDS"}
view cluster => {"@type":"CDS","name":"a"} {"@type":"CDS","name":"b"}
change cluster c * b => none
poll cluster => {"node":{"id":"7"},"resourceNames":["*","b","c"],"typeUrl":"CDS"}
receive cluster => taken
poll cluster => {"node":{"id":"7"},"resourceNames":["*","b","c"],"typeUrl":"CDS"}
change cluster c b => none
view cluster => {"@type":"CDS","name":"b"}
receive cluster {"resources":[{"@type":"CDS","name":"a"},{"@type":"CDS","name":"c"}],
    "typeUrl":"CDS","versionInfo":"1.3.named"} => taken
view cluster => {"@type":"CDS","name":"c"}
change listener l => none
poll cluster => {"node":{"id":"7"},"resourceNames":["b","c"],"typeUrl":"CDS",
    "versionInfo":"1.3.named"}
poll listener => {"node":{"id":"7"},"resourceNames":["l"],"typeUrl":"LDS"}
change cluster => none
poll cluster => none
view cluster => none
receive cluster {"typeUrl":"CDS","versionInfo":"1.3.named"} => 7 BadMessage"#,
    )
}

// rule: whole-response
#[test]
fn names_that_an_answer_lacks_stay_where_the_type_is_incomplete(
    rt: HostRuntime,
) -> Result<(), Fail> {
    play::<Rest, HostRuntime>(
        &rt,
        r#"change route q p => none
poll route => {"node":{"id":"7"},"resourceNames":["p","q"],"typeUrl":"RDS"}
receive route {"resources":[{"@type":"RDS","name":"r"},{"@type":"RDS","name":"p"}],"typeUrl":"RDS",
    "versionInfo":"2.1.named"} => taken
view route => {"@type":"RDS","name":"p"}
receive route {"resources":[{"@type":"RDS","name":"q"}],"typeUrl":"RDS",
    "versionInfo":"2.3.named"} => taken
view route => {"@type":"RDS","name":"p"} {"@type":"RDS","name":"q"}
receive route {"typeUrl":"RDS","versionInfo":"2.4.named"} => taken
view route => {"@type":"RDS","name":"p"} {"@type":"RDS","name":"q"}
poll route => {"node":{"id":"7"},"resourceNames":["p","q"],"typeUrl":"RDS",
    "versionInfo":"2.4.named"}
change route * q => none
view route => {"@type":"RDS","name":"q"}
poll route => {"node":{"id":"7"},"resourceNames":["*","q"],"typeUrl":"RDS"}
receive route {"resources":[{"@type":"RDS","name":"s"},{"@type":"RDS","name":"q","x":1}],
    "typeUrl":"RDS","versionInfo":"2.5.named"} => taken
view route => {"@type":"RDS","name":"q","x":1}
change secret s => none
receive secret {"resources":[{"@type":"SDS","name":"s"}],"typeUrl":"SDS",
    "versionInfo":"2.1.named"} => taken
receive secret {"typeUrl":"SDS","versionInfo":"2.2.named"} => taken
view secret => {"@type":"SDS","name":"s"}"#,
    )
}

// rule: whole-or-nothing
#[test]
fn answers_are_rejected_whole(rt: HostRuntime) -> Result<(), Fail> {
    play::<Rest, HostRuntime>(
        &rt,
        r#"change cluster * => none
receive cluster {"resources":[{"@type":"CDS","name":"a","reject":true}],"typeUrl":"CDS",
    "versionInfo":"1.1"} => test: a
view cluster => none
poll cluster => {"node":{"id":"7"},"resourceNames":["*"],"typeUrl":"CDS"}
receive cluster {"resources":[{"@type":"CDS","name":"a"}],"typeUrl":"CDS",
    "versionInfo":"1.2"} => taken
receive cluster {"resources":[{"@type":"CDS","name":"b"},{"name":"c"},
    {"@type":"CDS","name":"d","reject":true}],"typeUrl":"CDS","versionInfo":"1.3"} => 4 BadResource
receive cluster {"resources":[{"@type":"CDS","name":"b"},{"@type":"CDS","name":"c"},
    {"@type":"CDS","name":"b","reject":true}],"typeUrl":"CDS","versionInfo":"1.3"} => doubled: b
receive cluster {"resources":[{"@type":"CDS","name":"*"}],"typeUrl":"CDS",
    "versionInfo":"1.3"} => 5 BadName
receive cluster {"resources":[{"@type":"CDS","name":"b","x":1.5}],"typeUrl":"CDS",
    "versionInfo":"1.3"} => 3 NotWhole
receive cluster {"typeUrl":"LDS","versionInfo":"1.3"} => 7 BadMessage
receive cluster {"versionInfo":"1.3"} => 7 BadMessage
receive listener {"typeUrl":"CDS","versionInfo":"1.3"} => 7 BadMessage
receive listener {"typeUrl":"LDS","versionInfo":"1.3"} => 7 BadMessage
receive listener => 7 BadMessage
view cluster => {"@type":"CDS","name":"a"}
poll cluster => {"node":{"id":"7"},"resourceNames":["*"],"typeUrl":"CDS","versionInfo":"1.2"}
change endpoint e => none
receive endpoint {"resources":[{"@type":"EDS","clusterName":"f","reject":true}],"typeUrl":"EDS",
    "versionInfo":"1.1.named"} => test: f
receive endpoint {"resources":[{"@type":"EDS","clusterName":"f"},
    {"@type":"EDS","cluster_name":"e"}],"typeUrl":"EDS","versionInfo":"1.2.named"} => taken
view endpoint => {"@type":"EDS","cluster_name":"e"}"#,
    )
}

// rule: groups
#[test]
fn each_poll_says_who_asks(rt: HostRuntime) -> Result<(), Fail> {
    play_in::<Rest, HostRuntime>(
        &rt,
        "g1",
        r#"change cluster * => none
change route q => none
poll cluster => {"node":{"cluster":"g1","id":"7"},"resourceNames":["*"],"typeUrl":"CDS"}
poll cluster => {"node":{"cluster":"g1","id":"7"},"resourceNames":["*"],"typeUrl":"CDS"}
poll route => {"node":{"cluster":"g1","id":"7"},"resourceNames":["q"],"typeUrl":"RDS"}
receive cluster {"resources":[{"@type":"CDS","name":"a"}],"typeUrl":"CDS",
    "versionInfo":"1.3@g1"} => taken
poll cluster => {"node":{"cluster":"g1","id":"7"},"resourceNames":["*"],"typeUrl":"CDS",
    "versionInfo":"1.3@g1"}
poll route => {"node":{"cluster":"g1","id":"7"},"resourceNames":["q"],"typeUrl":"RDS"}"#,
    )
}
