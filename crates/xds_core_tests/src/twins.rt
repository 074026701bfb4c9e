// Events that stay with the caller and are answered twice.
use crate::script::play;
use std::test::Fail;
use xds_core::Core;

#[test]
fn both_answers_are_the_same(rt: HostRuntime) -> Result<(), Fail> {
    play::<Core, HostRuntime>(
        &rt,
        r#"twice open => 1 and 1
twice sotw 1 {"typeUrl":"CDS"} => taken and taken
twice poll 1 => {"nonce":"1","typeUrl":"CDS","versionInfo":"1.0"}
     and {"nonce":"1","typeUrl":"CDS","versionInfo":"1.0"}
twice poll 1 => none and none
twice owes 1 => yes and yes
twice sotw 1 {"responseNonce":"1","typeUrl":"CDS"} => taken and taken
twice sotw 1 {"responseNonce":"9","typeUrl":"CDS"} => ignored and ignored
twice owes 1 cluster => no and no
twice putin g {"@type":"CDS","name":"a"} => 1-1 and 1-1
twice put {"@type":"CDS","name":"b"} => 2-1 and 2-1
twice merge {"body":{"@type":"CDS","name":"c"},"counter":1,"name":"c","typeUrl":"CDS",
    "writer":2} => 1 and 1
twice delete cluster b => 3-1 and 3-1
twice poll 1 endpoint => none and none
twice poll 1 cluster => {"nonce":"2","resources":[{"@type":"CDS","name":"c"}],"typeUrl":"CDS",
    "versionInfo":"1.4"}
     and {"nonce":"2","resources":[{"@type":"CDS","name":"c"}],"typeUrl":"CDS","versionInfo":"1.4"}
twice snapshot => {"body":{"@type":"CDS","name":"a"},"counter":1,"groups":["g"],"name":"a",
    "typeUrl":"CDS","writer":1}
     {"counter":3,"name":"b","typeUrl":"CDS","writer":1}
     {"body":{"@type":"CDS","name":"c"},"counter":1,"name":"c","typeUrl":"CDS","writer":2}
     and {"body":{"@type":"CDS","name":"a"},"counter":1,"groups":["g"],"name":"a","typeUrl":"CDS",
    "writer":1}
     {"counter":3,"name":"b","typeUrl":"CDS","writer":1}
     {"body":{"@type":"CDS","name":"c"},"counter":1,"name":"c","typeUrl":"CDS","writer":2}
twice rest cluster - g => {"resources":[{"@type":"CDS","name":"a"},{"@type":"CDS","name":"c"}],
    "typeUrl":"CDS","versionInfo":"1.4@g"}
     and {"resources":[{"@type":"CDS","name":"a"},{"@type":"CDS","name":"c"}],"typeUrl":"CDS",
    "versionInfo":"1.4@g"}
twice rest cluster 1.4@g g => unchanged and unchanged
twice since 3 0 0 0 0 => {"counter":3,"name":"b","typeUrl":"CDS","writer":1} at 4 0 0 0 0
     and {"counter":3,"name":"b","typeUrl":"CDS","writer":1} at 4 0 0 0 0
twice delete cluster b => 9 NotFound
twice sotw 1 {} => 7 BadMessage
twice delta 1 {"typeUrl":"CDS"} => 13 WrongVariant
twice close 1 => closed and closed
twice close 1 => 12 NoStream
twice poll 1 => 12 NoStream
twice owes 1 => 12 NoStream
twice open => 2 and 2
twice delta 2 {"resourceNamesSubscribe":["c"],"typeUrl":"CDS"} => taken and taken
twice poll 2 => {"nonce":"1",
    "resources":[{"name":"c","resource":{"@type":"CDS","name":"c"},"version":"1-2"}],
    "systemVersionInfo":"1.4","typeUrl":"CDS"}
     and {"nonce":"1",
    "resources":[{"name":"c","resource":{"@type":"CDS","name":"c"},"version":"1-2"}],
    "systemVersionInfo":"1.4","typeUrl":"CDS"}
poll 2 => none
marks => 4 0 0 0 0"#,
    )
}
