// What changed since some marks.
use crate::script::play;
use std::test::Fail;
use xds_core::Core;

// rule: tombstones, rule: marks
#[test]
fn what_changed_since_is_told(rt: HostRuntime) -> Result<(), Fail> {
    play::<Core, HostRuntime>(
        &rt,
        r#"since 0 0 0 0 0 => none at 0 0 0 0 0
put {"@type":"CDS","name":"b"} => 1-1
put {"@type":"CDS","name":"a"} => 2-1
put {"@type":"EDS","clusterName":"e"} => 1-1
since 0 0 0 0 0 => {"body":{"@type":"CDS","name":"a"},"counter":2,"name":"a","typeUrl":"CDS",
    "writer":1}
     {"body":{"@type":"CDS","name":"b"},"counter":1,"name":"b","typeUrl":"CDS","writer":1}
     {"body":{"@type":"EDS","clusterName":"e"},"counter":1,"name":"e","typeUrl":"EDS",
    "writer":1} at 2 1 0 0 0
since 1 0 0 0 0 => {"body":{"@type":"CDS","name":"a"},"counter":2,"name":"a","typeUrl":"CDS",
    "writer":1}
     {"body":{"@type":"EDS","clusterName":"e"},"counter":1,"name":"e","typeUrl":"EDS",
    "writer":1} at 2 1 0 0 0
since 1 1 0 0 0 => {"body":{"@type":"CDS","name":"a"},"counter":2,"name":"a","typeUrl":"CDS",
    "writer":1} at 2 1 0 0 0
since 2 1 0 0 0 => none at 2 1 0 0 0
since 9 9 9 9 9 => none at 2 1 0 0 0
delete cluster b => 3-1
since 2 1 0 0 0 => {"counter":3,"name":"b","typeUrl":"CDS","writer":1} at 3 1 0 0 0
since 0 1 0 0 0 => {"body":{"@type":"CDS","name":"a"},"counter":2,"name":"a","typeUrl":"CDS",
    "writer":1}
     {"counter":3,"name":"b","typeUrl":"CDS","writer":1} at 3 1 0 0 0
put {"@type":"SDS","name":"s"} => 1-1
put {"@type":"RDS","name":"r"} => 1-1
put {"@type":"LDS","name":"l"} => 1-1
since 3 1 0 0 0 => {"body":{"@type":"LDS","name":"l"},"counter":1,"name":"l","typeUrl":"LDS",
    "writer":1}
     {"body":{"@type":"RDS","name":"r"},"counter":1,"name":"r","typeUrl":"RDS","writer":1}
     {"body":{"@type":"SDS","name":"s"},"counter":1,"name":"s","typeUrl":"SDS",
    "writer":1} at 3 1 1 1 1
since 2 0 0 0 0 => {"counter":3,"name":"b","typeUrl":"CDS","writer":1}
     {"body":{"@type":"EDS","clusterName":"e"},"counter":1,"name":"e","typeUrl":"EDS","writer":1}
     {"body":{"@type":"LDS","name":"l"},"counter":1,"name":"l","typeUrl":"LDS","writer":1}
     {"body":{"@type":"RDS","name":"r"},"counter":1,"name":"r","typeUrl":"RDS","writer":1}
     {"body":{"@type":"SDS","name":"s"},"counter":1,"name":"s","typeUrl":"SDS",
    "writer":1} at 3 1 1 1 1
merge {"body":{"@type":"CDS","name":"a","x":2},"counter":7,"name":"a","typeUrl":"CDS",
    "writer":2} => 1
since 3 1 1 1 1 => {"body":{"@type":"CDS","name":"a","x":2},"counter":7,"name":"a","typeUrl":"CDS",
    "writer":2} at 4 1 1 1 1
marks => 4 1 1 1 1"#,
    )
}
