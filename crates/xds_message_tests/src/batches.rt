// Batches of writes.
use std::alloc::Global;
use std::test::Fail;
use xds_cases::cases::{Outcome, hold, told};
use xds_message::Batch;
use xds_resource::Refusal;

// What is written of the batch that the text spells.
struct BatchAgain;

impl Outcome for BatchAgain {
    fn of(alloc: Global, given: &str) -> Result<String, Fail> {
        Ok(told(alloc, rewritten(alloc, given.as_bytes()))?)
    }
}

fn rewritten(alloc: Global, bytes: &[u8]) -> Result<String, Refusal> {
    let batch = Batch::read(alloc, bytes)?;
    let text = batch.write(alloc);
    drop(batch);
    text
}

#[test]
fn batches_are_read(rt: HostRuntime) -> Result<(), Fail> {
    hold::<BatchAgain, HostRuntime>(
        &rt,
        r#"{} => {}
{"writes":null} => {}
{"writes":[]} => {}
{"write":[1],"x":1.5} => {}
{"writes":[{"counter":1,"name":"a","typeUrl":"CDS","writer":1}]}
     => {"writes":[{"counter":1,"name":"a","typeUrl":"CDS","writer":1}]}
{"writes":[{"body":{"@type":"CDS","name":"b"},"counter":3,"name":"b","typeUrl":"CDS","writer":2},
    {"counter":1,"name":"a","typeUrl":"CDS","writer":1}]}
     => {"writes":[{"body":{"@type":"CDS","name":"b"},"counter":3,"name":"b","typeUrl":"CDS",
    "writer":2},{"counter":1,"name":"a","typeUrl":"CDS","writer":1}]}
{"writes":[{"counter":1,"name":"a","typeUrl":"CDS","writer":1},
    {"counter":1,"name":"a","typeUrl":"CDS","writer":1}]}
     => {"writes":[{"counter":1,"name":"a","typeUrl":"CDS","writer":1},
    {"counter":1,"name":"a","typeUrl":"CDS","writer":1}]}
{"writes":[{"counter":1,"name":"s","typeUrl":"SDS","writer":1},
    {"counter":1,"name":"r","typeUrl":"RDS","writer":1},
    {"counter":2,"name":"y","typeUrl":"CDS","writer":1},
    {"counter":1,"name":"l","typeUrl":"LDS","writer":1},
    {"counter":1,"name":"e","typeUrl":"EDS","writer":1},
    {"counter":1,"name":"x","typeUrl":"CDS","writer":1}]}
     => {"writes":[{"counter":2,"name":"y","typeUrl":"CDS","writer":1},
    {"counter":1,"name":"x","typeUrl":"CDS","writer":1},
    {"counter":1,"name":"e","typeUrl":"EDS","writer":1},
    {"counter":1,"name":"l","typeUrl":"LDS","writer":1},
    {"counter":1,"name":"r","typeUrl":"RDS","writer":1},
    {"counter":1,"name":"s","typeUrl":"SDS","writer":1}]}
{"writes":[{"body":{"name":"a","@type":"LDS"},"counter":1,"groups":["b","a"],"name":"a",
    "typeUrl":"LDS","weight":1,"writer":1}]}
     => {"writes":[{"body":{"@type":"LDS","name":"a"},"counter":1,"groups":["a","b"],"name":"a",
    "typeUrl":"LDS","writer":1}]}
{"writes":[{"body":{"@type":"CDS","name":"a","x":<[*98><]*98>},"counter":1,"name":"a",
    "typeUrl":"CDS","writer":1}]}
     => {"writes":[{"body":{"@type":"CDS","name":"a","x":<[*98><]*98>},"counter":1,"name":"a",
    "typeUrl":"CDS","writer":1}]}"#,
    )
}

#[test]
fn other_texts_are_no_batches(rt: HostRuntime) -> Result<(), Fail> {
    let latin = rewritten(rt.alloc(), &[123, 255, 125]);
    assert_eq!(rt; latin.err(), Some(Refusal::NotJson));
    hold::<BatchAgain, HostRuntime>(
        &rt,
        r#" => 1 NotJson
{"writes":[} => 1 NotJson
{"x":<[*127><]*127>} => 1 NotJson
{"x":<[*126><]*126>} => {}
[] => 7 BadMessage
null => 7 BadMessage
{"writes":{}} => 7 BadMessage
{"writes":"a"} => 7 BadMessage
{"writes":[null]} => 7 BadMessage
{"writes":[[]]} => 7 BadMessage
{"writes":[{}]} => 7 BadMessage
{"writes":[{"counter":1,"name":"a","typeUrl":"CDS","writer":1},null]} => 7 BadMessage
{"writes":[{"counter":1,"name":"a","typeUrl":"CDS","writer":1},
    {"counter":0,"name":"b","typeUrl":"CDS","writer":1}]} => 7 BadMessage
{"writes":[{"counter":1,"name":"a","typeUrl":"t","writer":1},
    {"counter":1,"name":"b","typeUrl":"CDS","writer":1}]} => 7 BadMessage
{"writes":[{"counter":1,"groups":["g"],"name":"a","typeUrl":"CDS","writer":1}]} => 7 BadMessage
{"writes":[{"body":{"@type":"CDS","name":"a","x":1.5},"counter":1,"name":"a","typeUrl":"CDS",
    "writer":1}]} => 7 BadMessage"#,
    )
}
