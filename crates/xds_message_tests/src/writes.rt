// The stamped writes that replicas exchange.
use std::alloc::Global;
use std::test::Fail;
use xds_cases::cases::{Outcome, hold, told};
use xds_message::{read_write, write_object};
use xds_resource::{AnyWrite, Refusal};

// What is written for the write that the text spells.
struct WriteAgain;

impl Outcome for WriteAgain {
    fn of(alloc: Global, given: &str) -> Result<String, Fail> {
        Ok(told(alloc, rewritten(alloc, given.as_bytes()))?)
    }
}

fn rewritten(alloc: Global, bytes: &[u8]) -> Result<String, Refusal> {
    let write = read_write(alloc, bytes)?;
    let text = text_of(alloc, &write);
    drop(write);
    text
}

fn text_of(alloc: Global, write: &AnyWrite) -> Result<String, Refusal> {
    Ok(write_object(alloc, write)?.to_string(alloc)?)
}

#[test]
fn writes_are_read(rt: HostRuntime) -> Result<(), Fail> {
    let latin = rewritten(rt.alloc(), &[34, 255, 34]);
    assert_eq!(rt; latin.err(), Some(Refusal::NotJson));
    hold::<WriteAgain, HostRuntime>(
        &rt,
        r#"{"body":{"@type":"CDS","name":"a","x":1},"counter":1,"name":"a",
    "typeUrl":"CDS","writer":1}
     => {"body":{"@type":"CDS","name":"a","x":1},"counter":1,"name":"a","typeUrl":"CDS","writer":1}
{"body":{"@type":"EDS","clusterName":"a"},"counter":2,"name":"a","typeUrl":"EDS","writer":3}
     => {"body":{"@type":"EDS","clusterName":"a"},"counter":2,"name":"a","typeUrl":"EDS","writer":3}
{"body":{"@type":"LDS","address":{},"name":"b"},"counter":10,"name":"b","typeUrl":"LDS","writer":12}
     => {"body":{"@type":"LDS","address":{},"name":"b"},"counter":10,"name":"b",
    "typeUrl":"LDS","writer":12}
{"body":{"@type":"RDS","name":"**"},"counter":1,"name":"**","typeUrl":"RDS","writer":1}
     => {"body":{"@type":"RDS","name":"**"},"counter":1,"name":"**","typeUrl":"RDS","writer":1}
{"body":{"@type":"SDS","name":"s"},"counter":1,"name":"s","typeUrl":"SDS","writer":1}
     => {"body":{"@type":"SDS","name":"s"},"counter":1,"name":"s","typeUrl":"SDS","writer":1}
{"counter":9223372036854775807,"name":"a","typeUrl":"EDS","writer":65535}
     => {"counter":9223372036854775807,"name":"a","typeUrl":"EDS","writer":65535}
 { "writer": 1, "weight": 0.5, "typeUrl": "CDS", "name": "\u0061", "counter": 1,
     "body": {"x": 1, "name": "a", "@type": "CDS"} }  => {"body":{"@type":"CDS","name":"a","x":1},
    "counter":1,"name":"a","typeUrl":"CDS","writer":1}
{"body":null,"counter":9223372036854775807,"name":"a","typeUrl":"EDS","writer":65535}
     => {"counter":9223372036854775807,"name":"a","typeUrl":"EDS","writer":65535}
 => 1 NotJson
{ => 1 NotJson
{} {} => 1 NotJson"#,
    )
}

#[test]
fn other_values_are_no_writes(rt: HostRuntime) -> Result<(), Fail> {
    hold::<WriteAgain, HostRuntime>(
        &rt,
        r#"{"counter":0,"name":"a","typeUrl":"CDS","writer":1} => 7 BadMessage
{"counter":9223372036854775808,"name":"a","typeUrl":"CDS","writer":1} => 7 BadMessage
{"counter":-1,"name":"a","typeUrl":"CDS","writer":1} => 7 BadMessage
{"counter":1.0,"name":"a","typeUrl":"CDS","writer":1} => 7 BadMessage
{"counter":"1","name":"a","typeUrl":"CDS","writer":1} => 7 BadMessage
{"counter":null,"name":"a","typeUrl":"CDS","writer":1} => 7 BadMessage
{"count":1,"name":"a","typeUrl":"CDS","writer":1} => 7 BadMessage
{"counter":1,"name":"a","typeUrl":"CDS","writer":0} => 7 BadMessage
{"counter":1,"name":"a","typeUrl":"CDS","writer":65536} => 7 BadMessage
{"counter":1,"name":"a","typeUrl":"CDS","writers":1} => 7 BadMessage
{"counter":1,"name":"","typeUrl":"CDS","writer":1} => 7 BadMessage
{"counter":1,"name":null,"typeUrl":"CDS","writer":1} => 7 BadMessage
{"counter":1,"typeUrl":"CDS","writer":1} => 7 BadMessage
{"counter":1,"name":"*","typeUrl":"CDS","writer":1} => 7 BadMessage
{"counter":1,"name":"a","typeUrl":"CDSs","writer":1} => 7 BadMessage
{"counter":1,"name":"a","type_url":"CDS","writer":1} => 7 BadMessage
{"body":{"@type":"CDS","name":"a"},"counter":1,"name":"b","typeUrl":"CDS","writer":1}
     => 7 BadMessage
{"body":{"@type":"CDSs","name":"a"},"counter":1,"name":"a","typeUrl":"CDS","writer":1}
     => 7 BadMessage
{"body":{"@type":"CDS","name":"a"},"counter":1,"name":"a","typeUrl":"LDS","writer":1}
     => 7 BadMessage
{"body":{"@type":"CDS","weight":0.5,"name":"a"},"counter":1,"name":"a","typeUrl":"CDS","writer":1}
     => 7 BadMessage
{"body":{"@type":"CDS","name":"*"},"counter":1,"name":"*","typeUrl":"CDS","writer":1}
     => 7 BadMessage
{"body":"a","counter":1,"name":"a","typeUrl":"CDS","writer":1} => 7 BadMessage
{"body":[],"counter":1,"name":"a","typeUrl":"CDS","writer":1} => 7 BadMessage
[] => 7 BadMessage
null => 7 BadMessage
"a" => 7 BadMessage
{} => 7 BadMessage"#,
    )
}

// rule: groups
#[test]
fn groups_are_read(rt: HostRuntime) -> Result<(), Fail> {
    hold::<WriteAgain, HostRuntime>(
        &rt,
        r#"{"body":{"@type":"CDS","name":"a"},"counter":1,"groups":["b","a","a"],"name":"a",
    "typeUrl":"CDS","writer":1}
     => {"body":{"@type":"CDS","name":"a"},"counter":1,"groups":["a","b"],"name":"a",
    "typeUrl":"CDS","writer":1}
{"body":{"@type":"CDS","name":"a"},"counter":1,"groups":["é","e","E"],"name":"a",
    "typeUrl":"CDS","writer":1}
     => {"body":{"@type":"CDS","name":"a"},"counter":1,"groups":["E","e","é"],"name":"a",
    "typeUrl":"CDS","writer":1}
{"body":{"@type":"CDS","name":"a"},"counter":1,"groups":null,"name":"a","typeUrl":"CDS","writer":1}
     => {"body":{"@type":"CDS","name":"a"},"counter":1,"name":"a","typeUrl":"CDS","writer":1}
{"body":{"@type":"CDS","name":"a"},"counter":1,"groups":[],"name":"a","typeUrl":"CDS","writer":1}
     => {"body":{"@type":"CDS","name":"a"},"counter":1,"name":"a","typeUrl":"CDS","writer":1}
{"counter":1,"groups":null,"name":"a","typeUrl":"CDS","writer":1}
     => {"counter":1,"name":"a","typeUrl":"CDS","writer":1}
{"counter":1,"groups":[],"name":"a","typeUrl":"CDS","writer":1}
     => {"counter":1,"name":"a","typeUrl":"CDS","writer":1}
{"body":{"@type":"CDS","name":"a"},"counter":1,"groups":["00","01","02","03","04","05","06","07",
    "08","09","10","11","12","13","14","15","16","17","18","19","20","21","22","23","24","25","26",
    "27","28","29","30","31","32","33","34","35","36","37","38","39","40","41","42","43","44","45",
    "46","47","48","49","50","51","52","53","54","55","56","57","58","59","60","61","62","63","07"],
    "name":"a","typeUrl":"CDS","writer":1}
     => {"body":{"@type":"CDS","name":"a"},"counter":1,"groups":["00","01","02","03","04","05","06",
    "07","08","09","10","11","12","13","14","15","16","17","18","19","20","21","22","23","24","25",
    "26","27","28","29","30","31","32","33","34","35","36","37","38","39","40","41","42","43","44",
    "45","46","47","48","49","50","51","52","53","54","55","56","57","58","59","60","61","62","63"],
    "name":"a","typeUrl":"CDS","writer":1}
{"body":{"@type":"CDS","name":"a"},"counter":1,"groups":["<a*1024>"],"name":"a",
    "typeUrl":"CDS","writer":1}
     => {"body":{"@type":"CDS","name":"a"},"counter":1,"groups":["<a*1024>"],"name":"a",
    "typeUrl":"CDS","writer":1}
{"counter":1,"groups":["a"],"name":"a","typeUrl":"CDS","writer":1} => 7 BadMessage
{"body":null,"counter":1,"groups":["a"],"name":"a","typeUrl":"CDS","writer":1} => 7 BadMessage
{"body":{"@type":"CDS","name":"a"},"counter":1,"groups":"a","name":"a","typeUrl":"CDS","writer":1}
     => 7 BadMessage
{"body":{"@type":"CDS","name":"a"},"counter":1,"groups":{},"name":"a","typeUrl":"CDS","writer":1}
     => 7 BadMessage
{"body":{"@type":"CDS","name":"a"},"counter":1,"groups":["a",null],"name":"a","typeUrl":"CDS",
    "writer":1} => 7 BadMessage
{"body":{"@type":"CDS","name":"a"},"counter":1,"groups":["a",1],"name":"a","typeUrl":"CDS",
    "writer":1} => 7 BadMessage
{"body":{"@type":"CDS","name":"a"},"counter":1,"groups":["a",""],"name":"a","typeUrl":"CDS",
    "writer":1} => 7 BadMessage
{"body":{"@type":"CDS","name":"a"},"counter":1,"groups":["<a*1025>"],"name":"a","typeUrl":"CDS",
    "writer":1} => 7 BadMessage
{"body":{"@type":"CDS","name":"a"},"counter":1,"groups":[["a"]],"name":"a","typeUrl":"CDS",
    "writer":1} => 7 BadMessage
{"body":{"@type":"CDS","name":"a"},"counter":1,"groups":["00","01","02","03","04","05","06","07",
    "08","09","10","11","12","13","14","15","16","17","18","19","20","21","22","23","24","25","26",
    "27","28","29","30","31","32","33","34","35","36","37","38","39","40","41","42","43","44","45",
    "46","47","48","49","50","51","52","53","54","55","56","57","58","59","60","61","62","63","64"],
    "name":"a","typeUrl":"CDS","writer":1} => 7 BadMessage
{"counter":1,"groups":[null],"name":"a","typeUrl":"CDS","writer":1} => 7 BadMessage"#,
    )
}

// What a write shows of itself: its type, name, stamp and body, and the value that it has.
struct Shown;

impl Outcome for Shown {
    fn of(alloc: Global, given: &str) -> Result<String, Fail> {
        let write = copy_of_write(alloc, given)?;
        let shown = shown_of(alloc, &write);
        drop(write);
        Ok(shown?)
    }
}

fn copy_of_write(alloc: Global, given: &str) -> Result<AnyWrite, Refusal> {
    let write = read_write(alloc, given.as_bytes())?;
    let copy = write.try_copy(alloc);
    drop(write);
    copy
}

fn shown_of(alloc: Global, write: &AnyWrite) -> Result<String, Refusal> {
    let version = write.stamp().version_text(alloc)?;
    let mut all = String::from_str(alloc, write.type_name().word())?;
    for part in [write.name(), version.as_str(), write.body().unwrap_or("-")].as_slice() {
        all.push_str(" ")?;
        all.push_str(part)?;
    }
    if let Some(value) = value_text(alloc, write)? {
        all.push_str(" ")?;
        all.push_str(value.as_str())?;
    }
    Ok(all)
}

fn value_text(alloc: Global, write: &AnyWrite) -> Result<Option<String>, Refusal> {
    let Some(value) = write.value(alloc)? else {
        return Ok(None);
    };
    Ok(Some(value.to_string(alloc)?))
}

#[test]
fn writes_show_what_they_hold(rt: HostRuntime) -> Result<(), Fail> {
    hold::<Shown, HostRuntime>(
        &rt,
        r#"{"body":{"@type":"CDS","name":"a"},"counter":12,"name":"a","typeUrl":"CDS","writer":3}
     => cluster a 12-3 {"@type":"CDS","name":"a"} {"@type":"CDS","name":"a"}
{"counter":1,"name":"q","typeUrl":"RDS","writer":2} => route q 1-2 -"#,
    )
}
