// Traces that are read and written. A bar stands for each line feed of what is written, and may
// stand for one of what is read.
ghost use Rattle.std.specs.Prelude.{◌<◌};

use crate::pieces::is_told;
use std::alloc::Global;
use std::test::Fail;
use xds_cases::cases::{Outcome, hold, hold_stories, replaced};
use xds_check::{Trace, TraceFault};
use xds_resource::Refusal;

/// The line that a trace is refused at, and why.
pub(crate) fn told_fault(alloc: Global, fault: TraceFault) -> Result<String, Refusal> {
    let line = fault.line;
    let number = fault.refusal.number();
    let name = fault.refusal.name();
    Ok(format!(in alloc; "line {line}: {number} {name}")?)
}

// What a trace is written as, once it was read.
struct Written;

fn write_text(alloc: Global, given: &str) -> Result<String, Refusal> {
    let text = replaced(alloc, given, "|", "\n")?;
    match Trace::read(alloc, text.as_str().as_bytes()) {
        Ok(trace) => {
            let written = trace.write(alloc);
            drop(trace);
            replaced(alloc, written?.as_str(), "\n", "|")
        }
        Err(fault) => told_fault(alloc, fault),
    }
}

// A trace that isn't read in pieces either is told with the same line.
fn is_bad_in_pieces(alloc: Global, given: &str, told: &str) -> Result<(), Fail> {
    if !told.starts_with("line ") {
        return Ok(());
    }
    let text = replaced(alloc, given, "|", "\n")?;
    is_told(alloc, text.as_str(), told)
}

impl Outcome for Written {
    fn of(alloc: Global, given: &str) -> Result<String, Fail> {
        let told = write_text(alloc, given)?;
        is_bad_in_pieces(alloc, given, told.as_str())?;
        Ok(told)
    }
}

#[test]
fn bad_lines_are_told(rt: HostRuntime) -> Result<(), Fail> {
    hold::<Written, HostRuntime>(
        &rt,
        r#"open 1|request 1 1 {"typeUrl":"CDS"}|
    request 1 3 {"typeUrl":"CDS"}| => line 3: 22 BadTrace
open 1|request 1 1 {"typeUrl":"x"}|response 1 2 {"nonce":"1","typeUrl":"x"}| => line 3: 22 BadTrace
request 1 1 {"typeUrl":"CDS"}| => line 1: 22 BadTrace
open 1|close 1|open 1| => line 3: 22 BadTrace
open 1|close 1|idle 1 cluster| => line 3: 22 BadTrace
write {}| => line 1: 22 BadTrace
open 1 => line 1: 22 BadTrace
| => line 1: 22 BadTrace
open 01| => line 1: 22 BadTrace
open 0| => line 1: 22 BadTrace
open +1| => line 1: 22 BadTrace
open 9223372036854775808| => line 1: 22 BadTrace
open  1| => line 1: 22 BadTrace
 open 1| => line 1: 22 BadTrace
open 1 | => line 1: 22 BadTrace
open| => line 1: 22 BadTrace
opened 1| => line 1: 22 BadTrace
close 1| => line 1: 22 BadTrace
open 1|idle 1 thing| => line 2: 22 BadTrace
open 1|idle 1| => line 2: 22 BadTrace
open 1|idle 2 route| => line 2: 22 BadTrace
open 1|request 1 2 {"typeUrl":"CDS"}| => line 2: 22 BadTrace
open 1|request 1 1 {"typeUrl":1}| => line 2: 22 BadTrace
open 1|request 1 1  {"typeUrl":"CDS"}|request 1 1 {| => line 3: 22 BadTrace
open 1|response 1 1 {"typeUrl":"CDS"}| => line 2: 22 BadTrace
open 1|response 1 2 {"typeUrl":"CDS"}|response 1 4 {"typeUrl":"CDS"}| => line 3: 22 BadTrace
write {"counter":0,"name":"a","typeUrl":"CDS","writer":1}| => line 1: 22 BadTrace
write{"counter":1,"name":"a","typeUrl":"CDS","writer":1}| => line 1: 22 BadTrace
open 1||close 1| => line 2: 22 BadTrace"#,
    )?;
    hold_stories::<Written, HostRuntime>(
        &rt,
        r#"write {"body":{"@type":"CDS","name":"a","x":1},"counter":1,"name":"a",
    "typeUrl":"CDS","writer":1}
write {"body":{"@type":"CDS","name":"a","x":2},"counter":1,"name":"a","typeUrl":"CDS","writer":2}
open 1
request 1 3 {"node":{"id":"1"},"resourceNamesSubscribe":["*"],"typeUrl":"CDS"}
response 1 4 {"nonce":"1",
    "resources":[{"name":"a","resource":{"@type":"CDS","name":"a","x":2},"version":"1-2"}],
    "systemVersionInfo":"1.2","typeUrl":"CDS"}
request 1 3 {"responseNonce":"1","typeUrl":"CDS"}
close 1
opened 2
 => line 8: 22 BadTrace

open 1
request 1 1 {"typeUrl":"CDS"}
response 1 2 {"nonce":"1","resources":[{"@type":"CDS"}],"typeUrl":"CDS"}
 => line 3: 22 BadTrace

write {"body":{"@type":"CDS","name":"a","x":1},"counter":1,"name":"a","typeUrl":"CDS","writer":1}
write {"body":{"@type":"CDS","name":"a","x":2},"counter":1,"name":"a","typeUrl":"CDS","writer":2}
open 1
request 1 3 {"node":{"id":"1"},"resourceNamesSubscribe":["*"],"typeUrl":"CDS"}
response 1 4 {"nonce":"1",
    "resources":[{"name":"a","resource":{"@type":"CDS","name":"a","x":2},"version":"1-2"}],
    "systemVersionInfo":"1.2","typeUrl":"CDS"}
request 1 3 {"responseNonce":"1","typeUrl":"CDS"}
close 1 => line 7: 22 BadTrace

open 1
response 1 2 {"resources":[{"@type":"RDS","name":"a"}],"typeUrl":"CDS"}
 => line 2: 22 BadTrace

open 1
response 1 2 {"resources":[{"@type":"CDS","name":"a","x":1.5}],"typeUrl":"CDS"}
 => line 2: 22 BadTrace"#,
    )
}

#[test]
fn traces_are_written_as_they_are_read(rt: HostRuntime) -> Result<(), Fail> {
    hold_stories::<Written, HostRuntime>(
        &rt,
        r#"write {"typeUrl":"CDS","name":"a","counter":1,"writer":1}
open 1
request 1 1 {"type_url":"CDS","node":{"cluster":"c","id":"n"},"resource_names":["*"],
    "versionInfo":"v"}
response 1 2 {"typeUrl":"CDS","nonce":"1","versionInfo":"7",
    "resources":[{"name":"a","@type":"CDS"}]}
close 1
open 2
idle 2 secret
 => write {"counter":1,"name":"a","typeUrl":"CDS","writer":1}|
    open 1|
    request 1 1 {"node":{"cluster":"c","id":"n"},"resourceNames":["*"],"typeUrl":"CDS",
    "versionInfo":"v"}|
    response 1 2 {"nonce":"1","resources":[{"@type":"CDS","name":"a"}],"typeUrl":"CDS",
    "versionInfo":"7"}|
    close 1|
    open 2|
    idle 2 secret|

open 3
request 3 3 {"typeUrl":"EDS","responseNonce":"8","initialResourceVersions":{"a":"1-1"},
    "errorDetail":{"code":"3"}}
response 3 4 {"typeUrl":"EDS","nonce":"x","systemVersionInfo":"7","removedResources":["z","y"],
    "resources":[{"version":"v","name":"n","resource":{"clusterName":"a","@type":"EDS"}}]}
 => open 3|
    request 3 3 {"errorDetail":{"code":3},"initialResourceVersions":{"a":"1-1"},"responseNonce":"8",
    "typeUrl":"EDS"}|
    response 3 4 {"nonce":"x","removedResources":["z","y"],
    "resources":[{"name":"n","resource":{"@type":"EDS","clusterName":"a"},"version":"v"}],
    "systemVersionInfo":"7","typeUrl":"EDS"}|

 => "#,
    )
}
