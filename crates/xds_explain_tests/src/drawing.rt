// What is drawn of traces and of scripts.
use std::alloc::Global;
use std::test::Fail;
use xds_cases::cases::{Outcome, hold_stories, told};
use xds_check::{Trace, check};
use xds_explain::{script_picture, trace_picture};
use xds_resource::Refusal;

// The texts and the paths of a trace's picture, a line each.
struct Traced;

impl Outcome for Traced {
    fn of(alloc: Global, given: &str) -> Result<String, Fail> {
        let svg = told(alloc, picture_of(alloc, given))?;
        parts(alloc, svg.as_str())
    }
}

// The same of a script's.
struct Scripted;

impl Outcome for Scripted {
    fn of(alloc: Global, given: &str) -> Result<String, Fail> {
        let svg = told(alloc, script_picture(alloc, given.as_bytes()))?;
        parts(alloc, svg.as_str())
    }
}

// The picture of a trace, by the verdict on it.
fn picture_of(alloc: Global, given: &str) -> Result<String, Refusal> {
    let trace = match Trace::read(alloc, given.as_bytes()) {
        Ok(trace) => trace,
        Err(fault) => return Err(fault.refusal),
    };
    let checked = check(alloc, trace.lines());
    drop(trace);
    trace_picture(alloc, given.as_bytes(), checked?)
}

// What stands between two words in a line, if both are there.
fn between<'a>(line: &'a str, begin: &str, end: &str) -> Option<&'a str> {
    let (_, rest) = line.split_once(begin)?;
    let (found, _) = rest.split_once(end)?;
    Some(found)
}

// A text of a picture with its class, or a path with its class, or nothing.
fn part(alloc: Global, line: &str) -> Result<String, Fail> {
    let class = match between(line, "class=\"", "\"") {
        Some(class) => class,
        None => "",
    };
    if let Some(text) = between(line, "\">", "</text>") {
        return Ok(format!(in alloc; "{class}: {text}\n")?);
    }
    if class == "rail" {
        return Ok(String::new(alloc));
    }
    match between(line, " d=\"", "\"") {
        Some(path) => Ok(format!(in alloc; "{class} {path}\n")?),
        None => Ok(String::new(alloc)),
    }
}

// The texts and the paths of a picture, without the rails of lanes.
fn parts(alloc: Global, svg: &str) -> Result<String, Fail> {
    let mut found = String::new(alloc);
    for line in svg.lines() {
        found.push_str(part(alloc, line)?.as_str())?;
    }
    found.push_str(".")?;
    Ok(found)
}

// rule: accept-reject
#[test]
fn traces(rt: HostRuntime) -> Result<(), Fail> {
    hold_stories::<Traced, HostRuntime>(
        &rt,
        r#"write {"body":{"@type":"CDS","name":"a\u003cb"},"counter":1,"name":"a\u003cb","typeUrl":"CDS","writer":2}
open 1
open 7
request 1 3 {"node":{"id":"n\u0007\"&'"},"resourceNamesSubscribe":["*","x"],"typeUrl":"CDS"}
response 1 4 {"nonce":"1","removedResources":["x"],
    "resources":[{"name":"a\u003cb","resource":{"@type":"CDS","name":"a\u003cb"},"version":"1-2"}],
    "systemVersionInfo":"1.2","typeUrl":"CDS"}
request 1 3 {"responseNonce":"1","typeUrl":"CDS"}
write {"counter":2,"name":"a\u003cb","typeUrl":"CDS","writer":2}
request 7 1 {"resourceNames":["q","r"],"typeUrl":"RDS"}
idle 7 route
response 1 4 {"nonce":"2","removedResources":["a\u003cb"],"systemVersionInfo":"1.3","typeUrl":"CDS"}
request 1 3 {"errorDetail":{"code":3,"message":"no"},"responseNonce":"2","typeUrl":"CDS"}
close 7
 => title: What a replica did, line by line
lane: writes
lane: replica
lane: stream 1, node n?&quot;&amp;&#39;
lane: stream 7
: 
number: 1
put M110 92H440l-8 -4m8 4l-8 4
: put cluster 1-2 a&lt;b
number: 2
mark M955 122a5 5 0 1 0 10 0a5 5 0 1 0 -10 0
: open
number: 3
mark M1105 152a5 5 0 1 0 10 0a5 5 0 1 0 -10 0
: open
number: 4
ask M960 182H440l8 -4m-8 4l8 4
: request cluster: +* +x
number: 5
tell M440 212H960l-8 -4m8 4l-8 4
: response 1 cluster at 1.2: a&lt;b 1-2 -x
number: 6
yes M960 242H440l8 -4m-8 4l8 4
: ACK 1 cluster:
number: 7
gone M110 272H440l-8 -4m8 4l-8 4
: delete cluster 2-2 a&lt;b
number: 8
ask M1110 302H440l8 -4m-8 4l8 4
: request route: q r
number: 9
mark M440 332H1110l-8 -4m8 4l-8 4
: route: nothing is owed
number: 10
tell M440 362H960l-8 -4m8 4l-8 4
: response 2 cluster at 1.3: -a&lt;b
number: 11
no M960 392H440l8 -4m-8 4l8 4
: NACK 2 cluster: no
number: 12
mark M1105 422a5 5 0 1 0 10 0a5 5 0 1 0 -10 0
: close
.

write {"body":{"@type":"CDS","name":"a"},"counter":1,"name":"a","typeUrl":"CDS","writer":1}
write {"body":{"@type":"RDS","name":"q"},"counter":1,"name":"q","typeUrl":"RDS","writer":1}
open 1
open 2
request 2 1 {"resourceNames":["q"],"typeUrl":"RDS"}
request 1 1 {"resourceNames":["q"],"typeUrl":"RDS"}
request 1 1 {"resourceNames":["b"],"typeUrl":"CDS"}
response 1 2 {"nonce":"1","resources":[{"@type":"CDS","name":"a"}],"typeUrl":"CDS",
    "versionInfo":"1.1"}
close 1
 => title: Line 8 breaks P3: its stream, and the writes of its type
lane: writes
lane: replica
lane: stream 1
: 
number: 1
put M110 92H440l-8 -4m8 4l-8 4
: put cluster 1-1 a
number: 3
mark M955 122a5 5 0 1 0 10 0a5 5 0 1 0 -10 0
: open
number: 6
ask M960 152H440l8 -4m-8 4l8 4
: request route: q
number: 7
ask M960 182H440l8 -4m-8 4l8 4
: request cluster: b
number: 8
broken M440 212H960l-8 -4m8 4l-8 4
broken: P3: response 1 cluster at 1.1: a
."#,
    )
}

#[test]
fn scripts(rt: HostRuntime) -> Result<(), Fail> {
    hold_stories::<Scripted, HostRuntime>(
        &rt,
        r#"replica 1
# a comment
replica 2
put 1 {"@type":"CDS","name":"a\u003cb"}
bad line
putin 1 g,h {"@type":"CDS","name":"c"}
delete 1 cluster c
snapshot 1
merge 2 1
client 1 delta
client 2 rest k
change 1 cluster +* -x
names 2 route q r
connect 1 2
up 1
poll 1
poll 1 cluster
down 1
settle 1 cluster
rest 2 1 route
restlost 2 2 route
lose 1
up 1
view 1 cluster
content 2 cluster
 => title: What happens in a script, line by line
lane: replica 1
lane: replica 2
lane: client 1, delta
lane: client 2, rest
: 
number: 1
mark M125 92a5 5 0 1 0 10 0a5 5 0 1 0 -10 0
: comes
number: 3
mark M315 122a5 5 0 1 0 10 0a5 5 0 1 0 -10 0
: comes
number: 4
put M125 152a5 5 0 1 0 10 0a5 5 0 1 0 -10 0
: put cluster a&lt;b
number: 6
put M125 182a5 5 0 1 0 10 0a5 5 0 1 0 -10 0
: put cluster c for g,h
number: 7
gone M125 212a5 5 0 1 0 10 0a5 5 0 1 0 -10 0
: delete cluster c
number: 8
mark M125 242a5 5 0 1 0 10 0a5 5 0 1 0 -10 0
: snapshot, batch 1
number: 9
put M130 272H320l-8 -4m8 4l-8 4
: merge batch 1
number: 10
mark M505 302a5 5 0 1 0 10 0a5 5 0 1 0 -10 0
: comes
number: 11
mark M695 332a5 5 0 1 0 10 0a5 5 0 1 0 -10 0
: comes, cluster k
number: 12
ask M505 362a5 5 0 1 0 10 0a5 5 0 1 0 -10 0
: change cluster +* -x
number: 13
ask M695 392a5 5 0 1 0 10 0a5 5 0 1 0 -10 0
: names route q r
number: 14
mark M510 422H320l8 -4m-8 4l8 4
: connect
number: 15
ask M510 452H320l8 -4m-8 4l8 4
: up
number: 16
tell M315 482a5 5 0 1 0 10 0a5 5 0 1 0 -10 0
: poll for client 1
number: 17
tell M315 512a5 5 0 1 0 10 0a5 5 0 1 0 -10 0
: poll cluster for client 1
number: 18
tell M320 542H510l-8 -4m8 4l-8 4
: down
number: 19
yes M320 572H510l-8 -4m8 4l-8 4
: settle cluster
number: 20
tell M130 602H700l-8 -4m8 4l-8 4
: rest route
number: 21
gone M320 632H700l-8 -4m8 4l-8 4
: restlost route
number: 22
gone M505 662a5 5 0 1 0 10 0a5 5 0 1 0 -10 0
: lose
number: 23
ask M505 692a5 5 0 1 0 10 0a5 5 0 1 0 -10 0
: up
number: 24
mark M505 722a5 5 0 1 0 10 0a5 5 0 1 0 -10 0
: view cluster
number: 25
mark M315 752a5 5 0 1 0 10 0a5 5 0 1 0 -10 0
: content cluster
."#,
    )
}

// So many lines of a text.
fn count_of(text: &str, word: &str) -> usize {
    let mut count = 0usize;
    for line in text.lines() {
        if line.contains(word) {
            count = count.saturating_add(1);
        }
    }
    count
}

// A trace of so many lines that open streams.
fn opens(alloc: Global, count: u64) -> Result<String, Fail> {
    let mut text = String::new(alloc);
    for stream in 1..=count {
        text.push_str(format!(in alloc; "open {stream}\n")?.as_str())?;
    }
    Ok(text)
}

// Of a long trace the last rows are drawn, of a long script the first. Streams beyond the eighth share a lane.
#[test]
fn long_ones(rt: HostRuntime) -> Result<(), Fail> {
    let alloc = rt.alloc();
    let trace = opens(alloc, 403)?;
    let svg = trace_picture(alloc, trace.as_bytes(), None)?;
    let svg = svg.as_str();
    assert!(rt;
        svg.starts_with(
            "<svg xmlns=\"http://www.w3.org/2000/svg\" width=\"2180\" height=\"12092\">"
        )
    );
    assert!(rt; svg.ends_with("</svg>\n"));
    assert_eq!(rt; count_of(svg, "class=\"number\""), 400);
    assert_eq!(rt; count_of(svg, ">3 rows before these are left out<"), 1);
    assert_eq!(rt; count_of(svg, ">3</text>"), 0);
    assert_eq!(rt; count_of(svg, ">4</text>"), 1);
    assert_eq!(rt; count_of(svg, "class=\"lane\""), 10);
    let mut text = String::new(alloc);
    for _ in 0..402u64 {
        text.push_str("replica 1\n")?;
    }
    let svg = script_picture(alloc, text.as_bytes())?;
    let svg = svg.as_str();
    assert_eq!(rt; count_of(svg, "class=\"number\""), 400);
    assert_eq!(rt; count_of(svg, ">the last 2 commands are left out<"), 1);
    assert_eq!(rt; count_of(svg, ">400</text>"), 1);
    assert_eq!(rt; count_of(svg, ">401</text>"), 0);
    Ok(())
}
