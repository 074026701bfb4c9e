// Events for which no memory is found. With ample memory each is taken at once; `bench/hand/refused.py`
// refuses one allocation after another. An event that was refused has changed nothing, and is taken
// when it comes again.
use crate::script::{Actor, parted, play_line, play_on};
use std::alloc::Global;
use std::test::Fail;
use xds_cases::cases::{unfolded, written_out};
use xds_core::Core;
use xds_resource::Refusal;

const BEFORE: &str = r#"put {"@type":"CDS","name":"a"} => 1-1
put {"@type":"EDS","clusterName":"e"} => 1-1
delete endpoint e => 2-1"#;

const UNCHANGED: &str = r#"marks => 1 2 0 0 0
snapshot => {"body":{"@type":"CDS","name":"a"},"counter":1,"name":"a","typeUrl":"CDS","writer":1}
     {"counter":2,"name":"e","typeUrl":"EDS","writer":1}"#;

const BATCH: &str =
    r#"{"body":{"@type":"CDS","name":"a","x":2},"counter":1,"name":"a","typeUrl":"CDS","writer":2}
     {"counter":3,"name":"f","typeUrl":"EDS","writer":2}
     {"body":{"@type":"LDS","name":"l"},"counter":1,"name":"l","typeUrl":"LDS","writer":2}
     {"body":{"@type":"RDS","name":"q"},"counter":1,"name":"q","typeUrl":"RDS","writer":2}"#;

const AFTER: &str = r#"marks => 2 3 1 1 0
snapshot => {"body":{"@type":"CDS","name":"a","x":2},"counter":1,"name":"a","typeUrl":"CDS",
    "writer":2}
     {"counter":2,"name":"e","typeUrl":"EDS","writer":1}
     {"counter":3,"name":"f","typeUrl":"EDS","writer":2}
     {"body":{"@type":"LDS","name":"l"},"counter":1,"name":"l","typeUrl":"LDS","writer":2}
     {"body":{"@type":"RDS","name":"q"},"counter":1,"name":"q","typeUrl":"RDS","writer":2}"#;

// Whether the batch is refused for want of memory.
fn refuses<A: Actor>(alloc: Global, actor: &mut A) -> Result<bool, Refusal> {
    let batch = unfolded(alloc, BATCH)?;
    let batch = written_out(alloc, batch.as_str())?;
    actor.is_short(alloc, "merge", batch.as_str())
}

// A batch was refused. It has changed nothing, and is taken now.
fn goes_on<A: Actor>(alloc: Global, actor: &mut A) -> Result<(), Fail> {
    play_on(alloc, actor, UNCHANGED)?;
    if refuses(alloc, actor)? {
        return Err("refused again".into());
    }
    Ok(())
}

// Whether the batch was refused at first.
fn comes_again<A: Actor>(alloc: Global) -> Result<bool, Fail> {
    let mut actor = A::begin(alloc);
    play_on(alloc, &mut actor, BEFORE)?;
    let refused = refuses(alloc, &mut actor)?;
    if refused {
        goes_on(alloc, &mut actor)?;
    }
    play_on(alloc, &mut actor, AFTER)?;
    Ok(refused)
}

// rule: refused-event
#[test]
fn a_batch_without_memory(rt: HostRuntime) -> Result<(), Fail> {
    if comes_again::<Core>(rt.alloc())? {
        println!(rt; "refused, and went on")?;
    }
    Ok(())
}

// Of each event: what happened before it, behind `= `, the event, behind `? `, and what is seen,
// behind `- ` where it was refused and behind `+ ` once it was taken.
const EVENTS: &str = r#"= put {"@type":"CDS","name":"a"} => 1-1
? put {"@type":"CDS","name":"b"}
- marks => 1 0 0 0 0
- entries cluster => {"body":{"@type":"CDS","name":"a"},"counter":1,"name":"a",
    "typeUrl":"CDS","writer":1}
+ entries cluster => {"body":{"@type":"CDS","name":"a"},"counter":1,"name":"a","typeUrl":"CDS",
    "writer":1}
     {"body":{"@type":"CDS","name":"b"},"counter":2,"name":"b","typeUrl":"CDS","writer":1}

= put {"@type":"CDS","name":"a"} => 1-1
? putin g {"@type":"CDS","name":"a"}
- entries cluster => {"body":{"@type":"CDS","name":"a"},"counter":1,"name":"a",
    "typeUrl":"CDS","writer":1}
+ entries cluster => {"body":{"@type":"CDS","name":"a"},"counter":2,"groups":["g"],"name":"a",
    "typeUrl":"CDS","writer":1}

= put {"@type":"RDS","name":"q"} => 1-1
? delete route q
- marks => 0 0 0 1 0
- entries route => {"body":{"@type":"RDS","name":"q"},"counter":1,"name":"q",
    "typeUrl":"RDS","writer":1}
+ entries route => {"counter":2,"name":"q","typeUrl":"RDS","writer":1}

= put {"@type":"CDS","name":"a"} => 1-1
= put {"@type":"EDS","clusterName":"e"} => 1-1
? merge {"body":{"@type":"CDS","name":"a","x":2},"counter":1,"name":"a","typeUrl":"CDS","writer":2}
     {"counter":3,"name":"f","typeUrl":"EDS","writer":2}
     {"counter":1,"name":"l","typeUrl":"LDS","writer":2}
     {"counter":1,"name":"q","typeUrl":"RDS","writer":2}
     {"counter":1,"name":"s","typeUrl":"SDS","writer":2}
- marks => 1 1 0 0 0
- snapshot => {"body":{"@type":"CDS","name":"a"},"counter":1,"name":"a","typeUrl":"CDS","writer":1}
     {"body":{"@type":"EDS","clusterName":"e"},"counter":1,"name":"e","typeUrl":"EDS","writer":1}
+ marks => 2 2 1 1 1

= put {"@type":"CDS","name":"a"} => 1-1
? snapshot
- marks => 1 0 0 0 0
+ snapshot => {"body":{"@type":"CDS","name":"a"},"counter":1,"name":"a","typeUrl":"CDS","writer":1}

= put {"@type":"CDS","name":"a"} => 1-1
= put {"@type":"CDS","name":"b"} => 2-1
? since 1 0 0 0 0
- marks => 2 0 0 0 0
+ since 1 0 0 0 0 => {"body":{"@type":"CDS","name":"b"},"counter":2,"name":"b","typeUrl":"CDS",
    "writer":1} at 2 0 0 0 0

= put {"@type":"CDS","name":"a"} => 1-1
? rest cluster - - a
- marks => 1 0 0 0 0
+ rest cluster - - a => {"resources":[{"@type":"CDS","name":"a"}],"typeUrl":"CDS",
    "versionInfo":"1.1.named"}

= open => 1
? open
- due 1 => no
- due 2 => none
+ due 2 => no
+ open => 3

= open => 1
? sotw 1 {"node":{"cluster":"g"},"resourceNames":["a","*"],"typeUrl":"CDS"}
- owed 1 => no
- delta 1 {"typeUrl":""} => 7 BadMessage
+ owed 1 cluster => yes
+ poll 1 => {"nonce":"1","typeUrl":"CDS","versionInfo":"1.0@g"}

= put {"@type":"CDS","name":"a"} => 1-1
= open => 1
= sotw 1 {"resourceNames":["a"],"typeUrl":"CDS"} => taken
= poll 1 => {"nonce":"1","resources":[{"@type":"CDS","name":"a"}],"typeUrl":"CDS",
    "versionInfo":"1.1.named"}
? sotw 1 {"resourceNames":["a","b"],"responseNonce":"1","typeUrl":"CDS"}
- owed 1 => yes
- due 1 => no
- poll 1 => none
+ owed 1 => yes
+ poll 1 => {"nonce":"2","resources":[{"@type":"CDS","name":"a"}],"typeUrl":"CDS",
    "versionInfo":"1.1.named"}

= open => 1
? delta 1 {"initialResourceVersions":{"x":"1-1"},"resourceNamesSubscribe":["a","*"],"typeUrl":"CDS"}
- owed 1 => no
- sotw 1 {"typeUrl":""} => 7 BadMessage
+ poll 1 => {"nonce":"1","removedResources":["a","x"],"systemVersionInfo":"1.0","typeUrl":"CDS"}

= put {"@type":"CDS","name":"a"} => 1-1
= put {"@type":"CDS","name":"b"} => 2-1
= open => 1
= delta 1 {"resourceNamesSubscribe":["a"],"typeUrl":"CDS"} => taken
= poll 1 => {"nonce":"1",
    "resources":[{"name":"a","resource":{"@type":"CDS","name":"a"},"version":"1-1"}],
    "systemVersionInfo":"1.2","typeUrl":"CDS"}
? delta 1 {"resourceNamesSubscribe":["b"],"resourceNamesUnsubscribe":["a"],"responseNonce":"1",
    "typeUrl":"CDS"}
- owed 1 => yes
- poll 1 => none
+ poll 1 => {"nonce":"2",
    "resources":[{"name":"b","resource":{"@type":"CDS","name":"b"},"version":"2-1"}],
    "systemVersionInfo":"1.2","typeUrl":"CDS"}
+ delta 1 {"responseNonce":"2","typeUrl":"CDS"} => taken
+ owed 1 => no

= put {"@type":"CDS","name":"a"} => 1-1
= open => 1
= delta 1 {"resourceNamesSubscribe":["*","b"],"typeUrl":"CDS"} => taken
? poll 1
- due 1 => yes
- delta 1 {"responseNonce":"1","typeUrl":"CDS"} => ignored
+ due 1 => no
+ delta 1 {"responseNonce":"1","typeUrl":"CDS"} => taken
+ owed 1 => no

= put {"@type":"CDS","name":"a"} => 1-1
= open => 1
= sotw 1 {"typeUrl":"CDS"} => taken
? poll 1 cluster
- due 1 => yes
- sotw 1 {"responseNonce":"1","typeUrl":"CDS"} => ignored
+ due 1 => no
+ sotw 1 {"responseNonce":"1","typeUrl":"CDS"} => taken
+ owed 1 => no

= open => 1
= sotw 1 {"typeUrl":"CDS"} => taken
? owes 1
- owes 1 => never refused
+ owed 1 => yes

= open => 1
= sotw 1 {"typeUrl":"CDS"} => taken
? close 1
- close 1 => never refused
+ owed 1 => none"#;

// Plays the lines of a story that begin so.
fn play_marked<A: Actor>(
    alloc: Global,
    actor: &mut A,
    story: &str,
    mark: &str,
) -> Result<(), Fail> {
    for line in story.lines() {
        if let Some(step) = line.strip_prefix(mark) {
            play_line(alloc, actor, step)?;
        }
    }
    Ok(())
}

// The event of a story.
fn event_in(story: &str) -> Result<&str, Fail> {
    for line in story.lines() {
        if let Some(event) = line.strip_prefix("? ") {
            return Ok(event);
        }
    }
    Err("a story has no event".into())
}

fn is_refused<A: Actor>(alloc: Global, actor: &mut A, event: &str) -> Result<bool, Refusal> {
    let event = written_out(alloc, event)?;
    let (verb, rest) = parted(event.as_str());
    actor.is_short(alloc, verb, rest)
}

// The event was refused. It has changed nothing, and is taken now.
fn happens_again<A: Actor>(
    alloc: Global,
    actor: &mut A,
    story: &str,
    event: &str,
) -> Result<(), Fail> {
    play_marked(alloc, actor, story, "- ")?;
    if is_refused(alloc, actor, event)? {
        return Err("refused again".into());
    }
    Ok(())
}

// Whether the event of a story was refused at first.
fn is_told<A: Actor>(alloc: Global, story: &str) -> Result<bool, Fail> {
    let event = event_in(story)?;
    let mut actor = A::begin(alloc);
    play_marked(alloc, &mut actor, story, "= ")?;
    let refused = is_refused(alloc, &mut actor, event)?;
    if refused {
        happens_again(alloc, &mut actor, story, event)?;
    }
    play_marked(alloc, &mut actor, story, "+ ")?;
    Ok(refused)
}

// rule: refused-event
#[test]
fn each_event_without_memory(rt: HostRuntime) -> Result<(), Fail> {
    let events = unfolded(rt.alloc(), EVENTS)?;
    for story in events.as_str().split("\n\n") {
        if is_told::<Core>(rt.alloc(), story)? {
            let (verb, _) = parted(event_in(story)?);
            println!(rt; "refused, and went on: {verb}")?;
        }
    }
    Ok(())
}
