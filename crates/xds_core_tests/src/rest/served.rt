// A replica that is asked by requests over HTTP, as a script.
use crate::events::{event_of, type_of};
use crate::script::parted;
use std::alloc::Global;
use std::test::Fail;
use xds_cases::cases::{Outcome, told as told_of};
use xds_cases::scripts::Script;
use xds_core::{Core, Event};
use xds_resource::Refusal;
use xds_rest::{Asked, HttpReply, answer, ask, reply_of};

/// The first replica. It tells `ok` after `put RESOURCE`, `putin GROUP,GROUP.. RESOURCE` and
/// `delete TYPE NAME`; the reply to what it answers to an event after `poll TYPE VERSION` and
/// `snapshot`; and what a request asks for after `ask`, before its method, path and body. Any other
/// verb is the method of a request, before its path and its body, and it tells the reply. A reply
/// is told as its status, and its body where it has one.
#[derive(Drop)]
pub(crate) struct Served {
    core: Core,
}

impl Script for Served {
    fn begin(alloc: Global) -> Served {
        Served {
            core: Core::new(alloc, 1),
        }
    }

    fn step(&mut self, alloc: Global, verb: &str, rest: &str) -> Result<String, Refusal> {
        match verb {
            "put" | "putin" | "delete" => {
                happens(&mut self.core, alloc, event_of(alloc, verb, rest))
            }
            "poll" => replied(&mut self.core, alloc, poll(alloc, rest)),
            "snapshot" => replied(&mut self.core, alloc, Ok(Event::Snapshot)),
            "ask" => asking(alloc, rest),
            method => asked(&mut self.core, alloc, method, rest),
        }
    }
}

/// What a new replica tells of one step.
pub(crate) struct Alone;

// What a new script answers to a step.
pub(crate) fn first_answer<S: Script>(
    alloc: Global,
    verb: &str,
    rest: &str,
) -> Result<String, Refusal> {
    let mut script = S::begin(alloc);
    script.step(alloc, verb, rest)
}

impl Outcome for Alone {
    fn of(alloc: Global, given: &str) -> Result<String, Fail> {
        let (verb, rest) = parted(given);
        Ok(told_of(alloc, first_answer::<Served>(alloc, verb, rest))?)
    }
}

fn happens(
    core: &mut Core,
    alloc: Global,
    event: Result<Event, Refusal>,
) -> Result<String, Refusal> {
    drop(core.step(event?)?);
    Ok(String::from_str(alloc, "ok")?)
}

fn poll(alloc: Global, text: &str) -> Result<Event, Refusal> {
    let (word, version) = parted(text);
    let kind = type_of(word)?;
    let version = String::from_str(alloc, version)?;
    let cluster = String::new(alloc);
    Ok(Event::Rest(kind, Vec::new(alloc), version, cluster))
}

fn replied(
    core: &mut Core,
    alloc: Global,
    event: Result<Event, Refusal>,
) -> Result<String, Refusal> {
    let reply = core.step(event?)?;
    let made = reply_of(alloc, &reply);
    drop(reply);
    told(alloc, &made?)
}

fn asking(alloc: Global, request: &str) -> Result<String, Refusal> {
    let (method, rest) = parted(request);
    let (path, body) = parted(rest);
    let asked = ask(alloc, method, path, body.as_bytes())?;
    let text = asked_told(alloc, &asked);
    drop(asked);
    text
}

fn asked_told(alloc: Global, asked: &Asked) -> Result<String, Refusal> {
    match asked {
        Asked::Finished(reply) => told(alloc, reply),
        Asked::Asks(Event::Rest(kind, names, version, cluster)) => {
            let (word, names) = (kind.word(), names.as_slice().join(alloc, ",")?);
            Ok(format!(in alloc; "{word} [{names}] ({version}) ({cluster})")?)
        }
        Asked::Asks(_) => Err(Refusal::BadScript),
    }
}

fn asked(core: &mut Core, alloc: Global, method: &str, rest: &str) -> Result<String, Refusal> {
    let (path, body) = parted(rest);
    let reply = answer(alloc, core, method, path, body.as_bytes())?;
    told(alloc, &reply)
}

// The status of a reply, and its body where it has one.
fn told(alloc: Global, reply: &HttpReply) -> Result<String, Refusal> {
    let mut text = reply.status.to_string(alloc)?;
    if let Some(body) = &reply.body {
        text.push(' ')?;
        text.push_str(body.as_str())?;
    }
    Ok(text)
}
