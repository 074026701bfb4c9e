// A replica to which a story happens, and what it is asked.
use crate::events::{event_of, number_of, stream_of, type_of};
use crate::parts::{copy_of, doubled, is_short, renew, text_of, texts_of};
use crate::script::{Actor, parted};
use std::alloc::Global;
use xds_core::{Core, Event, Record, Reply};
use xds_resource::Refusal;

/// The first replica. Its steps are events, events behind `twice` that are answered twice, and
/// looks at what is `due` or `owed` to a stream, at the `marks` of all types or at the `entries` of
/// one.
impl Actor for Core {
    fn begin(alloc: Global) -> Core {
        Core::new(alloc, 1)
    }

    fn renew(&mut self, alloc: Global) -> Result<(), Refusal> {
        renew(alloc, self)
    }

    fn answer(&mut self, alloc: Global, verb: &str, rest: &str) -> Result<String, Refusal> {
        match verb {
            "marks" => text_of(alloc, self.marks()),
            "entries" => entries(self, alloc, rest),
            "due" => due(self, alloc, rest),
            "twice" => happens_twice(self, alloc, rest),
            "owed" => owed(self, alloc, rest),
            _ => happens(self, alloc, verb, rest),
        }
    }

    fn is_short(&mut self, alloc: Global, verb: &str, rest: &str) -> Result<bool, Refusal> {
        let event = event_of(alloc, verb, rest)?;
        is_short(stepped(self, event))
    }
}

fn entries(core: &Core, alloc: Global, kind: &str) -> Result<String, Refusal> {
    let kind = type_of(kind)?;
    let batch = core.entries(alloc, kind)?;
    text_of(alloc, batch)
}

fn due(core: &Core, alloc: Global, number: &str) -> Result<String, Refusal> {
    let number = number_of(number)?;
    text_of(alloc, core.due(number))
}

fn owed(core: &Core, alloc: Global, stream: &str) -> Result<String, Refusal> {
    let (number, kind) = stream_of(stream)?;
    text_of(alloc, core.owes(number, kind))
}

// A copy of the event happens, and a copy of the record tells the answer.
fn happens(core: &mut Core, alloc: Global, verb: &str, rest: &str) -> Result<String, Refusal> {
    let event = event_of(alloc, verb, rest)?;
    let (event, copy) = doubled(alloc, event)?;
    let record = recorded(event, stepped(core, copy));
    let record = copy_of(alloc, record)?;
    text_of(alloc, record)
}

fn happens_twice(core: &mut Core, alloc: Global, text: &str) -> Result<String, Refusal> {
    let (verb, rest) = parted(text);
    let event = event_of(alloc, verb, rest)?;
    texts_of(alloc, core.step_twice(&event))
}

fn recorded(event: Event, answer: Result<Reply, Refusal>) -> Record {
    Record { event, answer }
}

fn stepped(core: &mut Core, event: Event) -> Result<Reply, Refusal> {
    core.step(event)
}
