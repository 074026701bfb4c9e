// Replies and looks as texts.
use crate::parts::{Told, text_of};
use std::alloc::Global;
use xds_core::{Marks, Record, Reply};
use xds_ledger::Outcome;
use xds_message::Batch;
use xds_resource::Refusal;

// A text of its own.
fn text(alloc: Global, text: &str) -> Result<String, Refusal> {
    Ok(String::from_str(alloc, text)?)
}

fn yes_or_no(answer: bool) -> &'static str {
    if answer { "yes" } else { "no" }
}

/// The text of a number.
pub(crate) fn number_text(alloc: Global, number: u128) -> Result<String, Refusal> {
    Ok(format!(in alloc; "{number}")?)
}

// The batch, and the counts of changes.
fn changed(alloc: Global, batch: &Batch, marks: Marks) -> Result<String, Refusal> {
    let mut text = batch.text(alloc)?;
    text.push_str(" at ")?;
    text.push_str(text_of(alloc, marks)?.as_str())?;
    Ok(text)
}

impl Told for Reply {
    fn text(&self, alloc: Global) -> Result<String, Refusal> {
        match self {
            Reply::Opened(number) => number_text(alloc, u128::from(*number)),
            Reply::Answered(Outcome::Taken) => text(alloc, "taken"),
            Reply::Answered(Outcome::Ignored) => text(alloc, "ignored"),
            Reply::Polled(Some(draft)) => draft.write(alloc),
            Reply::Polled(None) => text(alloc, "none"),
            Reply::Owed(owed) => text(alloc, yes_or_no(*owed)),
            Reply::Closed => text(alloc, "closed"),
            Reply::Written(stamp) => stamp.version_text(alloc),
            Reply::Merged(changes) => number_text(alloc, *changes),
            Reply::Entries(batch) => batch.text(alloc),
            Reply::Rested(Some(draft)) => draft.write(alloc),
            Reply::Rested(None) => text(alloc, "unchanged"),
            Reply::Changed(batch, marks) => changed(alloc, batch, *marks),
        }
    }
}

/// The text of the reply, or of the refusal. That no memory was found is no answer, but ends the
/// test.
impl Told for Record {
    fn text(&self, alloc: Global) -> Result<String, Refusal> {
        match &self.answer {
            Ok(reply) => reply.text(alloc),
            Err(Refusal::OutOfMemory) => Err(Refusal::OutOfMemory),
            Err(refusal) => Ok(refusal.to_string(alloc)?),
        }
    }
}

/// The text of a look at a stream, which is `none` where it isn't open.
impl Told for Option<bool> {
    fn text(&self, alloc: Global) -> Result<String, Refusal> {
        match self {
            Some(answer) => text(alloc, yes_or_no(*answer)),
            None => text(alloc, "none"),
        }
    }
}

/// The counts of changes, in the order of the types.
impl Told for Marks {
    fn text(&self, alloc: Global) -> Result<String, Refusal> {
        let Marks {
            cluster,
            endpoint,
            listener,
            route,
            secret,
        } = self;
        Ok(format!(in alloc; "{cluster} {endpoint} {listener} {route} {secret}")?)
    }
}
