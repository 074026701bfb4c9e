// A line of the journal.
ghost use Rattle.std.specs.Prelude.{◌≡◌, Err};
ghost use Rattle.xds_core.specs.Seen.{event_of, answer_of};
ghost use Rattle.xds_node.specs.Holdings.{with_refused};

use crate::node::rule::NodeName;
use crate::node::token::{Token, Tokens};
use std::marker::Model;
use std::mem;
use xds_core::{Event, Record, Reply};
use xds_resource::Refusal;

/// A line of the journal: an event, and what it was answered. Contracts see the record.
pub struct JournalLine {
    record: Record,
}

// Written out: docs/PROVING.md, "Drops".
impl Drop for JournalLine {
    fn drop(self) {
        let JournalLine { record: _ } = self;
    }
}

impl Model for JournalLine {
    ghost use Rattle.std.specs.Coded.{codes};
    ghost use Rattle.xds_json.specs.Versions.{version_map_code};
    ghost use Rattle.xds_core.specs.Legal.{Record};
    ghost use Rattle.xds_core.specs.Seen.{event_of, answer_of};

    ghost Value = { Record };

    ghost coded = { Prim.hlevel (codes, version_map_code) };

    ghost view = { λ l. record { event = event_of l.record.event; answer = answer_of l.record.answer } };
}

impl JournalLine {
    /// A line of this event and this answer.
    pub fn new(event: Event, answer: Result<Reply, Refusal>) -> JournalLine
        ensures { result ≡ record { event = event_of event; answer = answer_of answer } }
    {
        JournalLine {
            record: Record { event, answer },
        }
    }

    /// The record.
    pub fn record(&self) -> &Record
        ensures { record { event = event_of result.now.event; answer = answer_of result.now.answer } ≡ self.now }
    {
        &self.record
    }

    /// What happened.
    pub fn event(&self) -> &Event
        ensures { event_of result.now ≡ self.now.event }
    {
        &self.record.event
    }

    /// What it was answered.
    pub fn answer(&self) -> &Result<Reply, Refusal>
        ensures { answer_of result.now ≡ self.now.answer }
    {
        &self.record.answer
    }

    /// Notes at a seat's token that an event left no record, and gives it back.
    pub fn note<N: NodeName>(
        tokens: &Tokens<JournalLine, N>,
        token: &mut Token<JournalLine, N>,
        event: Event,
        refusal: Refusal,
    ) -> Event
        ensures noted { token.new ≡ with_refused (record { event = event_of event; answer = Err refusal }) token.old }
        ensures back { result ≡ event }
    {
        let mut line = JournalLine {
            record: Record {
                event,
                answer: Err(refusal),
            },
        };
        tokens.note(token, &line);
        mem::replace(&mut line.record.event, Event::Open)
    }
}
