// The lines of a trace.
ghost use Rattle.std.specs.Prelude.{◌≡◌, string_bytes, decimal, IfOk, IfErr, OnOk};
ghost use Rattle.serde_json.specs.Written.{compact_text};
ghost use Rattle.xds_resource.specs.declared.refusal.Refusal.TheVariants.{OutOfMemory};
ghost use Rattle.xds_resource.specs.Any.{write_type, stamped_write};
ghost use Rattle.xds_resource.specs.Resources.{IsWritable};
ghost use Rattle.xds_resource.specs.Stamps.{IsStamp};
ghost use Rattle.xds_message.specs.StampedWrites.{IsSpelledBy, write_object};
ghost use Rattle.xds_check.specs.declared.line.Line.TheVariants as lines;
ghost use Rattle.xds_check.specs.Texts.{IsJsonOf, SpellsAsking, SpellsAnswer, asking_json, answer_json, spaced, behind_text, line_text, verb_in, HasStream, SaysBehind, Says};

use crate::answer::Answer;
use crate::asking::Asking;
use crate::words::Verb;
use itoa::Buffer;
use std::alloc::Global;
use xds_message::write_object;
use xds_resource::{AnyWrite, Refusal, ResourceType, TypeName, Write, for_any};

/// What a line of a trace says. Streams go by their numbers, from 1.
pub enum Line {
    /// From here on the replica has taken this write.
    Write(AnyWrite),
    /// The stream opens.
    Open(u64),
    /// The stream ends.
    Close(u64),
    /// The replica took or ignored this request.
    Request(u64, Asking),
    /// The replica sent this response.
    Response(u64, Answer),
    /// The replica answered that it owes the stream nothing of this type.
    Idle(u64, TypeName),
}

// Written out: docs/PROVING.md, "Drops".
impl Drop for Line {
    fn drop(self) {
        match self {
            Line::Write(_) => {}
            Line::Open(_) => {}
            Line::Close(_) => {}
            Line::Request(_, _) => {}
            Line::Response(_, _) => {}
            Line::Idle(_, _) => {}
        }
    }
}

// The text of a line of this word, with this behind it.
fn spaced(alloc: Global, word: &str, rest: &str) -> Result<String, Refusal>
    ensures ok { IfOk result (λ s. string_bytes s ≡ spaced word.now rest.now) }
    ensures refused { IfErr result (λ e. e ≡ OutOfMemory) }
{
    let mut text = String::from_str(alloc, word)?;
    text.push_str(" ")?;
    text.push_str(rest)?;
    Ok(text)
}

// A stream's number, a word and what stands behind them.
fn behind_stream(alloc: Global, stream: u64, word: &str, rest: &str) -> Result<String, Refusal>
    ensures ok { IfOk result (λ s. string_bytes s ≡ spaced (decimal stream) (spaced word.now rest.now)) }
    ensures refused { IfErr result (λ e. e ≡ OutOfMemory) }
{
    let mut digits = Buffer::new();
    let behind = spaced(alloc, word, rest)?;
    spaced(alloc, digits.format(stream), behind.as_str())
}

// A stream's number and a word.
fn stream_and(alloc: Global, stream: u64, word: &str) -> Result<String, Refusal>
    ensures ok { IfOk result (λ s. string_bytes s ≡ spaced (decimal stream) word.now) }
    ensures refused { IfErr result (λ e. e ≡ OutOfMemory) }
{
    let mut digits = Buffer::new();
    spaced(alloc, digits.format(stream), word)
}

fn stream_alone(alloc: Global, stream: u64) -> Result<String, Refusal>
    ensures ok { IfOk result (λ s. string_bytes s ≡ decimal stream) }
    ensures refused { IfErr result (λ e. e ≡ OutOfMemory) }
{
    let mut digits = Buffer::new();
    Ok(String::from_str(alloc, digits.format(stream))?)
}

// What is held as a write may be written, and its stamp is in range.
fn is_writable<T: ResourceType>(write: &Write<T>)
    ensures writable { IsWritable T.TYPE write.now }
    ensures stamp { IsStamp write.now.counter write.now.writer }
{
    let _stamp = write.stamp();
    drop(write.shared_body());
}

// The same of a write of any type.
fn any_is_writable(write: &AnyWrite)
    ensures writable { IsWritable (write_type write.now) (stamped_write write.now) }
    ensures stamp { IsStamp (stamped_write write.now).counter (stamped_write write.now).writer }
{
    for_any!(write, AnyWrite(write) => is_writable(write))
}

fn write_json(alloc: Global, write: &AnyWrite) -> Result<String, Refusal>
    ensures text { IfOk result
        (λ s. string_bytes s ≡ compact_text (write_object (write_type write.now) (stamped_write write.now))) }
    ensures reads_back { IfOk result
        (λ s. IsJsonOf IsSpelledBy (string_bytes s) (write_type write.now, stamped_write write.now)) }
    ensures refused { IfErr result (λ e. e ≡ OutOfMemory) }
{
    any_is_writable(write);
    let value = write_object(alloc, write)?;
    Ok(value.to_string(alloc)?)
}

fn request_behind(alloc: Global, stream: u64, asking: &Asking) -> Result<String, Refusal>
    ensures text { IfOk result (λ s. string_bytes s ≡ behind_text (lines.Request stream asking.now)) }
    ensures spelled { OnOk result (SpellsAsking asking.now (asking_json asking.now)) }
    ensures refused { IfErr result (λ e. e ≡ OutOfMemory) }
{
    let json = asking.json(alloc)?;
    behind_stream(alloc, stream, asking.kind(), json.as_str())
}

fn response_behind(alloc: Global, stream: u64, answer: &Answer) -> Result<String, Refusal>
    ensures text { IfOk result (λ s. string_bytes s ≡ behind_text (lines.Response stream answer.now)) }
    ensures spelled { OnOk result (SpellsAnswer answer.now (answer_json answer.now)) }
    ensures refused { IfErr result (λ e. e ≡ OutOfMemory) }
{
    let json = answer.json(alloc)?;
    behind_stream(alloc, stream, answer.message_kind(), json.as_str())
}

impl Line {
    // The form of the line.
    fn verb(&self) -> Verb
        ensures { result ≡ verb_in self.now }
    {
        match self {
            Line::Write(_) => Verb::Write,
            Line::Open(_) => Verb::Open,
            Line::Close(_) => Verb::Close,
            Line::Request(_, _) => Verb::Request,
            Line::Response(_, _) => Verb::Response,
            Line::Idle(_, _) => Verb::Idle,
        }
    }

    // What stands behind the first word.
    fn behind(&self, alloc: Global) -> Result<String, Refusal>
        ensures text { IfOk result (λ s. string_bytes s ≡ behind_text self.now) }
        ensures says { HasStream self.now → OnOk result (SaysBehind self.now (behind_text self.now)) }
        ensures refused { IfErr result (λ e. e ≡ OutOfMemory) }
    {
        match self {
            Line::Write(write) => write_json(alloc, write),
            Line::Open(stream) => stream_alone(alloc, *stream),
            Line::Close(stream) => stream_alone(alloc, *stream),
            Line::Request(stream, asking) => request_behind(alloc, *stream, asking),
            Line::Response(stream, answer) => response_behind(alloc, *stream, answer),
            Line::Idle(stream, kind) => stream_and(alloc, *stream, kind.word()),
        }
    }

    /// The text of the line, without a line feed. It says the line, if the line's stream has a number that a stream may have.
    /// Refused only by `OutOfMemory`.
    pub fn text(&self, alloc: Global) -> Result<String, Refusal>
        ensures text { IfOk result (λ s. string_bytes s ≡ line_text self.now) }
        ensures says { HasStream self.now → OnOk result (Says (line_text self.now) self.now) }
        ensures refused { IfErr result (λ e. e ≡ OutOfMemory) }
    {
        let behind = self.behind(alloc)?;
        spaced(alloc, self.verb().word(), behind.as_str())
    }
}
