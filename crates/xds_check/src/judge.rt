// What is kept of the lines of a trace for the rules of one type, line by line.
ghost use Rattle.std.specs.Prelude.{◌≡◌, ◌<◌, ◌∷◌, [], None, IfOk, IfErr, OnOk};
ghost use Rattle.std.specs.FinMap as finmap;
ghost use Rattle.xds_resource.specs.declared.refusal.Refusal.TheVariants.{OutOfMemory};
ghost use Rattle.xds_resource.specs.Stamps.{max_counter};
ghost use Rattle.xds_catalogue.specs.Joins.{joined};
ghost use Rattle.xds_check.specs.Kept.{unheard, talk_at, least, none_missed, broken_in, held_after, IsHeard, asked, told};
ghost use Rattle.xds_check.specs.LiveNames.{AreLive};
ghost use Rattle.xds_check.specs.Judges.{nothing_judged, without_stream, TellsLine};

use crate::answer::Answer;
use crate::asking::Asking;
use crate::by_type::{ByType, is_same};
use crate::judging;
use crate::line::Line;
use crate::live_names::LiveNames;
use crate::rule::Rule;
use crate::talk::StreamTalk;
use std::alloc::Global;
use std::marker::Model;
use xds_catalogue::{ByNumber, Catalogue};
use xds_resource::{Refusal, ResourceType, Write};

/// What is kept for the rules of the type `T`: the writes that are held, the names of the live ones, and what was said of each
/// stream. Contracts see the record of these.
pub(crate) struct Judge<T: ResourceType> {
    catalogue: Catalogue<T>,
    live_names: LiveNames,
    talks: ByNumber<StreamTalk<T>>,
}

// Written out: docs/PROVING.md, "Drops".
impl<T: ResourceType> Drop for Judge<T> {
    fn drop(self) {
        let Judge {
            catalogue: _,
            live_names: _,
            talks: _,
        } = self;
    }
}

impl<T: ResourceType> Model for Judge<T> {
    ghost use Rattle.xds_check.specs.Judges.{JudgeKept, judge_code};

    ghost Value = { JudgeKept };

    ghost coded = { judge_code };

    ghost view = { λ j. record { held = j.catalogue; live_names = j.live_names; talks = j.talks } };
}

impl<T: ByType> Judge<T> {
    /// Before the first line.
    pub(crate) fn new(alloc: Global) -> Judge<T>
        ensures { result ≡ nothing_judged }
    {
        Judge {
            catalogue: Catalogue::new(alloc),
            live_names: LiveNames::new(alloc),
            talks: ByNumber::new(alloc),
        }
    }

    /// The least rule that a line breaks, if it is one of the type. Where it breaks none, what it says is kept. Refused only by
    /// `OutOfMemory`.
    pub(crate) fn take(&mut self, alloc: Global, line: &Line) -> Result<Option<Rule>, Refusal>
        requires room { self.old.held.changes < max_counter }
        requires live { AreLive self.old.held.entries self.old.live_names }
        ensures told { IfOk result (λ r. TellsLine T.TYPE line.now self.old self.new r) }
        ensures refused { IfErr result (λ e. e ≡ OutOfMemory) }
    {
        take_line(
            alloc,
            &mut self.catalogue,
            &mut self.live_names,
            &mut self.talks,
            line,
        )
    }

    /// Lets go of what is kept of a stream.
    pub(crate) fn let_go(&mut self, stream: u64)
        ensures { self.new ≡ without_stream stream self.old }
    {
        drop(self.talks.take_out(stream));
    }
}

// The least rule that a response of the type breaks on a stream of which no line spoke.
fn broken_at_first<T: ResourceType>(
    alloc: Global,
    catalogue: &Catalogue<T>,
    live_names: &LiveNames,
    answer: &Answer,
) -> Result<Option<Rule>, Refusal>
    requires { AreLive catalogue.now.entries live_names.now }
    ensures ok { IfOk result (λ r. r ≡ least T.TYPE catalogue.now.entries unheard answer.now) }
    ensures refused { IfErr result (λ e. e ≡ OutOfMemory) }
{
    let talk = StreamTalk::new(alloc);
    let told = judging::broken_by(alloc, catalogue, live_names, &talk, answer);
    drop(talk);
    told
}

// The least rule that a response of the type breaks on a stream.
fn broken_by<T: ResourceType>(
    alloc: Global,
    catalogue: &Catalogue<T>,
    live_names: &LiveNames,
    talks: &ByNumber<StreamTalk<T>>,
    stream: u64,
    answer: &Answer,
) -> Result<Option<Rule>, Refusal>
    requires { AreLive catalogue.now.entries live_names.now }
    ensures ok { IfOk result (λ r. r ≡ least T.TYPE catalogue.now.entries (talk_at talks.now stream) answer.now) }
    ensures refused { IfErr result (λ e. e ≡ OutOfMemory) }
{
    match talks.get(stream) {
        Some(talk) => judging::broken_by(alloc, catalogue, live_names, talk, answer),
        None => broken_at_first(alloc, catalogue, live_names, answer),
    }
}

// Whether no name of the type waits on a stream whose answer is missed.
fn none_missed<T: ResourceType>(
    catalogue: &Catalogue<T>,
    talks: &ByNumber<StreamTalk<T>>,
    stream: u64,
) -> bool
    ensures { result ≡ none_missed catalogue.now.entries (talk_at talks.now stream) }
{
    match talks.get(stream) {
        Some(talk) => judging::none_missed(catalogue, talk),
        None => true,
    }
}

// rule: awaited-names
// The least rule that a line breaks, if it is one of the type.
fn broken_at<T: ResourceType>(
    alloc: Global,
    catalogue: &Catalogue<T>,
    live_names: &LiveNames,
    talks: &ByNumber<StreamTalk<T>>,
    line: &Line,
) -> Result<Option<Rule>, Refusal>
    requires { AreLive catalogue.now.entries live_names.now }
    ensures ok { IfOk result (λ r. r ≡ broken_in T.TYPE catalogue.now.entries talks.now line.now) }
    ensures refused { IfErr result (λ e. e ≡ OutOfMemory) }
{
    match line {
        Line::Response(stream, answer) => {
            if !is_same(answer.kind(), T::TYPE) {
                return Ok(None);
            }
            broken_by(alloc, catalogue, live_names, talks, *stream, answer)
        }
        Line::Idle(stream, kind) => {
            if !is_same(*kind, T::TYPE) || none_missed(catalogue, talks, *stream) {
                return Ok(None);
            }
            Ok(Some(Rule::NothingPending))
        }
        Line::Write(_) => Ok(None),
        Line::Open(_) => Ok(None),
        Line::Close(_) => Ok(None),
        Line::Request(_, _) => Ok(None),
    }
}

// rule: greatest-write
// Joins a copy of a write.
fn join<T: ResourceType>(
    alloc: Global,
    catalogue: &mut Catalogue<T>,
    write: &Write<T>,
) -> Result<(), Refusal>
    requires { catalogue.old.changes < max_counter }
    ensures ok { OnOk result (catalogue.new ≡ joined catalogue.old (write.now ∷ [])) }
    ensures refused { IfErr result (λ e. e ≡ OutOfMemory) }
{
    let copy = write.try_copy(alloc)?;
    catalogue.join_write(copy)?;
    Ok(())
}

// What is kept of a stream, taken out.
fn take_out<T: ResourceType>(
    alloc: Global,
    talks: &mut ByNumber<StreamTalk<T>>,
    stream: u64,
) -> StreamTalk<T>
    ensures talk { result ≡ talk_at talks.old stream }
    ensures taken { talks.new ≡ finmap.remove talks.old stream }
{
    match talks.take_out(stream) {
        Some(talk) => talk,
        None => StreamTalk::new(alloc),
    }
}

fn take_request<T: ResourceType>(
    alloc: Global,
    talks: &mut ByNumber<StreamTalk<T>>,
    stream: u64,
    asking: &Asking,
) -> Result<(), Refusal>
    ensures ok { OnOk result (talks.new ≡ finmap.insert (finmap.remove talks.old stream) stream (asked T.TYPE asking.now (talk_at talks.old stream))) }
    ensures refused { IfErr result (λ e. e ≡ OutOfMemory) }
{
    let mut talk = take_out(alloc, talks, stream);
    match talk.hear_request(alloc, asking) {
        Ok(()) => talks.insert(stream, talk),
        Err(refusal) => {
            drop(talk);
            Err(refusal)
        }
    }
}

fn take_answer<T: ResourceType>(
    alloc: Global,
    catalogue: &Catalogue<T>,
    talks: &mut ByNumber<StreamTalk<T>>,
    stream: u64,
    answer: &Answer,
) -> Result<(), Refusal>
    ensures ok { OnOk result (talks.new ≡ finmap.insert (finmap.remove talks.old stream) stream (told T.TYPE catalogue.now.entries answer.now (talk_at talks.old stream))) }
    ensures refused { IfErr result (λ e. e ≡ OutOfMemory) }
{
    let mut talk = take_out(alloc, talks, stream);
    match talk.hear_answer(alloc, catalogue, answer) {
        Ok(()) => talks.insert(stream, talk),
        Err(refusal) => {
            drop(talk);
            Err(refusal)
        }
    }
}

// Takes the name of what stands under it out of the live names.
fn take_name<T: ResourceType>(
    alloc: Global,
    catalogue: &Catalogue<T>,
    live_names: &mut LiveNames,
    name: &str,
) -> Result<(), Refusal>
    requires { AreLive catalogue.now.entries live_names.old }
    ensures ok { OnOk result (AreLive (finmap.remove catalogue.now.entries name.now) live_names.new) }
    ensures refused { IfErr result (λ e. e ≡ OutOfMemory) }
{
    match catalogue.get(name) {
        Some(write) => live_names.set(alloc, name, write.groups(), false),
        None => Ok(()),
    }
}

// rule: tombstones
// Puts the name of what stands under it into the live names, if that lives.
fn put_name<T: ResourceType>(
    alloc: Global,
    catalogue: &Catalogue<T>,
    live_names: &mut LiveNames,
    name: &str,
) -> Result<(), Refusal>
    requires { AreLive (finmap.remove catalogue.now.entries name.now) live_names.old }
    ensures ok { OnOk result (AreLive catalogue.now.entries live_names.new) }
    ensures refused { IfErr result (λ e. e ≡ OutOfMemory) }
{
    match catalogue.get(name) {
        Some(write) => {
            if write.body().is_none() {
                return Ok(());
            }
            live_names.set(alloc, name, write.groups(), true)
        }
        None => Ok(()),
    }
}

// rule: groups
// Joins a copy of a write, and keeps the names of the live ones.
fn take_one<T: ResourceType>(
    alloc: Global,
    catalogue: &mut Catalogue<T>,
    live_names: &mut LiveNames,
    write: &Write<T>,
) -> Result<(), Refusal>
    requires room { catalogue.old.changes < max_counter }
    requires live { AreLive catalogue.old.entries live_names.old }
    ensures ok { OnOk result (catalogue.new ≡ joined catalogue.old (write.now ∷ [])) }
    ensures live { OnOk result (AreLive catalogue.new.entries live_names.new) }
    ensures refused { IfErr result (λ e. e ≡ OutOfMemory) }
{
    let name = write.name();
    take_name(alloc, catalogue, live_names, name)?;
    join(alloc, catalogue, write)?;
    put_name(alloc, catalogue, live_names, name)
}

// rule: greatest-write
// Joins the write that a line is, if it is one of the type.
fn take_write<T: ByType>(
    alloc: Global,
    catalogue: &mut Catalogue<T>,
    live_names: &mut LiveNames,
    line: &Line,
) -> Result<(), Refusal>
    requires room { catalogue.old.changes < max_counter }
    requires live { AreLive catalogue.old.entries live_names.old }
    ensures ok { OnOk result (catalogue.new ≡ held_after T.TYPE line.now catalogue.old) }
    ensures live { OnOk result (AreLive catalogue.new.entries live_names.new) }
    ensures refused { IfErr result (λ e. e ≡ OutOfMemory) }
{
    let Line::Write(write) = line else {
        return Ok(());
    };
    match T::write_of(write) {
        Some(write) => take_one(alloc, catalogue, live_names, write),
        None => Ok(()),
    }
}

// Keeps what a line says of streams.
fn take_talk<T: ResourceType>(
    alloc: Global,
    catalogue: &Catalogue<T>,
    talks: &mut ByNumber<StreamTalk<T>>,
    line: &Line,
) -> Result<(), Refusal>
    ensures ok { OnOk result (IsHeard T.TYPE catalogue.now.entries line.now talks.old talks.new) }
    ensures refused { IfErr result (λ e. e ≡ OutOfMemory) }
{
    match line {
        Line::Request(stream, asking) => take_request(alloc, talks, *stream, asking),
        Line::Response(stream, answer) => take_answer(alloc, catalogue, talks, *stream, answer),
        Line::Write(_) => Ok(()),
        Line::Open(_) => Ok(()),
        Line::Close(_) => Ok(()),
        Line::Idle(_, _) => Ok(()),
    }
}

// The least rule that a line breaks. Where it breaks none, what it says is kept.
fn take_line<T: ByType>(
    alloc: Global,
    catalogue: &mut Catalogue<T>,
    live_names: &mut LiveNames,
    talks: &mut ByNumber<StreamTalk<T>>,
    line: &Line,
) -> Result<Option<Rule>, Refusal>
    requires room { catalogue.old.changes < max_counter }
    requires live { AreLive catalogue.old.entries live_names.old }
    ensures broken { IfOk result (λ r. r ≡ broken_in T.TYPE catalogue.old.entries talks.old line.now) }
    ensures heard { IfOk result (λ r. r ≡ None → IsHeard T.TYPE catalogue.old.entries line.now talks.old talks.new) }
    ensures held { IfOk result (λ r. r ≡ None → catalogue.new ≡ held_after T.TYPE line.now catalogue.old) }
    ensures live { IfOk result (λ r. r ≡ None → AreLive catalogue.new.entries live_names.new) }
    ensures refused { IfErr result (λ e. e ≡ OutOfMemory) }
{
    if let Some(rule) = broken_at(alloc, catalogue, live_names, talks, line)? {
        return Ok(Some(rule));
    }
    take_talk(alloc, catalogue, talks, line)?;
    take_write(alloc, catalogue, live_names, line)?;
    Ok(None)
}
