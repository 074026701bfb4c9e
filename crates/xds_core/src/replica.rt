// A replica's state, and its one step.
ghost use Rattle.std.specs.Prelude.{◌≡◌, ◌≤◌, ℕ, [], map, string_bytes, if◌then◌else◌, Some, None, is_some, option_map, Ok, Err, All, IsOk, IfSome, IfOk, IfErr, OnErr};
ghost use Rattle.std.specs.FinMap as finmap;
ghost use Rattle.xds_resource.specs.Any.{resource_type, named_body, write_type, stamped_write};
ghost use Rattle.xds_resource.specs.PerType.{at, each, with_at};
ghost use Rattle.xds_resource.specs.Refusals.{Gives};
ghost use Rattle.xds_resource.specs.Types.{types};
ghost use Rattle.xds_resource.specs.declared.refusal.Refusal.TheVariants.{OutOfMemory};
ghost use Rattle.xds_events.specs.Events as events;
ghost use Rattle.xds_events.specs.Legal.{IsShort};
ghost use Rattle.xds_events.specs.Seen.{message_of, event_of, reply_of};
ghost use Rattle.xds_events.specs.Steps.{fresh, step, rested};
ghost use Rattle.xds_events.specs.Counts.{counts_of};
ghost use Rattle.xds_events.specs.Twice.{IsShortBeside, poll_in};
ghost use Rattle.xds_events.specs.Stores.{if_done};
ghost use Rattle.xds_events.specs.declared.event.Reply.TheVariants as replies;
ghost use Rattle.xds_core.specs.Talks.{firsts};
ghost use Rattle.xds_events.specs.Streams.{looked_at, owes_some, first_due};

use crate::stream::Stream;
use std::alloc::Global;
use std::marker::Model;
use xds_catalogue::ByNumber;
use xds_events::catalogues::{Catalogues, Marks};
use xds_events::event::{Event, Reply};
use xds_events::request::Request;
use xds_interest::ClusterText;
use xds_ledger::Outcome;
use xds_message::{Batch, Draft, SotwDraft};
use xds_resource::stamp::MAX_COUNTER;
use xds_resource::{AnyResource, Groups, Refusal, TypeName};
use xds_sessions::rested;

/// One replica: what it holds of each type, and its open streams.
pub struct Core {
    replica: u16,
    held: Catalogues,
    // How many streams were opened.
    opened: u64,
    streams: ByNumber<Stream>,
    alloc: Global,
}

// Written out: docs/PROVING.md, "Drops".
impl Drop for Core {
    fn drop(self) {
        let Core {
            replica: _,
            held: _,
            opened: _,
            streams: _,
            alloc: _,
        } = self;
    }
}

impl Model for Core {
    ghost use Rattle.std.specs.Prelude.{◌≤◌};
    ghost use Rattle.xds_resource.specs.Stamps.{max_counter};
    ghost use Rattle.xds_core.specs.Lists.{AllFit, streams_of};
    ghost use Rattle.xds_events.specs.Steps as steps;
    ghost use Rattle.xds_events.specs.Steps.{core_code};

    ghost Value = { steps.Core };

    ghost coded = { core_code };

    ghost view = { λ c. record { replica = c.replica; store = c.held; opened = c.opened; streams = streams_of c.streams } };

    ghost invariant = { λ c. record { numbered : 1 ≤ c.replica; counted : c.opened ≤ max_counter; fitting : AllFit c.held c.streams } };
}

impl Core {
    /// A replica at which nothing happened. `replica` is its number, from 1.
    pub fn new(alloc: Global, replica: u16) -> Core
        requires { 1 ≤ replica }
        ensures { result ≡ fresh replica }
    {
        Core {
            replica,
            held: Catalogues::new(alloc),
            opened: 0,
            streams: ByNumber::new(alloc),
            alloc,
        }
    }

    // rule: refused-event
    /// What an event is answered; where it is refused, nothing changes. Refused are: a stream that isn't open
    /// (`NoStream`); a request of the other variant than the stream's (`WrongVariant`), then one that names no type
    /// (`BadMessage`); the deletion of a name that isn't live (`NotFound`); a stream or a write more than can be
    /// counted (`CounterSpent`); a response more than a stream can number (`NonceSpent`); and, last, what finds no
    /// memory (`OutOfMemory`), which `Owes` and `Close` never need, and `Poll` only where it has a response to give.
    pub fn step(&mut self, event: Event) -> Result<Reply, Refusal>
        ensures steps { Gives (λ r. (reply_of r, self.new)) result (step self.old (event_of event)) }
        ensures memory { IfErr result (λ e. e ≡ OutOfMemory → IsShort self.old (event_of event)) }
        ensures err { OnErr result (self.new ≡ self.old) }
    {
        match event {
            Event::Open => self.open(),
            Event::Request(stream, request) => self.request(stream, &request),
            Event::Poll(stream, which) => self.poll(stream, which),
            Event::Owes(stream, which) => self.look(stream, which),
            Event::Close(stream) => self.close(stream),
            Event::Put(resource, groups) => self.put(resource, groups),
            Event::Delete(kind, name) => self.delete(kind, name.as_str()),
            Event::Merge(batch) => self.merge(batch),
            Event::Snapshot => self.snapshot(),
            Event::Rest(kind, names, version, cluster) => {
                self.rest(kind, &names, version.as_str(), cluster.as_str())
            }
            Event::Since(marks) => self.since(marks),
        }
    }

    /// What an event is answered, and an equal answer beside it, for one who tells the answer and keeps a record of it. It
    /// is `step`, but that the event stays with the caller, and that there must be memory for the second answer, too, where
    /// that has a response or a batch; else nothing changes. No body is copied. Where there is no memory for a copy of a put
    /// or a merge, that is told before any other refusal.
    pub fn step_twice(&mut self, event: &Event) -> Result<(Reply, Reply), Refusal>
        ensures steps { Gives (λ p. (reply_of p.0, self.new)) result (step self.old (event_of event.now)) }
        ensures twin { IfOk result (λ p. reply_of p.1 ≡ reply_of p.0) }
        ensures memory { IfErr result (λ e. e ≡ OutOfMemory → IsShortBeside self.old (event_of event.now)) }
        ensures err { OnErr result (self.new ≡ self.old) }
    {
        match event.poll() {
            Some((number, which)) => self.poll_twice(number, which),
            None => self.answer_twice(event),
        }
    }

    // The same of an event that isn't a poll: what has a long answer changes nothing, and so is copied afterwards.
    fn answer_twice(&mut self, event: &Event) -> Result<(Reply, Reply), Refusal>
        requires { poll_in (event_of event.now) ≡ None }
        ensures steps { Gives (λ p. (reply_of p.0, self.new)) result (step self.old (event_of event.now)) }
        ensures twin { IfOk result (λ p. reply_of p.1 ≡ reply_of p.0) }
        ensures memory { IfErr result (λ e. e ≡ OutOfMemory → IsShortBeside self.old (event_of event.now)) }
        ensures err { OnErr result (self.new ≡ self.old) }
    {
        let answer = self.step_beside(event)?;
        let twin = answer.try_copy(self.alloc);
        with_twin(answer, twin)
    }

    // What an event is answered that stays with the caller.
    fn step_beside(&mut self, event: &Event) -> Result<Reply, Refusal>
        ensures steps { Gives (λ r. (reply_of r, self.new)) result (step self.old (event_of event.now)) }
        ensures memory { IfErr result (λ e. e ≡ OutOfMemory → IsShortBeside self.old (event_of event.now)) }
        ensures err { OnErr result (self.new ≡ self.old) }
    {
        match event {
            Event::Open => self.open(),
            Event::Request(stream, request) => self.request(*stream, request),
            Event::Poll(stream, which) => self.poll(*stream, *which),
            Event::Owes(stream, which) => self.look(*stream, *which),
            Event::Close(stream) => self.close(*stream),
            Event::Put(resource, groups) => self.put_beside(resource, groups),
            Event::Delete(kind, name) => self.delete(*kind, name.as_str()),
            Event::Merge(batch) => self.merge_beside(batch),
            Event::Snapshot => self.snapshot(),
            Event::Rest(kind, names, version, cluster) => {
                self.rest(*kind, names, version.as_str(), cluster.as_str())
            }
            Event::Since(marks) => self.since(*marks),
        }
    }

    fn put_beside(&mut self, resource: &AnyResource, groups: &Groups) -> Result<Reply, Refusal>
        ensures steps { Gives (λ r. (reply_of r, self.new)) result (step self.old (events.Put (resource_type resource.now) (named_body resource.now) groups.now)) }
        ensures err { OnErr result (self.new ≡ self.old) }
    {
        let (resource, groups) = two(resource.try_copy(self.alloc), groups.try_copy(self.alloc))?;
        self.put(resource, groups)
    }

    fn merge_beside(&mut self, batch: &Batch) -> Result<Reply, Refusal>
        ensures steps { Gives (λ r. (reply_of r, self.new)) result (step self.old (events.Merge batch.now)) }
        ensures err { OnErr result (self.new ≡ self.old) }
    {
        let batch = batch.try_copy(self.alloc)?;
        self.merge(batch)
    }

    fn open(&mut self) -> Result<Reply, Refusal>
        ensures steps { Gives (λ r. (reply_of r, self.new)) result (step self.old events.Open) }
        ensures memory { IfErr result (λ e. e ≡ OutOfMemory → IsShort self.old events.Open) }
        ensures err { OnErr result (self.new ≡ self.old) }
    {
        if self.opened == MAX_COUNTER {
            return Err(Refusal::CounterSpent);
        }
        let number = self.opened + 1;
        self.streams.insert(number, Stream::opening())?;
        self.opened = number;
        Ok(Reply::Opened(number))
    }

    // rule: refused-event
    fn request(&mut self, number: u64, request: &Request) -> Result<Reply, Refusal>
        ensures steps { Gives (λ r. (reply_of r, self.new)) result (step self.old (events.Request number (message_of request.now))) }
        ensures memory { IfErr result (λ e. e ≡ OutOfMemory → IsShort self.old (events.Request number (message_of request.now))) }
        ensures err { OnErr result (self.new ≡ self.old) }
    {
        let Some(mut stream) = self.streams.replace(number, Stream::opening()) else {
            return Err(Refusal::NoStream);
        };
        let outcome = stream.request(self.alloc, request);
        self.streams.set(number, stream);
        answered(outcome)
    }

    // Has what a stream shares with others made, where its next response shares it. It changes nothing that is seen.
    fn share(&mut self, number: u64)
        ensures { self.new ≡ self.old }
    {
        if let Some(stream) = self.streams.get(number) {
            stream.share(self.alloc, &mut self.held);
        }
    }

    fn poll(&mut self, number: u64, which: Option<TypeName>) -> Result<Reply, Refusal>
        ensures steps { Gives (λ r. (reply_of r, self.new)) result (step self.old (events.Poll number which)) }
        ensures memory { IfErr result (λ e. e ≡ OutOfMemory → IsShort self.old (events.Poll number which)) }
        ensures err { OnErr result (self.new ≡ self.old) }
    {
        let drafts = self.poll_stream(number, which, false);
        polled(drafts)
    }

    fn poll_twice(
        &mut self,
        number: u64,
        which: Option<TypeName>,
    ) -> Result<(Reply, Reply), Refusal>
        ensures steps { Gives (λ p. (reply_of p.0, self.new)) result (step self.old (events.Poll number which)) }
        ensures twin { IfOk result (λ p. reply_of p.1 ≡ reply_of p.0) }
        ensures memory { IfErr result (λ e. e ≡ OutOfMemory → IsShort self.old (events.Poll number which)) }
        ensures err { OnErr result (self.new ≡ self.old) }
    {
        let drafts = self.poll_stream(number, which, true);
        polled_twice(drafts)
    }

    // The response that a poll is answered, and, where it is asked for twice, an equal one beside it.
    fn poll_stream(
        &mut self,
        number: u64,
        which: Option<TypeName>,
        twice: bool,
    ) -> Result<Option<(Draft, Option<Draft>)>, Refusal>
        ensures steps { Gives (λ r. (reply_of r, self.new)) (if_done replies.Polled (firsts result)) (step self.old (events.Poll number which)) }
        ensures twin { IfOk result (λ o. IfSome o (λ p. p.1 ≡ (if twice then Some p.0 else None))) }
        ensures memory { IfErr result (λ e. e ≡ OutOfMemory → IsShort self.old (events.Poll number which)) }
        ensures err { OnErr result (self.new ≡ self.old) }
    {
        self.share(number);
        self.poll_shared(number, which, twice)
    }

    // The same once what clients share was made.
    fn poll_shared(
        &mut self,
        number: u64,
        which: Option<TypeName>,
        twice: bool,
    ) -> Result<Option<(Draft, Option<Draft>)>, Refusal>
        ensures steps { Gives (λ r. (reply_of r, self.new)) (if_done replies.Polled (firsts result)) (step self.old (events.Poll number which)) }
        ensures twin { IfOk result (λ o. IfSome o (λ p. p.1 ≡ (if twice then Some p.0 else None))) }
        ensures memory { IfErr result (λ e. e ≡ OutOfMemory → IsShort self.old (events.Poll number which)) }
        ensures err { OnErr result (self.new ≡ self.old) }
    {
        let Some(mut stream) = self.streams.replace(number, Stream::opening()) else {
            return Err(Refusal::NoStream);
        };
        let drafts = stream.poll(self.alloc, self.replica, &self.held, which, twice);
        self.streams.set(number, stream);
        drafts
    }

    fn look(&self, number: u64, which: Option<TypeName>) -> Result<Reply, Refusal>
        ensures steps { Gives (λ r. (reply_of r, self.now)) result (step self.now (events.Owes number which)) }
        ensures memory { IfErr result (λ e. e ≡ OutOfMemory → IsShort self.now (events.Owes number which)) }
    {
        match self.owes(number, which) {
            Some(owed) => Ok(Reply::Owed(owed)),
            None => Err(Refusal::NoStream),
        }
    }

    fn close(&mut self, number: u64) -> Result<Reply, Refusal>
        ensures steps { Gives (λ r. (reply_of r, self.new)) result (step self.old (events.Close number)) }
        ensures memory { IfErr result (λ e. e ≡ OutOfMemory → IsShort self.old (events.Close number)) }
        ensures err { OnErr result (self.new ≡ self.old) }
    {
        if self.streams.remove(number) {
            Ok(Reply::Closed)
        } else {
            Err(Refusal::NoStream)
        }
    }

    fn put(&mut self, resource: AnyResource, groups: Groups) -> Result<Reply, Refusal>
        ensures steps { Gives (λ r. (reply_of r, self.new)) result (step self.old (events.Put (resource_type resource) (named_body resource) groups)) }
        ensures memory { IfErr result (λ e. e ≡ OutOfMemory → IsShort self.old (events.Put (resource_type resource) (named_body resource) groups)) }
        ensures err { OnErr result (self.new ≡ self.old) }
    {
        let stamp = self.held.put(resource, groups, self.replica)?;
        Ok(Reply::Written(stamp))
    }

    fn delete(&mut self, kind: TypeName, name: &str) -> Result<Reply, Refusal>
        ensures steps { Gives (λ r. (reply_of r, self.new)) result (step self.old (events.Delete kind name.now)) }
        ensures memory { IfErr result (λ e. e ≡ OutOfMemory → IsShort self.old (events.Delete kind name.now)) }
        ensures err { OnErr result (self.new ≡ self.old) }
    {
        let stamp = self.held.delete(kind, name, self.replica)?;
        Ok(Reply::Written(stamp))
    }

    fn merge(&mut self, batch: Batch) -> Result<Reply, Refusal>
        ensures steps { Gives (λ r. (reply_of r, self.new)) result (step self.old (events.Merge batch)) }
        ensures memory { IfErr result (λ e. e ≡ OutOfMemory → IsShort self.old (events.Merge batch)) }
        ensures err { OnErr result (self.new ≡ self.old) }
    {
        let grown = self.held.join_all(self.alloc, batch)?;
        Ok(Reply::Merged(grown))
    }

    fn snapshot(&self) -> Result<Reply, Refusal>
        ensures steps { Gives (λ r. (reply_of r, self.now)) result (step self.now events.Snapshot) }
        ensures memory { IfErr result (λ e. e ≡ OutOfMemory → IsShort self.now events.Snapshot) }
    {
        let batch = self.held.entries(self.alloc)?;
        Ok(Reply::Entries(batch))
    }

    fn rest(
        &self,
        kind: TypeName,
        names: &Vec<String>,
        version: &str,
        cluster: &str,
    ) -> Result<Reply, Refusal>
        ensures steps { Gives (λ r. (reply_of r, self.now)) result (step self.now (events.Rest kind (map string_bytes names.now.items) version.now cluster.now)) }
        ensures memory { IfErr result (λ e. e ≡ OutOfMemory → IsShort self.now (events.Rest kind (map string_bytes names.now.items) version.now cluster.now)) }
    {
        let cluster = ClusterText::new(self.alloc, cluster)?;
        let draft = self.rested(kind, names, version, cluster)?;
        Ok(Reply::Rested(draft))
    }

    // What a client of this cluster is answered without a stream.
    fn rested(
        &self,
        kind: TypeName,
        names: &[String],
        version: &str,
        cluster: ClusterText,
    ) -> Result<Option<SotwDraft>, Refusal>
        ensures ok { IfOk result (λ d. d ≡ rested self.now kind (map string_bytes names.now) version.now cluster) }
        ensures refused { IfErr result (λ e. e ≡ OutOfMemory) }
    {
        let held = &self.held;
        match kind {
            TypeName::Cluster => rested(
                self.alloc,
                self.replica,
                held.cluster.catalogue(),
                names,
                version,
                cluster,
            ),
            TypeName::Endpoint => rested(
                self.alloc,
                self.replica,
                held.endpoint.catalogue(),
                names,
                version,
                cluster,
            ),
            TypeName::Listener => rested(
                self.alloc,
                self.replica,
                held.listener.catalogue(),
                names,
                version,
                cluster,
            ),
            TypeName::Route => rested(
                self.alloc,
                self.replica,
                held.route.catalogue(),
                names,
                version,
                cluster,
            ),
            TypeName::Secret => rested(
                self.alloc,
                self.replica,
                held.secret.catalogue(),
                names,
                version,
                cluster,
            ),
        }
    }

    // rule: marks
    fn since(&self, marks: Marks) -> Result<Reply, Refusal>
        ensures steps { Gives (λ r. (reply_of r, self.now)) result (step self.now (events.Since (counts_of marks))) }
        ensures memory { IfErr result (λ e. e ≡ OutOfMemory → IsShort self.now (events.Since (counts_of marks))) }
    {
        let batch = self.held.since(self.alloc, marks)?;
        Ok(Reply::Changed(batch, self.held.marks()))
    }

    /// All that the replica holds of a type, deletions included, in ascending order of names. Refused only by
    /// `OutOfMemory`.
    pub fn entries(&self, alloc: Global, kind: TypeName) -> Result<Batch, Refusal>
        ensures ok { IfOk result (λ b. b ≡ with_at (each []) kind (finmap.values (at self.now.store kind).entries)) }
        ensures refused { IfErr result (λ e. e ≡ OutOfMemory) }
    {
        self.held.entries_of(alloc, kind)
    }

    /// The counts of changes of all types. It takes no memory.
    pub fn marks(&self) -> Marks
        ensures cluster { result.cluster ≡ self.now.store.cluster.changes }
        ensures endpoint { result.endpoint ≡ self.now.store.endpoint.changes }
        ensures listener { result.listener ≡ self.now.store.listener.changes }
        ensures route { result.route ≡ self.now.store.route.changes }
        ensures secret { result.secret ≡ self.now.store.secret.changes }
    {
        self.held.marks()
    }

    /// An equal replica, with memory of its own. Refused only by `OutOfMemory`.
    pub fn try_copy(&self, alloc: Global) -> Result<Core, Refusal>
        ensures ok { IfOk result (λ c. c ≡ self.now) }
        ensures refused { IfErr result (λ e. e ≡ OutOfMemory) }
    {
        let (held, streams) = two(
            self.held.try_copy(alloc),
            copy_streams(alloc, &self.streams),
        )?;
        Ok(Core {
            replica: self.replica,
            held,
            opened: self.opened,
            streams,
            alloc,
        })
    }

    /// The number of the replica.
    pub fn replica(&self) -> u16
        ensures { result ≡ self.now.replica }
    {
        self.replica
    }

    /// What the replica holds of each type.
    pub fn catalogues(&self) -> &Catalogues
        ensures { result.now ≡ self.now.store }
    {
        &self.held
    }

    // rule: owed
    /// Whether the client of a stream is owed something, of a type or at all; none where the stream isn't open. It
    /// takes no memory.
    pub fn owes(&self, number: u64, which: Option<TypeName>) -> Option<bool>
        ensures { result ≡ option_map (λ s. owes_some self.now.store s (looked_at which)) (finmap.get self.now.streams number) }
    {
        let stream = self.streams.get(number)?;
        Some(stream.owes(&self.held, which))
    }

    // rule: wake-ups
    /// Whether a poll of a stream would give a response, or be refused by `NonceSpent`; none where the stream isn't
    /// open. It takes no memory.
    pub fn due(&self, number: u64) -> Option<bool>
        ensures { result ≡ option_map (λ s. is_some (first_due self.now.store s types)) (finmap.get self.now.streams number) }
    {
        let stream = self.streams.get(number)?;
        Some(stream.sends(&self.held))
    }
}

fn copy_streams(alloc: Global, streams: &ByNumber<Stream>) -> Result<ByNumber<Stream>, Refusal>
    ensures ok { IfOk result (λ m. m ≡ streams.now) }
    ensures refused { IfErr result (λ e. e ≡ OutOfMemory) }
{
    let mut copies = ByNumber::new(alloc);
    for (number, stream) in streams.iter() {
        copies.insert(*number, stream.try_copy(alloc)?)?;
    }
    Ok(copies)
}

fn answered(outcome: Result<Outcome, Refusal>) -> Result<Reply, Refusal>
    ensures { result ≡ if_done replies.Answered outcome }
{
    match outcome {
        Ok(outcome) => Ok(Reply::Answered(outcome)),
        Err(refusal) => Err(refusal),
    }
}

// What a poll is answered, once.
fn polled(drafts: Result<Option<(Draft, Option<Draft>)>, Refusal>) -> Result<Reply, Refusal>
    ensures { result ≡ if_done replies.Polled (firsts drafts) }
{
    match drafts {
        Ok(Some((draft, twin))) => {
            drop(twin);
            Ok(Reply::Polled(Some(draft)))
        }
        Ok(None) => Ok(Reply::Polled(None)),
        Err(refusal) => Err(refusal),
    }
}

// What a poll is answered, twice.
fn polled_twice(
    drafts: Result<Option<(Draft, Option<Draft>)>, Refusal>,
) -> Result<(Reply, Reply), Refusal>
    requires { IfOk drafts (λ o. IfSome o (λ p. p.1 ≡ Some p.0)) }
    ensures first { if_done (λ p. p.0) result ≡ if_done replies.Polled (firsts drafts) }
    ensures twin { IfOk result (λ p. reply_of p.1 ≡ reply_of p.0) }
{
    match drafts {
        Ok(Some((draft, twin))) => match twin {
            Some(twin) => Ok((Reply::Polled(Some(draft)), Reply::Polled(Some(twin)))),
            None => unreachable!(),
        },
        Ok(None) => Ok((Reply::Polled(None), Reply::Polled(None))),
        Err(refusal) => Err(refusal),
    }
}

// A value and its copy, where there is one.
fn with_twin<V: Drop>(value: V, copy: Result<V, Refusal>) -> Result<(V, V), Refusal>
    ensures value { IfOk result (λ p. p.0 ≡ value) }
    ensures copy { IfOk result (λ p. copy ≡ Ok p.1) }
    ensures refused { IfErr result (λ e. copy ≡ Err e) }
{
    let copy = copy?;
    Ok((value, copy))
}

// The values of two calls that only `OutOfMemory` refuses, where none of them is. Of type parameters, a drop is one step
// to the proof.
fn two<A: Drop, B: Drop>(
    held: Result<A, Refusal>,
    streams: Result<B, Refusal>,
) -> Result<(A, B), Refusal>
    requires held { IfErr held (λ e. e ≡ OutOfMemory) }
    requires streams { IfErr streams (λ e. e ≡ OutOfMemory) }
    ensures held { IfOk result (λ p. held ≡ Ok p.0) }
    ensures streams { IfOk result (λ p. streams ≡ Ok p.1) }
    ensures refused { IfErr result (λ e. e ≡ OutOfMemory) }
{
    Ok((held?, streams?))
}
