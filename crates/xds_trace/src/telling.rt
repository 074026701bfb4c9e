// What a replica did, as lines of a trace.
ghost use Rattle.std.specs.Prelude.{◌≡◌, ◌<◌, ◌++◌, [], ◌∷◌, map, length, get_or, true, string_bytes, IfOk, IfErr, OnOk, All, ℕ, ⊤};
ghost use Rattle.std.specs.Arc.{arc_str_bytes};
ghost use Rattle.xds_resource.specs.declared.refusal.Refusal.TheVariants.{OutOfMemory};
ghost use Rattle.xds_resource.specs.Any.{resource_type, named_body};
ghost use Rattle.xds_resource.specs.PerType.{at};
ghost use Rattle.xds_resource.specs.declared.types.TypeName.{TypeName};
ghost use Rattle.xds_resource.specs.Resources.{is_valid_name as is_valid, written, deleted, IsCanonical, IsWritable};
ghost use Rattle.xds_resource.specs.Writes.{StampedWrite};
ghost use Rattle.xds_message.specs.declared.draft.Draft.TheVariants as drafts;
ghost use Rattle.xds_check.specs.declared.line.Line.TheVariants as forms;
ghost use Rattle.xds_core.specs.StreamsSeen.{message_of};
ghost use Rattle.xds_core.specs.Legal.{IsLegal};
ghost use Rattle.xds_core.specs.Seen.{event_of, reply_of};
ghost use Rattle.xds_core.specs.Steps.{fresh};
ghost use Rattle.xds_trace.specs.Making.{own_names, any_write, asking_of, answer_of, write_line, batch_lines, open_lines, put_lines, delete_lines, response_lines, idle_lines, answered_lines, lines_of, IsSound};
ghost use Rattle.xds_trace.specs.Telling.{HoldsResources, IsToldDeletion, IsToldResponse, IsToldAnswer, IsTold, IsSoundRecord, UnlessShort, Tells, TellsAll, KeepsTheRules, record_of};

use std::alloc::Global;
use std::sync::ArcStr;
use xds_check::{Answer, Asking, Line, Trace};
use xds_core::{Event, Record, Reply, Request};
use xds_message::{Batch, DeltaDraft, Draft, SotwDraft};
use xds_resource::laws::resources_are_canonical;
use xds_resource::resource::is_valid_name;
use xds_resource::{
    AnyResource, AnyWrite, Groups, Refusal, Resource, ResourceType, Stamp, TypeName, Write,
};

// ---- values

fn sotw_answer(alloc: Global, draft: &SotwDraft) -> Result<Answer, Refusal>
    ensures { Tells (λ a. a) (answer_of own_names (drafts.Sotw draft.now)) (HoldsResources (drafts.Sotw draft.now)) result }
{
    match draft.message(alloc) {
        Ok(message) => Answer::of_sotw(alloc, message),
        Err(refusal) => Err(refusal),
    }
}

fn delta_answer(alloc: Global, draft: &DeltaDraft) -> Result<Answer, Refusal>
    ensures { Tells (λ a. a) (answer_of own_names (drafts.Delta draft.now)) (HoldsResources (drafts.Delta draft.now)) result }
{
    match draft.message(alloc) {
        Ok(message) => Answer::of_delta(alloc, message),
        Err(refusal) => Err(refusal),
    }
}

// A response, with the names that its bodies give.
fn answer(alloc: Global, draft: &Draft) -> Result<Answer, Refusal>
    ensures { Tells (λ a. a) (answer_of own_names draft.now) (HoldsResources draft.now) result }
{
    match draft {
        Draft::Sotw(draft) => sotw_answer(alloc, draft),
        Draft::Delta(draft) => delta_answer(alloc, draft),
    }
}

fn asking(alloc: Global, request: &Request) -> Result<Asking, Refusal>
    ensures ok { IfOk result (λ m. m ≡ asking_of (message_of request.now)) }
    ensures refused { IfErr result (λ e. e ≡ OutOfMemory) }
{
    match request {
        Request::Sotw(request) => Ok(Asking::Sotw(request.try_copy(alloc)?)),
        Request::Delta(request) => Ok(Asking::Delta(request.try_copy(alloc)?)),
    }
}

// The write that puts a resource of one type.
fn put_of<T: ResourceType>(
    alloc: Global,
    stamp: Stamp,
    resource: &Resource<T>,
    groups: &Groups,
) -> Result<Write<T>, Refusal>
    ensures ok { IfOk result (λ w. w ≡ written stamp.counter stamp.writer resource.now groups.now) }
    ensures refused { IfErr result (λ e. e ≡ OutOfMemory) }
{
    let resource = resource.try_copy(alloc)?;
    Ok(Write::put(stamp, resource, groups.try_copy(alloc)?))
}

// The write that puts a resource.
fn put_write(
    alloc: Global,
    stamp: Stamp,
    resource: &AnyResource,
    groups: &Groups,
) -> Result<AnyWrite, Refusal>
    ensures ok { IfOk result (λ w. w
        ≡ any_write (resource_type resource.now) (written stamp.counter stamp.writer (named_body resource.now) groups.now)) }
    ensures refused { IfErr result (λ e. e ≡ OutOfMemory) }
{
    Ok(match resource {
        AnyResource::Cluster(resource) => AnyWrite::Cluster(put_of(
            alloc, stamp, resource, groups,
        )?),
        AnyResource::Endpoint(resource) => AnyWrite::Endpoint(put_of(
            alloc, stamp, resource, groups,
        )?),
        AnyResource::Listener(resource) => AnyWrite::Listener(put_of(
            alloc, stamp, resource, groups,
        )?),
        AnyResource::Route(resource) => AnyWrite::Route(put_of(alloc, stamp, resource, groups)?),
        AnyResource::Secret(resource) => AnyWrite::Secret(put_of(alloc, stamp, resource, groups)?),
    })
}

// The write that deletes the resource of a name.
fn deletion_of(kind: TypeName, stamp: Stamp, name: ArcStr<Global>) -> AnyWrite
    requires { is_valid (arc_str_bytes name) ≡ true }
    ensures { result ≡ any_write kind (deleted stamp.counter stamp.writer (arc_str_bytes name)) }
{
    match kind {
        TypeName::Cluster => AnyWrite::Cluster(Write::deletion(stamp, name)),
        TypeName::Endpoint => AnyWrite::Endpoint(Write::deletion(stamp, name)),
        TypeName::Listener => AnyWrite::Listener(Write::deletion(stamp, name)),
        TypeName::Route => AnyWrite::Route(Write::deletion(stamp, name)),
        TypeName::Secret => AnyWrite::Secret(Write::deletion(stamp, name)),
    }
}

// What is held as a write can be written.
fn is_writable<T: ResourceType>(write: &Write<T>)
    ensures { IsWritable T.TYPE write.now }
{
    drop(write.shared_body());
}

// A write of a batch can be written, too.
fn is_writable_at(batch: &Batch, kind: TypeName, index: usize)
    requires { index < length (at batch.now kind) }
    ensures { (d : StampedWrite) → IsWritable kind (get_or (at batch.now kind) index d) }
{
    match kind {
        TypeName::Cluster => is_writable(&batch.cluster[index]),
        TypeName::Endpoint => is_writable(&batch.endpoint[index]),
        TypeName::Listener => is_writable(&batch.listener[index]),
        TypeName::Route => is_writable(&batch.route[index]),
        TypeName::Secret => is_writable(&batch.secret[index]),
    }
}

// ---- lines

// Adds a line at the end.
fn push(lines: &mut Vec<Line>, line: Line) -> Result<(), Refusal>
    ensures { Tells (λ _. lines.new.items) (lines.old.items ++ line ∷ []) ⊤ result }
{
    match lines.push(line) {
        Ok(()) => Ok(()),
        Err(_) => Err(Refusal::OutOfMemory),
    }
}

fn push_open(lines: &mut Vec<Line>, reply: &Reply) -> Result<(), Refusal>
    ensures { Tells (λ _. lines.new.items) (lines.old.items ++ open_lines (reply_of reply.now)) ⊤ result }
{
    match reply {
        Reply::Opened(stream) => push(lines, Line::Open(*stream)),
        _ => Ok(()),
    }
}

fn push_request(
    alloc: Global,
    lines: &mut Vec<Line>,
    stream: u64,
    request: &Request,
) -> Result<(), Refusal>
    ensures { Tells (λ _. lines.new.items) (lines.old.items ++ forms.Request stream (asking_of (message_of request.now)) ∷ []) ⊤ result }
{
    match asking(alloc, request) {
        Ok(request) => push(lines, Line::Request(stream, request)),
        Err(refusal) => Err(refusal),
    }
}

fn push_response(
    alloc: Global,
    lines: &mut Vec<Line>,
    stream: u64,
    reply: &Reply,
) -> Result<(), Refusal>
    ensures { Tells (λ _. lines.new.items) (lines.old.items ++ response_lines own_names stream (reply_of reply.now)) (IsToldResponse (reply_of reply.now)) result }
{
    match reply {
        Reply::Polled(Some(draft)) => match answer(alloc, draft) {
            Ok(response) => push(lines, Line::Response(stream, response)),
            Err(refusal) => Err(refusal),
        },
        _ => Ok(()),
    }
}

// rule: awaited-names
fn push_idle(
    lines: &mut Vec<Line>,
    stream: u64,
    kind: Option<TypeName>,
    reply: &Reply,
) -> Result<(), Refusal>
    ensures { Tells (λ _. lines.new.items) (lines.old.items ++ idle_lines stream kind (reply_of reply.now)) ⊤ result }
{
    match (kind, reply) {
        (Some(kind), Reply::Owed(false)) => push(lines, Line::Idle(stream, kind)),
        _ => Ok(()),
    }
}

fn push_put(
    alloc: Global,
    lines: &mut Vec<Line>,
    resource: &AnyResource,
    groups: &Groups,
    reply: &Reply,
) -> Result<(), Refusal>
    ensures told { Tells (λ _. lines.new.items)
        (lines.old.items ++ put_lines (resource_type resource.now) (named_body resource.now) groups.now (reply_of reply.now)) ⊤ result }
    ensures sound { IsCanonical (resource_type resource.now) (named_body resource.now) }
{
    resources_are_canonical(resource);
    match reply {
        Reply::Written(stamp) => match put_write(alloc, *stamp, resource, groups) {
            Ok(write) => push(lines, Line::Write(write)),
            Err(refusal) => Err(refusal),
        },
        _ => Ok(()),
    }
}

fn push_deletion(
    alloc: Global,
    lines: &mut Vec<Line>,
    kind: TypeName,
    name: &str,
    stamp: Stamp,
) -> Result<(), Refusal>
    ensures { Tells (λ _. lines.new.items) (lines.old.items ++ write_line kind (deleted stamp.counter stamp.writer name.now) ∷ [])
        (is_valid name.now ≡ true) result }
{
    if !is_valid_name(name) {
        return Err(Refusal::BadTrace);
    }
    match ArcStr::from_str(alloc, name) {
        Ok(name) => push(lines, Line::Write(deletion_of(kind, stamp, name))),
        Err(_) => Err(Refusal::OutOfMemory),
    }
}

fn push_delete(
    alloc: Global,
    lines: &mut Vec<Line>,
    kind: TypeName,
    name: &str,
    reply: &Reply,
) -> Result<(), Refusal>
    ensures { Tells (λ _. lines.new.items) (lines.old.items ++ delete_lines kind name.now (reply_of reply.now))
        (IsToldDeletion name.now (reply_of reply.now)) result }
{
    match reply {
        Reply::Written(stamp) => push_deletion(alloc, lines, kind, name, *stamp),
        _ => Ok(()),
    }
}

// Adds the writes of one type.
fn push_writes(
    alloc: Global,
    lines: &mut Vec<Line>,
    batch: &Batch,
    kind: TypeName,
) -> Result<(), Refusal>
    ensures told { Tells (λ _. lines.new.items) (lines.old.items ++ map (write_line kind) (at batch.now kind)) ⊤ result }
    ensures sound { OnOk result (All (IsWritable kind) (at batch.now kind)) }
    ensures refused { IfErr result (λ e. e ≡ OutOfMemory) }
{
    for index in 0..batch.len_of(kind) {
        is_writable_at(batch, kind, index);
        let write = batch.write_at(alloc, kind, index)?;
        lines.push(Line::Write(write))?;
    }
    Ok(())
}

fn push_batch(alloc: Global, lines: &mut Vec<Line>, batch: &Batch) -> Result<(), Refusal>
    ensures told { Tells (λ _. lines.new.items) (lines.old.items ++ batch_lines batch.now) ⊤ result }
    ensures sound { OnOk result ((t : TypeName) → All (IsWritable t) (at batch.now t)) }
    ensures refused { IfErr result (λ e. e ≡ OutOfMemory) }
{
    push_writes(alloc, lines, batch, TypeName::Cluster)?;
    push_writes(alloc, lines, batch, TypeName::Endpoint)?;
    push_writes(alloc, lines, batch, TypeName::Listener)?;
    push_writes(alloc, lines, batch, TypeName::Route)?;
    push_writes(alloc, lines, batch, TypeName::Secret)
}

// Adds the lines of an event that was answered so.
fn push_answered(
    alloc: Global,
    lines: &mut Vec<Line>,
    event: &Event,
    reply: &Reply,
) -> Result<(), Refusal>
    ensures told { Tells (λ _. lines.new.items) (lines.old.items ++ answered_lines own_names (event_of event.now) (reply_of reply.now))
        (IsToldAnswer (event_of event.now) (reply_of reply.now)) result }
    ensures sound { UnlessShort result (IsSound (event_of event.now)) }
{
    match event {
        Event::Open => push_open(lines, reply),
        Event::Request(stream, request) => push_request(alloc, lines, *stream, request),
        Event::Poll(stream, _) => push_response(alloc, lines, *stream, reply),
        Event::Owes(stream, kind) => push_idle(lines, *stream, *kind, reply),
        Event::Close(stream) => push(lines, Line::Close(*stream)),
        Event::Put(resource, groups) => push_put(alloc, lines, resource, groups, reply),
        Event::Delete(kind, name) => push_delete(alloc, lines, *kind, name.as_str(), reply),
        Event::Merge(batch) => push_batch(alloc, lines, batch),
        Event::Snapshot => Ok(()),
        Event::Rest(_, _, _, _) => Ok(()),
        Event::Since(_) => Ok(()),
    }
}

/// Adds the lines of a record at the end of others. Refused as `trace_of` is.
pub fn push_record(alloc: Global, lines: &mut Vec<Line>, made: &Record) -> Result<(), Refusal>
    ensures told { Tells (λ _. lines.new.items) (lines.old.items ++ lines_of own_names (record_of made.now)) (IsTold (record_of made.now)) result }
    ensures sound { UnlessShort result (IsSoundRecord (record_of made.now)) }
{
    match &made.answer {
        Ok(reply) => push_answered(alloc, lines, &made.event, reply),
        Err(_) => Ok(()),
    }
}

/// The trace of what a replica did: the lines of each record, in order. A response's bodies go by the names that they give. The
/// trace of what a replica did from its start breaks no rule, nor does it with lines at its end which say truly that nothing is
/// owed. Refused by `OutOfMemory`; and by `BadTrace` where a response states what is no resource of its type, or what was deleted
/// has a name that no resource may have, as no replica's records do.
pub fn trace_of(alloc: Global, records: &[Record]) -> Result<Trace, Refusal>
    ensures told { TellsAll (λ t. t) (map record_of records.now) result }
    ensures keeps { IfOk result (KeepsTheRules (map record_of records.now)) }
    ensures legal { (replica : ℕ) → IsLegal (fresh replica) (map record_of records.now) → IfErr result (λ e. e ≡ OutOfMemory) }
{
    match all_lines(alloc, records) {
        Ok(lines) => Ok(Trace::of_lines(lines)),
        Err(refusal) => Err(refusal),
    }
}

// The lines of all records.
fn all_lines(alloc: Global, records: &[Record]) -> Result<Vec<Line>, Refusal>
    ensures told { TellsAll (λ v. v.items) (map record_of records.now) result }
    ensures sound { OnOk result (All IsSoundRecord (map record_of records.now)) }
{
    let mut lines = Vec::new(alloc);
    for record in records {
        match push_record(alloc, &mut lines, record) {
            Ok(()) => {}
            Err(refusal) => return Err(refusal),
        }
    }
    Ok(lines)
}
