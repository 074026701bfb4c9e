// References of resources that lead nowhere, as they are told while a server runs, and in the answer to a dry run.
ghost use Rattle.std.specs.Prelude.{◌≡◌, map, string_bytes, IfOk, OnOk};
ghost use Rattle.std.specs.FinMap as finmap;
ghost use Rattle.std.specs.Option.{option_map};
ghost use Rattle.xds_core.specs.Seen.{event_of};
ghost use Rattle.xds_resource.specs.Any.{any_write, named_body, resource_type};
ghost use Rattle.xds_resource.specs.Names.{put_some};
ghost use Rattle.xds_upkeep.specs.Lines.{dangling_line};
ghost use Rattle.xds_upkeep.specs.Linting.{all_applied, applied, lines_after, lines_of, looked_event, looked_write, new_lines, marked};

use crate::moves::Moves;
use crate::opening::entries_of;
use crate::sourcing::{live_in, sender_of};
use crate::storing::owned;
use crossbeam_channel::{Sender, unbounded};
use std::alloc::Global;
use std::sync::{Arc, Wait};
use std::time::Duration;
use xds_changes::order::Order;
use xds_core::{Event, Marks};
use xds_machine::machine::Runtime;
use xds_machine::threads::{share, start_worker};
use xds_message::Batch;
use xds_notes::{Ending, Note};
use xds_resource::{
    AnyResource, AnyWrite, Groups, NameMap, Refusal, Resource, ResourceType, Stamp, Write, for_any,
};
use xds_sources::{Dangling, dangling_in, key_of};

// After how many seconds it is looked again whether references lead nowhere.
const LOOK_SECONDS: u64 = 1;

/// The line of a reference that leads nowhere, without its end.
pub fn dangling_line(alloc: Global, one: &Dangling) -> Result<String, Refusal>
    ensures { IfOk result (λ t. string_bytes t ≡ dangling_line (string_bytes one.now.from) (string_bytes one.now.to)) }
{
    let from = one.from.as_str();
    let to = one.to.as_str();
    Ok(format!(in alloc; "{from} refers to {to}, which isn't held")?)
}

// Lines, each once, in their order.
type LineSet = NameMap<()>;

// The lines of all references that lead nowhere.
fn lines_of(alloc: Global, live: &NameMap<AnyWrite>) -> Result<LineSet, Refusal>
    ensures { IfOk result (λ m. m ≡ lines_of live.now) }
{
    let found = dangling_in(alloc, live)?;
    let mut lines = NameMap::new(alloc);
    for one in &found {
        add(&mut lines, dangling_line(alloc, one)?)?;
    }
    Ok(lines)
}

fn add(lines: &mut LineSet, line: String) -> Result<(), Refusal>
    ensures { OnOk result (lines.new ≡ put_some lines.old (string_bytes line) (marked (string_bytes line))) }
{
    lines.insert(line, ())?;
    Ok(())
}

/// The lines of references that lead nowhere once these changes are made over what is held, and don't before.
pub fn lines_after(alloc: Global, held: &Batch, changes: &Vec<Event>) -> Result<String, Refusal>
    ensures { IfOk result (λ t. string_bytes t ≡ lines_after held.now (map event_of changes.now.items)) }
{
    let mut live = live_in(alloc, held)?;
    let before = lines_of(alloc, &live)?;
    apply_all(alloc, &mut live, changes)?;
    let after = lines_of(alloc, &live)?;
    new_lines(alloc, &before, &after)
}

// Makes changes of what is live, one after another.
fn apply_all(
    alloc: Global,
    live: &mut NameMap<AnyWrite>,
    changes: &Vec<Event>,
) -> Result<(), Refusal>
    ensures { OnOk result (live.new ≡ all_applied live.old (map event_of changes.now.items)) }
{
    for change in changes {
        apply(alloc, live, change)?;
    }
    Ok(())
}

// The lines that weren't there before, with their ends.
fn new_lines(alloc: Global, before: &LineSet, after: &LineSet) -> Result<String, Refusal>
    ensures { IfOk result (λ t. string_bytes t ≡ new_lines before.now (finmap.entries after.now)) }
{
    let mut text = String::new(alloc);
    for (line, _) in after.iter() {
        if before.contains(line.as_str()) {
            continue;
        }
        text.push_str(line.as_str())?;
        text.push_str("\n")?;
    }
    Ok(text)
}

// Makes a put or a deletion of what is live.
fn apply(alloc: Global, live: &mut NameMap<AnyWrite>, change: &Event) -> Result<(), Refusal>
    ensures { OnOk result (live.new ≡ applied live.old (event_of change.now)) }
{
    match change {
        Event::Put(resource, _) => {
            let key = key_of(alloc, resource.type_name(), resource.name())?;
            drop(live.insert(key, write_of(alloc, resource)?)?);
            Ok(())
        }
        Event::Delete(kind, name) => {
            let key = key_of(alloc, *kind, name.as_str())?;
            drop(live.remove(key.as_str()));
            Ok(())
        }
        _ => Ok(()),
    }
}

/// A write that puts a resource. Its stamp and its groups count for nothing.
pub fn put_of<T: ResourceType>(alloc: Global, resource: &Resource<T>) -> Result<Write<T>, Refusal>
    ensures { IfOk result (λ w. w ≡ looked_write resource.now) }
{
    let stamp = Stamp {
        counter: 1,
        writer: 1,
    };
    Ok(Write::put(stamp, resource.try_copy(alloc)?, Groups::none()))
}

// A write that puts a resource.
fn write_of(alloc: Global, resource: &AnyResource) -> Result<AnyWrite, Refusal>
    ensures { IfOk result (λ w. w ≡ any_write (resource_type resource.now) (looked_write (named_body resource.now))) }
{
    Ok(for_any!(resource, AnyResource(resource) => AnyWrite of put_of(alloc, resource)?))
}

/// A copy of a put or a deletion, which is looked at. No body is copied.
pub fn copy_of(alloc: Global, change: &Event) -> Result<Option<Event>, Refusal>
    ensures { IfOk result (λ o. option_map event_of o ≡ looked_event (event_of change.now)) }
{
    match change {
        Event::Put(resource, _) => Ok(Some(Event::Put(resource.try_copy(alloc)?, Groups::none()))),
        Event::Delete(kind, name) => Ok(Some(Event::Delete(
            *kind,
            String::from_str(alloc, name.as_str())?,
        ))),
        _ => Ok(None),
    }
}

/// Starts the thread that tells references that lead nowhere at the first replica.
pub fn start_linting<R: Runtime>(
    rt: &R,
    alloc: Global,
    moves: &Option<Arc<Moves>>,
    replicas: &[Sender<Order>],
    ending: &Arc<Ending>,
) -> Result<(), Refusal> {
    let (Some(moves), Some(orders)) = (moves, replicas.first()) else {
        return Ok(());
    };
    let owned = match (share(moves), sender_of(orders), share(ending)) {
        (Ok(moves), Ok(orders), Ok(ending)) => Ok((moves, orders, ending)),
        _ => Err(Refusal::OutOfMemory),
    };
    start_worker(rt, owned, move |rt, (moves, orders, ending)| {
        follow_references(rt, alloc, &moves, &orders, &ending);
    })
}

// What is known of the references that lead nowhere.
struct KnownReferences {
    // Those that were told, and those that are told if they still lead nowhere at the next look.
    told: LineSet,
    waiting: LineSet,
    // The counts of changes at the last look, if there was one.
    marks: Option<Marks>,
}

// Written out: docs/PROVING.md, "Drops".
impl Drop for KnownReferences {
    fn drop(self) {
        let KnownReferences {
            told: _,
            waiting: _,
            marks: _,
        } = self;
    }
}

fn follow_references<R: Runtime>(
    rt: &R,
    alloc: Global,
    moves: &Moves,
    orders: &Sender<Order>,
    ending: &Ending,
) {
    let mut known = KnownReferences {
        told: NameMap::new(alloc),
        waiting: NameMap::new(alloc),
        marks: None,
    };
    for _ in rt.forever() {
        if ending
            .wait_within(rt, Duration::from_secs(LOOK_SECONDS))
            .is_some()
        {
            return;
        }
        let is_due = match known.marks {
            Some(marks) => moves.is_past(rt, 1, marks) || are_any(&known.waiting),
            None => true,
        };
        if is_due {
            let _ = look(rt, alloc, &mut known, orders, ending);
        }
    }
}

// Whether there are any lines.
fn are_any(lines: &LineSet) -> bool {
    lines.iter().len() > 0
}

// Tells the references that lead nowhere, and did at the last look, and weren't told.
fn look<R: Wait>(
    rt: &R,
    alloc: Global,
    known: &mut KnownReferences,
    orders: &Sender<Order>,
    ending: &Ending,
) -> Result<(), Refusal> {
    let marks = marks_of(rt, alloc, orders)?;
    let held = entries_of(rt, alloc, orders)?;
    let live = live_in(alloc, &held);
    drop(held);
    let live = live?;
    let lines = lines_of(alloc, &live);
    drop(live);
    let lines = lines?;
    let mut told = NameMap::new(alloc);
    let mut waiting = NameMap::new(alloc);
    for (line, _) in lines.iter() {
        let copy = owned(alloc, line.as_str())?;
        if known.told.contains(line.as_str()) {
            add(&mut told, copy)?;
        } else if known.waiting.contains(line.as_str()) {
            let text = owned(alloc, line.as_str())?;
            ending.announce(rt, Note::Said(text));
            add(&mut told, copy)?;
        } else {
            add(&mut waiting, copy)?;
        }
    }
    known.told = told;
    known.waiting = waiting;
    known.marks = Some(marks);
    Ok(())
}

// The counts of changes of a replica, once it has done what it was asked before.
fn marks_of<R: Wait>(rt: &R, alloc: Global, orders: &Sender<Order>) -> Result<Marks, Refusal> {
    let (to, from) = unbounded(alloc)?;
    let _ = orders.send(rt, Order::Marks(to));
    match from.recv(rt) {
        Ok(marks) => marks,
        Err(_) => Err(Refusal::Device),
    }
}
