// A folder whose resources are all that shall be held of what came from it: what it says at the start, and as it changes.
ghost use Rattle.std.specs.Prelude.{◌≡◌, ◌≤◌, max, map, Ok, IfOk, OnOk};
ghost use Rattle.xds_resource.specs.PerType.{at};
ghost use Rattle.xds_changes.specs.Loads.{made_by};
ghost use Rattle.xds_sources.specs.Differences.{edit_of};
ghost use Rattle.xds_upkeep.specs.Linting.{live_in, with_any, with_writes};
ghost use Rattle.xds_upkeep.specs.Sourcing.{all_made, edit_event, made_over};

use crate::opening::entries_of;
use crate::refused::refused_text;
use crossbeam_channel::{Sender, unbounded};
use std::alloc::Global;
use std::collections::BTreeSet;
use std::mem;
use std::sync::{Arc, Mutex, Wait};
use std::time::{Clock, Duration};
use xds_changes::change::Change;
use xds_changes::made::Made;
use xds_changes::order::Order;
use xds_core::{Catalogues, Event};
use xds_machine::folder::{ReadsFolders, files_in, sight_in};
use xds_machine::machine::Runtime;
use xds_machine::threads::{share, start_worker};
use xds_message::Batch;
use xds_notes::{Ending, Fault, Note};
use xds_resource::{AnyWrite, Groups, NameMap, Refusal, TypeName};
use xds_sources::{
    FileResource, SourceChange, SourceFault, SourceFile, Wrong, difference, key_of, read_sources,
};

// After how many seconds it is looked again whether the folder has changed.
const LOOK_SECONDS: u64 = 1;

/// A folder that resources come from, as far as it is read and what it says is made.
pub struct Source {
    path: String,
    state: Mutex<SourcingState>,
}

struct SourcingState {
    // The resources that came from it, by type and name.
    came: BTreeSet<String>,
    // How its files lay when they were read last, and when they were looked at last.
    read: String,
    seen: String,
    // What is wrong in it, where something is.
    wrong: Option<String>,
    // How many resources it says, how often what it says was made, and how often something was wrong.
    resources: u64,
    made: u64,
    faults: u64,
}

// Written out: docs/PROVING.md, "Drops".
impl Drop for SourcingState {
    fn drop(self) {
        let SourcingState {
            came: _,
            read: _,
            seen: _,
            wrong: _,
            resources: _,
            made: _,
            faults: _,
        } = self;
    }
}

// Written out: docs/PROVING.md, "Drops".
impl Drop for Source {
    fn drop(self) {
        let Source { path: _, state: _ } = self;
    }
}

/// What a folder says: its resources by type and name, and how its files lay then.
#[derive(Drop)]
pub struct FolderContents {
    wanted: NameMap<FileResource>,
    sight: String,
}

/// What a folder says, or a text of what is wrong in it.
pub fn said_by<R: ReadsFolders>(
    rt: &R,
    alloc: Global,
    path: &str,
) -> Result<Result<FolderContents, String>, Refusal> {
    let sight = match sight_in(rt, alloc, path) {
        Ok(sight) => sight,
        Err(unread) => return Ok(Err(unread.text(alloc, path)?)),
    };
    let files = match files_in(rt, alloc, path) {
        Ok(files) => files,
        Err(unread) => {
            drop(sight);
            return Ok(Err(unread.text(alloc, path)?));
        }
    };
    match read_sources(alloc, files.as_slice()) {
        Ok(wanted) => Ok(Ok(FolderContents { wanted, sight })),
        Err(fault) => {
            drop(sight);
            Ok(Err(fault_text(alloc, path, files.as_slice(), &fault)?))
        }
    }
}

// How a fault of a file is told.
fn fault_text(
    alloc: Global,
    path: &str,
    files: &[SourceFile],
    fault: &SourceFault,
) -> Result<String, Refusal> {
    let name = name_at(files, fault.file);
    let place = fault.place.text(alloc)?;
    let place = place.as_str();
    let first = match &fault.wrong {
        Wrong::Twice(_, _, first) => name_at(files, *first),
        _ => "",
    };
    let wrong = fault.wrong.text(alloc, first)?;
    let wrong = wrong.as_str();
    Ok(format!(in alloc; "{path}/{name}: {place}{wrong}")?)
}

fn name_at(files: &[SourceFile], place: usize) -> &str {
    match files.get(place) {
        Some(file) => file.name.as_str(),
        None => "",
    }
}

/// The writes of live resources of a batch, by type and name. Their texts are shared.
pub fn live_in(alloc: Global, held: &Batch) -> Result<NameMap<AnyWrite>, Refusal>
    ensures { IfOk result (λ m. m ≡ live_in held.now) }
{
    let mut live = NameMap::new(alloc);
    for kind in TypeName::ALL {
        add_live(alloc, &mut live, held, kind)?;
    }
    Ok(live)
}

fn add_live(
    alloc: Global,
    live: &mut NameMap<AnyWrite>,
    held: &Batch,
    kind: TypeName,
) -> Result<(), Refusal>
    ensures { OnOk result (live.new ≡ with_writes kind live.old (at held.now kind)) }
{
    for index in 0..held.len_of(kind) {
        add_write(alloc, live, held.write_at(alloc, kind, index)?)?;
    }
    Ok(())
}

// Adds a write, if it puts a resource.
fn add_write(alloc: Global, live: &mut NameMap<AnyWrite>, write: AnyWrite) -> Result<(), Refusal>
    ensures { OnOk result (live.new ≡ with_any live.old write) }
{
    if write.body().is_none() {
        drop(write);
        return Ok(());
    }
    let key = key_of(alloc, write.type_name(), write.name())?;
    drop(live.insert(key, write)?);
    Ok(())
}

// rule: loaded-first
/// All that is held once what a folder says is made over this, by the replica of this number: exactly the resources of the folder are live.
#[tactic(auto, using(crate::proofs::Making::made_so))]
pub fn made_over(
    alloc: Global,
    world: Batch,
    said: &FolderContents,
    writer: u16,
) -> Result<Batch, Refusal>
    ensures { IfOk result (λ b. made_over (max writer 1) world said.now.wanted ≡ Ok b) }
{
    let live = match live_in(alloc, &world) {
        Ok(live) => live,
        Err(refusal) => {
            drop(world);
            return Err(refusal);
        }
    };
    let changes = difference(alloc, &live, &said.wanted);
    drop(live);
    let mut held = Catalogues::new(alloc);
    held.join_all(alloc, world)?;
    make_all(&mut held, writer.max(1), changes?)?;
    let batch = held.entries(alloc);
    drop(held);
    batch
}

// rule: loaded-first
// Makes changes of a folder, one after another.
fn make_all(held: &mut Catalogues, writer: u16, changes: Vec<SourceChange>) -> Result<(), Refusal>
    requires { 1 ≤ writer }
    ensures { OnOk result (all_made writer held.old (map edit_of changes.items) ≡ Ok held.new) }
{
    for change in changes {
        make(held, writer, change)?;
    }
    Ok(())
}

// rule: loaded-first
fn make(held: &mut Catalogues, writer: u16, change: SourceChange) -> Result<(), Refusal>
    requires { 1 ≤ writer }
    ensures { OnOk result (made_by writer held.old (edit_event (edit_of change)) ≡ Ok held.new) }
{
    match change {
        SourceChange::Put(resource) => {
            drop(held.put(resource, Groups::none(), writer)?);
            Ok(())
        }
        SourceChange::Delete(kind, name) => {
            drop(held.delete(kind, name.as_str(), writer)?);
            Ok(())
        }
    }
}

impl Source {
    /// The folder at this path, of which what it says is made.
    pub fn new(alloc: Global, path: &str, said: FolderContents) -> Result<Source, Refusal> {
        let FolderContents { wanted, sight } = said;
        let came = keys_of(alloc, &wanted);
        let resources = count_of(&wanted);
        drop(wanted);
        Ok(Source {
            path: String::from_str(alloc, path)?,
            state: Mutex::new(SourcingState {
                came: came?,
                seen: String::from_str(alloc, sight.as_str())?,
                read: sight,
                wrong: None,
                resources,
                made: 1,
                faults: 0,
            }),
        })
    }

    // Looks whether the folder has changed, and makes what it says where it has and lies still since the last look.
    fn look<R: Runtime>(&self, rt: &R, alloc: Global, orders: &Sender<Order>, ending: &Ending) {
        if let Err(refusal) = self.try_look(rt, alloc, orders, ending) {
            let path = self.path.as_str();
            let number = refusal.number();
            let name = refusal.name();
            if let Ok(text) = format!(in alloc; "{path}: {number} {name}") {
                self.fail(rt, alloc, text, ending);
            }
        }
    }

    fn try_look<R: Runtime>(
        &self,
        rt: &R,
        alloc: Global,
        orders: &Sender<Order>,
        ending: &Ending,
    ) -> Result<(), Refusal> {
        let path = self.path.as_str();
        let sight = match sight_in(rt, alloc, path) {
            Ok(sight) => sight,
            Err(unread) => {
                let text = unread.text(alloc, path)?;
                self.forget(rt, alloc);
                self.fail(rt, alloc, text, ending);
                return Ok(());
            }
        };
        if !self.is_due(rt, sight) {
            return Ok(());
        }
        match said_by(rt, alloc, path)? {
            Ok(said) => self.take(rt, alloc, said, orders, ending),
            Err(text) => {
                self.note_read(rt, alloc)?;
                self.fail(rt, alloc, text, ending);
                Ok(())
            }
        }
    }

    // Whether the files lie otherwise than when they were read last, and as they lay at the last look.
    fn is_due<R: Wait>(&self, rt: &R, sight: String) -> bool {
        let mut state = self.state.lock(rt);
        if sight.as_str() == state.read.as_str() {
            state.seen = sight;
            return false;
        }
        let lies_still = sight.as_str() == state.seen.as_str();
        state.seen = sight;
        lies_still
    }

    // The files as they lie are read, and aren't read again before they change.
    fn note_read<R: Wait>(&self, rt: &R, alloc: Global) -> Result<(), Refusal> {
        let mut state = self.state.lock(rt);
        let seen = String::from_str(alloc, state.seen.as_str())?;
        state.read = seen;
        Ok(())
    }

    // The files are read at the next look at which they lie still.
    fn forget<R: Wait>(&self, rt: &R, alloc: Global) {
        let read = no_sight(alloc);
        let seen = no_sight(alloc);
        let mut state = self.state.lock(rt);
        state.read = read;
        state.seen = seen;
    }

    // Makes what the folder says, where its files lie as they did.
    fn take<R: Runtime>(
        &self,
        rt: &R,
        alloc: Global,
        said: FolderContents,
        orders: &Sender<Order>,
        ending: &Ending,
    ) -> Result<(), Refusal> {
        let lies_still = match sight_in(rt, alloc, self.path.as_str()) {
            Ok(sight) => sight.as_str() == said.sight.as_str(),
            Err(_) => false,
        };
        if !lies_still {
            drop(said);
            return Ok(());
        }
        let changes = match self.changes_for(rt, alloc, &said, orders) {
            Ok(changes) => changes,
            Err(refusal) => {
                drop(said);
                return Err(refusal);
            }
        };
        let is_any = !changes.is_empty();
        if is_any {
            match made_together(rt, alloc, changes, orders)? {
                Together::All => {}
                Together::Long(fault) => {
                    drop(said);
                    let text = refused_text(alloc, self.path.as_str(), fault)?;
                    self.fail(rt, alloc, text, ending);
                    return Ok(());
                }
                Together::Left => {
                    // Somebody else made a change in between. The next look tries it again.
                    drop(said);
                    return Ok(());
                }
            }
        }
        self.took(rt, alloc, said, is_any, ending)
    }

    // The changes by which exactly what the folder says is held of what came from it.
    fn changes_for<R: Runtime>(
        &self,
        rt: &R,
        alloc: Global,
        said: &FolderContents,
        orders: &Sender<Order>,
    ) -> Result<Vec<Change>, Refusal> {
        let held = entries_of(rt, alloc, orders)?;
        let live = live_in(alloc, &held);
        drop(held);
        let mut live = live?;
        self.keep_own(rt, alloc, &mut live, &said.wanted)?;
        let changes = difference(alloc, &live, &said.wanted);
        drop(live);
        changes_of(alloc, changes?)
    }

    // Takes out of what is held what neither came from the folder nor is said there.
    fn keep_own<R: Wait>(
        &self,
        rt: &R,
        alloc: Global,
        live: &mut NameMap<AnyWrite>,
        wanted: &NameMap<FileResource>,
    ) -> Result<(), Refusal> {
        let mut others = Vec::new(alloc);
        let state = self.state.lock(rt);
        for (key, _) in live.iter() {
            if !state.came.contains(key.as_str()) && !wanted.contains(key.as_str()) {
                others.push(String::from_str(alloc, key.as_str())?)?;
            }
        }
        drop(state);
        for key in &others {
            drop(live.remove(key.as_str()));
        }
        Ok(())
    }

    // What the folder says is made.
    fn took<R: Wait + Clock>(
        &self,
        rt: &R,
        alloc: Global,
        said: FolderContents,
        is_any: bool,
        ending: &Ending,
    ) -> Result<(), Refusal> {
        let FolderContents { wanted, sight } = said;
        let came = keys_of(alloc, &wanted);
        let resources = count_of(&wanted);
        drop(wanted);
        let came = came?;
        let was_wrong = {
            let mut state = self.state.lock(rt);
            state.came = came;
            state.read = sight;
            state.resources = resources;
            if is_any {
                state.made = state.made.saturating_add(1);
            }
            mem::replace(&mut state.wrong, None).is_some()
        };
        if was_wrong {
            let path = self.path.as_str();
            let text = format!(in alloc; "{path}: good again, {resources} resources")?;
            ending.announce(rt, Note::Said(text));
        }
        Ok(())
    }

    // Something is wrong. It is told once.
    fn fail<R: Wait>(&self, rt: &R, alloc: Global, text: String, ending: &Ending) {
        let copy = String::from_str(alloc, text.as_str());
        let is_new = {
            let mut state = self.state.lock(rt);
            let is_new = match &state.wrong {
                Some(wrong) => wrong.as_str() != text.as_str(),
                None => true,
            };
            if is_new {
                state.faults = state.faults.saturating_add(1);
            }
            state.wrong = Some(text);
            is_new
        };
        if is_new {
            if let Ok(text) = copy {
                if let Ok(line) = kept_text(alloc, text) {
                    ending.announce(rt, Note::Said(line));
                }
            }
        }
    }

    /// What is wrong in the folder, or that it goes on, as a text of JSON.
    pub fn status<R: Wait>(&self, rt: &R, alloc: Global) -> Result<String, Refusal> {
        let state = self.state.lock(rt);
        let text = match &state.wrong {
            Some(wrong) => wrong.as_str(),
            None => "goes on",
        };
        let value = serde_json::Value::String(String::from_str(alloc, text)?);
        Ok(value.to_string(alloc)?)
    }

    /// Its numbers, as lines.
    pub fn numbers<R: Wait>(&self, rt: &R, alloc: Global) -> Result<String, Refusal> {
        let (resources, made, faults, failing) = {
            let state = self.state.lock(rt);
            let failing = u64::from(state.wrong.is_some());
            (state.resources, state.made, state.faults, failing)
        };
        Ok(format!(in alloc;
            "# HELP xds_source_resources Resources that the folder says.\n# TYPE xds_source_resources gauge\nxds_source_resources {resources}\n# HELP xds_source_changes_total Changes of the folder that were made.\n# TYPE xds_source_changes_total counter\nxds_source_changes_total {made}\n# HELP xds_source_faults_total Faults that were found in the folder.\n# TYPE xds_source_faults_total counter\nxds_source_faults_total {faults}\n# HELP xds_source_failing Whether something is wrong in the folder.\n# TYPE xds_source_failing gauge\nxds_source_failing {failing}\n"
        )?)
    }
}

// A text by which no files lie, that of an empty folder among them.
fn no_sight(alloc: Global) -> String {
    String::from_str(alloc, "?").unwrap_or(String::new(alloc))
}

fn kept_text(alloc: Global, text: String) -> Result<String, Refusal> {
    let text = text.as_str();
    Ok(format!(in alloc; "{text}; what was held is kept")?)
}

fn keys_of(alloc: Global, wanted: &NameMap<FileResource>) -> Result<BTreeSet<String>, Refusal> {
    let mut keys = BTreeSet::new(alloc);
    for (key, _) in wanted.iter() {
        if keys.insert(String::from_str(alloc, key.as_str())?).is_err() {
            return Err(Refusal::OutOfMemory);
        }
    }
    Ok(keys)
}

fn count_of(wanted: &NameMap<FileResource>) -> u64 {
    wanted.iter().len() as u64
}

// The changes of a folder, as changes of the first replica.
fn changes_of(alloc: Global, changes: Vec<SourceChange>) -> Result<Vec<Change>, Refusal> {
    let mut made = Vec::new(alloc);
    let mut line = 0u64;
    for change in changes {
        line = line.saturating_add(1);
        let event = match change {
            SourceChange::Put(resource) => Event::Put(resource, Groups::none()),
            SourceChange::Delete(kind, name) => Event::Delete(kind, name),
        };
        made.push(Change {
            line,
            replica: 1,
            event,
        })?;
    }
    Ok(made)
}

// What became of changes that were to be made together.
#[derive(Clone, Copy)]
enum Together {
    // All were made.
    All,
    // A response would be too long by one of them.
    Long(Fault),
    // One wasn't made.
    Left,
}

// Makes changes at a replica together.
fn made_together<R: Wait>(
    rt: &R,
    alloc: Global,
    changes: Vec<Change>,
    orders: &Sender<Order>,
) -> Result<Together, Refusal> {
    let (to, from) = match unbounded(alloc) {
        Ok(ends) => ends,
        Err(_) => {
            drop(changes);
            return Err(Refusal::OutOfMemory);
        }
    };
    let _ = orders.send(rt, Order::Sourced(changes, to));
    match from.recv(rt) {
        Ok(Ok(made)) => Ok(all_made(&made)),
        Ok(Err(refusal)) => Err(refusal),
        Err(_) => Err(Refusal::Device),
    }
}

fn all_made(made: &Vec<Made>) -> Together {
    let mut all = Together::All;
    for one in made {
        match one {
            Made::Written(_) => {}
            Made::Refused(fault) if fault.long.is_some() => return Together::Long(*fault),
            Made::Would | Made::Refused(_) | Made::Left => all = Together::Left,
        }
    }
    all
}

/// A share of what orders are sent by.
pub fn sender_of(orders: &Sender<Order>) -> Result<Sender<Order>, Refusal> {
    Ok(orders.clone()?)
}

/// Starts the thread that looks each second whether the folder has changed, and makes what it says at the first replica.
pub fn start_sourcing<R: Runtime>(
    rt: &R,
    alloc: Global,
    source: &Option<Arc<Source>>,
    replicas: &[Sender<Order>],
    ending: &Arc<Ending>,
) -> Result<(), Refusal> {
    let (Some(source), Some(orders)) = (source, replicas.first()) else {
        return Ok(());
    };
    let owned = match (share(source), sender_of(orders), share(ending)) {
        (Ok(source), Ok(orders), Ok(ending)) => Ok((source, orders, ending)),
        _ => Err(Refusal::OutOfMemory),
    };
    start_worker(rt, owned, move |rt, (source, orders, ending)| {
        follow_source(rt, alloc, &source, &orders, &ending);
    })
}

fn follow_source<R: Runtime>(
    rt: &R,
    alloc: Global,
    source: &Source,
    orders: &Sender<Order>,
    ending: &Ending,
) {
    for _ in rt.forever() {
        if ending
            .wait_within(rt, Duration::from_secs(LOOK_SECONDS))
            .is_some()
        {
            return;
        }
        source.look(rt, alloc, orders, ending);
    }
}
