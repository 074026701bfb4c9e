// What a server begins with: the numbers of its replicas, and what is there before anybody is answered.
ghost use Rattle.std.specs.Prelude.{◌≡◌, unwrap_or, is_some};

use crate::server::Serving;
use crate::unbegun::{Unbegun, Unwritten};
use crate::world::{Loaded, made_world, stored_world};
use std::alloc::Global;
use std::fs;
use std::fs::{File, OpenOptions};
use std::net::SocketAddrV4;
use std::os::unix::fs::OpenOptionsExt;
use std::rt::Files;
use std::sync::Arc;
use xds_changes::given::number_over;
use xds_checker::checker::CheckerLink;
use xds_frames::{Counted, read_whole};
use xds_machine::bearing::{NoBearer, bearer_in};
use xds_machine::files::FileFault;
use xds_machine::machine::Runtime;
use xds_machine::stores::FileStore;
use xds_machine::threads::share;
use xds_message::Batch;
use xds_monitor::PRIVATE;
use xds_program::read_writes;
use xds_resource::Refusal;
use xds_store::StoreRefusal;
use xds_upkeep::sourcing::{FolderContents, Source, made_over, said_by};
use xds_upkeep::storing::{Progress, Storage};

/// The files of a server by their names, as far as it has such.
#[derive(Clone, Copy)]
pub struct ServeFiles<'a> {
    /// The folder that traces are recorded into.
    pub record: Option<&'a str>,
    /// The file of which all lines are made before anybody is answered.
    pub load: Option<&'a str>,
    /// The store of its writes.
    pub store: Option<&'a str>,
    /// The file of the stamped writes that it begins with.
    pub writes: Option<&'a str>,
    /// The folder whose resources are all that shall be held of what comes from it.
    pub from: Option<&'a str>,
    /// The file of the token that requests at the operator's port say.
    pub token: Option<&'a str>,
    /// The address of the checker that resources are shown before they are taken, if there is one, and whether they are taken where it is away.
    pub checker: Option<(SocketAddrV4, bool)>,
}

/// What a server begins with.
pub(crate) struct Begun {
    pub serving: Serving,
    /// Whether its replicas have numbers that no run had before, as far as it is known.
    pub is_new: bool,
    /// What each replica merges before anybody is answered, if there is such.
    pub world: Option<Batch>,
    /// Where writes are stored, if they are.
    pub storage: Option<Arc<Storage>>,
    /// What requests at the operator's port say, where they say something.
    pub bearer: Option<String>,
    /// The folder that resources come from, if there is one.
    pub source: Option<Arc<Source>>,
}

// Written out: docs/PROVING.md, "Drops".
impl Drop for Begun {
    fn drop(self) {
        let Begun {
            serving: _,
            is_new: _,
            world: _,
            storage: _,
            bearer: _,
            source: _,
        } = self;
    }
}

impl Begun {
    // The same, where requests at the operator's port say this, and resources come from this folder.
    fn with(self, bearer: Option<String>, source: Option<Arc<Source>>) -> Begun {
        let Begun {
            serving,
            is_new,
            world,
            storage,
            bearer: _,
            source: _,
        } = self;
        Begun {
            serving,
            is_new,
            world,
            storage,
            bearer,
            source,
        }
    }

    /// How far writes are stored, if they are.
    pub(crate) fn progress(&self) -> Result<Option<Arc<Progress>>, Refusal> {
        match &self.storage {
            Some(storage) => Ok(Some(share(&storage.progress)?)),
            None => Ok(None),
        }
    }
}

// rule: loaded-first
/// What a server begins with: of a store new numbers and all writes; over these the stamped writes of a file; over these all lines of
/// another.
pub(crate) fn begin_with<R>(
    rt: &R,
    alloc: Global,
    serving: Serving,
    files: ServeFiles<'_>,
    asks: Option<&CheckerLink>,
) -> Result<Begun, Unbegun>
where
    R: Runtime + Files<File = File>,
{
    let bearer = match files.token {
        Some(file) => Some(bearer_of(rt, alloc, file)?),
        None => None,
    };
    let given = match files.writes {
        Some(file) => Some(writes_in(rt, alloc, file)?),
        None => None,
    };
    let said = match files.from {
        Some(path) => match folder_in(rt, alloc, path) {
            Ok(said) => Some(said),
            Err(fault) => {
                drop(given);
                return Err(fault);
            }
        },
        None => None,
    };
    let load = match files.load {
        Some(file) => Some(Loaded { file, asks }),
        None => None,
    };
    let begun = match files.store {
        Some(path) => begun_stored(rt, alloc, serving, path, given, load, &said),
        None => begun_anew(rt, alloc, serving, given, load, &said),
    };
    match (begun, source_of(alloc, files.from, said)) {
        (Ok(begun), Ok(source)) => Ok(begun.with(bearer, source)),
        (Err(fault), _) => Err(fault),
        (Ok(begun), Err(refusal)) => {
            drop(begun);
            Err(Unbegun::Refused(refusal))
        }
    }
}

// What a folder says.
fn folder_in<R: Runtime>(rt: &R, alloc: Global, path: &str) -> Result<FolderContents, Unbegun> {
    match said_by(rt, alloc, path) {
        Ok(Ok(said)) => Ok(said),
        Ok(Err(text)) => {
            let mut line = text;
            match line.push_str("\n") {
                Ok(()) => Err(Unbegun::Source(line)),
                Err(_) => Err(Unbegun::Refused(Refusal::OutOfMemory)),
            }
        }
        Err(refusal) => Err(Unbegun::Refused(refusal)),
    }
}

// A folder of which what it says is made, if there is one.
fn source_of(
    alloc: Global,
    path: Option<&str>,
    said: Option<FolderContents>,
) -> Result<Option<Arc<Source>>, Refusal> {
    match (path, said) {
        (Some(path), Some(said)) => {
            let source = Source::new(alloc, path, said)?;
            Ok(Some(Arc::new(alloc, source)?))
        }
        _ => Ok(None),
    }
}

// rule: loaded-first
/// What is there from the start, once what a folder says is made over it by the first replica, if there is one.
pub(crate) fn with_folder(
    alloc: Global,
    serving: Serving,
    world: Batch,
    said: &Option<FolderContents>,
) -> Result<Batch, Unbegun> {
    match said {
        Some(said) => match made_over(alloc, world, said, first_number(serving)) {
            Ok(world) => Ok(world),
            Err(refusal) => Err(Unbegun::Refused(refusal)),
        },
        None => Ok(world),
    }
}

// The stamped writes of a file.
fn writes_in<R: Files<File = File>>(rt: &R, alloc: Global, file: &str) -> Result<Batch, Unbegun> {
    let opened = match File::open(rt, file) {
        Ok(opened) => opened,
        Err(error) => return Err(Unbegun::Writes(Unwritten::File(FileFault::of(error.kind())))),
    };
    let bytes = match read_whole(alloc, &mut Counted::new(opened)) {
        Ok(bytes) => bytes,
        Err(refusal) => return Err(Unbegun::Writes(Unwritten::Line(None, refusal))),
    };
    let held = match read_writes(alloc, bytes.as_slice()) {
        Ok(held) => held,
        Err(fault) => {
            let line = Some(fault.line as u64);
            return Err(Unbegun::Writes(Unwritten::Line(line, fault.refusal)));
        }
    };
    drop(bytes);
    let batch = held.entries(alloc);
    drop(held);
    match batch {
        Ok(batch) => Ok(batch),
        Err(refusal) => Err(Unbegun::Refused(refusal)),
    }
}

// What requests at the operator's port say, by the file of its token.
fn bearer_of<R>(rt: &R, alloc: Global, file: &str) -> Result<String, Unbegun>
where
    R: Files<File = File>,
{
    match bearer_in(rt, alloc, file) {
        Ok(bearer) => Ok(bearer),
        Err(NoBearer::File(fault)) => Err(Unbegun::Token(fault)),
        Err(NoBearer::NoToken) => Err(Unbegun::NoToken),
        Err(NoBearer::Refused(refusal)) => Err(Unbegun::Refused(refusal)),
    }
}

// Makes the file of a store that isn't there, so that only who runs the server may read it; its log has the mode of the file. Answers
// whether it did.
fn make_private<R: Files<File = File>>(rt: &R, path: &str) -> bool {
    OpenOptions::new()
        .write(true)
        .create_new(true)
        .mode(PRIVATE)
        .open(rt, path)
        .is_ok()
}

// Removes the file that was made for a store, where what lies beside it lets nobody make one there.
fn unmake<R: Files<File = File>>(rt: &R, path: &str, refusal: StoreRefusal) {
    match refusal {
        StoreRefusal::Gone | StoreRefusal::HotJournal => {
            let _ = fs::remove_file(rt, path);
        }
        _ => {}
    }
}

// Without a store.
fn begun_anew<R>(
    rt: &R,
    alloc: Global,
    serving: Serving,
    given: Option<Batch>,
    load: Option<Loaded<'_>>,
    said: &Option<FolderContents>,
) -> Result<Begun, Unbegun>
where
    R: Runtime + Files<File = File>,
{
    let Some(first) = number_over(serving.first_number, serving.replicas, &given) else {
        drop(given);
        return Err(Unbegun::Writes(Unwritten::Numbers));
    };
    let is_new = serving.first_number.is_some();
    let mut serving = serving;
    serving.first_number = Some(first);
    let is_any = given.is_some() || load.is_some() || said.is_some();
    let world = if is_any {
        Some(made_world(rt, alloc, serving, None, given, load, said)?)
    } else {
        drop(given);
        None
    };
    Ok(Begun {
        serving,
        is_new,
        world,
        storage: None,
        bearer: None,
        source: None,
    })
}

// With a store: all of it is read before anything of it changes, and its numbers are taken, and committed, before one is used.
fn begun_stored<R>(
    rt: &R,
    alloc: Global,
    serving: Serving,
    path: &str,
    given: Option<Batch>,
    load: Option<Loaded<'_>>,
    said: &Option<FolderContents>,
) -> Result<Begun, Unbegun>
where
    R: Runtime + Files<File = File>,
{
    let had_log = rt.has_log(path);
    let is_made = make_private(rt, path);
    let mut store = match rt.open_store(path) {
        Ok(store) => store,
        Err(refusal) => {
            drop(given);
            if is_made {
                unmake(rt, path, refusal);
            }
            return Err(Unbegun::Store(refusal));
        }
    };
    let (world, first) = match stored_world(rt, alloc, &mut store, serving, given, load, said) {
        Ok(world) => world,
        Err(fault) => {
            rt.leave_store(path, store, had_log);
            return Err(fault);
        }
    };
    let mut serving = serving;
    serving.first_number = Some(first);
    match storage_of(alloc, path, store, serving.replicas) {
        Ok(storage) => Ok(Begun {
            serving,
            is_new: true,
            world: Some(world),
            storage: Some(storage),
            bearer: None,
            source: None,
        }),
        Err(refusal) => {
            drop(world);
            Err(Unbegun::Refused(refusal))
        }
    }
}

// rule: new-numbers
/// Takes the numbers of a server's replicas, above those of the replicas that made the given writes, and answers the first.
pub(crate) fn numbers_of(
    store: &mut FileStore,
    serving: Serving,
    given: &Option<Batch>,
) -> Result<u16, Unbegun> {
    let Some(first) = number_over(serving.first_number, serving.replicas, given) else {
        return Err(Unbegun::Writes(Unwritten::Numbers));
    };
    match store.take_numbers_from(first, serving.replicas) {
        Ok(()) => Ok(first),
        Err(StoreRefusal::NumberTaken) if serving.first_number.is_none() => {
            // The next free one is above it.
            match store.take_numbers(serving.replicas) {
                Ok(first) => Ok(first),
                Err(refusal) => Err(Unbegun::Store(refusal)),
            }
        }
        Err(refusal) => Err(Unbegun::Store(refusal)),
    }
}

fn storage_of(
    alloc: Global,
    path: &str,
    store: FileStore,
    replicas: u16,
) -> Result<Arc<Storage>, Refusal> {
    let path = String::from_str(alloc, path)?;
    let progress = Arc::new(alloc, Progress::new(alloc, replicas)?)?;
    Ok(Arc::new(alloc, Storage::new(alloc, path, store, progress))?)
}

// rule: new-numbers
/// The number of the first replica.
pub(crate) fn first_number(serving: Serving) -> u16
    ensures { result ≡ unwrap_or serving.first_number 1 }
{
    match serving.first_number {
        Some(first) => first,
        None => 1,
    }
}
