// What a server holds before anybody is answered: what is stored, given, loaded and said by a folder.
ghost use Rattle.std.specs.Prelude.{◌≡◌, unwrap_or, is_some, IfOk, OnOk, List, ℕ};
ghost use Rattle.std.specs.Prelude.{Option as Maybe};
ghost use Rattle.xds_core.specs.Stores.{all_entries};
ghost use Rattle.xds_changes.specs.Loads.{IsLoaded};
ghost use Rattle.xds_changes.specs.Given.{IsWorldOver, MergesSome};

use crate::beginning::{first_number, numbers_of, with_folder};
use crate::server::Serving;
use crate::unbegun::{Unbegun, checked_line, source_line};
use std::alloc::Global;
use std::fs::File;
use std::io::Read;
use std::rt::Files;
use xds_changes::loading::load;
use xds_checker::checker::CheckerLink;
use xds_checker::validating::first_refused;
use xds_core::Catalogues;
use xds_frames::{Counted, read_whole};
use xds_machine::files::FileFault;
use xds_machine::machine::Runtime;
use xds_machine::stores::FileStore;
use xds_message::Batch;
use xds_notes::End;
use xds_replicas::fitting::start_fault;
use xds_resource::Refusal;
use xds_upkeep::refused::refused_text;
use xds_upkeep::sourcing::FolderContents;

/// A file of lines that are made before anybody is answered, and what a checker of their resources is asked by, if there is one.
#[derive(Clone, Copy)]
pub(crate) struct Loaded<'a> {
    pub(crate) file: &'a str,
    pub(crate) asks: Option<&'a CheckerLink>,
}

// rule: stored
/// All that a store has, and over it what is given, which is stored, too; and the first of the numbers that were taken for it.
pub(crate) fn stored_world<R>(
    rt: &R,
    alloc: Global,
    store: &mut FileStore,
    serving: Serving,
    given: Option<Batch>,
    load: Option<Loaded<'_>>,
    said: &Option<FolderContents>,
) -> Result<(Batch, u16), Unbegun>
where
    R: Runtime + Files<File = File>,
{
    let is_more = given.is_some() || load.is_some() || said.is_some();
    let stored = match store.read_all() {
        Ok(stored) => stored,
        Err(refusal) => {
            drop(given);
            return Err(Unbegun::Store(refusal));
        }
    };
    let first = match numbers_of(store, serving, &given) {
        Ok(first) => first,
        Err(fault) => {
            drop(stored);
            drop(given);
            return Err(fault);
        }
    };
    let mut serving = serving;
    serving.first_number = Some(first);
    let world = made_world(rt, alloc, serving, Some(stored), given, load, said)?;
    if !is_more {
        return Ok((world, first));
    }
    match store.put_batch(&world) {
        Ok(()) => Ok((world, first)),
        Err(refusal) => {
            drop(world);
            Err(Unbegun::Store(refusal))
        }
    }
}

/// What is held at the start: what is stored; over it the given writes; over these what all lines of a file come to; and over that what a
/// folder says. Where it is asked for, it is refused where a response is too long by the file or the folder.
pub(crate) fn made_world<R>(
    rt: &R,
    alloc: Global,
    serving: Serving,
    stored: Option<Batch>,
    given: Option<Batch>,
    load: Option<Loaded<'_>>,
    said: &Option<FolderContents>,
) -> Result<Batch, Unbegun>
where
    R: Runtime + Files<File = File>,
{
    if !serving.refuse_long {
        let world = world_over(rt, alloc, serving, stored, given, load)?;
        return with_folder(alloc, serving, world, said);
    }
    let before = match joined(alloc, &stored, &given) {
        Ok(before) => before,
        Err(refusal) => {
            drop(stored);
            drop(given);
            return Err(Unbegun::Refused(refusal));
        }
    };
    let world = world_over(rt, alloc, serving, stored, given, load);
    let made = match world {
        Ok(world) => with_folder(alloc, serving, world, said),
        Err(fault) => Err(fault),
    };
    let fitting = match made {
        Ok(world) => fitting_world(alloc, serving, &before, world, load),
        Err(fault) => Err(fault),
    };
    drop(before);
    fitting
}

// What is stored, and the given writes.
fn joined(alloc: Global, stored: &Option<Batch>, given: &Option<Batch>) -> Result<Batch, Refusal> {
    let mut held = Catalogues::new(alloc);
    if let Err(refusal) = both_joined(alloc, &mut held, stored, given) {
        drop(held);
        return Err(refusal);
    }
    let batch = held.entries(alloc);
    drop(held);
    batch
}

fn both_joined(
    alloc: Global,
    held: &mut Catalogues,
    stored: &Option<Batch>,
    given: &Option<Batch>,
) -> Result<(), Refusal> {
    join_copy(alloc, held, stored)?;
    join_copy(alloc, held, given)
}

// Joins a copy of a batch, if there is one.
fn join_copy(alloc: Global, held: &mut Catalogues, batch: &Option<Batch>) -> Result<(), Refusal> {
    match batch {
        Some(batch) => join_some(alloc, held, Some(batch.try_copy(alloc)?)),
        None => Ok(()),
    }
}

// What is held at the start, unless a response is too long that was shorter by what was there before.
fn fitting_world(
    alloc: Global,
    serving: Serving,
    before: &Batch,
    world: Batch,
    load: Option<Loaded<'_>>,
) -> Result<Batch, Unbegun> {
    let of = match load {
        Some(loaded) => loaded.file,
        None => "the folder",
    };
    match start_fault(alloc, first_number(serving), before, &world) {
        Ok(None) => Ok(world),
        Ok(Some(fault)) => {
            drop(world);
            Err(source_line(refused_text(alloc, of, fault)))
        }
        Err(refusal) => {
            drop(world);
            Err(Unbegun::Refused(refusal))
        }
    }
}

// What is held at the start: what is stored; over it the given writes; over these what all lines of a file come to.
fn world_over<R>(
    rt: &R,
    alloc: Global,
    serving: Serving,
    stored: Option<Batch>,
    given: Option<Batch>,
    load: Option<Loaded<'_>>,
) -> Result<Batch, Unbegun>
where
    R: Runtime + Files<File = File>,
    ensures { IfOk result (IsWorldOver (unwrap_or serving.first_number 1) serving.replicas stored given (is_some load.entry)) }
{
    let mut held = Catalogues::new(alloc);
    if let Err(refusal) = join_some(alloc, &mut held, stored) {
        drop(held);
        drop(given);
        return Err(Unbegun::Refused(refusal));
    }
    if let Err(refusal) = join_some(alloc, &mut held, given) {
        drop(held);
        return Err(Unbegun::Refused(refusal));
    }
    match load {
        Some(loaded) => world_in(rt, alloc, loaded, serving, held),
        None => all_of(alloc, held),
    }
}

// Joins a batch, if there is one.
fn join_some(alloc: Global, held: &mut Catalogues, batch: Option<Batch>) -> Result<(), Refusal>
    ensures { OnOk result (MergesSome held.old batch held.new) }
{
    match batch {
        Some(batch) => match held.join_all(alloc, batch) {
            Ok(_) => Ok(()),
            Err(refusal) => Err(refusal),
        },
        None => Ok(()),
    }
}

// All that is held.
fn all_of(alloc: Global, held: Catalogues) -> Result<Batch, Unbegun>
    ensures { IfOk result (λ b. b ≡ all_entries held) }
{
    let batch = held.entries(alloc);
    drop(held);
    match batch {
        Ok(batch) => Ok(batch),
        Err(refusal) => Err(Unbegun::Refused(refusal)),
    }
}

// rule: loaded-first
// All that the lines of a file come to, over what is held.
fn world_in<R>(
    rt: &R,
    alloc: Global,
    loaded: Loaded<'_>,
    serving: Serving,
    held: Catalogues,
) -> Result<Batch, Unbegun>
where
    R: Runtime + Files<File = File>,
    ensures { IfOk result (λ b. (before : Maybe (List ℕ)) × (after : Maybe (List ℕ)) × IsLoaded (unwrap_or serving.first_number 1) serving.replicas held before after b) }
{
    let mut opened = match File::open(rt, loaded.file) {
        Ok(opened) => opened,
        Err(error) => {
            drop(held);
            return Err(Unbegun::File(FileFault::of(error.kind())));
        }
    };
    match loaded.asks {
        Some(asks) => {
            let bytes = match seen_bytes(rt, alloc, opened, loaded.file, asks) {
                Ok(bytes) => bytes,
                Err(fault) => {
                    drop(held);
                    return Err(fault);
                }
            };
            world_of(rt, alloc, &mut bytes.as_slice(), serving, held)
        }
        None => world_of(rt, alloc, &mut opened, serving, held),
    }
}

// All that the lines of a text come to, over what is held.
fn world_of<R, I>(
    rt: &R,
    alloc: Global,
    input: &mut I,
    serving: Serving,
    held: Catalogues,
) -> Result<Batch, Unbegun>
where
    R: Runtime,
    I: Read,
    ensures { IfOk result (λ b. (before : Maybe (List ℕ)) × (after : Maybe (List ℕ)) × IsLoaded (unwrap_or serving.first_number 1) serving.replicas held before after b) }
{
    let first = first_number(serving);
    match load(rt, alloc, input, held, first, serving.replicas) {
        Ok(world) => Ok(world),
        Err(end) => Err(Unbegun::Load(end)),
    }
}

// All of a file, of whose resources a checker takes each. It is read once, so what was seen is what is made.
fn seen_bytes<R>(
    rt: &R,
    alloc: Global,
    opened: File,
    file: &str,
    asks: &CheckerLink,
) -> Result<Vec<u8>, Unbegun>
where
    R: Runtime + Files<File = File>,
{
    let bytes = match read_whole(alloc, &mut Counted::new(opened)) {
        Ok(bytes) => bytes,
        Err(refusal) => return Err(Unbegun::Load(End::Refused(refusal))),
    };
    match first_refused(rt, alloc, &mut bytes.as_slice(), asks) {
        Ok(None) => Ok(bytes),
        Ok(Some(line)) => Err(checked_line(alloc, file, line.as_str())),
        Err(refusal) => Err(Unbegun::Refused(refusal)),
    }
}
