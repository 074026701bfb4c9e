// Opening the file of a store, or making it.
ghost use Rattle.std.specs.Prelude.{◌≡◌, IsTrue, IfOk};
ghost use Rattle.sqlite_wal.specs.Reads.{OnlyReads};
ghost use Rattle.sqlite_store.specs.FileStore.{IsReady};
ghost use Rattle.sqlite_store.specs.Unopened.{files_of, AreUsable};

use crate::refusal::{StoreRefusal, of_opening};
use crate::schema::{Found, objects, said_by, said_by_page};
use crate::store::Store;
use sqlite_disk::{Disk, Files, Unknown};
use sqlite_pager::{Options, Pager};
use sqlite_pool::probe_blank;
pub use sqlite_std_file::File;
use sqlite_std_file::OpenError as PathError;
use sqlite_store::{FileStore, Unopened};
use sqlite_wal::{PageSize, probe_first_page, probe_frames, probe_page_size};
use std::alloc::{AllocFailed, Global};
use std::hash::{BuildHasher, RandomState};
use std::{fs, io};

// The page size of a new file, in bytes.
const NEW_SIZE: usize = 4096;

// The bytes of a log's header and of a frame's, and where a log counts checkpoints. A log without frames has at most
// EMPTY_LOG bytes.
const LOG_HEADER: usize = 32;

const FRAME_HEADER: usize = 24;

const COUNT_AT: usize = 12;

const EMPTY_LOG: u64 = 41;

// What lies in the file before anything of it is read.
#[derive(Clone, Copy)]
enum Kind {
    // No database yet.
    Blank,
    // A database, as it seems, of this page size.
    Database(PageSize),
}

// Whether a store may be made where there is none.
#[derive(Clone, Copy)]
enum Making {
    Allowed,
    Refused,
}

/// Opens the store at a path, or makes one where there is no file or an empty one. What is no store, or one of a later
/// format, is left byte for byte as it is, its log too, and no log stays beside it that wasn't there. A store that is
/// refused as damaged keeps its file so; its log may get a mark behind the last transaction, and is emptied where nothing
/// of it can be read. Refused by `Gone` where no file, or an empty one, lies beside a log with transactions. No other
/// process may open the store until it is dropped.
pub fn open_at(rt: &HostRuntime, path: &str) -> Result<Store<FileStore<File>>, StoreRefusal> {
    let length = length_at(rt, path)?;
    open_path(rt, path, length, Making::Allowed)
}

/// Opens a store that was there before. Refused by `Gone` where there is no file, an empty one, or a store that was not
/// made to its end: none is made. Else it does as `open_at`.
pub fn reopen_at(rt: &HostRuntime, path: &str) -> Result<Store<FileStore<File>>, StoreRefusal> {
    match length_at(rt, path)? {
        None | Some(0) => Err(StoreRefusal::Gone),
        length => open_path(rt, path, length, Making::Refused),
    }
}

/// Whether a log lies beside the file at a path.
pub fn has_log(rt: &HostRuntime, path: &str) -> bool {
    match log_path(rt, path) {
        Ok(log) => fs::symlink_metadata(rt, log.as_str()).is_ok(),
        Err(_) => false,
    }
}

/// Closes a store that was opened at a path just now and isn't used. Where all that was committed stands in the file, no log
/// stays beside it.
pub fn close_at(
    rt: &HostRuntime,
    path: &str,
    store: Store<FileStore<File>>,
) -> Result<(), StoreRefusal> {
    let log = log_path(rt, path);
    let (files, copied) = store.close();
    // No other process can have begun to use what is removed: the files are still locked.
    if let (Ok(()), Ok(log)) = (&copied, &log) {
        let _ = fs::remove_file(rt, log.as_str());
    }
    drop(files);
    copied
}

// Opens a file that had this length before it was locked.
fn open_path(
    rt: &HostRuntime,
    path: &str,
    length: Option<u64>,
    making: Making,
) -> Result<Store<FileStore<File>>, StoreRefusal> {
    let log = log_path(rt, path)?;
    let had_log = has_log(rt, path);
    let Ok(state) = RandomState::new(rt) else {
        return Err(StoreRefusal::Device);
    };
    let files = match sqlite_std_file::open(rt, path, Unknown) {
        Ok(files) => files,
        Err(error) => return Err(of_path(error)),
    };
    match open_kinds(rt.alloc(), files, state.hash_one(&0u8), making) {
        Ok(store) => Ok(store),
        Err((refusal, files)) => {
            // No other process can have begun to use what is removed: the files are still locked.
            if !had_log {
                remove_log(rt, log.as_str(), length);
            }
            if length.is_none() {
                remove_up_to(rt, path, 0);
            }
            drop(files);
            Err(refusal)
        }
    }
}

fn of_path(error: PathError) -> StoreRefusal {
    match error {
        PathError::OutOfMemory => StoreRefusal::OutOfMemory,
        PathError::Busy => StoreRefusal::InUse,
        PathError::HotJournal => StoreRefusal::HotJournal,
        PathError::Io(_) => StoreRefusal::Device,
    }
}

// The length of the file at a path in bytes, if there is one.
fn length_at(rt: &HostRuntime, path: &str) -> Result<Option<u64>, StoreRefusal> {
    match fs::metadata(rt, path) {
        Ok(found) => Ok(Some(found.len())),
        Err(error) if error.kind() == io::ErrorKind::NotFound => Ok(None),
        Err(_) => Err(StoreRefusal::Device),
    }
}

// The path of the log, which lies beside the file that a link leads to.
fn log_path(rt: &HostRuntime, path: &str) -> Result<String, StoreRefusal> {
    match fs::canonicalize(rt, path) {
        Ok(real) => Ok(format!(in rt.alloc(); "{}-wal", real.as_str())?),
        Err(error) if error.kind() == io::ErrorKind::NotFound => {
            Ok(format!(in rt.alloc(); "{path}-wal")?)
        }
        Err(_) => Err(StoreRefusal::Device),
    }
}

// Removes the log that an open made beside a file of this length, unless a transaction may stand in it. Where the file
// was empty, a log with bytes in it belongs to a store that is being made.
fn remove_log(rt: &HostRuntime, log: &str, length: Option<u64>) {
    match length {
        None | Some(0) => remove_up_to(rt, log, 0),
        Some(_) => remove_up_to(rt, log, EMPTY_LOG),
    }
}

// Removes a file that is no longer than so many bytes.
fn remove_up_to(rt: &HostRuntime, path: &str, most: u64) {
    if let Ok(found) = fs::symlink_metadata(rt, path) {
        if found.len() <= most {
            let _ = fs::remove_file(rt, path);
        }
    }
}

/// Opens the store in two files, the log and the database file, or makes one where they are empty. `seed` is a random
/// number. A refusal gives the files back.
pub fn open_files<D: Disk>(
    alloc: Global,
    files: Files<D>,
    seed: u64,
) -> Result<Store<FileStore<D>>, (StoreRefusal, Files<D>)>
    ensures ready { IfOk result (λ store. IsReady store.trees) }
{
    open_kinds(alloc, files, seed, Making::Allowed)
}

/// Opens the store that stands in two files, the log and the database file. `seed` is a random number. A refusal gives
/// the files back: it is `Gone` where they hold no store yet.
pub fn reopen_files<D: Disk>(
    alloc: Global,
    files: Files<D>,
    seed: u64,
) -> Result<Store<FileStore<D>>, (StoreRefusal, Files<D>)>
    ensures ready { IfOk result (λ store. IsReady store.trees) }
{
    open_kinds(alloc, files, seed, Making::Refused)
}

fn open_kinds<D: Disk>(
    alloc: Global,
    mut files: Files<D>,
    seed: u64,
    making: Making,
) -> Result<Store<FileStore<D>>, (StoreRefusal, Files<D>)>
    ensures ready { IfOk result (λ store. IsReady store.trees) }
{
    if !files.may_be_used() {
        return Err((StoreRefusal::Shut, files));
    }
    let kind = match kind_of(alloc, &mut files) {
        Ok(kind) => kind,
        Err(refusal) => return Err((refusal, files)),
    };
    let size = match kind {
        Kind::Blank => PageSize::new(NEW_SIZE).unwrap(),
        Kind::Database(size) => size,
    };
    let unopened = match unopened(alloc, files, size, seed) {
        Ok(unopened) => unopened,
        Err(files) => return Err((StoreRefusal::OutOfMemory, files)),
    };
    match attach(unopened, kind, making) {
        Ok(trees) => Ok(Store::over(alloc, trees)),
        Err((refusal, left)) => Err((refusal, left.close())),
    }
}

fn kind_of<D: Disk>(alloc: Global, files: &mut Files<D>) -> Result<Kind, StoreRefusal>
    requires log { IsTrue (D.Disk.is_usable files.old.log) }
    requires db { IsTrue (D.Disk.is_usable files.old.db) }
    ensures log { OnlyReads D.Disk files.old.log files.new.log }
    ensures db { OnlyReads D.Disk files.old.db files.new.db }
{
    if is_blank(alloc, files)? {
        return Ok(Kind::Blank);
    }
    let Ok(found) = probe_page_size(files) else {
        return Err(StoreRefusal::Device);
    };
    let Some(size) = found else {
        return Err(StoreRefusal::NotAStore);
    };
    match probe_first_page(alloc, files, size) {
        // SQLite's files begin with its name, and those of a store reserve no byte of a page.
        Ok((b'S', reserved)) if reserved / 0x0100_0000 == 0 => {}
        Ok(_) => return Err(StoreRefusal::NotAStore),
        Err(error) => return Err(of_probe(error)),
    }
    let page = first_page(alloc, files, size)?;
    match said_by_page(page.as_slice()) {
        Found::Store | Found::Nothing => Ok(Kind::Database(size)),
        Found::LaterFormat => Err(StoreRefusal::LaterFormat),
        Found::Other => Err(StoreRefusal::NotAStore),
    }
}

// The first page of a database, from its log or its file. To open a database writes a mark behind the frames of its log:
// so what is no store is told by this page, before that.
fn first_page<D: Disk>(
    alloc: Global,
    files: &mut Files<D>,
    size: PageSize,
) -> Result<Vec<u8>, StoreRefusal>
    requires log { IsTrue (D.Disk.is_usable files.old.log) }
    requires db { IsTrue (D.Disk.is_usable files.old.db) }
    ensures log { OnlyReads D.Disk files.old.log files.new.log }
    ensures db { OnlyReads D.Disk files.old.db files.new.db }
{
    let mut page = vec![in alloc; 0u8; size.bytes()]?;
    let numbers = match probe_frames(alloc, &mut files.log, size) {
        Ok(numbers) => numbers,
        Err(error) => return Err(of_probe(error)),
    };
    let read = match last_frame(numbers.as_slice()) {
        Some(frame) => files
            .log
            .read_at(page_in_log(frame, size.bytes()), page.as_mut_slice()),
        None => files.db.read_at(0, page.as_mut_slice()),
    };
    match read {
        Ok(()) => Ok(page),
        Err(_) => Err(StoreRefusal::NotAStore),
    }
}

// The last of these frames that has the first page.
fn last_frame(numbers: &[u32]) -> Option<usize> {
    let mut last = None;
    for at in 0..numbers.len() {
        if numbers[at] == 1 {
            last = Some(at);
        }
    }
    last
}

// Where the page of a frame begins in a log: behind the header of the log and that of the frame.
fn page_in_log(frame: usize, size: usize) -> usize {
    let length = size.saturating_add(FRAME_HEADER);
    frame
        .saturating_mul(length)
        .saturating_add(LOG_HEADER + FRAME_HEADER)
}

// Whether the making of a store may have left these files: the file begins with a zero, or the log counts as many
// checkpoints as only a log does with which a database is made.
fn is_begun<D: Disk>(files: &mut Files<D>) -> Result<bool, StoreRefusal>
    requires log { IsTrue (D.Disk.is_usable files.old.log) }
    requires db { IsTrue (D.Disk.is_usable files.old.db) }
    ensures log { OnlyReads D.Disk files.old.log files.new.log }
    ensures db { OnlyReads D.Disk files.old.db files.new.db }
{
    let (mut first, mut count) = ([1u8], [0u8; 4]);
    let (Ok(()), Ok(())) = (
        files.db.read_at(0, &mut first),
        files.log.read_at(COUNT_AT, &mut count),
    ) else {
        return Err(StoreRefusal::Device);
    };
    Ok(first[0] == 0 || count == [u8::MAX; 4])
}

// Whether the files hold no store yet: they are empty, or the making of a store was not finished. Refused by `Gone`
// where a log with frames lies beside an empty file.
fn is_blank<D: Disk>(alloc: Global, files: &mut Files<D>) -> Result<bool, StoreRefusal>
    requires log { IsTrue (D.Disk.is_usable files.old.log) }
    requires db { IsTrue (D.Disk.is_usable files.old.db) }
    ensures log { OnlyReads D.Disk files.old.log files.new.log }
    ensures db { OnlyReads D.Disk files.old.db files.new.db }
{
    let (Ok(log), Ok(length)) = (files.log.len(), files.db.len()) else {
        return Err(StoreRefusal::Device);
    };
    if length == 0 {
        return if log as u64 > EMPTY_LOG {
            Err(StoreRefusal::Gone)
        } else {
            Ok(true)
        };
    }
    if log < LOG_HEADER || !is_begun(files)? {
        return Ok(false);
    }
    let new_size = PageSize::new(NEW_SIZE).unwrap();
    match probe_blank(alloc, files, new_size, false) {
        Ok(is_blank) => Ok(is_blank),
        Err(error) => Err(of_probe(error)),
    }
}

fn of_probe(error: sqlite_wal::Error) -> StoreRefusal {
    match error {
        sqlite_wal::Error::OutOfMemory => StoreRefusal::OutOfMemory,
        sqlite_wal::Error::Io(_) => StoreRefusal::Device,
        sqlite_wal::Error::Full => StoreRefusal::Full,
        _ => StoreRefusal::NotAStore,
    }
}

fn unopened<D: Disk>(
    alloc: Global,
    files: Files<D>,
    size: PageSize,
    seed: u64,
) -> Result<Unopened<D>, Files<D>>
    ensures files { IfOk result (λ it. files_of it ≡ (files.log, files.db)) }
{
    let pager = match Pager::new(alloc, files, size, Options::new(seed)) {
        Ok(pager) => pager,
        Err(AllocFailed { value }) => return Err(value),
    };
    match Unopened::new(alloc, pager, &objects()) {
        Ok(unopened) => Ok(unopened),
        Err(AllocFailed { value }) => Err(value.close()),
    }
}

fn attach<D: Disk>(
    mut unopened: Unopened<D>,
    kind: Kind,
    making: Making,
) -> Result<FileStore<D>, (StoreRefusal, Unopened<D>)>
    requires { AreUsable unopened }
    ensures ready { IfOk result IsReady }
{
    let found = match kind {
        Kind::Blank => Found::Nothing,
        Kind::Database(_) => match unopened.read_catalog() {
            Ok(rows) => said_by(rows.as_slice()),
            Err(error) => return Err((of_opening(error), unopened)),
        },
    };
    let opened = match (found, making) {
        (Found::Store, _) => unopened.open_numbered(),
        (Found::Nothing, Making::Allowed) => unopened.create(),
        (Found::Nothing, Making::Refused) => return Err((StoreRefusal::Gone, unopened)),
        (Found::LaterFormat, _) => return Err((StoreRefusal::LaterFormat, unopened)),
        (Found::Other, _) => return Err((StoreRefusal::NotAStore, unopened)),
    };
    match opened {
        Ok(trees) => Ok(trees),
        Err((error, left)) => Err((of_opening(error), left)),
    }
}
