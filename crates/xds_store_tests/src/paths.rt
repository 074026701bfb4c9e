// Files at paths that are no store, are gone, or are empty. What is refused is left byte for byte as it was, and no log
// comes to lie beside it.
use crate::given::{FIRST, HELD, database, fill, holds, wanted};
use sqlite_disk::Disk;
use std::fs;
use std::test::Fail;
use xds_store::{FileStore, Store, StoreRefusal, open_at, reopen_at};

pub(crate) const FOLDER: &str = "xds_store_paths";

pub(crate) const PATH: &str = "xds_store_paths/a.db";

pub(crate) const LOG: &str = "xds_store_paths/a.db-wal";

const JOURNAL: &str = "xds_store_paths/a.db-journal";

// An empty folder, with this file in it.
pub(crate) fn begin(rt: &HostRuntime, bytes: &[u8]) -> Result<(), Fail> {
    let _ = fs::remove_dir_all(rt, FOLDER);
    fs::create_dir(rt, FOLDER)?;
    fs::write(rt, PATH, bytes)?;
    Ok(())
}

// Whether the file is there with these bytes, and no log beside it.
pub(crate) fn is_alone(rt: &HostRuntime, bytes: &[u8]) -> Result<bool, Fail> {
    let found = fs::read(rt, PATH)?;
    Ok(found.as_slice() == bytes && !fs::exists(rt, LOG)?)
}

// Both ways to open a file refuse it so, and leave it alone.
fn refused(rt: &HostRuntime, bytes: &[u8], why: StoreRefusal) -> Result<(), Fail> {
    begin(rt, bytes)?;
    wanted(open_at(rt, PATH).err() == Some(why), "what open_at says")?;
    wanted(is_alone(rt, bytes)?, "what open_at leaves")?;
    wanted(
        reopen_at(rt, PATH).err() == Some(why),
        "what reopen_at says",
    )?;
    wanted(is_alone(rt, bytes)?, "what reopen_at leaves")
}

#[test]
fn short_files_are_left_alone(rt: HostRuntime) -> Result<(), Fail> {
    for text in [
        "x",
        "\0",
        "S",
        "a line of a text\n",
        "SQLite format 3\0",
        "SQLite format 3\0\x10\0\x01\x01",
        "SQLite format 3\0\x10\0\x01\x01\0\x40\x20\x20\0\0\0\x01\0\0\0\x01",
    ] {
        refused(&rt, text.as_bytes(), StoreRefusal::NotAStore)?;
    }
    fs::remove_dir_all(&rt, FOLDER)?;
    Ok(())
}

#[test]
fn other_databases_are_left_alone(rt: HostRuntime) -> Result<(), Fail> {
    let other = database(rt.alloc(), "t", "CREATE TABLE t(a)", true)?;
    refused(&rt, other.db.bytes(), StoreRefusal::NotAStore)?;
    let later = database(
        rt.alloc(),
        "replica_numbers",
        "CREATE TABLE replica_numbers (format INTEGER PRIMARY KEY, other)",
        true,
    )?;
    refused(&rt, later.db.bytes(), StoreRefusal::LaterFormat)?;
    let cut = later.db.bytes().get(..4000).ok_or("a part of a page")?;
    refused(&rt, cut, StoreRefusal::NotAStore)?;
    fs::remove_dir_all(&rt, FOLDER)?;
    Ok(())
}

// The file at the path is refused so, and it and this log beside it are left alone.
fn refused_beside(rt: &HostRuntime, log: &[u8]) -> Result<(), Fail> {
    fs::write(rt, LOG, log)?;
    wanted(
        open_at(rt, PATH).err() == Some(StoreRefusal::NotAStore),
        "what open_at says",
    )?;
    wanted(fs::read(rt, LOG)?.as_slice() == log, "the log")?;
    wanted(
        reopen_at(rt, PATH).err() == Some(StoreRefusal::NotAStore),
        "what reopen_at says",
    )?;
    wanted(fs::read(rt, LOG)?.as_slice() == log, "the log")
}

#[test]
fn a_log_beside_a_refused_file_is_left_alone(rt: HostRuntime) -> Result<(), Fail> {
    let text = "a line of a text\n".as_bytes();
    begin(&rt, text)?;
    for log in [
        "",
        "a log",
        "a log of more bytes than one has that is empty",
    ] {
        refused_beside(&rt, log.as_bytes())?;
    }
    wanted(fs::read(&rt, PATH)?.as_slice() == text, "the file")?;
    fs::remove_dir_all(&rt, FOLDER)?;
    Ok(())
}

// SQLite alone plays back its journal.
#[test]
fn a_file_with_a_journal_is_left_alone(rt: HostRuntime) -> Result<(), Fail> {
    begin(&rt, b"")?;
    run(&rt, 1)?;
    fs::write(&rt, JOURNAL, b"a journal")?;
    wanted(
        open_at(&rt, PATH).err() == Some(StoreRefusal::HotJournal),
        "what open_at says",
    )?;
    wanted(
        reopen_at(&rt, PATH).err() == Some(StoreRefusal::HotJournal),
        "what reopen_at says",
    )?;
    fs::remove_file(&rt, JOURNAL)?;
    run(&rt, 2)?;
    fs::remove_dir_all(&rt, FOLDER)?;
    Ok(())
}

// A run over the store at the path, which has given out the numbers below `next`.
pub(crate) fn run(rt: &HostRuntime, next: u16) -> Result<(), Fail> {
    let mut store = open_at(rt, PATH)?;
    goes_on(rt, &mut store, next)
}

// The same, over an open store.
fn goes_on<D: Disk>(
    rt: &HostRuntime,
    store: &mut Store<FileStore<D>>,
    next: u16,
) -> Result<(), Fail> {
    wanted(
        fill(rt.alloc(), store, 1, FIRST)? == next,
        "the next number",
    )?;
    holds(rt.alloc(), store, HELD[1])
}

// The store that is there at the path holds the first batch.
pub(crate) fn is_there(rt: &HostRuntime) -> Result<(), Fail> {
    let mut store = reopen_at(rt, PATH)?;
    holds(rt.alloc(), &mut store, HELD[1])
}

// The store is refused as gone by both calls, and nothing is made.
fn gone(rt: &HostRuntime, has_log: bool) -> Result<(), Fail> {
    wanted(
        reopen_at(rt, PATH).err() == Some(StoreRefusal::Gone),
        "what reopen_at says",
    )?;
    wanted(!fs::exists(rt, PATH)?, "the file is not made anew")?;
    wanted(fs::exists(rt, LOG)? == has_log, "the log is as it was")
}

// rule: new-numbers
#[test]
fn a_store_that_vanished_is_not_made_anew(rt: HostRuntime) -> Result<(), Fail> {
    begin(&rt, b"")?;
    wanted(
        reopen_at(&rt, PATH).err() == Some(StoreRefusal::Gone),
        "an empty file",
    )?;
    wanted(is_alone(&rt, b"")?, "an empty file is left alone")?;
    run(&rt, 1)?;
    is_there(&rt)?;
    fs::remove_file(&rt, PATH)?;
    gone(&rt, true)?;
    // The log has what was committed, so its numbers may be in use.
    wanted(
        open_at(&rt, PATH).err() == Some(StoreRefusal::Gone),
        "a log without its file",
    )?;
    wanted(!fs::exists(&rt, PATH)?, "no file is made beside a log")?;
    wanted(fs::exists(&rt, LOG)?, "the log is left alone")?;
    fs::remove_file(&rt, LOG)?;
    gone(&rt, false)?;
    run(&rt, 1)?;
    fs::remove_dir_all(&rt, FOLDER)?;
    Ok(())
}
