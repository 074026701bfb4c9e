// Stores that are closed. Where all that was committed stands in the file, no log stays beside it; else the log has it.
use crate::given::{
    FIRST, HELD, batch, closed_files, empty, fill, holds, opened, put, take, wanted,
};
use crate::paths::{FOLDER, LOG, PATH, begin, is_alone, is_there, run};
use sqlite_disk::{Disk, Files, Memory};
use std::alloc::Global;
use std::fs;
use std::os::unix::fs::symlink;
use std::test::Fail;
use xds_store::{FileStore, Store, StoreRefusal, close_at, open_at, reopen_files};

const LINK: &str = "xds_store_paths/link.db";

// As many bytes as a log has before its frames.
const FRAMES: usize = 32;

// The store at the path is opened, and closed at once.
fn closes(rt: &HostRuntime, path: &str) -> Result<Result<(), StoreRefusal>, Fail> {
    let store = open_at(rt, path)?;
    Ok(close_at(rt, path, store))
}

// rule: new-numbers
#[test]
fn a_closed_store_has_no_log(rt: HostRuntime) -> Result<(), Fail> {
    begin(&rt, b"")?;
    run(&rt, 1)?;
    wanted(fs::exists(&rt, LOG)?, "a store in use has a log")?;
    wanted(closes(&rt, PATH)? == Ok(()), "what close_at says")?;
    wanted(!fs::exists(&rt, LOG)?, "no log stays")?;
    run(&rt, 2)?;
    fs::remove_dir_all(&rt, FOLDER)?;
    Ok(())
}

// A store is made, has a batch, and is closed while the frames of its log hold other bytes, which are put right then. What
// close_at says, and whether the log was still there.
fn closes_over_damage(rt: &HostRuntime) -> Result<(bool, bool), Fail> {
    let mut store = open_at(rt, PATH)?;
    let log = damages(rt, &mut store)?;
    let closed = close_at(rt, PATH, store);
    let stays = fs::exists(rt, LOG)?;
    fs::write(rt, LOG, log.as_slice())?;
    Ok((closed.is_err(), stays))
}

// An open store has a batch, and the frames of its log hold other bytes then. Answers the bytes that they held.
fn damages<D: Disk>(rt: &HostRuntime, store: &mut Store<FileStore<D>>) -> Result<Vec<u8>, Fail> {
    put(store, &batch(rt.alloc(), FIRST)?)?;
    let log = fs::read(rt, LOG)?;
    let mut damaged = fs::read(rt, LOG)?;
    for at in FRAMES..log.len() {
        if let Some(byte) = damaged.get_mut(at) {
            *byte ^= 0x15;
        }
    }
    fs::write(rt, LOG, damaged.as_slice())?;
    Ok(log)
}

#[test]
fn a_log_that_is_not_copied_stays(rt: HostRuntime) -> Result<(), Fail> {
    begin(&rt, b"")?;
    assert_eq!(rt; closes_over_damage(&rt)?, (true, true));
    is_there(&rt)?;
    fs::remove_dir_all(&rt, FOLDER)?;
    Ok(())
}

// The log lies beside the file that a link leads to.
#[test]
fn a_link_leads_to_the_store(rt: HostRuntime) -> Result<(), Fail> {
    begin(&rt, b"a line of a text\n")?;
    symlink(&rt, "a.db", LINK)?;
    wanted(
        open_at(&rt, LINK).err() == Some(StoreRefusal::NotAStore),
        "what open_at says",
    )?;
    wanted(is_alone(&rt, b"a line of a text\n")?, "no log is left")?;
    fs::write(&rt, PATH, b"")?;
    run(&rt, 1)?;
    wanted(closes(&rt, LINK)? == Ok(()), "what close_at says")?;
    wanted(!fs::exists(&rt, LOG)?, "no log stays")?;
    run(&rt, 2)?;
    fs::remove_dir_all(&rt, FOLDER)?;
    Ok(())
}

// A store that gave out a number and has a batch, and was closed.
fn closed(alloc: Global) -> Result<Files<Memory>, Fail> {
    let mut store = opened(alloc, empty(alloc), 7)?;
    fill(alloc, &mut store, 1, FIRST)?;
    closed_files(store)
}

// rule: new-numbers
#[test]
fn a_file_that_was_closed_stands_without_its_log(rt: HostRuntime) -> Result<(), Fail> {
    let Files { log: _, db } = closed(rt.alloc())?;
    let files = Files {
        log: Memory::new(rt.alloc()),
        db,
    };
    let mut store = match reopen_files(rt.alloc(), files, 8) {
        Ok(store) => store,
        Err((refusal, _)) => return Err(Fail::from(refusal)),
    };
    goes_on(&rt, &mut store)
}

// An open store holds the first batch, and its next number is 2.
fn goes_on(rt: &HostRuntime, store: &mut Store<FileStore<Memory>>) -> Result<(), Fail> {
    holds(rt.alloc(), store, HELD[1])?;
    wanted(take(store, 1)? == 2, "the next number")
}

// What two files are refused as that are to hold a store, and are left empty.
#[test]
fn two_empty_files_are_no_store(rt: HostRuntime) -> Result<(), Fail> {
    match reopen_files(rt.alloc(), empty(rt.alloc()), 7) {
        Ok(_) => Err(Fail::from("a store is made")),
        Err((refusal, left)) => {
            wanted(refusal == StoreRefusal::Gone, "what reopen_files says")?;
            wanted(left.db.bytes().is_empty(), "the file")?;
            wanted(left.log.bytes().is_empty(), "the log")
        }
    }
}
