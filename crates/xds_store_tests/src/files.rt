// A store in a file: it is made, closed, opened again, and in use.
use crate::given::{FIRST, HELD, SECOND, fill, holds, take, wanted};
use sqlite_disk::Disk;
use std::fs;
use std::test::Fail;
use xds_store::{FileStore, Store, StoreRefusal, open_at};

fn first_run(rt: &HostRuntime, path: &str) -> Result<u16, Fail> {
    let mut store = open_at(rt, path)?;
    filled(rt, &mut store)
}

// A first run over an open store.
fn filled<D: Disk>(rt: &HostRuntime, store: &mut Store<FileStore<D>>) -> Result<u16, Fail> {
    let first = fill(rt.alloc(), store, 3, FIRST)?;
    holds(rt.alloc(), store, HELD[1])?;
    Ok(first)
}

fn second_run(rt: &HostRuntime, path: &str) -> Result<u16, Fail> {
    let mut store = open_at(rt, path)?;
    let first = filled_more(rt, path, &mut store)?;
    let (files, closed) = store.close();
    drop(files);
    closed?;
    Ok(first)
}

// A second run over an open store.
fn filled_more<D: Disk>(
    rt: &HostRuntime,
    path: &str,
    store: &mut Store<FileStore<D>>,
) -> Result<u16, Fail> {
    wanted(
        open_at(rt, path).err() == Some(StoreRefusal::InUse),
        "in use",
    )?;
    holds(rt.alloc(), store, HELD[1])?;
    let first = fill(rt.alloc(), store, 2, SECOND)?;
    holds(rt.alloc(), store, HELD[2])?;
    Ok(first)
}

fn third_run(rt: &HostRuntime, path: &str) -> Result<(), Fail> {
    let mut store = open_at(rt, path)?;
    used_up(rt, &mut store)
}

fn take_from<D: Disk>(
    store: &mut Store<FileStore<D>>,
    first: u16,
    count: u16,
) -> Result<(), StoreRefusal> {
    store.take_numbers_from(first, count)
}

// A third run over an open store.
fn used_up<D: Disk>(rt: &HostRuntime, store: &mut Store<FileStore<D>>) -> Result<(), Fail> {
    wanted(
        take_from(store, 5, 1) == Err(StoreRefusal::NumberTaken),
        "numbers",
    )?;
    wanted(
        take_from(store, 6, 65_531) == Err(StoreRefusal::NumbersUsed),
        "numbers",
    )?;
    take_from(store, 65_535, 1)?;
    wanted(take(store, 1) == Err(StoreRefusal::NumbersUsed), "numbers")?;
    holds(rt.alloc(), store, HELD[2])
}

// rule: new-numbers, rule: greatest-write, rule: tombstones
#[test]
fn a_store_is_opened_again(rt: HostRuntime) -> Result<(), Fail> {
    let _ = fs::remove_dir_all(&rt, "xds_store_test");
    fs::create_dir(&rt, "xds_store_test")?;
    assert_eq!(rt; first_run(&rt, "xds_store_test/a.db")?, 1);
    assert_eq!(rt; second_run(&rt, "xds_store_test/a.db")?, 4);
    third_run(&rt, "xds_store_test/a.db")?;
    fs::remove_dir_all(&rt, "xds_store_test")?;
    Ok(())
}
