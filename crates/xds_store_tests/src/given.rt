// Batches of writes that the tests put, and what a store then holds.
ghost use Rattle.std.specs.Prelude.{IsTrue, OnOk, IfOk, ◌≡◌};
ghost use Rattle.sqlite_store.specs.Unopened.{files_of, AreUsable};

use sqlite_disk::{Disk, Files, Memory};
use sqlite_pager::{Options, Pager};
use sqlite_store::Unopened;
use sqlite_trees::schema::Object;
use sqlite_trees::store::Shape;
use sqlite_wal::PageSize;
use std::alloc::Global;
use std::test::Fail;
use xds_message::Batch;
use xds_store::{FileStore, Store, StoreRefusal, open_files};

pub(crate) const FIRST: &str = "{\"writes\":[
{\"typeUrl\":\"type.googleapis.com/envoy.config.cluster.v3.Cluster\",\"name\":\"b\",\"counter\":3,\"writer\":2,\"groups\":[\"h\\\"\\u0000\",\"g\"],
 \"body\":{\"@type\":\"type.googleapis.com/envoy.config.cluster.v3.Cluster\",\"name\":\"b\",\"x\":1}},
{\"typeUrl\":\"type.googleapis.com/envoy.config.cluster.v3.Cluster\",\"name\":\"a\",\"counter\":5,\"writer\":1},
{\"typeUrl\":\"type.googleapis.com/envoy.config.cluster.v3.Cluster\",\"name\":\"b\",\"counter\":2,\"writer\":9}]}";

pub(crate) const SECOND: &str = "{\"writes\":[
{\"typeUrl\":\"type.googleapis.com/envoy.extensions.transport_sockets.tls.v3.Secret\",\"name\":\"b\",\"counter\":1,\"writer\":2},
{\"typeUrl\":\"type.googleapis.com/envoy.config.cluster.v3.Cluster\",\"name\":\"a\",\"counter\":4,\"writer\":1},
{\"typeUrl\":\"type.googleapis.com/envoy.config.cluster.v3.Cluster\",\"name\":\"b\",\"counter\":3,\"writer\":3}]}";

// What a store holds that was given nothing, the first batch, both batches.
pub(crate) const HELD: [&str; 3] = [
    "{}",
    "{\"writes\":[{\"counter\":5,\"name\":\"a\",\"typeUrl\":\"type.googleapis.com/envoy.config.cluster.v3.Cluster\",\"writer\":1},{\"body\":{\"@type\":\"type.googleapis.com/envoy.config.cluster.v3.Cluster\",\"name\":\"b\",\"x\":1},\"counter\":3,\"groups\":[\"g\",\"h\\\"\\u0000\"],\"name\":\"b\",\"typeUrl\":\"type.googleapis.com/envoy.config.cluster.v3.Cluster\",\"writer\":2}]}",
    "{\"writes\":[{\"counter\":5,\"name\":\"a\",\"typeUrl\":\"type.googleapis.com/envoy.config.cluster.v3.Cluster\",\"writer\":1},{\"counter\":3,\"name\":\"b\",\"typeUrl\":\"type.googleapis.com/envoy.config.cluster.v3.Cluster\",\"writer\":3},{\"counter\":1,\"name\":\"b\",\"typeUrl\":\"type.googleapis.com/envoy.extensions.transport_sockets.tls.v3.Secret\",\"writer\":2}]}",
];

pub(crate) fn batch(alloc: Global, text: &str) -> Result<Batch, Fail> {
    Ok(Batch::read(alloc, text.as_bytes())?)
}

pub(crate) fn held<D: Disk>(
    alloc: Global,
    store: &mut Store<FileStore<D>>,
) -> Result<String, Fail> {
    Ok(read(store)?.write(alloc)?)
}

// The calls of a store in files. Each is made here alone, since what a call asks of the store's type is proved where it is made.
pub(crate) fn read<D: Disk>(store: &mut Store<FileStore<D>>) -> Result<Batch, StoreRefusal> {
    store.read_all()
}

pub(crate) fn take<D: Disk>(
    store: &mut Store<FileStore<D>>,
    count: u16,
) -> Result<u16, StoreRefusal> {
    store.take_numbers(count)
}

pub(crate) fn put<D: Disk>(
    store: &mut Store<FileStore<D>>,
    batch: &Batch,
) -> Result<(), StoreRefusal> {
    store.put_batch(batch)
}

// A store over files that hold one, or nothing.
pub(crate) fn opened<D: Disk + Drop>(
    alloc: Global,
    files: Files<D>,
    seed: u64,
) -> Result<Store<FileStore<D>>, Fail> {
    match open_files(alloc, files, seed) {
        Ok(store) => Ok(store),
        Err((refusal, _)) => Err(Fail::from(refusal)),
    }
}

// Gives out numbers of a store, of which it answers the first, and puts a batch. It borrows the store, as do the others here: one that it
// owned would end at each of its calls that fails, and each end is proved.
pub(crate) fn fill<D: Disk>(
    alloc: Global,
    store: &mut Store<FileStore<D>>,
    count: u16,
    text: &str,
) -> Result<u16, Fail> {
    let first = take(store, count)?;
    put(store, &batch(alloc, text)?)?;
    Ok(first)
}

// Fails the test where a store holds something else.
pub(crate) fn holds<D: Disk>(
    alloc: Global,
    store: &mut Store<FileStore<D>>,
    text: &str,
) -> Result<(), Fail> {
    wanted(held(alloc, store)?.as_str() == text, "what is held")
}

// The files of a store, once it is closed.
pub(crate) fn closed_files<D: Disk + Drop>(store: Store<FileStore<D>>) -> Result<Files<D>, Fail> {
    let (files, closed) = store.close();
    closed?;
    Ok(files)
}

// A file and its log, both empty.
pub(crate) fn empty(alloc: Global) -> Files<Memory> {
    Files {
        log: Memory::new(alloc),
        db: Memory::new(alloc),
    }
}

fn unopened(
    alloc: Global,
    files: Files<Memory>,
    name: &str,
    sql: &str,
) -> Result<Unopened<Memory>, Fail>
    ensures files { IfOk result (λ it. files_of it ≡ (files.log, files.db)) }
{
    let size = PageSize::new(4096).ok_or("a page size")?;
    let pager = Pager::new(alloc, files, size, Options::new(7))?;
    let table = Object {
        shape: Shape::Table,
        kind: "table",
        name,
        table: name,
        reals: 0,
        sql: Some(sql),
    };
    Ok(Unopened::new(alloc, pager, &[table])?)
}

fn made(unopened: Unopened<Memory>) -> Result<FileStore<Memory>, Fail>
    requires { AreUsable unopened }
{
    match unopened.create() {
        Ok(store) => Ok(store),
        Err((error, _)) => Err(Fail::from(error)),
    }
}

// A database with one table, which stands in its log, or is copied into its file.
pub(crate) fn database(
    alloc: Global,
    name: &str,
    sql: &str,
    is_copied: bool,
) -> Result<Files<Memory>, Fail> {
    let files = empty(alloc);
    wanted(files.may_be_used(), "files that may be used")?;
    let mut store = made(unopened(alloc, files, name, sql)?)?;
    if is_copied {
        store.checkpoint()?;
    }
    Ok(store.close())
}

// Fails the test where it doesn't hold.
pub(crate) fn wanted(holds: bool, what: &str) -> Result<(), Fail>
    ensures { OnOk result (IsTrue holds) }
{
    if holds { Ok(()) } else { Err(Fail::from(what)) }
}
