// A disk that fails at a call, each in turn, and then crashes. What was answered is there at the next open, what
// wasn't is there whole or not at all, and no number comes twice.
use crate::given::{batch, held, opened, put, take, wanted};
use sqlite_disk::{Crash, Files, Fuse, Memory};
use std::alloc::Global;
use std::test::Fail;
use xds_message::Batch;
use xds_store::{FileStore, Store, StoreRefusal, open_files};

// A resource, and its deletion.
const FIRST: &str = "{\"writes\":[
{\"typeUrl\":\"type.googleapis.com/envoy.config.cluster.v3.Cluster\",\"name\":\"b\",\"counter\":1,\"writer\":1,
 \"body\":{\"@type\":\"type.googleapis.com/envoy.config.cluster.v3.Cluster\",\"name\":\"b\",\"x\":1}}]}";

const SECOND: &str = "{\"writes\":[
{\"typeUrl\":\"type.googleapis.com/envoy.config.cluster.v3.Cluster\",\"name\":\"b\",\"counter\":2,\"writer\":2}]}";

// What a store holds that was given nothing, the first batch, both batches.
const HELD: [&str; 3] = [
    "{}",
    "{\"writes\":[{\"body\":{\"@type\":\"type.googleapis.com/envoy.config.cluster.v3.Cluster\",\"name\":\"b\",\"x\":1},\"counter\":1,\"name\":\"b\",\"typeUrl\":\"type.googleapis.com/envoy.config.cluster.v3.Cluster\",\"writer\":1}]}",
    "{\"writes\":[{\"counter\":2,\"name\":\"b\",\"typeUrl\":\"type.googleapis.com/envoy.config.cluster.v3.Cluster\",\"writer\":2}]}",
];

type Disks = Files<Fuse<Memory>>;

type Opened = Store<FileStore<Fuse<Memory>>>;

// What a run was answered: the next number that it doesn't know to be taken, how many batches were put, and whether
// nothing failed.
#[derive(Drop)]
struct Answered {
    next: u16,
    puts: usize,
    whole: bool,
}

fn disks(alloc: Global, log_calls: u64, db_calls: u64) -> Disks {
    Files {
        log: Fuse::new(Memory::new(alloc), log_calls),
        db: Fuse::new(Memory::new(alloc), db_calls),
    }
}

fn takes(store: &mut Opened, count: u16, answered: &mut Answered) -> Result<(), StoreRefusal> {
    answered.next = take(store, count)?.saturating_add(count);
    Ok(())
}

fn puts(store: &mut Opened, batch: &Batch, answered: &mut Answered) -> Result<(), StoreRefusal> {
    put(store, batch)?;
    answered.puts = answered.puts.saturating_add(1);
    Ok(())
}

fn work(
    store: &mut Opened,
    first: &Batch,
    second: &Batch,
    answered: &mut Answered,
) -> Result<(), StoreRefusal> {
    puts(store, first, answered)?;
    takes(store, 3, answered)?;
    puts(store, second, answered)
}

// A run until something fails, and the disks after it.
fn run(alloc: Global, disks: Disks) -> Result<(Disks, Answered), Fail> {
    let first = batch(alloc, FIRST)?;
    let second = batch(alloc, SECOND)?;
    let mut answered = Answered {
        next: 1,
        puts: 0,
        whole: false,
    };
    let mut store = match open_files(alloc, disks, 7) {
        Ok(store) => store,
        Err((_, disks)) => return Ok((disks, answered)),
    };
    let worked = work(&mut store, &first, &second, &mut answered);
    let (disks, closed) = store.close();
    answered.whole = worked.is_ok() && closed.is_ok();
    Ok((disks, answered))
}

fn is_held(text: &str, puts: usize) -> bool {
    for at in 0..HELD.len() {
        if (at == puts || at == puts.saturating_add(1)) && text == HELD[at] {
            return true;
        }
    }
    false
}

// Whether the run that follows the crash finds what it may, and takes numbers that are free. Of a store that was closed
// it has the file alone.
fn is_found(alloc: Global, mut disks: Disks, answered: &Answered) -> Result<bool, Fail> {
    disks.log.crash();
    disks.db.crash();
    if answered.whole {
        disks.log = Fuse::new(Memory::new(alloc), u64::MAX);
    }
    let mut store = opened(alloc, disks, 9)?;
    is_found_in(alloc, &mut store, answered)
}

// The same, of an open store.
fn is_found_in(alloc: Global, store: &mut Opened, answered: &Answered) -> Result<bool, Fail> {
    let text = held(alloc, store)?;
    let next = take(store, 1)?;
    Ok(answered.next <= next && next <= 4 && is_held(text.as_str(), answered.puts))
}

// Fails each call of one of the two in turn, of so many parts those of this part, and answers how many there are.
fn each_call(rt: &HostRuntime, of_log: bool, part: u64, parts: u64) -> Result<u64, Fail> {
    for turn in 0..500u64 {
        let calls = turn.saturating_mul(parts).saturating_add(part);
        let (log_calls, db_calls) = if of_log {
            (calls, u64::MAX)
        } else {
            (u64::MAX, calls)
        };
        let (disks, answered) = run(rt.alloc(), disks(rt.alloc(), log_calls, db_calls))?;
        let whole = answered.whole;
        wanted(
            is_found(rt.alloc(), disks, &answered)?,
            "what the crash left",
        )?;
        if whole {
            return Ok(calls);
        }
    }
    Err(Fail::from("the calls don't end"))
}

fn calls_of_the_log_fail(rt: &HostRuntime, part: u64) -> Result<(), Fail> {
    wanted(20 < each_call(rt, true, part, 6)?, "the calls of the log")
}

fn calls_of_the_file_fail(rt: &HostRuntime, part: u64) -> Result<(), Fail> {
    wanted(5 < each_call(rt, false, part, 3)?, "the calls of the file")
}

// rule: new-numbers, rule: greatest-write
#[test]
fn each_first_call_of_the_log_fails_once(rt: HostRuntime) -> Result<(), Fail> {
    calls_of_the_log_fail(&rt, 0)
}

// rule: new-numbers, rule: greatest-write
#[test]
fn each_second_call_of_the_log_fails_once(rt: HostRuntime) -> Result<(), Fail> {
    calls_of_the_log_fail(&rt, 1)
}

// rule: new-numbers, rule: greatest-write
#[test]
fn each_third_call_of_the_log_fails_once(rt: HostRuntime) -> Result<(), Fail> {
    calls_of_the_log_fail(&rt, 2)
}

// rule: new-numbers, rule: greatest-write
#[test]
fn each_fourth_call_of_the_log_fails_once(rt: HostRuntime) -> Result<(), Fail> {
    calls_of_the_log_fail(&rt, 3)
}

// rule: new-numbers, rule: greatest-write
#[test]
fn each_fifth_call_of_the_log_fails_once(rt: HostRuntime) -> Result<(), Fail> {
    calls_of_the_log_fail(&rt, 4)
}

// rule: new-numbers, rule: greatest-write
#[test]
fn each_sixth_call_of_the_log_fails_once(rt: HostRuntime) -> Result<(), Fail> {
    calls_of_the_log_fail(&rt, 5)
}

// rule: new-numbers, rule: greatest-write
#[test]
fn each_first_call_of_the_file_fails_once(rt: HostRuntime) -> Result<(), Fail> {
    calls_of_the_file_fail(&rt, 0)
}

// rule: new-numbers, rule: greatest-write
#[test]
fn each_second_call_of_the_file_fails_once(rt: HostRuntime) -> Result<(), Fail> {
    calls_of_the_file_fail(&rt, 1)
}

// rule: new-numbers, rule: greatest-write
#[test]
fn each_third_call_of_the_file_fails_once(rt: HostRuntime) -> Result<(), Fail> {
    calls_of_the_file_fail(&rt, 2)
}
