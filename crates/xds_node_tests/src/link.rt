// Tests of a channel between two threads: what no clause says, as that items come through at all.
use std::alloc::{AllocError, Global};
use std::sync::Wait;
use std::thread;
use std::thread::Threads;
use xds_exchange::{Incoming, Outgoing, Unlinked, link};

// Puts the numbers from 0 up to this one, and the end; answers how many were put.
fn put_all<R: Wait>(rt: &R, mut outgoing: Outgoing<u64>, count: u64) -> u64 {
    let mut done = 0;
    for number in 0..count {
        if outgoing.put(rt, number).is_ok() {
            done = number + 1;
        }
    }
    outgoing.end(rt);
    done
}

// Takes until none comes; answers how many came, as long as each was the next number.
fn take_all<R: Wait>(rt: &R, mut incoming: Incoming<u64>) -> u64 {
    let mut next = 0;
    for _ in rt.forever() {
        match incoming.take(rt) {
            Some(number) if number == next && next < u64::MAX => next += 1,
            _ => break,
        }
    }
    let _taken = incoming.leave();
    next
}

// How many of so many numbers were put, and came in order at another thread.
fn passed<R: Threads + Wait + Sync>(
    rt: &R,
    alloc: Global,
    count: u64,
) -> Result<(u64, u64), AllocError> {
    let (outgoing, incoming) = link(alloc)?;
    Ok(thread::join(
        rt,
        move || put_all(rt, outgoing, count),
        move || take_all(rt, incoming),
    ))
}

#[test]
fn items_come_in_order_to_another_thread(rt: HostRuntime) {
    for count in [0, 1, 16, 17, 1000] {
        assert_eq!(rt;
            passed(&rt, rt.alloc(), count),
            Ok((count, count)),
            "{count} numbers"
        );
    }
}

#[test]
fn an_end_that_left_is_told(rt: HostRuntime) {
    let Ok((mut outgoing, mut incoming)) = link::<u64>(rt.alloc()) else {
        panic!(rt; "no memory");
    };
    let put = outgoing.put(&rt, 7);
    let taken = incoming.take(&rt);
    outgoing.end(&rt);
    let after = incoming.take(&rt);
    drop(incoming.leave());
    let late = outgoing.put(&rt, 8);
    drop(outgoing);
    assert_eq!(rt; put, Ok(()));
    assert_eq!(rt; taken, Some(7));
    assert_eq!(rt; after, None);
    assert_eq!(rt; late, Err(Unlinked));
}

#[test]
fn an_end_that_is_gone_ends_what_comes(rt: HostRuntime) {
    let Ok((mut outgoing, mut incoming)) = link::<u64>(rt.alloc()) else {
        panic!(rt; "no memory");
    };
    let put = outgoing.put(&rt, 7);
    drop(outgoing);
    let taken = incoming.take(&rt);
    let after = incoming.take(&rt);
    drop(incoming);
    assert_eq!(rt; put, Ok(()));
    assert_eq!(rt; taken, Some(7));
    assert_eq!(rt; after, None);
}
