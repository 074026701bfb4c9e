// A round that finds no memory, and an outbox. `bench/hand/fail_each.py` runs these tests with each
// allocation failing in turn: where a round is refused, the next one tells everything, and an
// outbox that was refused has what it had.
use crate::exchanges::parts::{Wanted, batch_of, size_of};
use crate::exchanges::replicas::Site;
use crate::exchanges::rounds::{are_equal, put_all};
use std::alloc::Global;
use std::test::Fail;
use xds_core::Core;
use xds_exchange::{Outbox, PeerMarks};
use xds_message::Batch;
use xds_resource::{Refusal, TypeName};

// Whether the first of two rounds was refused.
fn told_again<S: Site>(alloc: Global) -> Result<bool, Fail> {
    let mut one = S::first(alloc);
    let mut other = S::second(alloc);
    tell_again(alloc, &mut one, &mut other)
}

fn tell_again<S: Site>(alloc: Global, one: &mut S, other: &mut S) -> Result<bool, Fail> {
    put_all(alloc, one, TypeName::Cluster, 3)?;
    put_all(alloc, one, TypeName::Secret, 2)?;
    one.delete(alloc, TypeName::Cluster, 1)?;
    put_all(alloc, other, TypeName::Cluster, 1)?;
    let mut peer = PeerMarks::new();
    let is_refused = match one.tell(alloc, other, &mut peer) {
        Ok(round) => {
            if round.sent != 5 || round.parts != 1 {
                return Err(Fail::new(format_args!("{} sent in {} parts", round.sent, round.parts)));
            }
            false
        }
        Err(Refusal::OutOfMemory) => true,
        Err(refusal) => return Err(refusal.into()),
    };
    let again = one.tell(alloc, other, &mut peer)?;
    if is_refused != (again.sent == 5) {
        return Err(Fail::new(format_args!("{} sent again", again.sent)));
    }
    other.tell(alloc, one, &mut PeerMarks::new())?;
    are_equal(alloc, one, other)?;
    Ok(is_refused)
}

// rule: marks
#[test]
fn rounds_without_memory(rt: HostRuntime) -> Result<(), Fail> {
    if told_again::<Core>(rt.alloc())? {
        println!(rt; "refused, and went on")?;
    }
    Ok(())
}

// Whether an outbox was refused a batch at first; it has none then, and has it at last.
fn is_filled_again(alloc: Global, outbox: &mut Outbox, batch: Batch) -> Result<bool, Fail> {
    let copy = batch.try_copy(alloc);
    let filled = outbox.fill(batch);
    fills_again(outbox, filled, copy?)
}

fn fills_again(
    outbox: &mut Outbox,
    filled: Result<(), Refusal>,
    copy: Batch,
) -> Result<bool, Fail> {
    if filled != Err(Refusal::OutOfMemory) {
        drop(copy);
        filled?;
        return Ok(false);
    }
    if outbox.len() != 0 {
        drop(copy);
        return Err("a refused batch is there".into());
    }
    outbox.fill(copy)?;
    Ok(true)
}

// Whether a part was refused at first; all is left then.
fn is_cut_again(outbox: &mut Outbox) -> Result<bool, Fail> {
    match outbox.next_part() {
        Ok(part) => {
            is_whole(part, outbox.len())?;
            Ok(false)
        }
        Err(Refusal::OutOfMemory) => {
            if outbox.len() != 5 {
                return Err("a refused part is gone".into());
            }
            let part = outbox.next_part()?;
            is_whole(part, outbox.len())?;
            Ok(true)
        }
        Err(refusal) => Err(refusal.into()),
    }
}

// Fails unless a part is the batch, and this is what is left.
fn is_whole(part: Option<Batch>, left: usize) -> Result<(), Fail> {
    let (clusters, secrets) = size_of(part.ok_or("no part comes")?);
    if (clusters, secrets, left) == (3, 2, 0) {
        return Ok(());
    }
    Err("the part isn't the batch".into())
}

// Whether filling and cutting were refused.
fn is_parted(alloc: Global) -> Result<(bool, bool), Fail> {
    let wanted = Wanted {
        clusters: 3,
        secrets: 2,
        bytes: 1,
        group: 2,
    };
    let batch = batch_of(alloc, &wanted)?;
    let mut outbox = Outbox::new(alloc);
    let refused = parted(alloc, &mut outbox, batch);
    drop(outbox);
    refused
}

fn parted(alloc: Global, outbox: &mut Outbox, batch: Batch) -> Result<(bool, bool), Fail> {
    let filled = is_filled_again(alloc, outbox, batch)?;
    let cut = is_cut_again(outbox)?;
    Ok((filled, cut))
}

#[test]
fn parts_without_memory(rt: HostRuntime) -> Result<(), Fail> {
    let (filled, cut) = is_parted(rt.alloc())?;
    if filled {
        println!(rt; "refused, and went on: fill")?;
    }
    if cut {
        println!(rt; "refused, and went on: next_part")?;
    }
    Ok(())
}
