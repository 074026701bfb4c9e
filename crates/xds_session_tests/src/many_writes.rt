// Many writes in two orders, and a batch of some that is refused.
use std::alloc::Global;
use std::test::Fail;
use xds_catalogue::Catalogue;
use xds_resource::{Cluster, Groups, Refusal, Resource, Stamp, TypeName, Write};

// One of 10,000 writes: of 2,500 names, each with four counters, by counter and then by name.
fn numbered(alloc: Global, number: u64) -> Result<Write<Cluster>, Refusal> {
    let (name, counter) = (number % 2_500, number / 2_500 % 4 + 1);
    let url = TypeName::Cluster.url();
    let body = format!(in alloc; r#"{{"@type":"{url}","name":"{name}","x":{counter}}}"#)?;
    Ok(Write::put(
        Stamp::new(counter, 1),
        Resource::parse(alloc, body.as_str())?,
        Groups::none(),
    ))
}

// Joins the 10,000, each this many places after the one before it in their own order.
fn join(alloc: Global, catalogue: &mut Catalogue<Cluster>, stride: u16) -> Result<(), Refusal> {
    for place in 0..10_000_u64 {
        catalogue.join_write(numbered(alloc, place * stride as u64 % 10_000)?)?;
    }
    Ok(())
}

// Whether both hold the same writes, of this many names.
fn same_entries(
    alloc: Global,
    first: &Catalogue<Cluster>,
    second: &Catalogue<Cluster>,
    count: usize,
) -> Result<bool, Refusal> {
    let (entries, others) = (first.entries(alloc)?, second.entries(alloc)?);
    let mut same = entries.len() == count && others.len() == count;
    for (entry, other) in entries.iter().zip(&others) {
        same = same && **entry == **other;
    }
    Ok(same)
}

// How many entries `next_change` walks over, or none where a number doesn't ascend or a name
// doesn't stand under it.
fn walked(catalogue: &Catalogue<Cluster>) -> Option<u64> {
    let mut after = 0;
    for count in 0..10_001_u64 {
        let Some((number, write)) = catalogue.next_change(after) else {
            return Some(count);
        };
        if number <= after || catalogue.get(write.name()) != Some(write) {
            return None;
        }
        after = number;
    }
    None
}

// Whether a write is the one of this number.
fn is_numbered(alloc: Global, write: &Write<Cluster>, number: u64) -> Result<bool, Refusal> {
    let wanted = numbered(alloc, number)?;
    let same = *write == wanted;
    drop(wanted);
    Ok(same)
}

// Whether the next changes of a catalogue, from the first on, are the last write of each name, in
// order.
fn ends_in_order(alloc: Global, sorted: &Catalogue<Cluster>) -> Result<bool, Refusal> {
    let mut after = 0;
    for place in 0..2_500_u64 {
        let Some((number, write)) = sorted.next_change(after) else {
            return Ok(false);
        };
        if number != 7_501 + place || !is_numbered(alloc, write, 7_500 + place)? {
            return Ok(false);
        }
        after = number;
    }
    Ok(true)
}

// Of the 10,000 writes in two orders: whether the same stand, how many changed in their own order,
// how many each walk finds, and whether the last ones stand in order.
fn told_of_orders(
    alloc: Global,
    sorted: &Catalogue<Cluster>,
    shuffled: &Catalogue<Cluster>,
) -> Result<String, Refusal> {
    let same = same_entries(alloc, sorted, shuffled, 2_500)?;
    let changes = sorted.changes();
    let walk = walked(sorted).unwrap_or(0);
    let other_walk = walked(shuffled).unwrap_or(0);
    let ordered = ends_in_order(alloc, sorted)?;
    Ok(format!(in alloc; "{same} {changes} {walk} {other_walk} {ordered}")?)
}

// The same, of two catalogues that hold nothing yet.
fn told_of_both(
    alloc: Global,
    sorted: &mut Catalogue<Cluster>,
    shuffled: &mut Catalogue<Cluster>,
) -> Result<String, Refusal> {
    join(alloc, sorted, 1)?;
    join(alloc, shuffled, 7_919)?;
    told_of_orders(alloc, sorted, shuffled)
}

fn told_of_writes(alloc: Global) -> Result<String, Refusal> {
    let (mut sorted, mut shuffled) = (Catalogue::new(alloc), Catalogue::new(alloc));
    let told = told_of_both(alloc, &mut sorted, &mut shuffled);
    drop(sorted);
    drop(shuffled);
    told
}

// rule: greatest-write
#[test]
fn order_does_not_matter(rt: HostRuntime) -> Result<(), Fail> {
    let told = told_of_writes(rt.alloc())?;
    assert_eq!(rt; told.as_str(), "true 10000 2500 2500 true");
    Ok(())
}

// Writes with these numbers, as a batch.
fn batch(alloc: Global, numbers: &[u64]) -> Result<Vec<Write<Cluster>>, Refusal> {
    let mut writes = Vec::new(alloc);
    for number in numbers {
        writes.push(numbered(alloc, *number)?)?;
    }
    Ok(writes)
}

// Whether both hold the same entries, under the same numbers. It takes no memory.
fn same(first: &Catalogue<Cluster>, second: &Catalogue<Cluster>) -> bool {
    let mut after = 0;
    for _ in 0..10_001_u64 {
        let (next, other) = (first.next_change(after), second.next_change(after));
        if next != other {
            return false;
        }
        let Some((number, _)) = next else {
            return first.changes() == second.changes();
        };
        after = number;
    }
    false
}

// Joins some writes to a catalogue, and answers a copy of it.
fn joined(
    alloc: Global,
    catalogue: &mut Catalogue<Cluster>,
) -> Result<Catalogue<Cluster>, Refusal> {
    catalogue.join_all(batch(alloc, &[1, 2, 3, 2_501, 4, 5])?)?;
    catalogue.try_copy(alloc)
}

// Joins a batch to these: it is joined whole, or memory was refused and the catalogue is as it was.
fn joins_all(
    alloc: Global,
    catalogue: &mut Catalogue<Cluster>,
    before: &Catalogue<Cluster>,
) -> Result<bool, Refusal> {
    let more = batch(alloc, &[7, 2_502, 8, 2_507, 1, 5_002, 9, 7_501])?;
    Ok(match catalogue.join_all(more) {
        Ok(grown) => grown == 7 && catalogue.changes() == 13,
        Err(refusal) => refusal == Refusal::OutOfMemory && same(catalogue, before),
    })
}

fn joined_or_unchanged(alloc: Global) -> Result<bool, Refusal> {
    let mut catalogue = Catalogue::new(alloc);
    let answer = match joined(alloc, &mut catalogue) {
        Ok(before) => {
            let answer = joins_all(alloc, &mut catalogue, &before);
            drop(before);
            answer
        }
        Err(refusal) => Err(refusal),
    };
    drop(catalogue);
    answer
}

// rule: refused-event
// With ample memory the batch is joined. It is also run with each allocation failing in turn.
#[test]
fn refused_batch_changes_nothing(rt: HostRuntime) -> Result<(), Fail> {
    match joined_or_unchanged(rt.alloc()) {
        Ok(right) => assert!(rt; right),
        Err(refusal) => assert!(rt; refusal == Refusal::OutOfMemory),
    }
    Ok(())
}

// Whether a call found no memory. Another refusal is passed on.
fn is_short<V: Drop>(answer: Result<V, Refusal>) -> Result<bool, Refusal> {
    match answer {
        Ok(_) => Ok(false),
        Err(Refusal::OutOfMemory) => Ok(true),
        Err(refusal) => Err(refusal),
    }
}

// The same of a change of some writes.
fn changes(alloc: Global, catalogue: &mut Catalogue<Cluster>, verb: &str) -> Result<bool, Refusal> {
    if verb == "delete" {
        return is_short(catalogue.delete("1", 1));
    }
    if verb == "put" {
        let text =
            r#"{"@type":"type.googleapis.com/envoy.config.cluster.v3.Cluster","name":"2500"}"#;
        let resource = Resource::parse(alloc, text)?;
        return is_short(catalogue.put(resource, Groups::none(), 1));
    }
    if verb == "join_write" {
        let write = numbered(alloc, 6)?;
        return is_short(catalogue.join_write(write));
    }
    let more = batch(alloc, &[7, 2_502, 8])?;
    is_short(catalogue.join_all(more))
}

// Whether a change found no memory at first. It has changed nothing then, and is made when it comes
// again.
fn changes_again(
    alloc: Global,
    catalogue: &mut Catalogue<Cluster>,
    before: &Catalogue<Cluster>,
    verb: &str,
) -> Result<bool, Refusal> {
    if !changes(alloc, catalogue, verb)? {
        return Ok(false);
    }
    if !same(catalogue, before) || changes(alloc, catalogue, verb)? || same(catalogue, before) {
        return Err(Refusal::BadTrace);
    }
    Ok(true)
}

fn is_refused(alloc: Global, verb: &str) -> Result<bool, Refusal> {
    let mut catalogue = Catalogue::new(alloc);
    catalogue.join_all(batch(alloc, &[1, 2, 3, 2_501, 4, 5])?)?;
    let before = catalogue.try_copy(alloc)?;
    changes_again(alloc, &mut catalogue, &before, verb)
}

// rule: refused-event
// With ample memory each change is made at once; `bench/hand/refused.py` refuses one allocation after
// another.
#[test]
fn each_change_without_memory(rt: HostRuntime) -> Result<(), Fail> {
    for verb in ["put", "delete", "join_write", "join_all"] {
        if is_refused(rt.alloc(), verb)? {
            println!(rt; "refused, and went on: {verb}")?;
        }
    }
    Ok(())
}
