// Batches that an outbox cuts into parts.
use std::alloc::Global;
use std::test::Fail;
use xds_cases::cases::{Outcome, hold, told, words_of};
use xds_exchange::Outbox;
use xds_message::Batch;
use xds_resource::{AnyWrite, Groups, Refusal, Resource, ResourceType, Stamp, Write};

// How many writes the parts of a batch have. The batch is given as how many clusters it has and
// secrets, how many bytes each body has at least, and of how many bytes each of its 64 groups is,
// where it has groups.
struct Parts;

impl Outcome for Parts {
    fn of(alloc: Global, given: &str) -> Result<String, Fail> {
        Ok(told(alloc, parts_of(alloc, given))?)
    }
}

#[derive(Drop)]
pub(crate) struct Wanted {
    pub(crate) clusters: u64,
    pub(crate) secrets: u64,
    pub(crate) bytes: usize,
    pub(crate) group: usize,
}

fn parts_of(alloc: Global, given: &str) -> Result<String, Refusal> {
    let wanted = wanted_of(alloc, given)?;
    let batch = batch_of(alloc, &wanted)?;
    let mut outbox = Outbox::new(alloc);
    let text = cut(alloc, &mut outbox, batch);
    drop(outbox);
    text
}

fn wanted_of(alloc: Global, given: &str) -> Result<Wanted, Refusal> {
    let words = words_of(alloc, given)?;
    Ok(Wanted {
        clusters: number(&words, 0)?,
        secrets: number(&words, 1)?,
        bytes: number(&words, 2)? as usize,
        group: number(&words, 3)? as usize,
    })
}

fn cut(alloc: Global, outbox: &mut Outbox, batch: Batch) -> Result<String, Refusal> {
    outbox.fill(batch)?;
    sizes(alloc, outbox)
}

fn number(words: &Vec<String>, place: usize) -> Result<u64, Refusal> {
    let word = words.get(place).ok_or(Refusal::BadScript)?;
    word.as_str().parse().ok().ok_or(Refusal::BadScript)
}

fn sizes(alloc: Global, outbox: &mut Outbox) -> Result<String, Refusal> {
    let mut all = String::new(alloc);
    for _ in 0..100_u64 {
        match outbox.next_part()? {
            Some(part) => push_size(alloc, &mut all, part)?,
            None => return Ok(all),
        }
    }
    Err(Refusal::BadScript)
}

/// How many clusters and secrets a part has.
pub(crate) fn size_of(part: Batch) -> (usize, usize) {
    let size = (part.cluster.len(), part.secret.len());
    drop(part);
    size
}

fn push_size(alloc: Global, all: &mut String, part: Batch) -> Result<(), Refusal> {
    let (clusters, secrets) = size_of(part);
    let text = format!(in alloc; "{clusters}+{secrets} ")?;
    all.push_str(text.as_str())?;
    Ok(())
}

// The same write again and again: an outbox looks at no name.
pub(crate) fn batch_of(alloc: Global, wanted: &Wanted) -> Result<Batch, Refusal> {
    let mut batch = Batch::new(alloc);
    match push_both(alloc, &mut batch, wanted) {
        Ok(()) => Ok(batch),
        Err(refusal) => {
            drop(batch);
            Err(refusal)
        }
    }
}

fn push_both(alloc: Global, batch: &mut Batch, wanted: &Wanted) -> Result<(), Refusal> {
    let cluster = AnyWrite::Cluster(write_of(alloc, wanted)?);
    push_many(alloc, batch, cluster, wanted.clusters)?;
    let secret = AnyWrite::Secret(write_of(alloc, wanted)?);
    push_many(alloc, batch, secret, wanted.secrets)
}

fn push_many(alloc: Global, batch: &mut Batch, write: AnyWrite, count: u64) -> Result<(), Refusal> {
    let pushed = push_copies(alloc, batch, &write, count);
    drop(write);
    pushed
}

fn push_copies(
    alloc: Global,
    batch: &mut Batch,
    write: &AnyWrite,
    count: u64,
) -> Result<(), Refusal> {
    for _ in 0..count {
        batch.push(write.try_copy(alloc)?)?;
    }
    Ok(())
}

fn write_of<T: ResourceType>(alloc: Global, wanted: &Wanted) -> Result<Write<T>, Refusal> {
    let text = body(alloc, T::TYPE.url(), wanted.bytes)?;
    let groups = groups(alloc, wanted.group)?;
    let resource = Resource::parse(alloc, text.as_str())?;
    Ok(Write::put(Stamp::new(1, 1), resource, groups))
}

const SIXTEEN: &str = "aaaaaaaaaaaaaaaa";

// A resource's text of this many bytes, or of a few where that is too little.
fn body(alloc: Global, url: &str, bytes: usize) -> Result<String, Refusal> {
    let mut text = format!(in alloc; "{{\"@type\":\"{url}\",\"name\":\"n\",\"x\":\"")?;
    let missing = bytes.saturating_sub(text.len()).saturating_sub(2);
    for _ in 0..missing / 16 {
        text.push_str(SIXTEEN)?;
    }
    text.push_str(SIXTEEN.get(..missing % 16).unwrap_or(""))?;
    text.push_str("\"}")?;
    Ok(text)
}

// 64 groups of this many bytes, or none.
fn groups(alloc: Global, bytes: usize) -> Result<Groups, Refusal> {
    if bytes == 0 {
        return Ok(Groups::none());
    }
    let mut texts = Vec::new(alloc);
    for number in 0..64_u64 {
        texts.push(group(alloc, number, bytes)?)?;
    }
    Groups::new(alloc, &texts)
}

fn group(alloc: Global, number: u64, bytes: usize) -> Result<String, Refusal> {
    let mut text = format!(in alloc; "{number}")?;
    for _ in text.len()..bytes {
        text.push_str("g")?;
    }
    Ok(text)
}

// A list of 64 groups of 1,024 bytes is written as 65,729 bytes: 64 times 1,026, 63 commas and two
// brackets.
#[test]
fn batches_are_cut(rt: HostRuntime) -> Result<(), Fail> {
    hold::<Parts, HostRuntime>(
        &rt,
        r#"0 0 0 0 => 
1 0 0 0 => 1+0 
513 0 0 0 => 512+0 1+0 
512 0 0 0 => 512+0 
500 30 0 0 => 500+12 0+18 
9 0 1048576 0 => 8+0 1+0 
8 0 1048576 0 => 8+0 
4 5 1048576 0 => 4+4 0+1 
8 1 1048575 0 => 8+0 0+1 
8 0 1048576 2 => 7+0 1+0 
130 0 0 1024 => 127+0 3+0 "#,
    )
}
