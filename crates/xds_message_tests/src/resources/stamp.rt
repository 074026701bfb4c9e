// Stamps and version texts, and the order of writes.
use crate::resources::groups::texts_of;
use std::alloc::Global;
use std::cmp::Ordering;
use std::sync::ArcStr;
use std::test::Fail;
use xds_cases::cases::{Outcome, first_word, hold, told};
use xds_resource::stamp::MAX_COUNTER;
use xds_resource::{Cluster, Groups, Refusal, Resource, Stamp, Write};

// The version text of the stamp that a version text names.
struct VersionAgain;

impl Outcome for VersionAgain {
    fn of(alloc: Global, given: &str) -> Result<String, Fail> {
        let (_, text) = first_word(given)?;
        Ok(told(alloc, version_again(alloc, text))?)
    }
}

fn version_again(alloc: Global, text: &str) -> Result<String, Refusal> {
    Stamp::parse_version(text)?.version_text(alloc)
}

#[test]
fn versions_name_stamps(rt: HostRuntime) -> Result<(), Fail> {
    hold::<VersionAgain, HostRuntime>(
        &rt,
        "version 1-1 => 1-1
version 12-3 => 12-3
version 10-10 => 10-10
version 9223372036854775807-65535 => 9223372036854775807-65535
version  => 11 BadStamp
version - => 11 BadStamp
version 1 => 11 BadStamp
version 1- => 11 BadStamp
version -1 => 11 BadStamp
version 0-1 => 11 BadStamp
version 1-0 => 11 BadStamp
version 01-1 => 11 BadStamp
version 1-01 => 11 BadStamp
version +1-1 => 11 BadStamp
version 1-+1 => 11 BadStamp
version 1 -1 => 11 BadStamp
version  1-1 => 11 BadStamp
version 1-1  => 11 BadStamp
version 1-1-1 => 11 BadStamp
version 1--1 => 11 BadStamp
version a-1 => 11 BadStamp
version 0x1-1 => 11 BadStamp
version 1-65536 => 11 BadStamp
version 9223372036854775808-1 => 11 BadStamp
version 18446744073709551616-1 => 11 BadStamp",
    )
}

#[test]
fn stamps_are_made(rt: HostRuntime) {
    let stamp = Stamp::new(MAX_COUNTER, 1);
    assert_eq!(rt; stamp.counter, 9_223_372_036_854_775_807);
    assert!(rt; Stamp::new(2, 1) > Stamp::new(1, 2));
    assert!(rt; Stamp::new(2, 2) > Stamp::new(2, 1));
}

// How two writes stand, each given by its version and its name or its body.
struct Compared;

impl Outcome for Compared {
    fn of(alloc: Global, given: &str) -> Result<String, Fail> {
        let (first, second) = given.split_once(" and ").ok_or("no second write")?;
        let first = write_of(alloc, first)?;
        let second = copy_of_write(alloc, second)?;
        let order = order_of(&first, &second);
        drop(first);
        drop(second);
        Ok(String::from_str(alloc, order)?)
    }
}

fn copy_of_write(alloc: Global, given: &str) -> Result<Write<Cluster>, Refusal> {
    write_of(alloc, given)?.try_copy(alloc)
}

fn order_of(first: &Write<Cluster>, second: &Write<Cluster>) -> &'static str {
    let order = match first.cmp(second) {
        Ordering::Less => "less",
        Ordering::Equal => "equal",
        Ordering::Greater => "greater",
    };
    let is_same = (order == "equal") == (*first == *second);
    if is_same { order } else { "at odds" }
}

// The write of a version that puts a body, for the groups behind `in`, or that deletes `a` where
// `-` stands in the body's place.
fn write_of(alloc: Global, given: &str) -> Result<Write<Cluster>, Refusal> {
    let (version, body) = given.split_once(' ').ok_or(Refusal::BadMessage)?;
    let stamp = Stamp::parse_version(version)?;
    if body == "-" {
        return Ok(Write::deletion(stamp, ArcStr::from_str(alloc, "a")?));
    }
    let (body, groups) = body.split_once(" in ").unwrap_or((body, ""));
    let groups = Groups::new(alloc, &texts_of(alloc, groups)?)?;
    Ok(Write::put(stamp, Resource::parse(alloc, body)?, groups))
}

// rule: greatest-write, rule: tombstones
#[test]
fn writes_are_ordered(rt: HostRuntime) -> Result<(), Fail> {
    hold::<Compared, HostRuntime>(
        &rt,
        r#"1-2 {"@type":"CDS","name":"a","x":9} and 2-1 - => less
2-1 - and 2-1 {"@type":"CDS","name":"a","x":1} => less
2-1 - and 2-1 - => equal
2-1 {"@type":"CDS","name":"a","x":1} and 2-1 - => greater
2-1 {"@type":"CDS","name":"a","x":1} and 2-1 {"@type":"CDS","name":"a","x":2} => less
2-1 {"@type":"CDS","name":"a","x":2} and 2-1 {"@type":"CDS", "x":2,"name":"a"} => equal
2-1 {"@type":"CDS","name":"b","x":2} and 2-2 {"@type":"CDS","name":"a"} => less
2-2 {"@type":"CDS","name":"a"} and 1-2 {"@type":"CDS","name":"b","x":9} => greater
2-1 {"@type":"CDS","name":"a"} and 2-1 {"@type":"CDS","name":"a"} in g => less
2-1 {"@type":"CDS","name":"a"} in g,h and 2-1 {"@type":"CDS","name":"a"} in g => greater
2-1 {"@type":"CDS","name":"a"} in g,z and 2-1 {"@type":"CDS","name":"a"} in h => less
2-1 {"@type":"CDS","name":"a"} in h,g,h and 2-1 {"@type":"CDS","name":"a"} in g,h => equal
2-1 {"@type":"CDS","name":"a","x":1} in z and 2-1 {"@type":"CDS","name":"a","x":2} => less
2-2 {"@type":"CDS","name":"a"} and 2-1 {"@type":"CDS","name":"a"} in g => greater"#,
    )
}
