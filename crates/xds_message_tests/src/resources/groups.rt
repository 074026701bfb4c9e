// Lists of groups.
use std::alloc::Global;
use std::test::Fail;
use xds_cases::cases::{Outcome, hold, told};
use xds_resource::{Groups, Refusal};

// The texts between commas. An empty text has none.
pub(crate) fn texts_of(alloc: Global, text: &str) -> Result<Vec<String>, Refusal> {
    let mut texts = Vec::new(alloc);
    if !text.is_empty() {
        for part in text.split(',') {
            texts.push(String::from_str(alloc, part)?)?;
        }
    }
    Ok(texts)
}

// The groups that the texts between commas come to, and which of `a`, `b` and `c` they have.
struct ListedGroups;

impl Outcome for ListedGroups {
    fn of(alloc: Global, given: &str) -> Result<String, Fail> {
        Ok(told(alloc, listed(alloc, given))?)
    }
}

fn listed(alloc: Global, given: &str) -> Result<String, Refusal> {
    let texts = texts_of(alloc, given)?;
    let groups = Groups::new(alloc, &texts)?.try_copy(alloc)?;
    let mut all = String::new(alloc);
    for text in groups.texts() {
        all.push_str(text.as_str())?;
        all.push(',')?;
    }
    all.push_str(if groups.is_empty() { "none" } else { " has:" })?;
    for text in ["a", "b", "c"].as_slice() {
        all.push_str(if groups.has(text) { text } else { "" })?;
    }
    Ok(all)
}

// rule: groups
#[test]
fn texts_come_to_groups(rt: HostRuntime) -> Result<(), Fail> {
    hold::<ListedGroups, HostRuntime>(
        &rt,
        " => none
b,a => a,b, has:ab
c,a,c,a => a,c, has:ac
ab,b,a,B => B,a,ab,b, has:ab
c,*, c =>  c,*,c, has:c
a,,b => 24 BadGroup
, => 24 BadGroup
<g*1024> => <g*1024>, has:
<g*1025> => 24 BadGroup
a,<g*1025> => 24 BadGroup",
    )
}

// How many groups the numbers from 1 come to, each of them listed twice.
struct CountedGroups;

impl Outcome for CountedGroups {
    fn of(alloc: Global, given: &str) -> Result<String, Fail> {
        Ok(told(alloc, counted(alloc, given))?)
    }
}

fn counted(alloc: Global, given: &str) -> Result<String, Refusal> {
    let most = given.parse::<u16>().ok().ok_or(Refusal::BadScript)?;
    let mut texts = Vec::new(alloc);
    for number in 0..most {
        push_twice(alloc, &mut texts, number)?;
    }
    let groups = Groups::new(alloc, &texts);
    drop(texts);
    Ok(groups?.len().to_string(alloc)?)
}

fn push_twice(alloc: Global, texts: &mut Vec<String>, number: u16) -> Result<(), Refusal> {
    texts.push(number.to_string(alloc)?)?;
    Ok(texts.push(number.to_string(alloc)?)?)
}

// rule: groups
#[test]
fn there_are_64_groups_at_most(rt: HostRuntime) -> Result<(), Fail> {
    hold::<CountedGroups, HostRuntime>(
        &rt,
        "0 => 0
1 => 1
64 => 64
65 => 24 BadGroup
300 => 24 BadGroup",
    )
}
