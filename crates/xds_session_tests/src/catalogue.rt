// What one replica holds, by stories, and what two replicas tell each other.
ghost use Rattle.std.specs.Prelude.{◌≤◌};

use std::alloc::Global;
use std::sync::ArcStr;
use std::test::Fail;
use xds_cases::cases::{Outcome, hold, words_of};
use xds_cases::scripts::{Script, follow};
use xds_catalogue::Catalogue;
use xds_interest::{ClusterText, Interest};
use xds_resource::{Cluster, Groups, Refusal, Resource, ResourceType, Route, Secret, Stamp, Write};

// What a new replica holds of a type.
#[derive(Drop)]
struct Replica<T: ResourceType> {
    catalogue: Catalogue<T>,
}

impl<T: ResourceType> Script for Replica<T> {
    fn begin(alloc: Global) -> Replica<T> {
        Replica {
            catalogue: Catalogue::new(alloc),
        }
    }

    fn step(&mut self, alloc: Global, verb: &str, rest: &str) -> Result<String, Refusal> {
        let (first, others) = rest.split_once(' ').unwrap_or((rest, ""));
        match verb {
            "put" => put_text(alloc, &mut self.catalogue, "", rest),
            "putin" => put_text(alloc, &mut self.catalogue, first, others),
            "delete" => delete_text(alloc, &mut self.catalogue, rest),
            "join" => join_text(alloc, &mut self.catalogue, "", rest),
            "joinin" => join_text(alloc, &mut self.catalogue, first, others),
            "want" => shown(alloc, &self.catalogue, "", rest),
            "wantin" => shown(alloc, &self.catalogue, first, others),
            _ => looked_at(alloc, &self.catalogue, verb, rest),
        }
    }
}

// What another look at a catalogue tells.
fn looked_at<T: ResourceType>(
    alloc: Global,
    catalogue: &Catalogue<T>,
    verb: &str,
    rest: &str,
) -> Result<String, Refusal> {
    match verb {
        "get" => held_text(alloc, catalogue, rest),
        "groups" => groups_text(alloc, catalogue, rest),
        "copy" => copied_text(alloc, catalogue, rest),
        "next" => next_text(alloc, catalogue, rest),
        _ => count_text(alloc, catalogue.changes()),
    }
}

// The groups of a list, apart by commas.
fn groups_of(alloc: Global, listed: &str) -> Result<Groups, Refusal> {
    if listed.is_empty() {
        return Ok(Groups::none());
    }
    let mut texts = Vec::new(alloc);
    for group in listed.split(",") {
        texts.push(String::from_str(alloc, group)?)?;
    }
    Groups::new(alloc, &texts)
}

fn delete_text<T: ResourceType>(
    alloc: Global,
    catalogue: &mut Catalogue<T>,
    name: &str,
) -> Result<String, Refusal> {
    catalogue.delete(name, 1)?.version_text(alloc)
}

// Has a replica of this number put a body with the groups of a list.
fn put_by<T: ResourceType>(
    alloc: Global,
    catalogue: &mut Catalogue<T>,
    writer: u16,
    listed: &str,
    body: &str,
) -> Result<Stamp, Refusal>
    requires { 1 ≤ writer }
{
    let groups = groups_of(alloc, listed)?;
    catalogue.put(Resource::parse(alloc, body)?, groups, writer)
}

fn put_text<T: ResourceType>(
    alloc: Global,
    catalogue: &mut Catalogue<T>,
    listed: &str,
    body: &str,
) -> Result<String, Refusal> {
    put_by(alloc, catalogue, 1, listed, body)?.version_text(alloc)
}

fn join_text<T: ResourceType>(
    alloc: Global,
    catalogue: &mut Catalogue<T>,
    listed: &str,
    given: &str,
) -> Result<String, Refusal> {
    let write = write_of(alloc, listed, given)?;
    count_text(alloc, catalogue.join_write(write)?)
}

// The write of a version that puts a body with the groups of a list, or that deletes `a` where `-`
// stands in the body's place.
fn write_of<T: ResourceType>(
    alloc: Global,
    listed: &str,
    given: &str,
) -> Result<Write<T>, Refusal> {
    let (version, body) = given.split_once(' ').ok_or(Refusal::BadMessage)?;
    let stamp = Stamp::parse_version(version)?;
    if body == "-" {
        return Ok(Write::deletion(stamp, ArcStr::from_str(alloc, "a")?));
    }
    let groups = groups_of(alloc, listed)?;
    Ok(Write::put(stamp, Resource::parse(alloc, body)?, groups))
}

fn count_text(alloc: Global, count: u64) -> Result<String, Refusal> {
    Ok(format!(in alloc; "{count}")?)
}

// The version and the body of what stands under a name.
fn held_text<T: ResourceType>(
    alloc: Global,
    catalogue: &Catalogue<T>,
    name: &str,
) -> Result<String, Refusal> {
    let Some(write) = catalogue.get(name) else {
        return Ok(String::from_str(alloc, "none")?);
    };
    let mut text = write.stamp().version_text(alloc)?;
    text.push_str(write.body().unwrap_or("-"))?;
    Ok(text)
}

// The same of a copy of the catalogue.
fn copied_text<T: ResourceType>(
    alloc: Global,
    catalogue: &Catalogue<T>,
    name: &str,
) -> Result<String, Refusal> {
    let copy = catalogue.try_copy(alloc)?;
    let text = held_text(alloc, &copy, name);
    drop(copy);
    text
}

// The groups of what stands under a name, each with a comma behind it.
fn groups_text<T: ResourceType>(
    alloc: Global,
    catalogue: &Catalogue<T>,
    name: &str,
) -> Result<String, Refusal> {
    let write = catalogue.get(name).ok_or(Refusal::NotFound)?;
    let mut text = String::new(alloc);
    for group in write.groups().texts() {
        text.push_str(group.as_str())?;
        text.push_str(",")?;
    }
    Ok(text)
}

// The number and the name of the entry that changed next after a number.
fn next_text<T: ResourceType>(
    alloc: Global,
    catalogue: &Catalogue<T>,
    after: &str,
) -> Result<String, Refusal> {
    let after = after.parse::<u64>().ok().ok_or(Refusal::BadStamp)?;
    let Some((number, write)) = catalogue.next_change(after) else {
        return Ok(String::from_str(alloc, "none")?);
    };
    let name = write.name();
    Ok(format!(in alloc; "{number}{name}")?)
}

// The names that a client of this cluster sees that wants these, one after another.
fn shown<T: ResourceType>(
    alloc: Global,
    catalogue: &Catalogue<T>,
    cluster: &str,
    wanted: &str,
) -> Result<String, Refusal> {
    let names = words_of(alloc, wanted)?;
    let cluster = ClusterText::new(alloc, cluster)?;
    let interest = Interest::of_list(alloc, &names, cluster)?;
    let listed = names_shown(alloc, catalogue, &interest);
    drop(interest);
    listed
}

fn names_shown<T: ResourceType>(
    alloc: Global,
    catalogue: &Catalogue<T>,
    interest: &Interest<T>,
) -> Result<String, Refusal> {
    let mut names = String::new(alloc);
    for write in &catalogue.content(alloc, interest)? {
        names.push_str(write.name())?;
    }
    Ok(names)
}

// rule: greatest-write, rule: tombstones
#[test]
fn a_replica_keeps_the_greatest_write(rt: HostRuntime) -> Result<(), Fail> {
    follow::<Replica<Cluster>, HostRuntime>(
        &rt,
        r#"put {"@type":"CDS","name":"a"} => 1-1
delete a => 2-1
join 1-1 {"@type":"CDS","name":"a"} => 0
join 1-1 {"@type":"CDS","name":"a"} => 0
get a => 2-1-
want  => 
delete a => 9 NotFound
delete b => 9 NotFound

put {"@type":"CDS","name":"a"} => 1-1
delete a => 2-1
put {"@type":"CDS","name":"a"} => 3-1
put {"@type":"CDS","name":"a"} => 4-1
copy a => 4-1{"@type":"CDS","name":"a"}
changes  => 4

join 9223372036854775807-9 {"@type":"CDS","name":"a"} => 1
put {"@type":"CDS","name":"b"} => 10 CounterSpent
delete a => 10 CounterSpent
delete b => 9 NotFound
get a => 9223372036854775807-9{"@type":"CDS","name":"a"}
get b => none
changes  => 1

join 1-1 {"@type":"CDS","name":"a"} => 1
join 1-2 {"@type":"CDS","name":"a"} => 1
join 2-1 - => 1
join 2-1 {"@type":"CDS","name":"a","x":1} => 1
get a => 2-1{"@type":"CDS","name":"a","x":1}
changes  => 4

join 2-1 {"@type":"CDS","name":"a","x":1} => 1
join 2-1 - => 0
join 1-2 {"@type":"CDS","name":"a"} => 0
join 1-1 {"@type":"CDS","name":"a"} => 0
get a => 2-1{"@type":"CDS","name":"a","x":1}
changes  => 1

join 1-2 {"@type":"CDS","name":"a"} => 1
join 2-1 {"@type":"CDS","name":"a","x":1} => 1
join 1-1 {"@type":"CDS","name":"a"} => 0
join 2-1 - => 0
get a => 2-1{"@type":"CDS","name":"a","x":1}
changes  => 2

join 2-1 - => 1
join 2-1 - => 0
join 1-1 {"@type":"CDS","name":"a"} => 0
join 2-1 {"@type":"CDS","name":"a","x":1} => 1
get a => 2-1{"@type":"CDS","name":"a","x":1}
want a => a

put {"@type":"CDS","name":"b"} => 1-1
put {"@type":"CDS","name":"a"} => 2-1
want  => ab
want * c => ab
want b c => b
want c => 

next 0 => none
put {"@type":"CDS","name":"b"} => 1-1
put {"@type":"CDS","name":"a"} => 2-1
next 0 => 1b
next 1 => 2a
put {"@type":"CDS","name":"b"} => 3-1
join 1-1 - => 0
next 0 => 2a
next 2 => 3b
next 3 => none
next 18446744073709551615 => none

delete a => 9 NotFound
put {"@type":"CDS","name":"a"} => 1-1
delete a => 2-1
next 0 => 2a
next 1 => 2a
next 2 => none
copy a => 2-1-
want a => "#,
    )
}

// The writes that a catalogue hands to another replica.
fn sent(alloc: Global, catalogue: &Catalogue<Cluster>) -> Result<Vec<Write<Cluster>>, Refusal> {
    let mut writes = Vec::new(alloc);
    for write in &catalogue.entries(alloc)? {
        writes.push(write.try_copy(alloc)?)?;
    }
    Ok(writes)
}

// Has two replicas hand each other their entries, and answers how many of them each gained.
fn exchanged(
    alloc: Global,
    first: &mut Catalogue<Cluster>,
    second: &mut Catalogue<Cluster>,
) -> Result<(u64, u64), Refusal> {
    let from_first = sent(alloc, first)?;
    let gained = first.join_all(sent(alloc, second)?)?;
    Ok((gained, second.join_all(from_first)?))
}

// What two replicas answer that put one text each, hand each other their entries, and hand them on
// again.
fn told_of_exchange(
    alloc: Global,
    first: &mut Catalogue<Cluster>,
    second: &mut Catalogue<Cluster>,
    one: &str,
    two: &str,
) -> Result<String, Refusal> {
    put_by(alloc, first, 1, "", one)?;
    put_by(alloc, second, 2, "", two)?;
    let (gained, second_gained) = exchanged(alloc, first, second)?;
    let again = first.join_all(sent(alloc, second)?)?;
    let held = held_text(alloc, first, "a")?;
    let second_held = held_text(alloc, second, "a")?;
    Ok(format!(in alloc; "{gained} {second_gained} {again} {held} {second_held}")?)
}

// What two replicas answer that put `a`, hand each other their entries, and do so again.
struct Exchange;

impl Outcome for Exchange {
    fn of(alloc: Global, given: &str) -> Result<String, Fail> {
        let (one, two) = given.split_once(" and ").ok_or("no second replica")?;
        let mut first = Catalogue::new(alloc);
        let mut second = Catalogue::new(alloc);
        let told = told_of_exchange(alloc, &mut first, &mut second, one, two);
        drop(first);
        drop(second);
        Ok(told?)
    }
}

// rule: greatest-write
#[test]
fn two_replicas_agree(rt: HostRuntime) -> Result<(), Fail> {
    hold::<Exchange, HostRuntime>(
        &rt,
        r#"{"@type":"CDS","name":"a"} and {"@type":"CDS","name":"a","x":1}
     => 1 0 0 1-2{"@type":"CDS","name":"a","x":1} 1-2{"@type":"CDS","name":"a","x":1}"#,
    )
}

// rule: star-covers, rule: groups
#[test]
fn groups_narrow_the_star_alone(rt: HostRuntime) -> Result<(), Fail> {
    follow::<Replica<Cluster>, HostRuntime>(
        &rt,
        r#"putin g1 {"@type":"CDS","name":"a"} => 1-1
put {"@type":"CDS","name":"b"} => 2-1
putin g2 {"@type":"CDS","name":"c"} => 3-1
wantin g1 => ab
want  => b
wantin g2 => bc
wantin g1 c => c
wantin g1 * c => abc
want c => c
wantin g => b

putin g1 {"@type":"CDS","name":"a"} => 1-1
putin g2 {"@type":"CDS","name":"a"} => 2-1
wantin g1 => 
wantin g2 => a
groups a => g2,
put {"@type":"CDS","name":"a"} => 3-1
wantin g1 => a
groups a => 
changes  => 3

putin g2,g1,g2 {"@type":"CDS","name":"a"} => 1-1
groups a => g1,g2,
delete a => 2-1
groups a => 
wantin g1 => 
put {"@type":"CDS","name":"a"} => 3-1
want  => a

putin g1,, {"@type":"CDS","name":"a"} => 24 BadGroup
groups a => 9 NotFound
changes  => 0

join 1-1 {"@type":"CDS","name":"a"} => 1
joinin g2 1-1 {"@type":"CDS","name":"a"} => 1
joinin g1 1-1 {"@type":"CDS","name":"a"} => 0
joinin g1,g3 1-1 {"@type":"CDS","name":"a"} => 0
groups a => g2,
joinin g2,g1 1-1 {"@type":"CDS","name":"a"} => 0
joinin g3 1-1 {"@type":"CDS","name":"a"} => 1
groups a => g3,
changes  => 3

joinin g9 1-1 {"@type":"CDS","name":"a","x":1} => 1
join 1-1 {"@type":"CDS","name":"a"} => 1
groups a => 
joinin g1 1-1 - => 0
want  => a"#,
    )
}

// rule: star-covers
#[test]
fn secrets_are_seen_by_name_alone(rt: HostRuntime) -> Result<(), Fail> {
    follow::<Replica<Secret>, HostRuntime>(
        &rt,
        r#"putin g1 {"@type":"SDS","name":"s"} => 1-1
want  => 
wantin g1 * => 
want s => s
put {"@type":"RDS","name":"s"} => 4 BadResource"#,
    )
}

// rule: star-covers
#[test]
fn routes_are_seen_by_name_alone(rt: HostRuntime) -> Result<(), Fail> {
    follow::<Replica<Route>, HostRuntime>(
        &rt,
        r#"put {"@type":"RDS","name":"r"} => 1-1
want  => 
want * => 
want r => r"#,
    )
}
