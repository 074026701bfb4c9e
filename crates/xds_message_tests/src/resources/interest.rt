// What a client wants of one type.
use crate::resources::groups::texts_of;
use std::alloc::Global;
use std::test::Fail;
use xds_cases::cases::{Outcome, hold, words_of};
use xds_interest::{ClusterText, Interest};
use xds_resource::{Cluster, Endpoint, Groups, Refusal, ResourceType, Route};

// Whether an interest has the star, and which of the names `A`, `B` and `*` it covers.
fn told_of<T: ResourceType>(alloc: Global, text: &str) -> Result<String, Refusal> {
    let names = words_of(alloc, text)?;
    let interest = Interest::<T>::of_list(alloc, &names, ClusterText::none())?.try_copy(alloc)?;
    let mut all = String::from_str(
        alloc,
        if interest.has_star() {
            "star:"
        } else {
            "names:"
        },
    )?;
    for name in ["A", "B", "*"].as_slice() {
        if interest.covers(name, &Groups::none()) {
            all.push_str(name)?;
        }
    }
    Ok(all)
}

struct Wanted;

impl Outcome for Wanted {
    fn of(alloc: Global, given: &str) -> Result<String, Fail> {
        let (word, names) = given.split_once(':').ok_or("no type")?;
        Ok(match word {
            "cluster" => told_of::<Cluster>(alloc, names)?,
            "endpoint" => told_of::<Endpoint>(alloc, names)?,
            _ => told_of::<Route>(alloc, names)?,
        })
    }
}

// rule: listed-names
#[test]
fn a_list_makes_an_interest(rt: HostRuntime) -> Result<(), Fail> {
    hold::<Wanted, HostRuntime>(
        &rt,
        "cluster: => star:AB*
cluster: * A A => star:AB*
cluster: A A => names:A
cluster: A B => names:AB
route: * => names:*
route: => names:
endpoint: => names:
endpoint: B => names:B",
    )
}

// Whether a name is reached and covered by the interest of a client in a cluster, as
// `CLUSTER:NAMES:NAME:GROUPS`.
struct CoveredNames;

impl Outcome for CoveredNames {
    fn of(alloc: Global, given: &str) -> Result<String, Fail> {
        let (cluster, rest) = given.split_once(':').ok_or("no cluster")?;
        let (names, rest) = rest.split_once(':').ok_or("no names")?;
        let (name, groups) = rest.split_once(':').ok_or("no name")?;
        let names = words_of(alloc, names)?;
        let groups = texts_of(alloc, groups)?;
        Ok(covered(alloc, cluster, &names, name, &groups)?)
    }
}

fn covered(
    alloc: Global,
    cluster: &str,
    names: &[String],
    name: &str,
    groups: &[String],
) -> Result<String, Refusal> {
    let groups = Groups::new(alloc, groups)?;
    let interest = interest_in(alloc, cluster, names)?;
    let standing = standing(&interest, name, &groups);
    drop(interest);
    drop(groups);
    Ok(String::from_str(alloc, standing)?)
}

fn interest_in(
    alloc: Global,
    cluster: &str,
    names: &[String],
) -> Result<Interest<Cluster>, Refusal> {
    Interest::of_list(alloc, names, ClusterText::new(alloc, cluster)?)
}

// How a name of these groups stands to an interest, in a word.
fn standing(interest: &Interest<Cluster>, name: &str, groups: &Groups) -> &'static str {
    let is_covered = interest.covers(name, groups);
    match (interest.reaches(name), is_covered) {
        (true, true) => "covered",
        (true, false) => "reached",
        (false, true) => "at odds",
        (false, false) => "passed over",
    }
}

// rule: star-covers
#[test]
fn the_star_covers_open_writes_and_those_of_the_cluster(rt: HostRuntime) -> Result<(), Fail> {
    hold::<CoveredNames, HostRuntime>(
        &rt,
        "g1:*:A: => covered
g1:*:A:g1 => covered
g1:*:A:g2,g1 => covered
g1:*:A:g2 => reached
g1:*:A:g11 => reached
:*:A: => covered
:*:A:g1 => reached
g1:A:A:g2 => covered
g1:* A:A:g2 => covered
g1:* A:B:g2 => reached
:A:A:g2 => covered
g1:A:B: => passed over
g1:A:B:g1 => passed over",
    )
}
