// Rounds between replicas.
use crate::exchanges::replicas::Site;
use std::alloc::Global;
use std::test::Fail;
use xds_core::Core;
use xds_exchange::{PeerMarks, Round};
use xds_resource::{Refusal, TypeName};

const CLUSTERS: u64 = 1000;

// Ten times as many rounds, each behind a write, and then all replicas agree.
const ROUNDS: u64 = 1000;

// Tells another what changed. Fails unless so many writes are sent in so many parts, and its
// changes grow by so many.
fn tells<S: Site>(
    alloc: Global,
    one: &S,
    other: &mut S,
    peer: &mut PeerMarks,
    wanted: (usize, usize, u128),
) -> Result<(), Fail> {
    let Round { sent, parts, grown } = one.tell(alloc, other, peer)?;
    if (sent, parts, grown) == wanted {
        return Ok(());
    }
    Err(Fail::new(format_args!("{sent} sent in {parts} parts, {grown} grown")))
}

/// Puts the resources 0 to count - 1 of a type.
pub(crate) fn put_all<S: Site>(
    alloc: Global,
    site: &mut S,
    kind: TypeName,
    count: u64,
) -> Result<(), Refusal> {
    for number in 0..count {
        site.put(alloc, kind, number)?;
    }
    Ok(())
}

/// Whether two replicas hold the same entries.
pub(crate) fn are_equal<S: Site>(alloc: Global, one: &mut S, other: &mut S) -> Result<(), Fail> {
    let here = one.text(alloc)?;
    let there = other.text(alloc)?;
    if here.as_str() == there.as_str() {
        Ok(())
    } else {
        Err(Fail::new(format_args!("{} and {}", here.as_str(), there.as_str())))
    }
}

fn thousand_clusters<S: Site>(alloc: Global) -> Result<(), Fail> {
    let mut one = S::first(alloc);
    let mut other = S::second(alloc);
    told_thrice(alloc, &mut one, &mut other)
}

fn told_thrice<S: Site>(alloc: Global, one: &mut S, other: &mut S) -> Result<(), Fail> {
    let mut peer = PeerMarks::new();
    put_all(alloc, one, TypeName::Cluster, CLUSTERS)?;
    tells(alloc, one, other, &mut peer, (1000, 2, 1000))?;
    tells(alloc, one, other, &mut peer, (0, 0, 0))?;
    one.put(alloc, TypeName::Cluster, CLUSTERS)?;
    tells(alloc, one, other, &mut peer, (1, 1, 1))?;
    let mut peer = PeerMarks::new();
    tells(alloc, one, other, &mut peer, (1001, 2, 0))?;
    are_equal(alloc, one, other)
}

// rule: marks
#[test]
fn a_thousand_clusters(rt: HostRuntime) -> Result<(), Fail> {
    thousand_clusters::<Core>(rt.alloc())
}

fn five_types<S: Site>(alloc: Global) -> Result<(), Fail> {
    let mut one = S::first(alloc);
    let mut other = S::second(alloc);
    told_of_types(alloc, &mut one, &mut other)
}

// Three of each type, of which one is deleted: the deletions are told, too.
fn told_of_types<S: Site>(alloc: Global, one: &mut S, other: &mut S) -> Result<(), Fail> {
    let mut peer = PeerMarks::new();
    put_all(alloc, one, TypeName::Cluster, 3)?;
    put_all(alloc, one, TypeName::Endpoint, 3)?;
    put_all(alloc, one, TypeName::Listener, 3)?;
    put_all(alloc, one, TypeName::Route, 3)?;
    put_all(alloc, one, TypeName::Secret, 3)?;
    tells(alloc, one, other, &mut peer, (15, 1, 15))?;
    one.delete(alloc, TypeName::Route, 1)?;
    one.delete(alloc, TypeName::Secret, 2)?;
    tells(alloc, one, other, &mut peer, (2, 1, 2))?;
    are_equal(alloc, one, other)
}

// rule: marks
#[test]
fn all_five_types(rt: HostRuntime) -> Result<(), Fail> {
    five_types::<Core>(rt.alloc())
}

// What each of three replicas was told by the others.
#[derive(Drop)]
struct Peers {
    one_two: PeerMarks,
    one_three: PeerMarks,
    two_one: PeerMarks,
    two_three: PeerMarks,
    three_one: PeerMarks,
    three_two: PeerMarks,
}

fn no_peers() -> Peers {
    Peers {
        one_two: PeerMarks::new(),
        one_three: PeerMarks::new(),
        two_one: PeerMarks::new(),
        two_three: PeerMarks::new(),
        three_one: PeerMarks::new(),
        three_two: PeerMarks::new(),
    }
}

#[derive(Drop)]
struct Three<S: Site> {
    one: S,
    two: S,
    three: S,
    peers: Peers,
}

fn wander<S: Site>(alloc: Global) -> Result<(), Fail> {
    let mut all = Three {
        one: S::first(alloc),
        two: S::second(alloc),
        three: S::third(alloc),
        peers: no_peers(),
    };
    wander_on(alloc, &mut all)
}

fn wander_on<S: Site>(alloc: Global, all: &mut Three<S>) -> Result<(), Fail> {
    let mut seed: u64 = 20250101;
    for _ in 0..10_u64 {
        seed = rounds(alloc, all, seed)?;
        agree(alloc, all)?;
    }
    Ok(())
}

fn rounds<S: Site>(alloc: Global, all: &mut Three<S>, start: u64) -> Result<u64, Refusal> {
    let mut seed = start;
    for _ in 0..ROUNDS {
        seed = next(seed);
        write(alloc, all, seed >> 33)?;
        seed = next(seed);
        tell(alloc, all, (seed >> 33) % 6)?;
    }
    Ok(seed)
}

// Each tells each other all, with nothing written between.
fn agree<S: Site>(alloc: Global, all: &mut Three<S>) -> Result<(), Fail> {
    for pair in 0..6_u64 {
        tell(alloc, all, pair)?;
    }
    are_equal(alloc, &mut all.one, &mut all.two)?;
    are_equal(alloc, &mut all.two, &mut all.three)
}

// A generator of numbers that are no more than mixed well.
fn next(seed: u64) -> u64 {
    seed.wrapping_mul(6364136223846793005)
        .wrapping_add(1442695040888963407)
}

// A write at one of the replicas, or no marks of what another was told.
fn write<S: Site>(alloc: Global, all: &mut Three<S>, number: u64) -> Result<(), Refusal> {
    let which = number / 8 % 30;
    let kind = kind_of(number / 240);
    match number % 8 {
        0 => all.one.put(alloc, kind, which),
        1 => all.two.put(alloc, kind, which),
        2 => all.three.put(alloc, kind, which),
        3 => all.one.delete(alloc, kind, which),
        4 => all.two.delete(alloc, kind, which),
        5 => all.three.delete(alloc, kind, which),
        6 => {
            all.peers.one_two = PeerMarks::new();
            Ok(())
        }
        _ => Ok(()),
    }
}

fn kind_of(number: u64) -> TypeName {
    match number % 5 {
        0 => TypeName::Cluster,
        1 => TypeName::Endpoint,
        2 => TypeName::Listener,
        3 => TypeName::Route,
        _ => TypeName::Secret,
    }
}

fn tell<S: Site>(alloc: Global, all: &mut Three<S>, which: u64) -> Result<(), Refusal> {
    let Three {
        one,
        two,
        three,
        peers,
    } = all;
    let told = match which {
        0 => one.tell(alloc, two, &mut peers.one_two),
        1 => one.tell(alloc, three, &mut peers.one_three),
        2 => two.tell(alloc, one, &mut peers.two_one),
        3 => two.tell(alloc, three, &mut peers.two_three),
        4 => three.tell(alloc, one, &mut peers.three_one),
        _ => three.tell(alloc, two, &mut peers.three_two),
    };
    told?;
    Ok(())
}

// rule: greatest-write, rule: marks
#[test]
fn replicas_agree(rt: HostRuntime) -> Result<(), Fail> {
    wander::<Core>(rt.alloc())
}
