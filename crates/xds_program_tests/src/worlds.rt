// A replica with a cluster, and a client that wants all clusters.
use std::alloc::Global;
use std::test::Fail;
use xds_cache::AcceptAll;
use xds_resource::{AnyResource, Groups, Refusal, TypeName};
use xds_script::{ClientKind, Wish, WorldEvent};
use xds_world::{Unsettled, World, more, play, settle};

const CLUSTER: &str =
    r#"{"@type":"type.googleapis.com/envoy.config.cluster.v3.Cluster","name":"a"}"#;

// A client wants all clusters.
fn wants_all(alloc: Global) -> Result<Wish, Refusal> {
    let mut texts = Vec::new(alloc);
    texts.push(String::from_str(alloc, "*")?)?;
    Ok(Wish::Edits(texts, Vec::new(alloc)))
}

fn put(alloc: Global) -> Result<WorldEvent, Refusal> {
    Ok(WorldEvent::Put(1, AnyResource::parse(alloc, CLUSTER)?, Groups::none()))
}

fn change(alloc: Global) -> Result<WorldEvent, Refusal> {
    Ok(WorldEvent::Change(7, TypeName::Cluster, wants_all(alloc)?))
}

// The client has no stream yet, and wants nothing of replica 2, which isn't there.
fn begun(alloc: Global) -> Result<World<AcceptAll>, Refusal> {
    let mut events = Vec::new(alloc);
    events.push(WorldEvent::AddReplica(1))?;
    events.push(put(alloc)?)?;
    events.push(WorldEvent::AddClient(7, ClientKind::Delta, String::new(alloc)))?;
    events.push(change(alloc)?)?;
    events.push(WorldEvent::Connect(7, 2))?;
    play(alloc, events.as_slice())
}

fn connected(alloc: Global) -> Result<World<AcceptAll>, Refusal> {
    let world = begun(alloc)?;
    more(alloc, world, &[WorldEvent::Connect(7, 1)])
}

// How many records the journal of a replica has.
fn records(world: &World<AcceptAll>, replica: u16) -> Option<usize> {
    let journal = world.journal(replica)?;
    Some(journal.len())
}

// Whether the client shows the cluster.
fn shows(world: &World<AcceptAll>) -> bool {
    match world.view(7, TypeName::Cluster) {
        Some(view) => view.get("a").is_some(),
        None => false,
    }
}

// That a client wasn't settled is no answer where memory was missing.
fn unsettled(failed: Unsettled<AcceptAll>) -> Result<bool, Refusal> {
    let is_short = matches!(&failed, Unsettled::OutOfMemory);
    drop(failed);
    if is_short {
        Err(Refusal::OutOfMemory)
    } else {
        Ok(false)
    }
}

// Whether settling the client of clusters needs one response, and these many events are kept then.
fn settles(alloc: Global, world: World<AcceptAll>, events: usize) -> Result<bool, Refusal> {
    match settle(alloc, world, 7, TypeName::Cluster) {
        Ok(settlement) => {
            let is_right = settlement.settled
                && settlement.responses == 1
                && shows(&settlement.world)
                && settlement.world.events().len() == events;
            drop(settlement);
            Ok(is_right)
        }
        Err(failed) => unsettled(failed),
    }
}

// Whether a client can't be settled since it has no stream, and nothing happens.
fn has_no_stream(alloc: Global, world: World<AcceptAll>, client: u32) -> Result<bool, Refusal> {
    let before = world.events().len();
    match settle(alloc, world, client, TypeName::Cluster) {
        Ok(settlement) => {
            drop(settlement);
            Ok(false)
        }
        Err(Unsettled::NoStream(world)) => {
            let after = world.events().len();
            drop(world);
            Ok(after == before)
        }
        Err(failed) => unsettled(failed),
    }
}

#[test]
fn a_journal_tells_what_was_possible(rt: HostRuntime) -> Result<(), Fail> {
    let world = connected(rt.alloc())?;
    let (put, none) = (records(&world, 1), records(&world, 2));
    let kept = world.events().len();
    drop(world);
    assert!(rt; put == Some(2), "a resource was put, and a stream opened");
    assert!(rt; none.is_none(), "there is no replica 2");
    assert!(rt; kept == 6, "all that was to happen is kept");
    Ok(())
}

#[test]
fn a_client_is_settled_by_one_response(rt: HostRuntime) -> Result<(), Fail> {
    let world = connected(rt.alloc())?;
    let settled = world.settled(7, TypeName::Cluster);
    let settles = settles(rt.alloc(), world, 10)?;
    assert!(rt; settled == Some(false), "its request is under way");
    assert!(rt; settles, "up, poll, down and up come to the six");
    Ok(())
}

#[test]
fn a_client_without_a_stream_is_not_settled(rt: HostRuntime) -> Result<(), Fail> {
    assert!(rt;
        has_no_stream(rt.alloc(), begun(rt.alloc())?, 7)?,
        "it is down"
    );
    assert!(rt;
        has_no_stream(rt.alloc(), begun(rt.alloc())?, 8)?,
        "it isn't there"
    );
    Ok(())
}
