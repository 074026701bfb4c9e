// Changes of one replica that are made together, or none of them.
use crate::fitting::long_among;
use crate::replica::{entries, make_change};
use std::alloc::Global;
use std::collections::BTreeSet;
use std::sync::Wait;
use xds_changes::change::Change;
use xds_changes::made::Made;
use xds_core::Event;
use xds_message::Batch;
use xds_notes::{Fault, Lookout};
use xds_resource::{Refusal, ResourceType, TypeName, Write};
use xds_rest::Served;

/// Makes changes at a replica, all of them or none, or says what would become of each. They are looked at first: a deletion of what isn't
/// live by then is refused, and so is a put that makes a response too long, where such are. Where one is refused all the same when it is
/// made, those behind it are left, and those before it stay.
pub fn make_all<R: Wait, A: Served>(
    rt: &R,
    alloc: Global,
    node: &A,
    seat: &mut A::Seat,
    changes: Vec<Change>,
    is_tried: bool,
    lookout: &Lookout,
) -> Result<Vec<Made>, Refusal> {
    let held = entries(rt, node, seat)?;
    let looked = looked_at(alloc, &held, changes.as_slice());
    drop(held);
    let long = long_among(
        rt,
        alloc,
        node,
        seat,
        changes.as_slice(),
        !is_tried,
        lookout,
    );
    let looked = faults_of(alloc, looked?, long?)?;
    if is_tried {
        return verdicts(alloc, &looked, Made::Would);
    }
    if are_any(&looked) {
        return verdicts(alloc, &looked, Made::Left);
    }
    make_each(rt, alloc, node, seat, changes)
}

fn make_each<R: Wait, A: Served>(
    rt: &R,
    alloc: Global,
    node: &A,
    seat: &mut A::Seat,
    changes: Vec<Change>,
) -> Result<Vec<Made>, Refusal> {
    let mut made = Vec::new(alloc);
    let mut has_failed = false;
    for change in changes {
        let one = if has_failed {
            drop(change);
            Made::Left
        } else {
            match make_change(rt, node, seat, change.event) {
                Ok(stamp) => Made::Written(stamp),
                Err(refusal) => {
                    has_failed = true;
                    Made::Refused(Fault::of(refusal))
                }
            }
        };
        made.push(one)?;
    }
    Ok(made)
}

// Why each change isn't made, by what was found of all of them, and by the length of a response, as far as that was looked at.
fn faults_of(
    alloc: Global,
    looked: Vec<Option<Refusal>>,
    long: Vec<Option<Fault>>,
) -> Result<Vec<Option<Fault>>, Refusal> {
    let mut faults = Vec::new(alloc);
    let mut long = long.into_iter();
    for one in looked {
        let length = match long.next() {
            Some(fault) => fault,
            None => None,
        };
        faults.push(match one {
            Some(refusal) => Some(Fault::of(refusal)),
            None => length,
        })?;
    }
    Ok(faults)
}

fn are_any(looked: &Vec<Option<Fault>>) -> bool {
    for one in looked {
        if one.is_some() {
            return true;
        }
    }
    false
}

// What becomes of changes that were looked at: those that aren't refused are this.
fn verdicts(alloc: Global, looked: &Vec<Option<Fault>>, good: Made) -> Result<Vec<Made>, Refusal> {
    let mut made = Vec::new(alloc);
    for one in looked {
        made.push(match one {
            Some(fault) => Made::Refused(*fault),
            None => good,
        })?;
    }
    Ok(made)
}

// Why each change would be refused, where those before it were made over what is held: a deletion of what isn't live.
fn looked_at(
    alloc: Global,
    held: &Batch,
    changes: &[Change],
) -> Result<Vec<Option<Refusal>>, Refusal> {
    let mut live = live_names(alloc, held)?;
    let mut looked = Vec::new(alloc);
    for change in changes {
        looked.push(look_at(alloc, &mut live, &change.event)?)?;
    }
    Ok(looked)
}

// Why a change would be refused where these names are live, if it would be; and the names after it.
fn look_at(
    alloc: Global,
    live: &mut BTreeSet<String>,
    event: &Event,
) -> Result<Option<Refusal>, Refusal> {
    match event {
        Event::Put(resource, _) => {
            let key = key_of(alloc, resource.type_name(), resource.name())?;
            add_key(live, key)?;
            Ok(None)
        }
        Event::Delete(kind, name) => {
            let key = key_of(alloc, *kind, name.as_str())?;
            if live.remove(&key) {
                Ok(None)
            } else {
                Ok(Some(Refusal::NotFound))
            }
        }
        _ => Ok(None),
    }
}

fn add_key(live: &mut BTreeSet<String>, key: String) -> Result<(), Refusal> {
    match live.insert(key) {
        Ok(_) => Ok(()),
        Err(_) => Err(Refusal::OutOfMemory),
    }
}

// A name with its type.
fn key_of(alloc: Global, kind: TypeName, name: &str) -> Result<String, Refusal> {
    let kind = kind.word();
    Ok(format!(in alloc; "{kind} {name}")?)
}

// The names that are live.
fn live_names(alloc: Global, held: &Batch) -> Result<BTreeSet<String>, Refusal> {
    let mut live = BTreeSet::new(alloc);
    add_live(alloc, &mut live, held.cluster.as_slice())?;
    add_live(alloc, &mut live, held.endpoint.as_slice())?;
    add_live(alloc, &mut live, held.listener.as_slice())?;
    add_live(alloc, &mut live, held.route.as_slice())?;
    add_live(alloc, &mut live, held.secret.as_slice())?;
    Ok(live)
}

fn add_live<T: ResourceType>(
    alloc: Global,
    live: &mut BTreeSet<String>,
    writes: &[Write<T>],
) -> Result<(), Refusal> {
    for write in writes {
        if write.body().is_some() {
            let key = key_of(alloc, T::TYPE, write.name())?;
            add_key(live, key)?;
        }
    }
    Ok(())
}
