// What a stream's requests leave of an interest, and the names that they touch, request by request.
use std::alloc::{AllocError, Global};
use std::collections::btree_set::Iter;
use std::mem;
use std::test::Fail;
use xds_cases::cases::{Outcome, hold, words_of};
use xds_interest::{ClusterText, DeltaNames, Interest, SotwNames, Touched};
use xds_resource::{Cluster, Refusal, ResourceType, Route};

// An interest, its star as `+`, and after `:` what was touched, all names as `!`.
fn write_step<T: ResourceType>(
    all: &mut String,
    interest: &Interest<T>,
    touched: &Touched,
) -> Result<(), AllocError> {
    all.push_str(if interest.has_star() { "+" } else { "" })?;
    push_all(all, interest.names())?;
    all.push_str(if touched.all() { ":!" } else { ":" })?;
    push_all(all, touched.names())?;
    all.push(' ')
}

fn push_all(all: &mut String, names: Iter<'_, String>) -> Result<(), AllocError> {
    for name in names {
        all.push_str(name)?;
    }
    Ok(())
}

// Keeps another value in a place.
fn put<V: Drop>(place: &mut V, value: V) {
    drop(mem::replace(place, value));
}

fn sotw_step<T: ResourceType>(
    alloc: Global,
    kept: &mut SotwNames<T>,
    all: &mut String,
    list: &str,
) -> Result<(), Refusal> {
    let names = words_of(alloc, list)?;
    let touched = kept.take(alloc, &names)?.try_copy(alloc)?;
    let copy = kept.try_copy(alloc)?;
    put(kept, copy);
    Ok(write_step(all, kept.interest(), &touched)?)
}

fn sotw_steps<T: ResourceType>(
    alloc: Global,
    kept: &mut SotwNames<T>,
    lists: &str,
) -> Result<String, Refusal> {
    let mut all = String::new(alloc);
    for list in lists.split('|') {
        sotw_step(alloc, kept, &mut all, list)?;
    }
    all.push_str(if kept.has_begun() { "begun" } else { "" })?;
    Ok(all)
}

fn sotw<T: ResourceType>(alloc: Global, lists: &str) -> Result<String, Refusal> {
    let mut kept = SotwNames::<T>::new(alloc, ClusterText::none());
    let told = sotw_steps(alloc, &mut kept, lists);
    drop(kept);
    told
}

// Takes a request in place, once it was taken back.
fn take_in_place<T: ResourceType>(
    alloc: Global,
    kept: &mut DeltaNames<T>,
    subscribe: &[String],
    unsubscribe: &[String],
) -> Result<Touched, Refusal> {
    let wanted = kept.wanted_by(alloc, subscribe, unsubscribe)?;
    let widened = widen_again(alloc, kept, &wanted);
    if widened.is_ok() {
        kept.narrow(&wanted, unsubscribe);
    }
    drop(wanted);
    widened?;
    DeltaNames::<T>::touched_by(alloc, subscribe, unsubscribe)
}

// Adds what is wanted, once that was taken back.
fn widen_again<T: ResourceType>(
    alloc: Global,
    kept: &mut DeltaNames<T>,
    wanted: &Interest<T>,
) -> Result<(), Refusal> {
    let added = kept.widen(alloc, wanted)?;
    kept.take_back(&added);
    drop(added);
    drop(kept.widen(alloc, wanted)?);
    Ok(())
}

fn delta_step<T: ResourceType>(
    alloc: Global,
    kept: &mut DeltaNames<T>,
    in_place: bool,
    all: &mut String,
    request: &str,
) -> Result<(), Refusal> {
    let (subscribe, unsubscribe) = request.split_once('-').unwrap_or((request, ""));
    let subscribe = words_of(alloc, subscribe)?;
    let unsubscribe = words_of(alloc, unsubscribe)?;
    let touched = if in_place {
        take_in_place(alloc, kept, &subscribe, &unsubscribe)?
    } else {
        kept.take(alloc, &subscribe, &unsubscribe)?
    };
    let copy = kept.try_copy(alloc)?;
    put(kept, copy);
    Ok(write_step(all, kept.interest(), &touched)?)
}

fn delta_steps<T: ResourceType>(
    alloc: Global,
    kept: &mut DeltaNames<T>,
    in_place: bool,
    requests: &str,
) -> Result<String, Refusal> {
    let mut all = String::new(alloc);
    for request in requests.split('|') {
        delta_step(alloc, kept, in_place, &mut all, request)?;
    }
    all.push_str(if kept.has_begun() { "begun" } else { "" })?;
    Ok(all)
}

fn delta<T: ResourceType>(
    alloc: Global,
    in_place: bool,
    requests: &str,
) -> Result<String, Refusal> {
    let mut kept = DeltaNames::<T>::new(alloc, ClusterText::none());
    let told = delta_steps(alloc, &mut kept, in_place, requests);
    drop(kept);
    told
}

struct Streams;

impl Outcome for Streams {
    fn of(alloc: Global, given: &str) -> Result<String, Fail> {
        let (word, requests) = given.split_once(':').ok_or("no type")?;
        let told = match word {
            "sotw cluster" => sotw::<Cluster>(alloc, requests),
            "sotw route" => sotw::<Route>(alloc, requests),
            "delta cluster" => delta::<Cluster>(alloc, false, requests),
            "in place cluster" => delta::<Cluster>(alloc, true, requests),
            "in place route" => delta::<Route>(alloc, true, requests),
            _ => delta::<Route>(alloc, false, requests),
        };
        Ok(told?)
    }
}

// rule: listed-names, rule: delta-names
#[test]
fn streams_leave_interests(rt: HostRuntime) -> Result<(), Fail> {
    hold::<Streams, HostRuntime>(
        &rt,
        "sotw cluster:|* A|A| => +:! +A:A A:! :A begun
sotw route:|*|B => : *:* B:*B begun
delta cluster:|A|-*|-A|* => +: +A:A A:! :A +:! begun
in place cluster:|A|-*|-A|* => +: +A:A A:! :A +:! begun
delta route:A-A|*|-A => A:A *A:* *:A begun
in place route:A-A|*|-A|B A|C-A => A:A *A:* *:A *AB:AB *BC:AC begun",
    )
}
