// The trace of all records of a node, and what is told where some are missing.
ghost use Rattle.std.specs.Prelude.{◌≡◌};

use crate::histories::story::{DELTA_TRACE, SOTW_TRACE, Story, left, written_out};
use std::alloc::{AllocGlobal, Global};
use std::marker::Brand;
use std::sync::Wait;
use std::test::Fail;
use xds_check::{Trace, check};
use xds_node::{History, JournalLine, NodeName, Opened, Segment, SharedNode};
use xds_resource::Refusal;
use xds_trace::{of_audited, of_history};

// How the segments are handed in.
#[derive(Clone, Copy)]
enum Order {
    NothingCut,
    AsCut,
    WithoutTheLast,
    WithoutTheFirst,
    Backwards,
    NoneOfThem,
}

impl Order {
    fn is_cut(self) -> bool {
        match self {
            Order::NothingCut => false,
            _ => true,
        }
    }
}

fn arrange<P: Drop>(segments: &mut Vec<P>, order: Order) {
    match order {
        Order::WithoutTheLast => drop(segments.pop()),
        Order::WithoutTheFirst => {
            segments.as_mut_slice().reverse();
            drop(segments.pop());
            segments.as_mut_slice().reverse();
        }
        Order::Backwards => segments.as_mut_slice().reverse(),
        Order::NoneOfThem => segments.clear(),
        Order::AsCut | Order::NothingCut => {}
    }
}

// A trace as a text, if it breaks no rule.
fn unbroken(alloc: Global, trace: &Trace) -> Result<String, Refusal> {
    match check(alloc, trace.lines())? {
        Some(_) => Ok(String::from_str(alloc, "broken")?),
        None => trace.write(alloc),
    }
}

// The same, or the name of what was refused.
fn text_of(alloc: Global, told: Result<Trace, Refusal>) -> Result<String, Refusal> {
    match told {
        Ok(trace) => {
            let text = unbroken(alloc, &trace);
            drop(trace);
            text
        }
        Err(refusal) => Ok(String::from_str(alloc, refusal.name())?),
    }
}

// The trace of what a node left, audited or not.
fn trace_of<N: NodeName>(
    alloc: Global,
    segments: Vec<Segment<N>>,
    history: History<N>,
    is_audited: bool,
) -> Result<Trace, Refusal> {
    if is_audited {
        return of_audited(alloc, segments, history);
    }
    let trace = of_history(alloc, segments.as_slice(), &history);
    drop(history);
    drop(segments);
    trace
}

// What is told of the node that the story happened at, by its segments in an order.
fn told<N: NodeName, R: Wait>(
    rt: &R,
    alloc: Global,
    opened: Opened<JournalLine>,
    story: Story,
    order: Order,
    is_audited: bool,
) -> Result<String, Refusal>
    requires name { opened ≡ N.id }
    requires number { N.replica ≡ 1 }
{
    let node = SharedNode::<N>::new(alloc, opened, 1);
    let mut segments = Vec::new(alloc);
    let history = left(rt, alloc, node, story.text(), order.is_cut(), &mut segments)?;
    arrange(&mut segments, order);
    text_of(alloc, trace_of(alloc, segments, history, is_audited))
}

// What is told of a new node.
fn told_of<R: Wait + AllocGlobal>(
    rt: &R,
    story: Story,
    order: Order,
    is_audited: bool,
) -> Result<String, Refusal> {
    let alloc = rt.alloc();
    let opened = Opened::<JournalLine>::new(alloc)?;
    told::<Brand, R>(rt, alloc, opened, story, order, is_audited)
}

// That this is told of it, audited and not.
fn is_told<R: Wait + AllocGlobal>(
    rt: &R,
    story: Story,
    order: Order,
    wanted: &str,
) -> Result<(), Fail> {
    let wanted = written_out(rt.alloc(), wanted)?;
    let found = told_of(rt, story, order, false)?;
    same(found.as_str(), wanted.as_str())?;
    let found = told_of(rt, story, order, true)?;
    same(found.as_str(), wanted.as_str())
}

fn same(found: &str, wanted: &str) -> Result<(), Fail> {
    if found == wanted {
        Ok(())
    } else {
        Err(Fail::new(format_args!("{found} and not {wanted}")))
    }
}

// rule: cuts
#[test]
fn all_records_make_the_trace(rt: HostRuntime) -> Result<(), Fail> {
    is_told(&rt, Story::Delta, Order::AsCut, DELTA_TRACE)
}

// rule: cuts
#[test]
fn so_do_those_of_a_node_that_was_not_cut(rt: HostRuntime) -> Result<(), Fail> {
    is_told(&rt, Story::Delta, Order::NothingCut, DELTA_TRACE)
}

// rule: cuts
#[test]
fn so_do_those_that_were_all_cut(rt: HostRuntime) -> Result<(), Fail> {
    is_told(&rt, Story::Sotw, Order::AsCut, SOTW_TRACE)?;
    is_told(&rt, Story::Sotw, Order::NothingCut, SOTW_TRACE)
}

#[test]
fn of_nothing_there_is_no_line(rt: HostRuntime) -> Result<(), Fail> {
    is_told(&rt, Story::Nothing, Order::NothingCut, "")?;
    is_told(&rt, Story::Cut, Order::AsCut, "")
}

// rule: cuts
#[test]
fn a_segment_that_is_missing_is_a_gap(rt: HostRuntime) -> Result<(), Fail> {
    is_told(&rt, Story::Delta, Order::WithoutTheLast, "Gap")?;
    is_told(&rt, Story::Sotw, Order::WithoutTheLast, "Gap")
}

// rule: cuts
#[test]
fn so_is_the_first(rt: HostRuntime) -> Result<(), Fail> {
    is_told(&rt, Story::Delta, Order::WithoutTheFirst, "Gap")?;
    is_told(&rt, Story::Sotw, Order::WithoutTheFirst, "Gap")
}

// rule: cuts
#[test]
fn so_are_all(rt: HostRuntime) -> Result<(), Fail> {
    is_told(&rt, Story::Delta, Order::NoneOfThem, "Gap")?;
    is_told(&rt, Story::Sotw, Order::NoneOfThem, "Gap")
}

// rule: cuts
#[test]
fn segments_in_another_order_are_a_gap(rt: HostRuntime) -> Result<(), Fail> {
    is_told(&rt, Story::Delta, Order::Backwards, "Gap")?;
    is_told(&rt, Story::Sotw, Order::Backwards, "Gap")
}
