// The best write of a name among the lines of a trace, and the line that has it.
ghost use Rattle.std.specs.Prelude.{◌≡◌};
ghost use Rattle.std.specs.Option.{option_map};
ghost use Rattle.xds_resource.specs.Best.{if_named};
ghost use Rattle.xds_explain.specs.BestLines.{write_under, is_surpassed, better, best_line};

use std::cmp::Ordering;
use xds_check::{ByType, Line};
use xds_resource::{ResourceType, Write};

// The write of the type and the name that a line is, if it is one.
fn write_under<'a, T: ByType>(line: &'a Line, name: &str) -> Option<&'a Write<T>>
    ensures { option_map (λ w. w.now) result ≡ write_under T.TYPE name.now line.now }
{
    match line {
        Line::Write(write) => if_named(T::write_of(write)?, name),
        Line::Open(_)
        | Line::Close(_)
        | Line::Request(_, _)
        | Line::Response(_, _)
        | Line::Idle(_, _) => None,
    }
}

// The write, if it has the name.
fn if_named<'a, T: ResourceType>(write: &'a Write<T>, name: &str) -> Option<&'a Write<T>>
    ensures { option_map (λ w. w.now) result ≡ if_named name.now write.now }
{
    if write.name() == name {
        Some(write)
    } else {
        None
    }
}

// rule: greatest-write
// Whether a write is greater than the one that is kept, or the first.
fn is_surpassed<T: ResourceType>(kept: Option<(usize, &Write<T>)>, write: &Write<T>) -> bool
    ensures { result ≡ is_surpassed (option_map (λ p. p.1.now) kept.entry) write.now }
{
    match kept {
        Some((_, best)) => best.cmp(write) == Ordering::Less,
        None => true,
    }
}

// rule: greatest-write
// The greater of the write that is kept and that of a line, with the number of its line.
fn better<'a, T: ResourceType>(
    kept: Option<(usize, &'a Write<T>)>,
    number: usize,
    next: Option<&'a Write<T>>,
) -> Option<(usize, &'a Write<T>)>
    ensures { option_map (λ p. (p.0, p.1.now)) result ≡ better (option_map (λ p. (p.0, p.1.now)) kept.entry) number (option_map (λ w. w.now) next.entry) }
{
    let Some(next) = next else {
        return kept;
    };
    if is_surpassed(kept, next) {
        return Some((number, next));
    }
    kept
}

// rule: greatest-write
/// The greatest write of a name among these lines, and the number of the first line that has it, from 1.
pub(crate) fn best_line<'a, T: ByType>(
    lines: &'a [Line],
    name: &str,
) -> Option<(usize, &'a Write<T>)>
    ensures { option_map (λ p. (p.0, p.1.now)) result ≡ best_line T.TYPE name.now lines.now }
{
    let mut best = None;
    for (i, line) in lines.iter().enumerate() {
        best = better(best, i + 1, write_under(line, name));
    }
    best
}
