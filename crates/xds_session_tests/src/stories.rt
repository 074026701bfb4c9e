// Stories as texts, one step a line: what is done, ` => `, and the answer that is wanted.
ghost use Rattle.std.specs.Prelude.{◌≡◌};
ghost use Rattle.xds_catalogue.specs.Holdings.{IsCatalogue};
ghost use Rattle.xds_ledger.specs.Listed.{IsLater};

use std::alloc::Global;
use std::mem;
use std::test::Fail;
use xds_cases::cases::{replaced, told, unfolded, words_of, written_out};
use xds_resource::{Groups, Refusal, Resource, ResourceType, Stamp, Write};
use xds_sessions::Published;

/// What answers the steps of a story.
pub trait Actor {
    fn new(alloc: Global, replica: u16) -> Self;

    fn answer(&mut self, alloc: Global, verb: &str, rest: &str) -> Result<String, Refusal>;
}

/// Compares the answer to each step with the one that is wanted, where the steps are done in their
/// order. As in a table of cases, a line that begins with four spaces goes on with the line before
/// it, and the types' URLs are written short.
pub(crate) fn hold<A: Actor + Drop>(alloc: Global, replica: u16, story: &str) -> Result<(), Fail> {
    let mut actor = A::new(alloc, replica);
    let story = unfolded(alloc, story)?;
    for line in story.as_str().lines() {
        hold_one(alloc, &mut actor, line)?;
    }
    Ok(())
}

fn hold_one<A: Actor>(alloc: Global, actor: &mut A, line: &str) -> Result<(), Fail> {
    let line = written_out(alloc, line)?;
    let (step, wanted) = line
        .as_str()
        .split_once(" => ")
        .ok_or("a step has no answer")?;
    let (verb, rest) = step.split_once(' ').unwrap_or((step, ""));
    let answer = actor.answer(alloc, verb, rest);
    same(told(alloc, answer)?.as_str(), wanted, step)
}

// Fails unless what was found is what is wanted.
fn same(found: &str, wanted: &str, step: &str) -> Result<(), Fail> {
    if found == wanted {
        Ok(())
    } else {
        Err(Fail::new(format_args!("{found} and not {wanted}, at {step}")))
    }
}

/// Keeps another value in a place.
pub(crate) fn keep<V: Drop>(place: &mut V, value: V)
    ensures { place.new ≡ value }
{
    drop(mem::replace(place, value));
}

/// A text of its own.
pub(crate) fn text(alloc: Global, text: &str) -> Result<String, Refusal> {
    Ok(String::from_str(alloc, text)?)
}

/// What a step that changes a catalogue answers: the version of a local write, or by how much the
/// changes grew.
pub(crate) fn change<T: ResourceType>(
    alloc: Global,
    catalogue: &mut Published<T>,
    verb: &str,
    rest: &str,
) -> Result<String, Refusal>
    requires { IsCatalogue catalogue.old.entries }
    ensures { IsCatalogue catalogue.new.entries × IsLater catalogue.old catalogue.new }
{
    match verb {
        "put" => put(alloc, catalogue, Groups::none(), rest),
        "putin" => put_in(alloc, catalogue, rest),
        "delete" => delete(alloc, catalogue, rest),
        _ => join(alloc, catalogue, rest),
    }
}

// Puts a resource, for the clients of some groups.
fn put<T: ResourceType>(
    alloc: Global,
    catalogue: &mut Published<T>,
    groups: Groups,
    resource: &str,
) -> Result<String, Refusal>
    requires { IsCatalogue catalogue.old.entries }
    ensures { IsCatalogue catalogue.new.entries × IsLater catalogue.old catalogue.new }
{
    let resource = Resource::parse(alloc, resource)?;
    let stamp = catalogue.put(resource, groups, 1);
    version(alloc, stamp)
}

// Puts a resource, for the clients of the groups that are named before it.
fn put_in<T: ResourceType>(
    alloc: Global,
    catalogue: &mut Published<T>,
    rest: &str,
) -> Result<String, Refusal>
    requires { IsCatalogue catalogue.old.entries }
    ensures { IsCatalogue catalogue.new.entries × IsLater catalogue.old catalogue.new }
{
    let (groups, resource) = rest.split_once(' ').unwrap_or((rest, ""));
    let groups = groups_of(alloc, groups)?;
    put(alloc, catalogue, groups, resource)
}

fn delete<T: ResourceType>(
    alloc: Global,
    catalogue: &mut Published<T>,
    name: &str,
) -> Result<String, Refusal>
    requires { IsCatalogue catalogue.old.entries }
    ensures { IsCatalogue catalogue.new.entries × IsLater catalogue.old catalogue.new }
{
    let stamp = catalogue.delete(name, 1);
    version(alloc, stamp)
}

// Joins a write.
fn join<T: ResourceType>(
    alloc: Global,
    catalogue: &mut Published<T>,
    write: &str,
) -> Result<String, Refusal>
    requires { IsCatalogue catalogue.old.entries }
    ensures { IsCatalogue catalogue.new.entries × IsLater catalogue.old catalogue.new }
{
    let write = write_of(alloc, write)?;
    let grown = catalogue.join_write(write);
    number(alloc, grown)
}

fn version(alloc: Global, stamp: Result<Stamp, Refusal>) -> Result<String, Refusal> {
    stamp?.version_text(alloc)
}

fn number(alloc: Global, grown: Result<u64, Refusal>) -> Result<String, Refusal> {
    let grown = grown?;
    Ok(format!(in alloc; "{grown}")?)
}

// The groups of a text, apart by commas.
fn groups_of(alloc: Global, text: &str) -> Result<Groups, Refusal> {
    let texts = replaced(alloc, text, ",", " ")?;
    Groups::new(alloc, &words_of(alloc, texts.as_str())?)
}

// The write of a version and a resource.
fn write_of<T: ResourceType>(alloc: Global, text: &str) -> Result<Write<T>, Refusal> {
    let (version, resource) = text.split_once(' ').ok_or(Refusal::BadMessage)?;
    let stamp = Stamp::parse_version(version)?;
    Ok(Write::put(stamp, Resource::parse(alloc, resource)?, Groups::none()))
}
