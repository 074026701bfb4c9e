// Commands that hold texts.
ghost use Rattle.std.specs.Prelude.{◌≡◌, ◌≢◌, ◌<◌, ◌++◌, Option, OnOk, IfOk, IfErr, map, string_bytes, true, false};
ghost use Rattle.std.specs.Option.{option_map, ok_or, option_to_list};
ghost use Rattle.xds_resource.specs.declared.refusal.Refusal.TheVariants.{BadScript, OutOfMemory};
ghost use Rattle.xds_resource.specs.Refusals.{Gives};
ghost use Rattle.xds_resource.specs.Any.{resource_type, named_body};
ghost use Rattle.xds_script.specs.ModelSeen.{wish_of};
ghost use Rattle.xds_script.specs.declared.command.CommandVerb.TheVariants as verbs;
ghost use Rattle.xds_script.specs.Lines.{pieces};
ghost use Rattle.xds_script.specs.Commands.{cluster_if_any, comma, groups_in, groups_and_resource, kind_of_word, kind_and_cluster, resource_behind, name_in, name_behind, names_in, edits_in, is_edit, subscribed_in, unsubscribed_in, said_of, says};

use crate::command::Command;
use crate::event::{ClientKind, Wish, WorldEvent};
use crate::numbers::{replica_number, whole_number};
use crate::words::Words;
use std::alloc::Global;
use xds_resource::{AnyResource, Groups, Refusal, TypeName};

// The name that the word is.
fn name_in(alloc: Global, word: &str) -> Result<String, Refusal>
    ensures { Gives string_bytes result (ok_or (name_in word.now) BadScript) }
{
    if word.is_empty() {
        return Err(Refusal::BadScript);
    }
    Ok(String::from_str(alloc, word)?)
}

// The resource whose text the words are.
fn resource_behind(alloc: Global, words: Words) -> Result<AnyResource, Refusal>
    ensures { Gives (λ r. (resource_type r, named_body r)) result (ok_or (resource_behind words.entry) BadScript) }
{
    let text = words.text().ok_or(Refusal::BadScript)?;
    match AnyResource::parse(alloc, text) {
        Ok(resource) => Ok(resource),
        Err(Refusal::OutOfMemory) => Err(Refusal::OutOfMemory),
        Err(_) => Err(Refusal::BadScript),
    }
}

pub(crate) fn put(alloc: Global, words: Words) -> Result<Command, Refusal>
    ensures { Gives said_of result (ok_or (says verbs.Put words.entry) BadScript) }
{
    let (replica, rest) = words.split_first().ok_or(Refusal::BadScript)?;
    let replica = replica_number(replica).ok_or(Refusal::BadScript)?;
    let resource = resource_behind(alloc, rest)?;
    let groups = Groups::none();
    Ok(Command::Event(WorldEvent::Put(replica, resource, groups)))
}

// The groups that the word lists.
fn groups_in(alloc: Global, word: &str) -> Result<Groups, Refusal>
    ensures { Gives (λ g. g) result (ok_or (groups_in word.now) BadScript) }
{
    let texts = pieces_of(alloc, word)?;
    match Groups::new(alloc, texts.as_slice()) {
        Ok(groups) => Ok(groups),
        Err(Refusal::OutOfMemory) => Err(Refusal::OutOfMemory),
        Err(_) => Err(Refusal::BadScript),
    }
}

// What stands between the commas of the word.
fn pieces_of(alloc: Global, word: &str) -> Result<Vec<String>, Refusal>
    ensures pieces { IfOk result (λ v. map string_bytes v.items ≡ pieces comma word.now) }
    ensures refused { IfErr result (λ e. e ≡ OutOfMemory) }
{
    let mut texts = Vec::new(alloc);
    for text in word.split(',') {
        texts.push(String::from_str(alloc, text)?)?;
    }
    Ok(texts)
}

pub(crate) fn put_in(alloc: Global, words: Words) -> Result<Command, Refusal>
    ensures { Gives said_of result (ok_or (says verbs.PutIn words.entry) BadScript) }
{
    let (replica, rest) = words.split_first().ok_or(Refusal::BadScript)?;
    let replica = replica_number(replica).ok_or(Refusal::BadScript)?;
    let (groups, rest) = rest.split_first().ok_or(Refusal::BadScript)?;
    let groups = groups_in(alloc, groups)?;
    let resource = resource_behind(alloc, rest)?;
    Ok(Command::Event(WorldEvent::Put(replica, resource, groups)))
}

fn kind_of_word(word: &str) -> Option<ClientKind>
    ensures { result ≡ kind_of_word word.now }
{
    match word {
        "sotw" => Some(ClientKind::Sotw),
        "delta" => Some(ClientKind::Delta),
        "rest" => Some(ClientKind::Rest),
        _ => None,
    }
}

// A client's cluster, if a word stands there.
fn cluster_if_any(alloc: Global, words: Words) -> Result<String, Refusal>
    ensures { Gives string_bytes result (ok_or (cluster_if_any words.entry) BadScript) }
{
    if words.is_empty() {
        return Ok(String::new(alloc));
    }
    name_in(alloc, words.only().ok_or(Refusal::BadScript)?)
}

pub(crate) fn add_client(alloc: Global, words: Words) -> Result<Command, Refusal>
    ensures { Gives said_of result (ok_or (says verbs.Client words.entry) BadScript) }
{
    let (client, rest) = words.split_first().ok_or(Refusal::BadScript)?;
    let client = whole_number(client).ok_or(Refusal::BadScript)?;
    let (kind, rest) = rest.split_first().ok_or(Refusal::BadScript)?;
    let kind = kind_of_word(kind).ok_or(Refusal::BadScript)?;
    let cluster = cluster_if_any(alloc, rest)?;
    Ok(Command::Event(WorldEvent::AddClient(client, kind, cluster)))
}

pub(crate) fn delete(alloc: Global, words: Words) -> Result<Command, Refusal>
    ensures { Gives said_of result (ok_or (says verbs.Delete words.entry) BadScript) }
{
    let (replica, rest) = words.split_first().ok_or(Refusal::BadScript)?;
    let replica = replica_number(replica).ok_or(Refusal::BadScript)?;
    let (kind, name) = rest.two().ok_or(Refusal::BadScript)?;
    let kind = TypeName::from_word(kind).ok_or(Refusal::BadScript)?;
    let name = name_in(alloc, name)?;
    Ok(Command::Event(WorldEvent::Delete(replica, kind, name)))
}

// The name behind a mark.
fn name_behind(word: &str, mark: char) -> Option<&str>
    requires { mark < 128 }
    ensures { option_map (λ s. s.now) result ≡ name_behind mark word.now }
{
    let name = word.strip_prefix(mark)?;
    if name.is_empty() { None } else { Some(name) }
}

// Names to want, perhaps none.
fn names_in(alloc: Global, words: Words) -> Result<Wish, Refusal>
    ensures { Gives wish_of result (ok_or (names_in words.entry) BadScript) }
{
    let mut names = Vec::new(alloc);
    let mut left = words;
    while let Some((word, rest)) = left.split_first() {
        names.push(name_in(alloc, word)?)?;
        left = rest;
    }
    Ok(Wish::Names(names))
}

// Adds the name of an edit to those to subscribe, or to those to unsubscribe.
fn take_edit(
    alloc: Global,
    word: &str,
    subscribe: &mut Vec<String>,
    unsubscribe: &mut Vec<String>,
) -> Result<(), Refusal>
    ensures edit { OnOk result (is_edit word.now ≡ true) }
    ensures subscribed { OnOk result (map string_bytes subscribe.new.items
        ≡ map string_bytes subscribe.old.items ++ option_to_list (subscribed_in word.now)) }
    ensures unsubscribed { OnOk result (map string_bytes unsubscribe.new.items
        ≡ map string_bytes unsubscribe.old.items ++ option_to_list (unsubscribed_in word.now)) }
    ensures refused { IfErr result (λ e. e ≢ OutOfMemory → (e ≡ BadScript) × (is_edit word.now ≡ false)) }
{
    if let Some(name) = name_behind(word, '+') {
        subscribe.push(String::from_str(alloc, name)?)?;
        return Ok(());
    }
    match name_behind(word, '-') {
        Some(name) => unsubscribe.push(String::from_str(alloc, name)?)?,
        None => return Err(Refusal::BadScript),
    }
    Ok(())
}

// Names to subscribe and to unsubscribe, one at least.
fn edits_in(alloc: Global, words: Words) -> Result<Wish, Refusal>
    ensures { Gives wish_of result (ok_or (edits_in words.entry) BadScript) }
{
    if words.is_empty() {
        return Err(Refusal::BadScript);
    }
    let mut subscribe = Vec::new(alloc);
    let mut unsubscribe = Vec::new(alloc);
    let mut left = words;
    while let Some((word, rest)) = left.split_first() {
        take_edit(alloc, word, &mut subscribe, &mut unsubscribe)?;
        left = rest;
    }
    Ok(Wish::Edits(subscribe, unsubscribe))
}

pub(crate) fn names(alloc: Global, words: Words) -> Result<Command, Refusal>
    ensures { Gives said_of result (ok_or (says verbs.Names words.entry) BadScript) }
{
    let (client, rest) = words.split_first().ok_or(Refusal::BadScript)?;
    let client = whole_number(client).ok_or(Refusal::BadScript)?;
    let (kind, rest) = rest.split_first().ok_or(Refusal::BadScript)?;
    let kind = TypeName::from_word(kind).ok_or(Refusal::BadScript)?;
    let wish = names_in(alloc, rest)?;
    Ok(Command::Event(WorldEvent::Change(client, kind, wish)))
}

pub(crate) fn change(alloc: Global, words: Words) -> Result<Command, Refusal>
    ensures { Gives said_of result (ok_or (says verbs.Change words.entry) BadScript) }
{
    let (client, rest) = words.split_first().ok_or(Refusal::BadScript)?;
    let client = whole_number(client).ok_or(Refusal::BadScript)?;
    let (kind, rest) = rest.split_first().ok_or(Refusal::BadScript)?;
    let kind = TypeName::from_word(kind).ok_or(Refusal::BadScript)?;
    let wish = edits_in(alloc, rest)?;
    Ok(Command::Event(WorldEvent::Change(client, kind, wish)))
}
