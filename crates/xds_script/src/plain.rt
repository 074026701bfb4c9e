// Commands that need no memory.
ghost use Rattle.std.specs.Prelude.{◌≡◌, Option};
ghost use Rattle.std.specs.Option.{option_map};
ghost use Rattle.xds_resource.specs.Types.{type_of_word};
ghost use Rattle.xds_script.specs.declared.command.CommandVerb.TheVariants as verbs;
ghost use Rattle.xds_script.specs.Words.{replica_number, whole_number};
ghost use Rattle.xds_script.specs.Commands.{read_two, read_first, only_replica, only_client, client_and_type, client_and_poll, type_if_any, said_of, says};

use crate::command::Command;
use crate::event::{AnswerFate, WorldEvent};
use crate::numbers::{replica_number, whole_number};
use crate::words::Words;
use xds_resource::TypeName;

// A replica alone.
fn only_replica(words: Words) -> Option<u16>
    ensures { result ≡ only_replica words.entry }
{
    replica_number(words.only()?)
}

// A client alone.
fn only_client(words: Words) -> Option<u32>
    ensures { result ≡ only_client words.entry }
{
    whole_number(words.only()?)
}

fn client_and_type(words: Words) -> Option<(u32, TypeName)>
    ensures { result ≡ client_and_type words.entry }
{
    let (client, kind) = words.two()?;
    let client = whole_number(client)?;
    Some((client, TypeName::from_word(kind)?))
}

// A client, and what it polls: a replica, and a type.
fn client_and_poll(words: Words) -> Option<(u32, (u16, TypeName))>
    ensures { result ≡ client_and_poll words.entry }
{
    let (client, rest) = words.split_first()?;
    let client = whole_number(client)?;
    let (replica, kind) = rest.two()?;
    let replica = replica_number(replica)?;
    let kind = TypeName::from_word(kind)?;
    Some((client, (replica, kind)))
}

// A type, if a word stands there.
fn type_if_any(words: Words) -> Option<Option<TypeName>>
    ensures { result ≡ type_if_any words.entry }
{
    let Some((word, rest)) = words.split_first() else {
        return Some(None);
    };
    match rest.split_first() {
        Some(_) => None,
        None => Some(Some(TypeName::from_word(word)?)),
    }
}

pub(crate) fn add_replica(words: Words) -> Option<Command>
    ensures { option_map said_of result ≡ says verbs.Replica words.entry }
{
    let replica = only_replica(words)?;
    Some(Command::Event(WorldEvent::AddReplica(replica)))
}

pub(crate) fn snapshot(words: Words) -> Option<Command>
    ensures { option_map said_of result ≡ says verbs.Snapshot words.entry }
{
    let replica = only_replica(words)?;
    Some(Command::Event(WorldEvent::Snapshot(replica)))
}

pub(crate) fn merge(words: Words) -> Option<Command>
    ensures { option_map said_of result ≡ says verbs.Merge words.entry }
{
    let (replica, batch) = words.two()?;
    let replica = replica_number(replica)?;
    let batch = whole_number(batch)?;
    Some(Command::Event(WorldEvent::Merge(replica, batch)))
}

pub(crate) fn connect(words: Words) -> Option<Command>
    ensures { option_map said_of result ≡ says verbs.Connect words.entry }
{
    let (client, replica) = words.two()?;
    let client = whole_number(client)?;
    let replica = replica_number(replica)?;
    Some(Command::Event(WorldEvent::Connect(client, replica)))
}

pub(crate) fn up(words: Words) -> Option<Command>
    ensures { option_map said_of result ≡ says verbs.Up words.entry }
{
    let client = only_client(words)?;
    Some(Command::Event(WorldEvent::Up(client)))
}

pub(crate) fn down(words: Words) -> Option<Command>
    ensures { option_map said_of result ≡ says verbs.Down words.entry }
{
    let client = only_client(words)?;
    Some(Command::Event(WorldEvent::Down(client)))
}

pub(crate) fn lose(words: Words) -> Option<Command>
    ensures { option_map said_of result ≡ says verbs.Lose words.entry }
{
    let client = only_client(words)?;
    Some(Command::Event(WorldEvent::Lose(client)))
}

pub(crate) fn poll(words: Words) -> Option<Command>
    ensures { option_map said_of result ≡ says verbs.Poll words.entry }
{
    let (client, rest) = words.split_first()?;
    let client = whole_number(client)?;
    let which = type_if_any(rest)?;
    Some(Command::Event(WorldEvent::Poll(client, which)))
}

pub(crate) fn rest(words: Words) -> Option<Command>
    ensures { option_map said_of result ≡ says verbs.Rest words.entry }
{
    let (client, (replica, kind)) = client_and_poll(words)?;
    let event = WorldEvent::RestPoll(client, replica, kind, AnswerFate::Arrives);
    Some(Command::Event(event))
}

pub(crate) fn rest_lost(words: Words) -> Option<Command>
    ensures { option_map said_of result ≡ says verbs.RestLost words.entry }
{
    let (client, (replica, kind)) = client_and_poll(words)?;
    let event = WorldEvent::RestPoll(client, replica, kind, AnswerFate::Lost);
    Some(Command::Event(event))
}

pub(crate) fn settle(words: Words) -> Option<Command>
    ensures { option_map said_of result ≡ says verbs.Settle words.entry }
{
    let (client, kind) = client_and_type(words)?;
    Some(Command::Settle(client, kind))
}

pub(crate) fn view(words: Words) -> Option<Command>
    ensures { option_map said_of result ≡ says verbs.View words.entry }
{
    let (client, kind) = client_and_type(words)?;
    Some(Command::View(client, kind))
}

pub(crate) fn content(words: Words) -> Option<Command>
    ensures { option_map said_of result ≡ says verbs.Content words.entry }
{
    let (replica, kind) = words.two()?;
    let replica = replica_number(replica)?;
    let kind = TypeName::from_word(kind)?;
    Some(Command::Content(replica, kind))
}
