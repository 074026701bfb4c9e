// Playing a script: what happens, and what is printed of it.
ghost use Rattle.std.specs.Prelude.{◌≡◌, ◌++◌, IfOk, IfErr, OnOk, List, map, string_bytes};
ghost use Rattle.xds_resource.specs.declared.refusal.Refusal.TheVariants.{OutOfMemory};
ghost use Rattle.xds_resource.specs.PerType.{at};
ghost use Rattle.xds_script.specs.Happenings.{Happening};
ghost use Rattle.xds_world.specs.Settling.{IsAddedToSettle};
ghost use Rattle.xds_world.specs.Worlds.{world as world_of};
ghost use Rattle.xds_script.specs.Commands.{said_of};
ghost use Rattle.xds_play.specs.Shown.{view_shown, content_shown, content_text, none_text, state_of};
ghost use Rattle.xds_play.specs.Played.{Plays, PlaysAll, Prints, IsPlayed, IsUnplayed, nothing_played, takes};

use crate::show::{show_content, show_view};
use std::alloc::Global;
use std::slice;
use xds_cache::Marked;
use xds_message::Batch;
use xds_resource::{Refusal, TypeName};
use xds_script::{Command, WorldEvent, read_script};
use xds_world::{PeerStatus, Unsettled, World, more, play, settle};

/// Why a script isn't played.
#[derive(Clone, Copy, Debug, PartialEq, Eq)]
pub enum Unplayed {
    /// The number of its first bad line, from 1.
    BadScript(usize),
    OutOfMemory,
}

/// Reads a script and plays it. Answers what is printed.
pub fn play_script(alloc: Global, script: &[u8]) -> Result<String, Unplayed>
    ensures played { IfOk result (λ text. IsPlayed script.now (string_bytes text)) }
    ensures unplayed { IfErr result (λ e. IsUnplayed script.now e) }
{
    match read_script(alloc, script) {
        Ok(commands) => match play_commands(alloc, commands.as_slice()) {
            Ok(text) => Ok(text),
            Err(_) => Err(Unplayed::OutOfMemory),
        },
        Err(fault) => match fault.refusal {
            Refusal::BadScript => Err(Unplayed::BadScript(fault.line)),
            _ => Err(Unplayed::OutOfMemory),
        },
    }
}

/// Plays the commands of a script, and answers what is printed. Refused only by `OutOfMemory`.
pub fn play_commands(alloc: Global, commands: &[Command]) -> Result<String, Refusal>
    ensures printed { IfOk result (λ text. Prints takes (map said_of commands.now) (string_bytes text)) }
    ensures refused { IfErr result (λ e. e ≡ OutOfMemory) }
{
    let Play { world, text } = play_all(alloc, commands)?;
    drop(world);
    Ok(text)
}

/// What playing commands comes to.
#[derive(Drop)]
pub struct Play {
    /// The world in which all happened.
    pub world: World<Marked>,
    /// What was printed.
    pub text: String,
}

/// Plays the commands of a script. Refused only by `OutOfMemory`.
pub fn play_all(alloc: Global, commands: &[Command]) -> Result<Play, Refusal>
    ensures played { IfOk result (λ p. PlaysAll takes (map said_of commands.now) nothing_played
        (record { happened = p.world; printed = string_bytes p.text })) }
    ensures refused { IfErr result (λ e. e ≡ OutOfMemory) }
{
    let mut world = play(alloc, &[])?;
    let mut text = String::new(alloc);
    for command in commands {
        world = play_command(alloc, world, &mut text, command)?;
    }
    Ok(Play { world, text })
}

// Plays a command.
fn play_command(
    alloc: Global,
    world: World<Marked>,
    text: &mut String,
    command: &Command,
) -> Result<World<Marked>, Refusal>
    ensures played { IfOk result (λ w. Plays takes (said_of command.now)
        (record { happened = world; printed = string_bytes text.old })
        (record { happened = w; printed = string_bytes text.new })) }
    ensures refused { IfErr result (λ e. e ≡ OutOfMemory) }
{
    match command {
        Command::Event(event) => more(alloc, world, slice::from_ref(event)),
        Command::Settle(client, kind) => settled(alloc, world, *client, *kind),
        Command::View(client, kind) => {
            print_view(alloc, &world, text, *client, *kind)?;
            Ok(world)
        }
        Command::Content(replica, kind) => {
            print_content(alloc, &world, text, *replica, *kind)?;
            Ok(world)
        }
    }
}

// The world once a client was settled of a type, as far as possible.
fn settled(
    alloc: Global,
    world: World<Marked>,
    client: u32,
    kind: TypeName,
) -> Result<World<Marked>, Refusal>
    ensures settled { IfOk result (λ w. (more : List Happening) × IsAddedToSettle takes client kind world more × (w ≡ world ++ more)) }
    ensures refused { IfErr result (λ e. e ≡ OutOfMemory) }
{
    match settle(alloc, world, client, kind) {
        Ok(settlement) => Ok(settlement.world),
        Err(Unsettled::NoStream(world)) => Ok(world),
        Err(Unsettled::NonceSpent(world)) => Ok(world),
        Err(Unsettled::OutOfMemory) => Err(Refusal::OutOfMemory),
    }
}

// Prints what a client shows of a type.
fn print_view(
    alloc: Global,
    world: &World<Marked>,
    text: &mut String,
    client: u32,
    kind: TypeName,
) -> Result<(), Refusal>
    ensures shown { OnOk result (string_bytes text.new ≡ string_bytes text.old ++ view_shown (world_of takes world.now) client kind) }
    ensures refused { IfErr result (λ e. e ≡ OutOfMemory) }
{
    let Some(view) = world.view(client, kind) else {
        return print_none(text);
    };
    let Some(variant) = world.kind(client) else {
        return print_none(text);
    };
    let Some(status) = world.status(client) else {
        return print_none(text);
    };
    let Some(is_settled) = world.settled(client, kind) else {
        return print_none(text);
    };
    let state = state_word(status, is_settled);
    show_view(alloc, text, client, kind, state, variant, view)
}

// How a client stands to a type, in a word.
fn state_word(status: PeerStatus, is_settled: bool) -> &'static str
    ensures { result.now ≡ state_of status is_settled }
{
    match status {
        PeerStatus::Down => "down",
        PeerStatus::Rest => "rest",
        PeerStatus::Up if is_settled => "settled",
        PeerStatus::Up => "open",
    }
}

// Prints what is live of a type at a replica.
fn print_content(
    alloc: Global,
    world: &World<Marked>,
    text: &mut String,
    replica: u16,
    kind: TypeName,
) -> Result<(), Refusal>
    ensures shown { OnOk result (string_bytes text.new ≡ string_bytes text.old ++ content_shown (world_of takes world.now) replica kind) }
    ensures refused { IfErr result (λ e. e ≡ OutOfMemory) }
{
    let Some(entries) = world.entries(alloc, replica, kind)? else {
        return print_none(text);
    };
    print_entries(alloc, text, replica, kind, &entries)
}

// Prints what is live among these entries of a type.
fn print_entries(
    alloc: Global,
    text: &mut String,
    replica: u16,
    kind: TypeName,
    entries: &Batch,
) -> Result<(), Refusal>
    ensures shown { OnOk result (string_bytes text.new ≡ string_bytes text.old ++ content_text replica kind (at entries.now kind)) }
    ensures refused { IfErr result (λ e. e ≡ OutOfMemory) }
{
    match kind {
        TypeName::Cluster => show_content(alloc, text, replica, &entries.cluster),
        TypeName::Endpoint => show_content(alloc, text, replica, &entries.endpoint),
        TypeName::Listener => show_content(alloc, text, replica, &entries.listener),
        TypeName::Route => show_content(alloc, text, replica, &entries.route),
        TypeName::Secret => show_content(alloc, text, replica, &entries.secret),
    }
}

// Prints that there is no such client or replica.
fn print_none(text: &mut String) -> Result<(), Refusal>
    ensures shown { OnOk result (string_bytes text.new ≡ string_bytes text.old ++ none_text) }
    ensures refused { IfErr result (λ e. e ≡ OutOfMemory) }
{
    text.push_str("none\n")?;
    Ok(())
}
