// What a line of the server's input changes.
ghost use Rattle.std.specs.Prelude.{◌≡◌, ◌<◌, IfOk, IfSome, Some, MatchResult, length, nat_lt, true, false};
ghost use Rattle.std.specs.Option.{option_map, ok_or};
ghost use Rattle.xds_resource.specs.declared.refusal.Refusal.TheVariants.{BadScript, TooLong};
ghost use Rattle.xds_resource.specs.Refusals.{Gives};
ghost use Rattle.xds_script.specs.ModelSeen.{happening_of};
ghost use Rattle.xds_changes.specs.Changes.{change_of, change_said, change_in, change_within, most_line, write_of};

use std::alloc::Global;
use xds_events::Event;
use xds_resource::Refusal;
use xds_script::{Command, WorldEvent, read_line};

/// As many bytes as a line of the input may have.
pub const MAX_LINE: usize = 8_388_608;

/// A write that a line of the input makes at a replica.
#[derive(Drop)]
pub struct Change {
    /// The number of the line, from 1.
    pub line: u64,
    /// The number of the replica, from 1.
    pub replica: u16,
    /// A put or a deletion.
    pub event: Event,
}

/// What a line changes, which has this number: `put`, `putin` and `delete` of scripts; none where the line is skipped. Any
/// other line is `BadScript`; one longer than [`MAX_LINE`] bytes is `TooLong`, whatever it says.
pub fn read_change(alloc: Global, number: u64, line: &[u8]) -> Result<Option<Change>, Refusal>
    ensures change { Gives (option_map change_of) result (change_in line.now) }
    ensures line { IfOk result (λ o. IfSome o (λ c. c.line ≡ number)) }
{
    match within_limit(line) {
        Ok(()) => read_within(alloc, number, line),
        Err(refusal) => Err(refusal),
    }
}

/// Refuses a line, or what has come of one, that is longer than a line may be.
pub fn within_limit(line: &[u8]) -> Result<(), Refusal>
    ensures { MatchResult result (λ _. nat_lt most_line (length line.now) ≡ false) (λ e. (e ≡ TooLong) × (nat_lt most_line (length line.now) ≡ true)) }
{
    if line.len() > MAX_LINE {
        Err(Refusal::TooLong)
    } else {
        Ok(())
    }
}

// What a line changes that isn't too long.
fn read_within(alloc: Global, number: u64, line: &[u8]) -> Result<Option<Change>, Refusal>
    ensures change { Gives (option_map change_of) result (change_within line.now) }
    ensures line { IfOk result (λ o. IfSome o (λ c. c.line ≡ number)) }
{
    match read_line(alloc, line) {
        Err(refusal) => Err(refusal),
        Ok(None) => Ok(None),
        Ok(Some(command)) => change_by(number, command),
    }
}

// The change that a command is.
fn change_by(number: u64, command: Command) -> Result<Option<Change>, Refusal>
    ensures change { Gives (option_map change_of) result (ok_or (option_map Some (change_said command)) BadScript) }
    ensures line { IfOk result (λ o. IfSome o (λ c. c.line ≡ number)) }
{
    match change_from(number, command) {
        Some(change) => Ok(Some(change)),
        None => Err(Refusal::BadScript),
    }
}

// The change that a command is, if it is one.
fn change_from(number: u64, command: Command) -> Option<Change>
    ensures change { option_map change_of result ≡ change_said command }
    ensures line { IfSome result (λ c. c.line ≡ number) }
{
    match command {
        Command::Event(event) => change_at(number, event),
        Command::Settle(_, _) | Command::View(_, _) | Command::Content(_, _) => None,
    }
}

// The write that happens at a replica, if one does.
fn change_at(line: u64, event: WorldEvent) -> Option<Change>
    ensures change { option_map change_of result ≡ write_of (happening_of event) }
    ensures line { IfSome result (λ c. c.line ≡ line) }
{
    match event {
        WorldEvent::Put(replica, resource, groups) => Some(Change {
            line,
            replica,
            event: Event::Put(resource, groups),
        }),
        WorldEvent::Delete(replica, kind, name) => Some(Change {
            line,
            replica,
            event: Event::Delete(kind, name),
        }),
        _ => None,
    }
}
