// The trace of a replica of the world that a script leads to.
ghost use Rattle.std.specs.Prelude.{◌≡◌, IfOk, IfErr, map, string_bytes};
ghost use Rattle.xds_resource.specs.declared.refusal.Refusal.TheVariants.{OutOfMemory};
ghost use Rattle.xds_script.specs.Commands.{said_of};
ghost use Rattle.xds_play.specs.Played.{IsUnplayed};
ghost use Rattle.xds_play.specs.Traced.{Traces, IsTraced};

use crate::play::{Play, Unplayed, play_all};
use std::alloc::Global;
use xds_resource::Refusal;
use xds_script::{Command, read_script};
use xds_trace::of_world;

/// Reads a script and plays it. Answers the trace of a replica: its lines, each with a line feed; nothing where there is no such
/// replica.
pub fn trace_script(alloc: Global, replica: u16, script: &[u8]) -> Result<String, Unplayed>
    ensures traced { IfOk result (λ text. IsTraced replica script.now (string_bytes text)) }
    ensures unplayed { IfErr result (λ e. IsUnplayed script.now e) }
{
    match read_script(alloc, script) {
        Ok(commands) => match trace_commands(alloc, replica, commands.as_slice()) {
            Ok(text) => Ok(text),
            Err(_) => Err(Unplayed::OutOfMemory),
        },
        Err(fault) => match fault.refusal {
            Refusal::BadScript => Err(Unplayed::BadScript(fault.line)),
            _ => Err(Unplayed::OutOfMemory),
        },
    }
}

/// Plays the commands of a script, and answers the trace of a replica as `trace_script` does. Refused only by `OutOfMemory`.
pub fn trace_commands(alloc: Global, replica: u16, commands: &[Command]) -> Result<String, Refusal>
    ensures traced { IfOk result (λ text. Traces replica (map said_of commands.now) (string_bytes text)) }
    ensures refused { IfErr result (λ e. e ≡ OutOfMemory) }
{
    let Play { world, text } = play_all(alloc, commands)?;
    drop(text);
    match of_world(alloc, &world, replica)? {
        Some(trace) => trace.write(alloc),
        None => Ok(String::new(alloc)),
    }
}
