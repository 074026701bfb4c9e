// How a refusal that is of no line is told, and that a command gave up.
ghost use Rattle.std.specs.Prelude.{◌≡◌, ◌⊎◌, IfOk, string_bytes};
ghost use Rattle.xds_frames.specs.Devices.{Tells, seen};
ghost use Rattle.xds_program.specs.Outcomes.{refusal_line};
ghost use Rattle.xds_tools.specs.Ends.{late_line, http_line};

use std::alloc::Global;
use std::io::Write;
use xds_frames::{Counted, write_whole};
use xds_program::run::{REFUSED, tell};
use xds_resource::Refusal;

/// Tells a refusal, or that there was no memory to say so, and answers the status.
pub fn tell_refusal<E: Write>(alloc: Global, refusal: Refusal, errors: &mut Counted<E>) -> u8
    ensures told { Tells (seen E.contents errors.old errors.new) (refusal_line refusal)
        ⊎ Tells (seen E.contents errors.old errors.new) (refusal_line Refusal.OutOfMemory) }
    ensures status { result ≡ 1 }
{
    let number = refusal.number();
    let name = refusal.name();
    match format!(in alloc; "{number} {name}\n") {
        Ok(text) => {
            let _ = write_whole(errors, text.as_bytes());
            REFUSED
        }
        Err(_) => tell(Refusal::OutOfMemory, errors),
    }
}

// The line of a command that gave up.
fn late_line(alloc: Global, seconds: u16) -> Result<String, Refusal>
    ensures { IfOk result (λ t. string_bytes t ≡ late_line seconds) }
{
    Ok(format!(in alloc; "19 Device: gave up after {seconds} s\n")?)
}

// The line of a client whose other end speaks HTTP.
fn http_line(alloc: Global, refusal: Refusal) -> Result<String, Refusal>
    ensures { IfOk result (λ t. string_bytes t ≡ http_line refusal) }
{
    let number = refusal.number();
    let name = refusal.name();
    Ok(format!(in alloc;
        "{number} {name}: HTTP is spoken there; --addr of a client is a port of streams\n"
    )?)
}

/// Tells that a command gave up after so many seconds, or only `Device` where there was no memory to say so, and answers the status.
pub fn tell_late<E: Write>(alloc: Global, seconds: u16, errors: &mut Counted<E>) -> u8
    ensures told { Tells (seen E.contents errors.old errors.new) (late_line seconds)
        ⊎ Tells (seen E.contents errors.old errors.new) (refusal_line Refusal.Device) }
    ensures status { result ≡ 1 }
{
    match late_line(alloc, seconds) {
        Ok(text) => {
            let _ = write_whole(errors, text.as_bytes());
            REFUSED
        }
        Err(_) => tell(Refusal::Device, errors),
    }
}

/// Tells a refusal, and that the other end speaks HTTP, or that there was no memory to say so, and answers the status.
pub fn tell_http<E: Write>(alloc: Global, refusal: Refusal, errors: &mut Counted<E>) -> u8
    ensures told { Tells (seen E.contents errors.old errors.new) (http_line refusal)
        ⊎ Tells (seen E.contents errors.old errors.new) (refusal_line Refusal.OutOfMemory) }
    ensures status { result ≡ 1 }
{
    match http_line(alloc, refusal) {
        Ok(text) => {
            let _ = write_whole(errors, text.as_bytes());
            REFUSED
        }
        Err(_) => tell(Refusal::OutOfMemory, errors),
    }
}
