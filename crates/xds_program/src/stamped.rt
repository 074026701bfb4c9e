// The stamped writes of a file, a line each.
ghost use Rattle.std.specs.Prelude.{◌≡◌, ◌≢◌, [], IfOk, IfErr, OnOk};
ghost use Rattle.xds_resource.specs.PerType.{at};
ghost use Rattle.xds_program.specs.Gathered.{IsReadTo};
ghost use Rattle.xds_program.specs.Stamped.{AreLeft, IsWriteFault};

use crate::gathering::{InputReading, begin, take_write};
use std::alloc::Global;
use xds_causes::LineFault;
use xds_core::Catalogues;
use xds_script::lines::{split_line, without_last_feed};

// rule: loaded-first
/// What the stamped writes of a file leave, a line each as `xds writes` prints them, the last of which needs no line feed. A file without
/// bytes leaves nothing.
///
/// The first line that is refused is told: `NotJson`, `BadMessage`, `CounterSpent` where a catalogue can count no further change, or
/// `OutOfMemory`.
pub fn read_writes(alloc: Global, input: &[u8]) -> Result<Catalogues, LineFault>
    ensures left { IfOk result (λ held. AreLeft input.now (at held)) }
    ensures refused { IfErr result (λ fault. IsWriteFault input.now fault.line fault.refusal) }
{
    if input.is_empty() {
        return Ok(Catalogues::new(alloc));
    }
    read_lines(alloc, input)
}

// What the lines of a file leave that has some bytes.
fn read_lines(alloc: Global, input: &[u8]) -> Result<Catalogues, LineFault>
    requires { input.now ≢ [] }
    ensures left { IfOk result (λ held. AreLeft input.now (at held)) }
    ensures refused { IfErr result (λ fault. IsWriteFault input.now fault.line fault.refusal) }
{
    let mut reading = begin(alloc);
    let mut left = without_last_feed(input);
    while let Some((bytes, following)) = split_line(left) {
        if let Err(refusal) = take_write(
            alloc,
            &mut reading.reader,
            &mut reading.catalogues,
            bytes,
        ) {
            let line = reading.line;
            return Err(LineFault { line, refusal });
        }
        left = following;
        reading.line += 1;
    }
    if let Err(refusal) = take_write(alloc, &mut reading.reader, &mut reading.catalogues, left) {
        let line = reading.line;
        return Err(LineFault { line, refusal });
    }
    let InputReading {
        catalogues,
        reader,
        line: _,
    } = reading;
    drop(reader);
    Ok(catalogues)
}
