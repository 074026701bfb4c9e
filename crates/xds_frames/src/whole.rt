// Reading all of a reader, and writing all of some bytes.
ghost use Rattle.std.specs.Prelude.{◌≡◌, ◌⊎◌, IfOk, IfSome, IfErr, OnOk};
ghost use Rattle.xds_frames.specs.Devices.{MoreFailed, Wrote, WrotePart, seen};

use crate::counted::Counted;
use std::alloc::Global;
use std::io::{ErrorKind, Read, Write};
use xds_resource::Refusal;

/// Reads all that is left. `Device` comes only where a call of the reader failed, and else `OutOfMemory`.
pub fn read_whole<R: Read>(alloc: Global, reader: &mut Counted<R>) -> Result<Vec<u8>, Refusal>
    ensures read { IfOk result (λ v. IfSome (R.remaining reader.old.inner) (λ all. v.items ≡ all)) }
    ensures refused { IfErr result (λ e. (e ≡ Refusal.OutOfMemory)
        ⊎ ((e ≡ Refusal.Device) × MoreFailed reader.old.failed reader.new.failed)) }
{
    let before = reader.failed;
    let mut bytes = Vec::new(alloc);
    match reader.read_to_end(&mut bytes) {
        Ok(_) => Ok(bytes),
        Err(error) => {
            let has_failed = reader.failed > before || reader.failed == u64::MAX;
            if has_failed && error.kind() != ErrorKind::OutOfMemory {
                Err(Refusal::Device)
            } else {
                Err(Refusal::OutOfMemory)
            }
        }
    }
}

/// Writes the bytes. Where a call of the writer fails, `Device` is answered, and a beginning was written.
pub fn write_bytes<W: Write>(writer: &mut Counted<W>, bytes: &[u8]) -> Result<(), Refusal>
    ensures written { OnOk result (Wrote (seen W.contents writer.old writer.new) bytes.now) }
    ensures none_failed { OnOk result (writer.new.failed ≡ writer.old.failed) }
    ensures failed { IfErr result (λ e. (e ≡ Refusal.Device)
        × WrotePart (seen W.contents writer.old writer.new) bytes.now) }
{
    let mut rest = bytes;
    while !rest.is_empty() {
        match writer.write(rest) {
            Ok(taken) => rest = &rest[taken..],
            Err(_) => return Err(Refusal::Device),
        }
    }
    Ok(())
}

/// Writes the bytes, and flushes. Where a call of the writer fails, `Device` is answered, and a beginning was written.
pub fn write_whole<W: Write>(writer: &mut Counted<W>, bytes: &[u8]) -> Result<(), Refusal>
    ensures written { OnOk result (Wrote (seen W.contents writer.old writer.new) bytes.now) }
    ensures none_failed { OnOk result (writer.new.failed ≡ writer.old.failed) }
    ensures failed { IfErr result (λ e. (e ≡ Refusal.Device)
        × WrotePart (seen W.contents writer.old writer.new) bytes.now) }
{
    write_bytes(writer, bytes)?;
    match writer.flush() {
        Ok(()) => Ok(()),
        Err(_) => Err(Refusal::Device),
    }
}
