// Bytes that are gathered in a block on their way to a writer, so that few calls write many short pieces.
ghost use Rattle.std.specs.Prelude.{◌≡◌, ◌++◌, IfErr, OnOk};
ghost use Rattle.xds_frames.specs.Devices.{WrotePart, seen};
ghost use Rattle.xds_frames.specs.Gathering.{Passes};

use crate::counted::Counted;
use crate::whole::write_bytes;
use std::io::Write;
use xds_resource::Refusal;

/// Puts bytes behind those that a block holds. Where the block has no room for both, those that it holds are written first; and
/// bytes for which it has no room at all are written by themselves. It takes no memory. Where a call of the writer fails,
/// `Device` is answered, and a beginning of all these bytes was written.
pub fn gather<W: Write>(
    writer: &mut Counted<W>,
    block: &mut Vec<u8>,
    bytes: &[u8],
) -> Result<(), Refusal>
    ensures put { OnOk result (Passes (seen W.contents writer.old writer.new) block.old.items bytes.now block.new.items) }
    ensures failed { IfErr result (λ e. (e ≡ Refusal.Device)
        × WrotePart (seen W.contents writer.old writer.new) (block.old.items ++ bytes.now)) }
{
    if bytes.len() > block.capacity() - block.len() {
        if let Err(refusal) = write_bytes(writer, block.as_slice()) {
            return Err(refusal);
        }
        block.clear();
        if bytes.len() > block.capacity() {
            if let Err(refusal) = write_bytes(writer, bytes) {
                return Err(refusal);
            }
            return Ok(());
        }
    }
    let Ok(()) = block.extend_from_slice(bytes) else {
        unreachable!()
    };
    Ok(())
}
