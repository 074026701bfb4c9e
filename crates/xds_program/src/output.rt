// An answer that is written from the stored texts of its resources, in blocks.
ghost use Rattle.std.specs.Prelude.{◌≡◌, ◌⊎◌, [], IfErr, OnOk, Some};
ghost use Rattle.std.specs.Option.{option_map};
ghost use Rattle.xds_message.specs.Drafts.{message_of};
ghost use Rattle.xds_frames.specs.Devices.{Stays, Wrote, WrotePart, seen};
ghost use Rattle.xds_program.specs.Answers.{answer_text};

use std::alloc::Global;
use std::io::Write;
use xds_frames::{Counted, write_whole};
use xds_message::{Pieces, SotwDraft};
use xds_resource::Refusal;

// How many bytes are gathered before they are written.
const BLOCK: usize = 65_536;

/// Writes the text of a response, and a line feed; nothing where there is none. The text is never in memory as a whole: each
/// body is written from where it is stored. `OutOfMemory` comes before anything is written. `Device` comes where a call of the
/// writer failed, and then a beginning was written.
pub fn write_answer<W: Write>(
    alloc: Global,
    draft: &Option<SotwDraft>,
    writer: &mut Counted<W>,
) -> Result<(), Refusal>
    ensures written { OnOk result (Wrote (seen W.contents writer.old writer.new) (answer_text (option_map message_of draft.now))) }
    ensures refused { IfErr result (λ e. ((e ≡ Refusal.OutOfMemory) × Stays (seen W.contents writer.old writer.new))
        ⊎ ((e ≡ Refusal.Device) × WrotePart (seen W.contents writer.old writer.new) (answer_text (option_map message_of draft.now)))) }
{
    match draft {
        Some(draft) => write_draft(alloc, draft, writer),
        None => match write_whole(writer, &[]) {
            Ok(()) => Ok(()),
            Err(refusal) => Err(refusal),
        },
    }
}

// Writes the text of a response, and a line feed.
fn write_draft<W: Write>(
    alloc: Global,
    draft: &SotwDraft,
    writer: &mut Counted<W>,
) -> Result<(), Refusal>
    ensures written { OnOk result (Wrote (seen W.contents writer.old writer.new) (answer_text (Some (message_of draft.now)))) }
    ensures refused { IfErr result (λ e. ((e ≡ Refusal.OutOfMemory) × Stays (seen W.contents writer.old writer.new))
        ⊎ ((e ≡ Refusal.Device) × WrotePart (seen W.contents writer.old writer.new) (answer_text (Some (message_of draft.now))))) }
{
    let mut line = draft.pieces(alloc)?;
    line.push("\n")?;
    let block = Vec::with_capacity(alloc, BLOCK)?;
    match write_flushed(writer, &line, block) {
        Ok(()) => Ok(()),
        Err(refusal) => Err(refusal),
    }
}

// Writes a text by this block, which is empty, and flushes.
fn write_flushed<W: Write>(
    writer: &mut Counted<W>,
    text: &Pieces<'_>,
    block: Vec<u8>,
) -> Result<(), Refusal>
    requires { block.items ≡ [] }
    ensures written { OnOk result (Wrote (seen W.contents writer.old writer.new) text.now) }
    ensures failed { IfErr result (λ e. (e ≡ Refusal.Device) × WrotePart (seen W.contents writer.old writer.new) text.now) }
{
    if let Err(refusal) = text.write(writer, block) {
        return Err(refusal);
    }
    if let Err(refusal) = write_whole(writer, &[]) {
        return Err(refusal);
    }
    Ok(())
}
