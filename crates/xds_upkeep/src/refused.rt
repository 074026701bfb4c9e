// What is told of something that is refused.
ghost use Rattle.std.specs.Prelude.{◌≡◌, ◌++◌, codes, IfOk, string_bytes};
ghost use Rattle.xds_stats.specs.Sizes.{long_text};
ghost use Rattle.xds_upkeep.specs.Lines.{refusal_behind, refused_text};

use std::alloc::Global;
use xds_notes::{Fault, LongResponse};
use xds_resource::Refusal;
use xds_stats::long_text;

/// A refusal behind what it is of, with what is known of it, without the end of a line.
pub fn refused_text(alloc: Global, of: &str, fault: Fault) -> Result<String, Refusal>
    ensures { IfOk result (λ t. string_bytes t ≡ refused_text of.now fault) }
{
    let text = refusal_behind(alloc, of, fault.refusal)?;
    match fault.long {
        Some(long) => long_behind(alloc, text, long),
        None => Ok(text),
    }
}

// A refusal behind what it is of.
fn refusal_behind(alloc: Global, of: &str, refusal: Refusal) -> Result<String, Refusal>
    ensures { IfOk result (λ t. string_bytes t ≡ refusal_behind of.now refusal) }
{
    let number = refusal.number();
    let name = refusal.name();
    Ok(format!(in alloc; "{of}: {number} {name}")?)
}

// How long the response would be, behind a refusal.
fn long_behind(alloc: Global, text: String, long: LongResponse) -> Result<String, Refusal>
    ensures { IfOk result (λ t. string_bytes t ≡ string_bytes text ++ (codes ": " ++ long_text long.kind long.bytes)) }
{
    let why = long_text(alloc, long.kind, long.bytes)?;
    let mut text = text;
    text.push_str(": ")?;
    text.push_str(why.as_str())?;
    Ok(text)
}
