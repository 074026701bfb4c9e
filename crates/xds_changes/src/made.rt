// What becomes of changes that are answered together.
ghost use Rattle.std.specs.Prelude.{◌≡◌, string_bytes, IfOk};
ghost use Rattle.xds_changes.specs.Together.{changes_status, made_line};

use std::alloc::Global;
use xds_notes::{Fault, refused_line, stamp_line};
use xds_resource::{Refusal, Stamp};

/// What becomes of a change that is made together with others.
#[derive(Clone, Copy, Debug, PartialEq, Eq)]
pub enum Made {
    /// It is made, as a write of this stamp.
    Written(Stamp),
    /// It can be made, and isn't, since it is looked at alone.
    Would,
    /// It is refused.
    Refused(Fault),
    /// It isn't made, since another one is refused.
    Left,
}

/// The line of what became of a line of changes.
pub fn made_line(alloc: Global, line: u64, made: Made) -> Result<String, Refusal>
    ensures { IfOk result (λ t. string_bytes t ≡ made_line line made) }
{
    match made {
        Made::Written(stamp) => stamp_line(alloc, line, stamp),
        Made::Would => Ok(format!(in alloc; "line {line}: would be made\n")?),
        Made::Refused(fault) => refused_line(alloc, line, fault),
        Made::Left => Ok(format!(in alloc; "line {line}: not made\n")?),
    }
}

/// The status that changes are answered with, of which so many were made, or would be, and so many weren't: 200 where each was, 207 where
/// some were, and 422 where none was.
pub fn changes_status(made: u64, refused: u64) -> u16
    ensures { result ≡ changes_status made refused }
{
    if refused == 0 {
        return 200;
    }
    if made == 0 {
        return 422;
    }
    207
}
