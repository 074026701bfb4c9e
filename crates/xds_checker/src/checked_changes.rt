// Changes at an operator's port whose resources a checker sees before they are made. Nobody waits for it longer than a moment at a time.
ghost use Rattle.std.specs.Prelude.{◌≡◌, Err, None, map, string_bytes, IfOk};
ghost use Rattle.std.specs.Option.{option_map};
ghost use Rattle.xds_checker.specs.Checked.{told_line, why_after};

use crate::checker::{CheckerAnswer, CheckerLink, asked_of};
use crate::validating::{Unchecked, judged, unchecked_line};
use crossbeam_channel::{Receiver, RecvTimeoutError};
use std::alloc::Global;
use std::sync::Wait;
use std::time::{Clock, Duration};
use xds_changes::said_lines::SaidLine;
use xds_notes::{Fault, refused_line};
use xds_resource::Refusal;

// As many milliseconds as a checker is waited for at a time.
const PAUSE_MILLISECONDS: u64 = 1;

/// The lines of changes that aren't made, by their numbers, where something is told of why.
pub type Whys = Vec<(u64, String)>;

/// A line of changes, and whether it is the last.
pub type NextLine = (SaidLine, bool);

/// A line of changes of whose resource a checker is asked.
pub struct AskedLine {
    said: SaidLine,
    is_last: bool,
    from: Receiver<CheckerAnswer>,
}

// Written out: docs/PROVING.md, "Drops".
impl Drop for AskedLine {
    fn drop(self) {
        let AskedLine {
            said: _,
            is_last: _,
            from: _,
        } = self;
    }
}

/// Asks a checker of the resource that a line puts. What puts none comes back at once.
pub fn begin_asking<R: Wait>(
    rt: &R,
    alloc: Global,
    asks: &CheckerLink,
    next: NextLine,
) -> Result<NextLine, AskedLine> {
    let (said, is_last) = next;
    let asked = match &said.what {
        Ok(Some(change)) => match asked_of(&change.event) {
            Some(text) => Some(asks.ask(rt, alloc, text)),
            None => None,
        },
        _ => None,
    };
    match asked {
        None => Ok((said, is_last)),
        Some(Ok(from)) => Err(AskedLine {
            said,
            is_last,
            from,
        }),
        Some(Err(refusal)) => Ok((refused_as(said, refusal), is_last)),
    }
}

// A line that is refused so, whatever it says.
fn refused_as(said: SaidLine, refusal: Refusal) -> SaidLine
    ensures { result ≡ record { line = said.line; what = Err (record { refusal = refusal; cause = None; long = None }) } }
{
    let line = said.line;
    drop(said);
    SaidLine {
        line,
        what: Err(Fault::of(refusal)),
    }
}

impl AskedLine {
    /// The line once the checker has answered, which is refused where it doesn't take the resource; what is told of that is kept. It waits
    /// for a moment at most.
    pub fn go_on<R: Wait + Clock>(
        self,
        rt: &R,
        alloc: Global,
        asks: &CheckerLink,
        whys: &mut Whys,
    ) -> Result<NextLine, AskedLine> {
        let AskedLine {
            said,
            is_last,
            from,
        } = self;
        let told = match from.recv_timeout(rt, Duration::from_millis(PAUSE_MILLISECONDS)) {
            Ok(told) => asks.counted(rt, told),
            Err(RecvTimeoutError::Timeout) => {
                return Err(AskedLine {
                    said,
                    is_last,
                    from,
                });
            }
            Err(RecvTimeoutError::Disconnected) => Err(Refusal::Device),
        };
        match judged(alloc, told, asks.passes) {
            None => Ok((said, is_last)),
            Some(unchecked) => {
                keep_why(alloc, whys, said.line, &unchecked);
                Ok((refused_as(said, unchecked.refusal), is_last))
            }
        }
    }
}

// Keeps what is told of a line that isn't made. Where there is no memory for it the refusal alone is told.
fn keep_why(alloc: Global, whys: &mut Whys, line: u64, unchecked: &Unchecked) {
    if let Ok(Some(text)) = unchecked_line(alloc, line, unchecked) {
        let _ = whys.push((line, text));
    }
}

/// The line of a line of changes that is refused, with what is told of why, where something is.
pub fn told_line(alloc: Global, whys: &Whys, line: u64, fault: Fault) -> Result<String, Refusal>
    ensures { IfOk result (λ t. string_bytes t ≡ told_line (map (λ w. (w.0, string_bytes w.1)) whys.now.items) line fault) }
{
    match why_of(whys, line) {
        Some(why) => Ok(format!(in alloc; "{why}\n")?),
        None => refused_line(alloc, line, fault),
    }
}

// What is told of why a line isn't made, if something is: the last of what was kept of it.
fn why_of<'a>(whys: &'a Whys, line: u64) -> Option<&'a str>
    ensures { option_map (λ t. t.now) result ≡ why_after None (map (λ w. (w.0, string_bytes w.1)) whys.now.items) line }
{
    let mut found = None;
    for (number, text) in whys {
        if *number == line {
            found = Some(text.as_str());
            continue;
        }
    }
    found
}
