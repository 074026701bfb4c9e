// Pictures and explanations of what a run read.
ghost use Rattle.std.specs.Prelude.{◌≡◌, ◌++◌, IfOk, IfErr, option_map, string_bytes};
ghost use Rattle.xds_program.specs.Drawings.{IsDrawnOrDone};
ghost use Rattle.xds_program.specs.Judged.{verdict_text};
ghost use Rattle.xds_program.specs.SoFar.{IsToldOf};

use crate::judge::{TraceVerdict, Unjudged};
use crate::run::Ran;
use std::alloc::Global;
use std::marker::Model;
use std::mem;
use xds_check::Broken;
use xds_explain::{explain, trace_picture};

/// A picture, and the file that it is written into.
#[derive(Debug, Drop)]
pub struct Drawing {
    /// The status of the run, if the picture can be written.
    pub status: u8,
    /// The name of the file.
    pub file: String,
    /// What is written: an image, as SVG.
    pub svg: String,
}

impl Model for Drawing {
    ghost use Rattle.std.specs.Prelude.{string_bytes};
    ghost use Rattle.xds_program.specs.Tasks.{Draws};

    ghost Value = { Draws };

    ghost view = { λ d. record { status = d.status; file = string_bytes d.file; svg = string_bytes d.svg } };
}

/// Leaves a picture.
pub(crate) fn put_picture(svg: &mut Option<String>, picture: String) {
    drop(mem::replace(svg, Some(picture)));
}

/// What became of a run with this status: it is done but for its picture, where there is one, and a file to write it into.
pub(crate) fn drawn_or_done(status: u8, file: Option<String>, svg: Option<String>) -> Ran
    ensures { IsDrawnOrDone status (option_map string_bytes file) result }
{
    match (file, svg) {
        (Some(file), Some(svg)) => Ran::Drawn(Drawing { status, file, svg }),
        _ => Ran::Done(status),
    }
}

/// Leaves the picture of a trace. Refused only by `OutOfMemory`.
pub(crate) fn draw(
    alloc: Global,
    svg: &mut Option<String>,
    trace: &[u8],
    broken: Option<Broken>,
) -> Result<(), Unjudged>
    ensures { IfErr result (λ e. e ≡ Unjudged.OutOfMemory) }
{
    match trace_picture(alloc, trace, broken) {
        Ok(picture) => {
            put_picture(svg, picture);
            Ok(())
        }
        Err(_) => Err(Unjudged::OutOfMemory),
    }
}

/// A verdict with what explains it behind it, where that is wanted, and a rule is broken. Refused only by `OutOfMemory`.
pub(crate) fn explained(
    alloc: Global,
    is_wanted: bool,
    trace: &[u8],
    broken: Option<Broken>,
    verdict: TraceVerdict,
) -> Result<TraceVerdict, Unjudged>
    ensures status { IfOk result (λ v. v.status ≡ verdict.status) }
    ensures text { IfOk result (λ v. string_bytes verdict.text ≡ verdict_text broken → IsToldOf is_wanted broken (string_bytes v.text)) }
    ensures refused { IfErr result (λ e. e ≡ Unjudged.OutOfMemory) }
{
    let Some(broken) = broken else {
        return Ok(verdict);
    };
    if !is_wanted {
        return Ok(verdict);
    }
    match explain(alloc, trace, broken) {
        Ok(explanation) => with_behind(verdict, explanation.as_str()),
        Err(_) => Err(Unjudged::OutOfMemory),
    }
}

// A verdict with a text behind it.
fn with_behind(verdict: TraceVerdict, behind: &str) -> Result<TraceVerdict, Unjudged>
    ensures status { IfOk result (λ v. v.status ≡ verdict.status) }
    ensures text { IfOk result (λ v. string_bytes v.text ≡ string_bytes verdict.text ++ behind.now) }
    ensures refused { IfErr result (λ e. e ≡ Unjudged.OutOfMemory) }
{
    let mut verdict = verdict;
    match verdict.text.push_str(behind) {
        Ok(()) => Ok(verdict),
        Err(_) => Err(Unjudged::OutOfMemory),
    }
}
