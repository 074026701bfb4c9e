// What is told of a trace whose bytes come in pieces.
ghost use Rattle.std.specs.Prelude.{◌<◌};

use crate::traces::told_fault;
use std::alloc::Global;
use std::test::Fail;
use xds_check::{Broken, PiecewiseChecker, TraceFault};
use xds_resource::Refusal;

/// What is told: that a trace is well, the first broken line and its rule, or the first bad line.
pub(crate) fn told(
    alloc: Global,
    verdict: Result<Option<Broken>, TraceFault>,
) -> Result<String, Refusal> {
    match verdict {
        Ok(Some(broken)) => {
            let line = broken.line;
            let rule = broken.rule.word();
            Ok(format!(in alloc; "broken {line} {rule}")?)
        }
        Ok(None) => Ok(String::from_str(alloc, "ok")?),
        Err(fault) => told_fault(alloc, fault),
    }
}

// The verdict on bytes that are read in pieces of so many.
fn verdict(alloc: Global, bytes: &[u8], size: usize) -> Result<Option<Broken>, TraceFault>
    requires { 0 < size }
{
    let mut checker = PiecewiseChecker::new(alloc);
    for piece in bytes.chunks(size) {
        checker.read(alloc, piece)?;
    }
    checker.verdict()
}

// That this is told of bytes that come in pieces of so many.
fn is_told_in(alloc: Global, bytes: &[u8], size: usize, wanted: &str) -> Result<(), Fail>
    requires { 0 < size }
{
    let found = told(alloc, verdict(alloc, bytes, size))?;
    if found.as_str() == wanted {
        Ok(())
    } else {
        Err(Fail::new(format_args!("in pieces of {size} bytes {found} and not {wanted}")))
    }
}

/// That this is told however the bytes are cut: into single bytes, into a few, and not at all.
pub(crate) fn is_told(alloc: Global, text: &str, wanted: &str) -> Result<(), Fail> {
    let bytes = text.as_bytes();
    is_told_in(alloc, bytes, 1, wanted)?;
    is_told_in(alloc, bytes, 7, wanted)?;
    is_told_in(alloc, bytes, 256, wanted)?;
    is_told_in(alloc, bytes, 1_000_000, wanted)
}
