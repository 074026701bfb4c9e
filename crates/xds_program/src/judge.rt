// `xds check`: the bytes of a trace in, a verdict on it out.
ghost use Rattle.std.specs.Prelude.{◌≡◌, ◌⊎◌, ◌<◌, ◌≤◌, ◌++◌, ℕ, List, Option, [], length, take, true, false, IfOk, IfErr, IfSome, IfNone, OnOk, string_bytes};
ghost use Rattle.std.specs.Io.KnownBytes.{Consumes, IsAtEnd, prepend_known};
ghost use Rattle.xds_resource.specs.declared.refusal.Refusal.TheVariants.{OutOfMemory};
ghost use Rattle.xds_frames.specs.Devices.{most_calls, MoreFailed};
ghost use Rattle.xds_check.specs.Checkers.{HasRead};
ghost use Rattle.xds_check.specs.Texts.{IsRefusedAt};
ghost use Rattle.xds_program.specs.Judged.{IsJudged, IsUnjudged, IsUnread, ReadsOn, IsReadWhole, TellsVerdict, broken_text, verdict_text, verdict_status};
ghost use Rattle.xds_program.specs.SoFar.{IsJudgedSoFar, IsLastLine, IsLeftUnjudged};

use crate::last_line::split_last;
use crate::tail::Tail;
use std::alloc::Global;
use std::io::{ErrorKind, Read};
use xds_check::laws::bytes_are_one_trace;
use xds_check::{Broken, PiecewiseChecker, TraceFault};
use xds_frames::Counted;
use xds_frames::counted::MOST_CALLS;
use xds_resource::Refusal;

// How many bytes are read at once, at most.
const PIECE: usize = 16_384;

/// Why there is no verdict.
#[derive(Clone, Copy, Debug, PartialEq, Eq)]
pub enum Unjudged {
    /// The line of this number, from 1, is the first bad one.
    BadTrace(usize),
    OutOfMemory,
}

/// Why there is no verdict on an input.
#[derive(Clone, Copy, Debug, PartialEq, Eq)]
pub enum NoVerdict {
    Unjudged(Unjudged),
    /// A call of the reader failed.
    Device,
}

/// What is told of a trace.
#[derive(Debug)]
pub struct TraceVerdict {
    /// `ok`, or `broken` with the number of a line and the word of a rule. A line feed ends it.
    pub text: String,
    /// The status of the run that tells it: 0 where no rule is broken, and else 1.
    pub status: u8,
}

// Written out: docs/PROVING.md, "Drops".
impl Drop for TraceVerdict {
    fn drop(self) {
        let TraceVerdict { text: _, status: _ } = self;
    }
}

/// Reads a trace and checks it. Told is the first line at which a rule is broken, and the least rule that is broken there; or
/// that every line keeps the rules.
pub fn judge(alloc: Global, bytes: &[u8]) -> Result<TraceVerdict, Unjudged>
    ensures judged { IfOk result (λ v. TellsVerdict bytes.now v.status (string_bytes v.text)) }
    ensures unjudged { IfErr result (λ e. IsUnjudged bytes.now e) }
{
    let broken = broken_in(alloc, bytes)?;
    verdict_on(alloc, broken)
}

/// Reads the trace that an input is to its end, and checks it as it comes: a line is held until it was read, and then what the
/// rules need of it. Told is what [`judge`] tells of all bytes. An input with a bad line is read to its end, too; the line is kept.
pub fn judge_input<I: Read>(
    alloc: Global,
    input: &mut Counted<I>,
    tail: &mut Tail,
) -> Result<TraceVerdict, NoVerdict>
    ensures judged { IfOk result (λ v. IfSome (I.remaining input.old.inner) (λ bytes. TellsVerdict bytes v.status (string_bytes v.text))) }
    ensures unjudged { IfErr result (λ e. IsUnread (I.remaining input.old.inner) input.old.failed input.new.failed e) }
{
    let mut checker = PiecewiseChecker::new(alloc);
    let before = input.failed;
    let read = read_all(alloc, input, &mut checker, tail, before);
    match read {
        Ok(()) => {
            let told = verdict_of(alloc, &checker);
            drop(checker);
            match told {
                Ok(verdict) => Ok(verdict),
                Err(why) => Err(NoVerdict::Unjudged(why)),
            }
        }
        Err(why) => {
            drop(checker);
            Err(read_behind(input, before, why))
        }
    }
}

/// What is known of a trace that may be cut short.
#[derive(Clone, Copy, Debug, PartialEq, Eq)]
pub struct SoFar {
    /// The first line at which a rule is broken, if there is one.
    pub broken: Option<Broken>,
    /// The number of the last line, from 1, if that isn't whole, and those before it alone are judged.
    pub cut: Option<usize>,
}

/// Reads a trace, and checks it as far as it is whole: where its first bad line is its last line, whether a line feed ends that or
/// not, the lines before it are judged. Any other bad line is told.
pub fn judge_so_far(alloc: Global, bytes: &[u8]) -> Result<SoFar, Unjudged>
    ensures judged { IfOk result (λ s. IsJudgedSoFar bytes.now s.broken s.cut) }
    ensures unjudged { IfErr result (λ e. IsLeftUnjudged bytes.now e) }
{
    bytes_are_one_trace();
    let (front, last) = split_last(bytes);
    let mut checker = PiecewiseChecker::new(alloc);
    if let Err(fault) = checker.read(alloc, front) {
        return Err(why_not(fault));
    }
    match broken_by(&checker) {
        Ok(before) => judge_last(alloc, &mut checker, before, last),
        Err(why) => Err(why),
    }
}

// Checks the last line, behind lines on which this is the verdict.
fn judge_last(
    alloc: Global,
    checker: &mut PiecewiseChecker,
    before: Option<Broken>,
    last: &[u8],
) -> Result<SoFar, Unjudged>
    requires read { (front : List ℕ) × HasRead front checker.old }
    requires before { (front : List ℕ) → HasRead front checker.old → IsJudged front before }
    requires last { IsLastLine last.now }
    ensures judged { IfOk result (λ s. (front : List ℕ) → HasRead front checker.old → IsJudgedSoFar (front ++ last.now) s.broken s.cut) }
    ensures unjudged { IfErr result (λ e. e ≡ Unjudged.OutOfMemory) }
{
    if let Err(fault) = checker.read(alloc, last) {
        return cut_at(before, why_not(fault));
    }
    match broken_by(checker) {
        Ok(broken) => Ok(SoFar { broken, cut: None }),
        Err(why) => cut_at(before, why),
    }
}

// What is known where the last line is refused.
fn cut_at(before: Option<Broken>, why: Unjudged) -> Result<SoFar, Unjudged>
    ensures cut { IfOk result (λ s. (s.broken ≡ before) × IfSome s.cut (λ line. why ≡ Unjudged.BadTrace line)) }
    ensures some { IfOk result (λ s. IfNone s.cut ⊥) }
    ensures unjudged { IfErr result (λ e. e ≡ Unjudged.OutOfMemory) }
{
    match why {
        Unjudged::BadTrace(line) => Ok(SoFar {
            broken: before,
            cut: Some(line),
        }),
        Unjudged::OutOfMemory => Err(Unjudged::OutOfMemory),
    }
}

/// Some bytes, without their last line where that isn't whole.
pub(crate) fn whole_lines(bytes: &[u8], is_cut: bool) -> &[u8] {
    if is_cut { split_last(bytes).0 } else { bytes }
}

// The first line at which a rule is broken, if there is one.
fn broken_in(alloc: Global, bytes: &[u8]) -> Result<Option<Broken>, Unjudged>
    ensures judged { IfOk result (λ broken. IsJudged bytes.now broken) }
    ensures unjudged { IfErr result (λ e. IsUnjudged bytes.now e) }
{
    let mut checker = PiecewiseChecker::new(alloc);
    if let Err(fault) = checker.read(alloc, bytes) {
        return Err(why_not(fault));
    }
    broken_by(&checker)
}

// The first line at which a rule is broken in the bytes that were read, where no more follow.
fn broken_by(checker: &PiecewiseChecker) -> Result<Option<Broken>, Unjudged>
    requires { (bytes : List ℕ) × HasRead bytes checker.now }
    ensures judged { IfOk result (λ broken. (bytes : List ℕ) → HasRead bytes checker.now → IsJudged bytes broken) }
    ensures unjudged { IfErr result (λ e. (bytes : List ℕ) → HasRead bytes checker.now → IsUnjudged bytes e) }
{
    match checker.verdict() {
        Ok(broken) => Ok(broken),
        Err(fault) => Err(why_not(fault)),
    }
}

// Why there is no verdict, where a line is refused.
fn why_not(fault: TraceFault) -> Unjudged
    ensures { (bytes : List ℕ) → IsRefusedAt bytes fault.line fault.refusal → IsUnjudged bytes result }
{
    match fault.refusal {
        Refusal::BadTrace => Unjudged::BadTrace(fault.line),
        _ => Unjudged::OutOfMemory,
    }
}

/// What is told of a verdict. Refused only by `OutOfMemory`.
pub fn verdict_on(alloc: Global, broken: Option<Broken>) -> Result<TraceVerdict, Unjudged>
    ensures told { IfOk result (λ v. (string_bytes v.text ≡ verdict_text broken) × (v.status ≡ verdict_status broken)) }
    ensures refused { IfErr result (λ e. e ≡ Unjudged.OutOfMemory) }
{
    match text_of(alloc, broken) {
        Ok(text) => Ok(TraceVerdict {
            text,
            status: if broken.is_some() { 1 } else { 0 },
        }),
        Err(_) => Err(Unjudged::OutOfMemory),
    }
}

// What is told of all bytes, where no more follow.
fn verdict_of(alloc: Global, checker: &PiecewiseChecker) -> Result<TraceVerdict, Unjudged>
    requires { (bytes : List ℕ) × HasRead bytes checker.now }
    ensures judged { IfOk result (λ v. (bytes : List ℕ) → HasRead bytes checker.now → TellsVerdict bytes v.status (string_bytes v.text)) }
    ensures unjudged { IfErr result (λ e. (bytes : List ℕ) → HasRead bytes checker.now → IsUnjudged bytes e) }
{
    let broken = broken_by(checker)?;
    verdict_on(alloc, broken)
}

// Why a read failed: the reader did, or there was no memory for it.
fn unread(failed: u64, before: u64, kind: ErrorKind) -> NoVerdict
    ensures { (result ≡ NoVerdict.Unjudged Unjudged.OutOfMemory) ⊎ ((result ≡ NoVerdict.Device) × MoreFailed before failed) }
{
    let has_failed = failed > before || failed == u64::MAX;
    if has_failed && kind != ErrorKind::OutOfMemory {
        NoVerdict::Device
    } else {
        NoVerdict::Unjudged(Unjudged::OutOfMemory)
    }
}

// Reads some bytes more: none at the end of the input, and no bytes where the read was interrupted.
fn read_some<I: Read>(
    input: &mut Counted<I>,
    buffer: &mut [u8],
    before: u64,
) -> Result<Option<usize>, NoVerdict>
    requires { 0 < length buffer.old }
    ensures some { IfOk result (λ o. IfSome o (λ n. (n ≤ length buffer.new) × Consumes (I.remaining input.old.inner) (I.remaining input.new.inner) (take n buffer.new))) }
    ensures none { IfOk result (λ o. IfNone o (Consumes (I.remaining input.old.inner) (I.remaining input.new.inner) [] × IsAtEnd (I.remaining input.new.inner))) }
    ensures called { IfOk result (λ o. IfSome o (λ n. input.old.calls < input.new.calls)) }
    ensures bounded { IfOk result (λ o. IfSome o (λ n. input.new.calls ≤ most_calls)) }
    ensures refused { IfErr result (λ e. (e ≡ NoVerdict.Unjudged Unjudged.OutOfMemory) ⊎ ((e ≡ NoVerdict.Device) × MoreFailed before input.new.failed)) }
{
    let is_last = input.calls >= MOST_CALLS;
    match input.read(buffer) {
        Ok(0) => Ok(None),
        Ok(count) => Ok(Some(count)),
        Err(error) => {
            let kind = error.kind();
            if kind == ErrorKind::Interrupted && !is_last {
                return Ok(Some(0));
            }
            Err(unread(input.failed, before, kind))
        }
    }
}

// Reads a piece more, and answers whether there was one.
fn read_piece<I: Read>(
    alloc: Global,
    input: &mut Counted<I>,
    checker: &mut PiecewiseChecker,
    tail: &mut Tail,
    before: u64,
) -> Result<bool, NoVerdict>
    requires { (bytes : List ℕ) × HasRead bytes checker.old }
    ensures more { IfOk result (λ more. more ≡ true → ReadsOn (I.remaining input.old.inner) (I.remaining input.new.inner) checker.old checker.new) }
    ensures end { IfOk result (λ more. more ≡ false → (checker.new ≡ checker.old)
        × Consumes (I.remaining input.old.inner) (I.remaining input.new.inner) [] × IsAtEnd (I.remaining input.new.inner)) }
    ensures called { IfOk result (λ more. more ≡ true → (input.old.calls < input.new.calls) × (input.new.calls ≤ most_calls)) }
    ensures refused { IfErr result (λ e. (bytes : List ℕ) → HasRead bytes checker.old → IsUnread (prepend_known bytes (I.remaining input.old.inner)) before input.new.failed e) }
{
    let mut buffer = [0u8; PIECE];
    match read_some(input, &mut buffer, before) {
        Ok(Some(count)) => match checker.read(alloc, &buffer[..count]) {
            Ok(()) => {
                tail.pass(&buffer[..count]);
                Ok(true)
            }
            Err(fault) => {
                tail.keep(alloc, &buffer[..count], fault.line);
                Err(NoVerdict::Unjudged(why_not(fault)))
            }
        },
        Ok(None) => Ok(false),
        Err(why) => Err(why),
    }
}

// Reads an input to its end, or to its first bad line.
fn read_all<I: Read>(
    alloc: Global,
    input: &mut Counted<I>,
    checker: &mut PiecewiseChecker,
    tail: &mut Tail,
    before: u64,
) -> Result<(), NoVerdict>
    requires { HasRead [] checker.old }
    ensures read { OnOk result (IsReadWhole (I.remaining input.old.inner) checker.new) }
    ensures refused { IfErr result (λ e. IsUnread (I.remaining input.old.inner) before input.new.failed e) }
{
    while read_piece(alloc, input, checker, tail, before)? {}
    Ok(())
}

// Lets go of what is left of an input behind its first bad line, and answers why there is no verdict.
fn read_behind<I: Read>(input: &mut Counted<I>, before: u64, why: NoVerdict) -> NoVerdict
    ensures { (known : Option (List ℕ)) → IsUnread known before input.old.failed why → IsUnread known before input.new.failed result }
{
    if !matches!(why, NoVerdict::Unjudged(Unjudged::BadTrace(_))) {
        return why;
    }
    match pass_over(input, before) {
        Ok(()) => why,
        Err(failed) => failed,
    }
}

// Reads an input to its end, and keeps nothing of it.
fn pass_over<I: Read>(input: &mut Counted<I>, before: u64) -> Result<(), NoVerdict>
    ensures { IfErr result (λ e. (e ≡ NoVerdict.Unjudged Unjudged.OutOfMemory) ⊎ ((e ≡ NoVerdict.Device) × MoreFailed before input.new.failed)) }
{
    let mut buffer = [0u8; PIECE];
    while let Some(_) = read_some(input, &mut buffer, before)? {}
    Ok(())
}

// What is printed of a verdict. Refused only by `OutOfMemory`.
fn text_of(alloc: Global, broken: Option<Broken>) -> Result<String, Refusal>
    ensures text { IfOk result (λ text. string_bytes text ≡ verdict_text broken) }
    ensures refused { IfErr result (λ e. e ≡ OutOfMemory) }
{
    match broken {
        Some(broken) => broken_text(alloc, broken),
        None => Ok(String::from_str(alloc, "ok\n")?),
    }
}

// What is printed of a line that breaks a rule. Refused only by `OutOfMemory`.
fn broken_text(alloc: Global, broken: Broken) -> Result<String, Refusal>
    ensures text { IfOk result (λ text. string_bytes text ≡ broken_text broken) }
    ensures refused { IfErr result (λ e. e ≡ OutOfMemory) }
{
    let line = broken.line;
    let rule = broken.rule.word();
    Ok(format!(in alloc; "broken {line} {rule}\n")?)
}
