// A run of the program, over the reader and the writers that it is given.
ghost use Rattle.std.specs.Prelude.{◌≡◌, ◌≢◌, ◌⊎◌, ◌||◌, Some, None, false, map, option_map, string_bytes, IfOk, IfErr, IfSome, IfNone};
ghost use Rattle.clap.specs.Words.{kind_of};
ghost use Rattle.xds_frames.specs.Devices.{Device, Tells, seen};
ghost use Rattle.xds_play.specs.Played.{IsUnplayed};
ghost use Rattle.xds_program.specs.Outcomes.{HasRun, IsPlayedFor, IsShown, IsUnable, Prints, Runs, RunsAnswer, RunsCheck, RunsPlay, RunsSoFar};
ghost use Rattle.xds_program.specs.Outcomes.{Draws, IsDone, PrintsSo, RunsChecked, RunsWanted, TellsBehind, TellsCause, cause_line, fault_line, refusal_line};
ghost use Rattle.xds_program.specs.Judged.{IsUnjudged, verdict_status};
ghost use Rattle.xds_program.specs.SoFar.{IsToldOf, TellsSoFar, cut_text};

use crate::answer::draft_answer;
use crate::drawn::{Drawing, draw, drawn_or_done, explained, put_picture};
use crate::gathering::Looked;
use crate::judge::{
    NoVerdict, SoFar, TraceVerdict, Unjudged, judge_input, judge_so_far, verdict_on, whole_lines,
};
use crate::output::write_answer;
use crate::reasons::{
    bad_line, bad_trace, bad_trace_in, cut_text, no_lines, put, script_line, unasked, unread,
    unwritten,
};
use crate::tail::Tail;
use crate::tasks::{
    CheckTask, ClientTask, DeleteTask, GetTask, PlayTask, PollTask, PutTask, ServeWords,
    StatusTask, Task, WritesTask,
};
use crate::words::task_of;
use clap::error::ErrorKind;
use std::alloc::{AllocError, Global};
use std::io::{Read, Write};
use xds_causes::{LineFault, plain_line};
use xds_explain::script_picture;
use xds_frames::{Counted, read_whole, write_whole};
use xds_play::{Unplayed, play_script, trace_script};
use xds_resource::Refusal;

/// The status of a run that did what it was asked.
pub const DONE: u8 = 0;

/// The status of a run that refused its input, or found no memory, or whose reader or writer failed.
pub const REFUSED: u8 = 1;

/// The status of a run with wrong words.
pub const WRONG_WORDS: u8 = 2;

/// What became of a run.
#[derive(Debug, Drop)]
pub enum Ran {
    /// It is done, with this status.
    Done(u8),
    /// It is up to the caller to serve. Nothing was read or written.
    Serve(ServeWords),
    /// It is up to the caller to run a client. Nothing was read or written.
    Client(ClientTask),
    /// It is up to the caller to poll. Nothing was read or written.
    Poll(PollTask),
    /// It is up to the caller to print the writes of a store. Nothing was read or written.
    Writes(WritesTask),
    /// `xds status`, which needs a network.
    Status(StatusTask),
    /// `xds get`, which needs a network.
    Get(GetTask),
    /// `xds put`, which needs a network.
    Put(PutTask),
    /// `xds delete`, which needs a network.
    Delete(DeleteTask),
    /// It is done but for a picture, which the caller writes into a file.
    Drawn(Drawing),
}

/// Runs the program with these words, the first of which is its name. The words are looked at before any input. It does
/// `xds answer`, `xds play` and `xds check`; a task that needs a network or a store is handed to the caller.
pub fn run<I: Read, O: Write, E: Write>(
    alloc: Global,
    words: &[String],
    input: &mut Counted<I>,
    output: &mut Counted<O>,
    errors: &mut Counted<E>,
) -> Ran
    ensures { HasRun (map string_bytes words.now) result (record {
      input = seen I.remaining input.old input.new;
      output = seen O.contents output.old output.new;
      errors = seen E.contents errors.old errors.new;
    }) }
{
    match task_of(alloc, words) {
        Ok(task) => run_task(alloc, task, input, output, errors),
        Err(error) => Ran::Done(show(alloc, &error, output, errors)),
    }
}

// Does the task, or hands it to the caller.
fn run_task<I: Read, O: Write, E: Write>(
    alloc: Global,
    task: Task,
    input: &mut Counted<I>,
    output: &mut Counted<O>,
    errors: &mut Counted<E>,
) -> Ran
    ensures { Runs task result (record {
      input = seen I.remaining input.old input.new;
      output = seen O.contents output.old output.new;
      errors = seen E.contents errors.old errors.new;
    }) }
{
    match task {
        Task::Answer { replica } => run_answer(alloc, replica, input, output, errors),
        Task::Play(task) => run_play(alloc, task, input, output, errors),
        Task::Check(task) => run_check(alloc, task, input, output, errors),
        Task::Serve(serve) => Ran::Serve(serve),
        Task::Client(client) => Ran::Client(client),
        Task::Poll(poll) => Ran::Poll(poll),
        Task::Writes(writes) => Ran::Writes(writes),
        Task::Status(status) => Ran::Status(status),
        Task::Get(get) => Ran::Get(get),
        Task::Put(put) => Ran::Put(put),
        Task::Delete(delete) => Ran::Delete(delete),
    }
}

// Does `xds answer`, and tells in words what is wrong.
fn run_answer<I: Read, O: Write, E: Write>(
    alloc: Global,
    replica: u16,
    input: &mut Counted<I>,
    output: &mut Counted<O>,
    errors: &mut Counted<E>,
) -> Ran
    ensures { IsDone (TellsBehind (λ cause. RunsAnswer replica)) result (record {
      input = seen I.remaining input.old input.new;
      output = seen O.contents output.old output.new;
      errors = seen E.contents errors.old errors.new;
    }) }
{
    let mut cause = String::new(alloc);
    let status = answer(alloc, replica, &mut cause, input, output, errors);
    tell_cause(alloc, status == DONE, cause.as_str(), errors);
    Ran::Done(status)
}

// Does `xds play`, and tells in words what is wrong.
fn run_play<I: Read, O: Write, E: Write>(
    alloc: Global,
    task: PlayTask,
    input: &mut Counted<I>,
    output: &mut Counted<O>,
    errors: &mut Counted<E>,
) -> Ran
    ensures { Draws task.picture (TellsBehind (λ cause. RunsPlay task.trace)) result (record {
      input = seen I.remaining input.old input.new;
      output = seen O.contents output.old output.new;
      errors = seen E.contents errors.old errors.new;
    }) }
{
    let PlayTask { trace, picture } = task;
    let mut cause = String::new(alloc);
    let mut svg = None;
    let draws = picture.is_some();
    let status = play(
        alloc, trace, draws, &mut svg, &mut cause, input, output, errors,
    );
    tell_cause(alloc, false, cause.as_str(), errors);
    drawn_or_done(status, picture, svg)
}

// Does `xds check`, and tells in words what is wrong. A trace that may be cut short, that is explained or that is drawn is read whole.
fn run_check<I: Read, O: Write, E: Write>(
    alloc: Global,
    task: CheckTask,
    input: &mut Counted<I>,
    output: &mut Counted<O>,
    errors: &mut Counted<E>,
) -> Ran
    ensures { Draws task.picture (TellsBehind (RunsChecked task)) result (record {
      input = seen I.remaining input.old input.new;
      output = seen O.contents output.old output.new;
      errors = seen E.contents errors.old errors.new;
    }) }
{
    let CheckTask {
        so_far,
        explain,
        picture,
    } = task;
    let mut cause = String::new(alloc);
    let mut svg = None;
    let wanted = WantedOfTrace {
        so_far,
        explain,
        draws: picture.is_some(),
    };
    let status = check_as(alloc, wanted, &mut svg, &mut cause, input, output, errors);
    let is_note = status == DONE && !so_far;
    tell_cause(alloc, is_note, cause.as_str(), errors);
    drawn_or_done(status, picture, svg)
}

// Checks a trace: as it comes, or, where it may be cut short or is explained or drawn, one that is read whole.
fn check_as<I: Read, O: Write, E: Write>(
    alloc: Global,
    wanted: WantedOfTrace,
    svg: &mut Option<String>,
    cause: &mut String,
    input: &mut Counted<I>,
    output: &mut Counted<O>,
    errors: &mut Counted<E>,
) -> u8
    ensures { RunsWanted wanted.so_far wanted.explain wanted.draws (string_bytes cause.new) result (record {
      input = seen I.remaining input.old input.new;
      output = seen O.contents output.old output.new;
      errors = seen E.contents errors.old errors.new;
    }) }
{
    if is_read_whole(wanted) {
        return check_whole(alloc, wanted, svg, cause, input, output, errors);
    }
    check(alloc, cause, input, output, errors)
}

// Whether a trace of which this is wanted is read whole.
fn is_read_whole(wanted: WantedOfTrace) -> bool
    ensures { result ≡ (wanted.so_far || wanted.explain || wanted.draws) }
{
    wanted.so_far || wanted.explain || wanted.draws
}

// What is wanted of a trace.
#[derive(Clone, Copy, Debug, PartialEq, Eq)]
pub(crate) struct WantedOfTrace {
    so_far: bool,
    explain: bool,
    draws: bool,
}

// Tells a cause as a line, if there is one, and memory for it: behind an empty line, where it is a note on what is no fault.
fn tell_cause<E: Write>(alloc: Global, is_note: bool, cause: &str, errors: &mut Counted<E>)
    ensures { TellsCause is_note cause.now (seen E.contents errors.old errors.new) }
{
    if cause.is_empty() {
        return;
    }
    if let Ok(line) = cause_line(alloc, is_note, cause) {
        let _ = write_whole(errors, line.as_slice());
    }
}

// The line of a cause. The first line of an error output that tells no refusal is empty.
fn cause_line(alloc: Global, is_note: bool, cause: &str) -> Result<Vec<u8>, AllocError>
    ensures { IfOk result (λ line. line.items ≡ cause_line is_note cause.now) }
{
    let line = plain_line(alloc, cause)?;
    if !is_note {
        return Ok(line);
    }
    let mut behind = Vec::new(alloc);
    behind.push(b'\n')?;
    behind.extend_from_slice(line.as_slice())?;
    Ok(behind)
}

/// Runs `xds answer`: the answer of [`draft_answer`] goes to the output, and the line that it refuses to the
/// error output. Left as the cause is what is wrong in words, if anything is, and that a request's type is unknown.
pub fn answer<I: Read, O: Write, E: Write>(
    alloc: Global,
    replica: u16,
    cause: &mut String,
    input: &mut Counted<I>,
    output: &mut Counted<O>,
    errors: &mut Counted<E>,
) -> u8
    ensures { RunsAnswer replica result (record {
      input = seen I.remaining input.old input.new;
      output = seen O.contents output.old output.new;
      errors = seen E.contents errors.old errors.new;
    }) }
{
    let bytes = match read_whole(alloc, input) {
        Ok(bytes) => bytes,
        Err(refusal) => return tell_input(alloc, refusal, cause, errors),
    };
    let mut looked = Looked::new(alloc);
    match draft_answer(alloc, replica, bytes, &mut looked) {
        Ok(draft) => {
            put(cause, unasked(alloc, draft.is_none(), &looked));
            match write_answer(alloc, &draft, output) {
                Ok(()) => DONE,
                Err(refusal) => tell_output(alloc, refusal, cause, errors),
            }
        }
        Err(fault) => {
            put(cause, bad_line(alloc, fault, &looked));
            tell_fault(alloc, fault, errors)
        }
    }
}

// What is printed of a script: what its show lines ask for, or the trace of a replica.
fn played(alloc: Global, trace: Option<u16>, script: &[u8]) -> Result<String, Unplayed>
    ensures played { IfOk result (λ text. IsPlayedFor trace script.now (string_bytes text)) }
    ensures unplayed { IfErr result (λ e. IsUnplayed script.now e) }
{
    match trace {
        None => play_script(alloc, script),
        Some(replica) => trace_script(alloc, replica, script),
    }
}

/// Runs `xds play`: what the script of the input prints, or the trace of a replica of the world that it leads to, goes to the
/// output, and the script's first bad line to the error output. Left is the script's picture, where it is to be drawn, and as the cause
/// what is wrong in words.
pub fn play<I: Read, O: Write, E: Write>(
    alloc: Global,
    trace: Option<u16>,
    draws: bool,
    svg: &mut Option<String>,
    cause: &mut String,
    input: &mut Counted<I>,
    output: &mut Counted<O>,
    errors: &mut Counted<E>,
) -> u8
    ensures { RunsPlay trace result (record {
      input = seen I.remaining input.old input.new;
      output = seen O.contents output.old output.new;
      errors = seen E.contents errors.old errors.new;
    }) }
{
    let bytes = match read_whole(alloc, input) {
        Ok(bytes) => bytes,
        Err(refusal) => return tell_input(alloc, refusal, cause, errors),
    };
    let text = match played(alloc, trace, bytes.as_slice()) {
        Ok(text) => text,
        Err(Unplayed::OutOfMemory) => return tell(Refusal::OutOfMemory, errors),
        Err(Unplayed::BadScript(line)) => {
            put(cause, script_line(alloc, bytes.as_slice(), line));
            let refusal = Refusal::BadScript;
            return tell_fault(alloc, LineFault { line, refusal }, errors);
        }
    };
    if draws {
        match script_picture(alloc, bytes.as_slice()) {
            Ok(picture) => put_picture(svg, picture),
            Err(_) => return tell(Refusal::OutOfMemory, errors),
        }
    }
    match write_whole(output, text.as_bytes()) {
        Ok(()) => DONE,
        Err(refusal) => tell_output(alloc, refusal, cause, errors),
    }
}

/// Runs `xds check`: the verdict on the trace of the input goes to the output, and its first bad line to the error output. Left as the
/// cause is what is wrong in words, if anything is, and that a trace has no lines.
pub fn check<I: Read, O: Write, E: Write>(
    alloc: Global,
    cause: &mut String,
    input: &mut Counted<I>,
    output: &mut Counted<O>,
    errors: &mut Counted<E>,
) -> u8
    ensures { RunsCheck result (record {
      input = seen I.remaining input.old input.new;
      output = seen O.contents output.old output.new;
      errors = seen E.contents errors.old errors.new;
    }) }
{
    let mut tail = Tail::new(alloc);
    match judge_input(alloc, input, &mut tail) {
        Ok(verdict) => {
            put(cause, no_lines(alloc, tail.is_empty()));
            print_or_tell(
                alloc,
                verdict.text.as_bytes(),
                verdict.status,
                cause,
                output,
                errors,
            )
        }
        Err(NoVerdict::Device) => tell_input(alloc, Refusal::Device, cause, errors),
        Err(NoVerdict::Unjudged(Unjudged::OutOfMemory)) => tell(Refusal::OutOfMemory, errors),
        Err(NoVerdict::Unjudged(Unjudged::BadTrace(line))) => {
            put(cause, bad_trace(alloc, tail.line(), line));
            let refusal = Refusal::BadTrace;
            tell_fault(alloc, LineFault { line, refusal }, errors)
        }
    }
}

/// Runs `xds check` on a trace that is read whole: it may be cut short, the rule that is broken may be explained, and the trace may be
/// drawn.
fn check_whole<I: Read, O: Write, E: Write>(
    alloc: Global,
    wanted: WantedOfTrace,
    svg: &mut Option<String>,
    cause: &mut String,
    input: &mut Counted<I>,
    output: &mut Counted<O>,
    errors: &mut Counted<E>,
) -> u8
    ensures { RunsSoFar wanted.so_far wanted.explain (string_bytes cause.new) result (record {
      input = seen I.remaining input.old input.new;
      output = seen O.contents output.old output.new;
      errors = seen E.contents errors.old errors.new;
    }) }
{
    let bytes = match read_whole(alloc, input) {
        Ok(bytes) => bytes,
        Err(refusal) => return tell_input(alloc, refusal, cause, errors),
    };
    match told_of(alloc, wanted, svg, cause, bytes.as_slice()) {
        Ok(verdict) => print_or_tell(
            alloc,
            verdict.text.as_bytes(),
            verdict.status,
            cause,
            output,
            errors,
        ),
        Err(Unjudged::OutOfMemory) => tell(Refusal::OutOfMemory, errors),
        Err(Unjudged::BadTrace(line)) => {
            put(cause, bad_trace_in(alloc, bytes.as_slice(), line));
            let refusal = Refusal::BadTrace;
            tell_fault(alloc, LineFault { line, refusal }, errors)
        }
    }
}

// What is told of a trace: the verdict on it, as far as it is whole, and what explains it. Left is its picture, where it is to be drawn,
// and as the cause which of its lines isn't whole.
fn told_of(
    alloc: Global,
    wanted: WantedOfTrace,
    svg: &mut Option<String>,
    cause: &mut String,
    bytes: &[u8],
) -> Result<TraceVerdict, Unjudged>
    ensures told { IfOk result (λ v. TellsSoFar wanted.so_far wanted.explain bytes.now (string_bytes cause.new) v.status (string_bytes v.text)) }
    ensures untold { IfErr result (λ e. IsUnjudged bytes.now e) }
{
    let known = judge_so_far(alloc, bytes)?;
    if let Some(line) = refused_line(wanted.so_far, known.cut) {
        return Err(Unjudged::BadTrace(line));
    }
    told_as(alloc, wanted, svg, cause, bytes, known)
}

// The line that isn't whole, where a trace may not be cut short.
fn refused_line(so_far: bool, cut: Option<usize>) -> Option<usize>
    ensures some { IfSome result (λ line. cut ≡ Some line) }
    ensures none { IfNone result (so_far ≡ false → cut ≡ None) }
{
    if so_far { None } else { cut }
}

// What is told of a trace of which this is known.
fn told_as(
    alloc: Global,
    wanted: WantedOfTrace,
    svg: &mut Option<String>,
    cause: &mut String,
    bytes: &[u8],
    known: SoFar,
) -> Result<TraceVerdict, Unjudged>
    ensures told { IfOk result (λ v. IsToldOf wanted.explain known.broken (string_bytes v.text) × (v.status ≡ verdict_status known.broken)
        × (string_bytes cause.new ≡ cut_text known.cut)) }
    ensures untold { IfErr result (λ e. e ≡ Unjudged.OutOfMemory) }
{
    let whole = whole_lines(bytes, known.cut.is_some());
    let verdict = verdict_on(alloc, known.broken)?;
    let verdict = explained(alloc, wanted.explain, whole, known.broken, verdict)?;
    if wanted.draws {
        if let Err(why) = draw(alloc, svg, whole, known.broken) {
            drop(verdict);
            return Err(why);
        }
    }
    match cut_text(alloc, known.cut) {
        Ok(text) => {
            put(cause, text);
            Ok(verdict)
        }
        Err(why) => {
            drop(verdict);
            Err(why)
        }
    }
}

/// Writes a text, and answers this status; or tells that the output failed, and answers the status of that.
pub fn print<O: Write, E: Write>(
    text: &[u8],
    status: u8,
    output: &mut Counted<O>,
    errors: &mut Counted<E>,
) -> u8
    ensures { Prints text.now status result (seen O.contents output.old output.new) (seen E.contents errors.old errors.new) }
{
    match write_whole(output, text) {
        Ok(()) => status,
        Err(refusal) => tell(refusal, errors),
    }
}

// The same, and leaves as the cause that the output failed, if it did.
fn print_or_tell<O: Write, E: Write>(
    alloc: Global,
    text: &[u8],
    status: u8,
    cause: &mut String,
    output: &mut Counted<O>,
    errors: &mut Counted<E>,
) -> u8
    ensures { PrintsSo text.now (string_bytes cause.old) (string_bytes cause.new) status result
        (seen O.contents output.old output.new) (seen E.contents errors.old errors.new) }
{
    match write_whole(output, text) {
        Ok(()) => status,
        Err(refusal) => tell_output(alloc, refusal, cause, errors),
    }
}

// Tells why the input can't be read, and leaves that in words.
fn tell_input<E: Write>(
    alloc: Global,
    refusal: Refusal,
    cause: &mut String,
    errors: &mut Counted<E>,
) -> u8
    requires { (refusal ≡ Refusal.OutOfMemory) ⊎ (refusal ≡ Refusal.Device) }
    ensures told { Tells (seen E.contents errors.old errors.new) (refusal_line refusal) }
    ensures status { result ≡ 1 }
{
    put(cause, unread(alloc, refusal));
    tell(refusal, errors)
}

// Tells why the output can't be written, and leaves that in words.
fn tell_output<E: Write>(
    alloc: Global,
    refusal: Refusal,
    cause: &mut String,
    errors: &mut Counted<E>,
) -> u8
    requires { (refusal ≡ Refusal.OutOfMemory) ⊎ (refusal ≡ Refusal.Device) }
    ensures told { Tells (seen E.contents errors.old errors.new) (refusal_line refusal) }
    ensures status { result ≡ 1 }
{
    put(cause, unwritten(alloc, refusal));
    tell(refusal, errors)
}

/// Tells that there was no memory, or that a reader or a writer failed, and answers the status.
pub fn tell<E: Write>(refusal: Refusal, errors: &mut Counted<E>) -> u8
    requires { (refusal ≡ Refusal.OutOfMemory) ⊎ (refusal ≡ Refusal.Device) }
    ensures told { Tells (seen E.contents errors.old errors.new) (refusal_line refusal) }
    ensures status { result ≡ 1 }
{
    let _ = write_whole(errors, refusal_line(refusal).as_bytes());
    REFUSED
}

// The refusal in words, without a need for memory.
fn refusal_line(refusal: Refusal) -> &'static str
    requires { (refusal ≡ Refusal.OutOfMemory) ⊎ (refusal ≡ Refusal.Device) }
    ensures { result.now ≡ refusal_line refusal }
{
    match refusal {
        Refusal::Device => "19 Device\n",
        _ => "8 OutOfMemory\n",
    }
}

// Tells which line is refused, or that there was no memory to say so.
fn tell_fault<E: Write>(alloc: Global, fault: LineFault, errors: &mut Counted<E>) -> u8
    ensures told { Tells (seen E.contents errors.old errors.new) (fault_line fault.line fault.refusal)
        ⊎ Tells (seen E.contents errors.old errors.new) (refusal_line Refusal.OutOfMemory) }
    ensures status { result ≡ 1 }
{
    let line = fault.line;
    let number = fault.refusal.number();
    let name = fault.refusal.name();
    match format!(in alloc; "line {line}: {number} {name}\n") {
        Ok(text) => {
            let _ = write_whole(errors, text.as_bytes());
            REFUSED
        }
        Err(_) => tell(Refusal::OutOfMemory, errors),
    }
}

// Shows help, or what is wrong with the words.
fn show<O: Write, E: Write>(
    alloc: Global,
    error: &clap::Error,
    output: &mut Counted<O>,
    errors: &mut Counted<E>,
) -> u8
    ensures { (input : Device) → IsUnable (λ text. kind_of error.now ≢ ErrorKind.OutOfMemory) result (record {
      input = input;
      output = seen O.contents output.old output.new;
      errors = seen E.contents errors.old errors.new;
    }) ⊎ ((kind_of error.now ≢ ErrorKind.OutOfMemory)
        × IsShown (kind_of error.now) result (seen O.contents output.old output.new) (seen E.contents errors.old errors.new)) }
{
    if error.kind() == ErrorKind::OutOfMemory {
        return tell(Refusal::OutOfMemory, errors);
    }
    let Ok(text) = format!(in alloc; "{error}") else {
        return tell(Refusal::OutOfMemory, errors);
    };
    if error.use_stderr() {
        let _ = write_whole(errors, text.as_bytes());
        return WRONG_WORDS;
    }
    match write_whole(output, text.as_bytes()) {
        Ok(()) => DONE,
        Err(refusal) => tell(refusal, errors),
    }
}
