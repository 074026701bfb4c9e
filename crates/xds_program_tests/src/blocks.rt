// Answers that are longer than what is written at once, over inputs that are let go of as they are
// read.
use crate::program::{end_over, told};
use std::alloc::Global;
use std::io;
use std::io::{ErrorKind, Write};
use std::test::Fail;
use xds_cases::cases::{Outcome, hold, replaced};
use xds_frames::Counted;
use xds_program::answer_lines;
use xds_resource::TypeName;

fn filler_of(alloc: Global, bytes: usize) -> Result<String, Fail> {
    let mut filler = String::new(alloc);
    for _ in 0..bytes {
        filler.push_str("y")?;
    }
    Ok(filler)
}

// Adds a line that puts a cluster with this number and a text.
fn push_line(alloc: Global, input: &mut String, line: usize, filler: &str) -> Result<(), Fail> {
    let url = TypeName::Cluster.url();
    let body = format!(in alloc; r#"{{"@type":"{url}","name":"n{line}","x":"{filler}"}}"#)?;
    let text = format!(in alloc;
        r#"{{"body":{body},"counter":{line},"name":"n{line}","typeUrl":"{url}","writer":1}}"#
    )?;
    input.push_str(text.as_str())?;
    Ok(input.push_str("\n")?)
}

// So many lines, each of which puts a cluster with a text of so many bytes, and a request for all
// of them.
fn input_of(alloc: Global, lines: usize, bytes: usize) -> Result<String, Fail> {
    let filler = filler_of(alloc, bytes)?;
    let mut input = String::new(alloc);
    for line in 1..=lines {
        push_line(alloc, &mut input, line, filler.as_str())?;
    }
    input.push_str("{\"typeUrl\":\"type.googleapis.com/envoy.config.cluster.v3.Cluster\"}\n")?;
    Ok(input)
}

fn number(text: &str) -> Result<usize, Fail> {
    Ok(text.parse::<usize>().ok().ok_or("number")?)
}

// The lines and the bytes of a text that a case names.
fn numbers(given: &str) -> Result<(usize, usize), Fail> {
    let (lines, bytes) = given.split_once(' ').ok_or("no bytes")?;
    Ok((number(lines)?, number(bytes)?))
}

// For so many clusters with a text of so many bytes: how long the answer is, and whether it is the
// text of the whole answer.
struct Long;

impl Outcome for Long {
    fn of(alloc: Global, given: &str) -> Result<String, Fail> {
        let (lines, bytes) = numbers(given)?;
        let input = input_of(alloc, lines, bytes)?;
        let written = told(alloc, "answer", input.as_bytes())?;
        let whole = whole_of(alloc, input.as_str())?;
        let (length, same) = (written.as_str().len(), written.as_str() == whole.as_str());
        Ok(format!(in alloc; "{length} {same}")?)
    }
}

// What a run tells that writes the text of the whole answer.
fn whole_of(alloc: Global, input: &str) -> Result<String, Fail> {
    let Ok(answer) = answer_lines(alloc, 1, input.as_bytes()) else {
        return Ok(String::from_str(alloc, "refused")?);
    };
    let answer = String::from_utf8(answer).ok().ok_or("answer")?;
    let told = format!(in alloc; "0 {answer}")?;
    Ok(replaced(alloc, told.as_str(), "\n", "~")?)
}

#[test]
fn long_answers_are_written_in_blocks(rt: HostRuntime) -> Result<(), Fail> {
    hold::<Long, HostRuntime>(
        &rt,
        r#"0 0 => 100 true
1 0 => 197 true
1 65535 => 65732 true
3 65536 => 196971 true
700 10 => 66508 true
2 200000 => 400280 true
300 400 => 145508 true"#,
    )
}

// A writer that takes a call whole, up to one that fails.
#[derive(Drop)]
struct Calls {
    taken: Vec<u8>,
    left: usize,
}

impl Write for Calls {
    fn write(&mut self, buf: &[u8]) -> io::Result<usize> {
        if self.left == 0 {
            return Err(io::Error::from(ErrorKind::Other));
        }
        self.left -= 1;
        self.taken.extend_from_slice(buf)?;
        Ok(buf.len())
    }

    fn flush(&mut self) -> io::Result<()> {
        Ok(())
    }
}

// For so many clusters with a text of so many bytes, over a writer of which so many calls are
// taken: the status, how many bytes were taken, and whether these are a beginning of the whole
// answer.
struct Cut;

impl Outcome for Cut {
    fn of(alloc: Global, given: &str) -> Result<String, Fail> {
        let (calls, given) = given.split_once(' ').ok_or("no calls")?;
        let (lines, bytes) = numbers(given)?;
        cut_after(
            alloc,
            number(calls)?,
            input_of(alloc, lines, bytes)?.as_bytes(),
        )
    }
}

fn cut_after(alloc: Global, calls: usize, input: &[u8]) -> Result<String, Fail> {
    let mut output = Counted::new(Calls {
        taken: Vec::new(alloc),
        left: calls,
    });
    let told = told_of_calls(alloc, input, &mut output);
    drop(output);
    told
}

fn told_of_calls(alloc: Global, input: &[u8], output: &mut Counted<Calls>) -> Result<String, Fail> {
    let mut errors = Counted::new(Vec::new(alloc));
    let end = end_over(
        alloc,
        "answer",
        &mut Counted::new(input),
        output,
        &mut errors,
    );
    drop(errors);
    let end = end?;
    let Ok(whole) = answer_lines(alloc, 1, input) else {
        return Ok(String::from_str(alloc, "refused")?);
    };
    let taken = output.inner.taken.as_slice();
    let (length, begins) = (taken.len(), whole.as_slice().starts_with(taken));
    Ok(format!(in alloc; "{end} {length} {begins}")?)
}

#[test]
fn a_writer_that_fails_has_a_beginning(rt: HostRuntime) -> Result<(), Fail> {
    hold::<Cut, HostRuntime>(
        &rt,
        r#"0 3 70000 => 1 0 true
1 3 70000 => 1 26 true
2 3 70000 => 1 70108 true
9 3 70000 => 0 210361 true
1 1000 100 => 1 65477 true
9 1000 100 => 0 185008 true"#,
    )
}
