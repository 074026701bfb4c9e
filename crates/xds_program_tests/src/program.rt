// Worked runs of the program, over readers and writers in memory and over some that fail.
use std::alloc::Global;
use std::io;
use std::io::{ErrorKind, Read, Write};
use std::test::Fail;
use xds_cases::cases::{Outcome, hold, hold_stories, replaced, unfolded, words_of, written_out};
use xds_causes::LineFault;
use xds_frames::Counted;
use xds_program::run::{Ran, run};
use xds_program::{Drawing, answer_lines};
use xds_resource::Refusal;

// The words of a command line, the program's name first.
pub(crate) fn words(alloc: Global, given: &str) -> Result<Vec<String>, Fail> {
    let mut line = String::from_str(alloc, "xds ")?;
    line.push_str(given)?;
    Ok(words_of(alloc, line.as_str())?)
}

// The status of a run in words, or which task is handed to the caller.
fn end_of(alloc: Global, ran: &Ran) -> Result<String, Fail> {
    let task = match ran {
        Ran::Done(status) => return Ok(format!(in alloc; "{status}")?),
        Ran::Serve(_) => "serve",
        Ran::Client(_) => "client",
        Ran::Poll(_) => "poll",
        Ran::Writes(_) => "writes",
        Ran::Status(_) => "status",
        Ran::Get(_) => "get",
        Ran::Put(_) => "put",
        Ran::Delete(_) => "delete",
        Ran::Drawn(drawing) => return drawn(alloc, drawing),
    };
    Ok(String::from_str(alloc, task)?)
}

// The status of a run that draws, the file of its picture, and whether that is an image as SVG.
fn drawn(alloc: Global, drawing: &Drawing) -> Result<String, Fail> {
    let status = drawing.status;
    let file = drawing.file.as_str();
    let svg = drawing.svg.as_str();
    let is_svg = svg.starts_with("<svg ") && svg.trim_end().ends_with("</svg>");
    Ok(format!(in alloc; "{status} draws {file} {is_svg}")?)
}

/// The end of a run over words and these devices.
pub(crate) fn end_over<I: Read, O: Write, E: Write>(
    alloc: Global,
    given: &str,
    input: &mut Counted<I>,
    output: &mut Counted<O>,
    errors: &mut Counted<E>,
) -> Result<String, Fail> {
    let words = words(alloc, given)?;
    let ran = run(alloc, words.as_slice(), input, output, errors);
    let end = end_of(alloc, &ran);
    drop(ran);
    end
}

// The status of a run over the words of the first line and the input on the lines behind it, its
// output and the first line of its error output. `~` is a line feed, and `A!`, `B!` and `Q!` are lines that put the
// clusters `a` and `b` and the route `q`, and `G!` lines that put clusters in groups. An input
// whose last line is ended has the outcome on a line of its own.
pub(crate) struct Run;

impl Outcome for Run {
    fn of(alloc: Global, given: &str) -> Result<String, Fail> {
        run_of(alloc, given, false)
    }
}

// The same with its whole error output.
pub(crate) struct Whole;

impl Outcome for Whole {
    fn of(alloc: Global, given: &str) -> Result<String, Fail> {
        run_of(alloc, given, true)
    }
}

// What a run tells, with all of its error output or the first line.
fn run_of(alloc: Global, given: &str, is_whole: bool) -> Result<String, Fail> {
    let (given, input) = given.split_once('\n').ok_or("no input")?;
    let input = replaced(alloc, input, "A!", A)?;
    let input = replaced(alloc, input.as_str(), "B!", B)?;
    let input = replaced(alloc, input.as_str(), "Q!", Q)?;
    let grouped = unfolded(alloc, GROUPED)?;
    let input = replaced(alloc, input.as_str(), "G!", grouped.as_str())?;
    let input = replaced(alloc, input.as_str(), "~", "\n")?;
    let input = written_out(alloc, input.as_str())?;
    told_so(alloc, given, input.as_bytes(), is_whole)
}

fn text(bytes: &[u8]) -> Result<&str, Fail> {
    Ok(str::from_utf8(bytes).ok().ok_or("no text")?)
}

// What a run tells over these devices, with `~` for a line feed.
fn told_over(
    alloc: Global,
    given: &str,
    input: &[u8],
    output: &mut Counted<Vec<u8>>,
    errors: &mut Counted<Vec<u8>>,
    is_whole: bool,
) -> Result<String, Fail> {
    let end = end_over(alloc, given, &mut Counted::new(input), output, errors)?;
    let output = text(output.inner.as_slice())?;
    let errors = told_lines(text(errors.inner.as_slice())?, is_whole);
    let told = format!(in alloc; "{end} {output}{errors}")?;
    Ok(replaced(alloc, told.as_str(), "\n", "~")?)
}

// The status of a run over words and an input, its output and its error output, with `~` for a line
// feed.
pub(crate) fn told(alloc: Global, given: &str, input: &[u8]) -> Result<String, Fail> {
    told_so(alloc, given, input, true)
}

// The refusal that an error output begins with, its first line, or all that it tells.
fn told_lines(errors: &str, is_whole: bool) -> &str {
    if is_whole {
        return errors;
    }
    match errors.find('\n') {
        Some(0) => "",
        Some(end) => &errors[..end + 1],
        None => errors,
    }
}

fn told_so(alloc: Global, given: &str, input: &[u8], is_whole: bool) -> Result<String, Fail> {
    let mut output = Counted::new(Vec::new(alloc));
    let mut errors = Counted::new(Vec::new(alloc));
    let told = told_over(alloc, given, input, &mut output, &mut errors, is_whole);
    drop(output);
    drop(errors);
    told
}

const A: &str =
    r#"{"body":{"@type":"CDS","name":"a"},"counter":1,"name":"a","typeUrl":"CDS","writer":1}~"#;

const B: &str =
    r#"{"body":{"@type":"CDS","name":"b"},"counter":2,"name":"b","typeUrl":"CDS","writer":1}~"#;

const Q: &str =
    r#"{"body":{"@type":"RDS","name":"q"},"counter":1,"name":"q","typeUrl":"RDS","writer":1}~"#;

#[test]
fn requests_are_answered(rt: HostRuntime) -> Result<(), Fail> {
    hold_stories::<Run, HostRuntime>(
        &rt,
        r#"answer
{"typeUrl":"CDS"} => 0 {"nonce":"1","typeUrl":"CDS","versionInfo":"1.0"}~

answer
{"typeUrl":"CDS"}
 => 0 {"nonce":"1","typeUrl":"CDS","versionInfo":"1.0"}~

answer
{"node":{"id":"n","metadata":{"load":1.5}},"typeUrl":"CDS","x":[1e9]}
 => 0 {"nonce":"1","typeUrl":"CDS","versionInfo":"1.0"}~

answer
A!B!{"resourceNames":["*","b"],"typeUrl":"CDS"}
 => 0 {"nonce":"1","resources":[{"@type":"CDS","name":"a"},{"@type":"CDS","name":"b"}],
    "typeUrl":"CDS","versionInfo":"1.2"}~

answer
B!A!{"typeUrl":"CDS"}
 => 0 {"nonce":"1","resources":[{"@type":"CDS","name":"a"},{"@type":"CDS","name":"b"}],
    "typeUrl":"CDS","versionInfo":"1.2"}~

answer
A!B!{"resourceNames":["b","zz"],"typeUrl":"CDS"}
 => 0 {"nonce":"1","resources":[{"@type":"CDS","name":"b"}],"typeUrl":"CDS",
    "versionInfo":"1.2.named"}~

answer
A!A!A!{"resourceNames":["a"],"typeUrl":"CDS"}
 => 0 {"nonce":"1","resources":[{"@type":"CDS","name":"a"}],"typeUrl":"CDS",
    "versionInfo":"1.1.named"}~

answer
{"resourceNames":["q"],"typeUrl":"RDS"} => 0 

answer
Q!{"typeUrl":"RDS"}
 => 0 

answer
Q!A!{"resourceNames":["*","q"],"typeUrl":"RDS"}
 => 0 {"nonce":"1","resources":[{"@type":"RDS","name":"q"}],"typeUrl":"RDS",
    "versionInfo":"1.1.named"}~

answer
A!{"typeUrl":"type.googleapis.com/x"}
 => 0 

answer
{"body":{"@type":"EDS","cluster_name":"x","clusterName":"e"},"counter":1,"name":"e",
    "typeUrl":"EDS","writer":1}
{"resource_names":["e"],"type_url":"EDS"}
 => 0 {"nonce":"1","resources":[{"@type":"EDS","clusterName":"e","cluster_name":"x"}],
    "typeUrl":"EDS","versionInfo":"1.1.named"}~

answer
{"writer":1,"typeUrl":"LDS","name":"\u00e9/\ud83d\ude00","counter":7,"body":{"z":"\u0001\/",
    "@type":"LDS","name":"\u00e9\/\ud83d\ude00","a":{"d":[],"c":-9223372036854775808}}}
{"typeUrl":"LDS"}
 => 0 {"nonce":"1",
    "resources":[{"@type":"LDS","a":{"c":-9223372036854775808,"d":[]},"name":"é/😀","z":"\u0001/"}],
    "typeUrl":"LDS","versionInfo":"1.1"}~"#,
    )
}

// rule: greatest-write
#[test]
fn the_greatest_write_of_a_name_stands(rt: HostRuntime) -> Result<(), Fail> {
    hold_stories::<Run, HostRuntime>(
        &rt,
        r#"answer
{"body":{"@type":"CDS","name":"a","x":1},"counter":1,"name":"a","typeUrl":"CDS","writer":1}
{"body":{"@type":"CDS","name":"a","x":2},"counter":1,"name":"a","typeUrl":"CDS","writer":2}
B!{"counter":3,"name":"b","typeUrl":"CDS","writer":1}
{"typeUrl":"CDS"}
 => 0 {"nonce":"1","resources":[{"@type":"CDS","name":"a","x":2}],"typeUrl":"CDS",
    "versionInfo":"1.4"}~

answer
A!{"counter":1,"name":"a","typeUrl":"CDS","writer":1}
{"typeUrl":"CDS"}
 => 0 {"nonce":"1","resources":[{"@type":"CDS","name":"a"}],"typeUrl":"CDS","versionInfo":"1.1"}~

answer
{"body":{"@type":"CDS","name":"a","x":9},"counter":1,"name":"a","typeUrl":"CDS","writer":1}
{"body":{"@type":"CDS","name":"a","x":10},"counter":1,"name":"a","typeUrl":"CDS","writer":1}
{"typeUrl":"CDS"}
 => 0 {"nonce":"1","resources":[{"@type":"CDS","name":"a","x":9}],"typeUrl":"CDS",
    "versionInfo":"1.1"}~"#,
    )
}

// Clusters `a` in the group g1, `b` in none, and `c` in the group g2.
const GROUPED: &str = r#"{"body":{"@type":"CDS","name":"a"},"counter":1,"groups":["g1"],"name":"a",
    "typeUrl":"CDS","writer":1}~
    {"body":{"@type":"CDS","name":"b"},"counter":2,"name":"b","typeUrl":"CDS","writer":1}~
    {"body":{"@type":"CDS","name":"c"},"counter":3,"groups":["g2"],"name":"c",
    "typeUrl":"CDS","writer":1}~"#;

// rule: star-covers, rule: groups
#[test]
fn the_star_covers_what_is_open_to_the_cluster(rt: HostRuntime) -> Result<(), Fail> {
    hold_stories::<Run, HostRuntime>(
        &rt,
        r#"answer
G!{"node":{"cluster":"g1"},"typeUrl":"CDS"}
 => 0 {"nonce":"1","resources":[{"@type":"CDS","name":"a"},{"@type":"CDS","name":"b"}],
    "typeUrl":"CDS","versionInfo":"1.3@g1"}~

answer
G!{"node":{"cluster":"g1","id":"n"},"resourceNames":["*"],"typeUrl":"CDS"}
 => 0 {"nonce":"1","resources":[{"@type":"CDS","name":"a"},{"@type":"CDS","name":"b"}],
    "typeUrl":"CDS","versionInfo":"1.3@g1"}~

answer
G!{"typeUrl":"CDS"}
 => 0 {"nonce":"1","resources":[{"@type":"CDS","name":"b"}],"typeUrl":"CDS","versionInfo":"1.3"}~

answer
G!{"node":{"cluster":"","id":"g1"},"typeUrl":"CDS"}
 => 0 {"nonce":"1","resources":[{"@type":"CDS","name":"b"}],"typeUrl":"CDS","versionInfo":"1.3"}~

answer
G!{"node":{"cluster":"g3"},"typeUrl":"CDS"}
 => 0 {"nonce":"1","resources":[{"@type":"CDS","name":"b"}],"typeUrl":"CDS","versionInfo":"1.3@g3"}~

answer
G!{"node":{"cluster":"g1"},"resourceNames":["c"],"typeUrl":"CDS"}
 => 0 {"nonce":"1","resources":[{"@type":"CDS","name":"c"}],"typeUrl":"CDS",
    "versionInfo":"1.3.named"}~

answer --replica 7
G!{"node":{"cluster":"g1"},"resourceNames":["*","c"],"typeUrl":"CDS"}
 => 0 {"nonce":"1","resources":[{"@type":"CDS","name":"a"},{"@type":"CDS","name":"b"},
    {"@type":"CDS","name":"c"}],"typeUrl":"CDS","versionInfo":"7.3@g1"}~

answer
{"body":{"@type":"CDS","name":"a"},"counter":1,"groups":["z","g1","z"],"name":"a",
    "typeUrl":"CDS","writer":1}
{"node":{"cluster":"z"},"typeUrl":"CDS"}
 => 0 {"nonce":"1","resources":[{"@type":"CDS","name":"a"}],"typeUrl":"CDS","versionInfo":"1.1@z"}~

answer
{"body":{"@type":"CDS","name":"a"},"counter":1,"groups":null,"name":"a","typeUrl":"CDS","writer":1}
{"counter":1,"groups":[],"name":"b","typeUrl":"CDS","writer":1}
{"typeUrl":"CDS"}
 => 0 {"nonce":"1","resources":[{"@type":"CDS","name":"a"}],"typeUrl":"CDS","versionInfo":"1.2"}~

answer
{"body":{"@type":"CDS","name":"a"},"counter":1,"groups":["g1","g2"],"name":"a",
    "typeUrl":"CDS","writer":1}
{"body":{"@type":"CDS","name":"a"},"counter":1,"groups":["g2"],"name":"a",
    "typeUrl":"CDS","writer":1}
{"body":{"@type":"CDS","name":"a"},"counter":1,"groups":["g1","g9"],"name":"a",
    "typeUrl":"CDS","writer":1}
{"node":{"cluster":"g2"},"typeUrl":"CDS"}
 => 0 {"nonce":"1","resources":[{"@type":"CDS","name":"a"}],"typeUrl":"CDS","versionInfo":"1.2@g2"}~

answer
{"body":{"@type":"CDS","name":"a"},"counter":1,"groups":[""],"name":"a","typeUrl":"CDS","writer":1}
{"typeUrl":"CDS"}
 => 1 line 1: 7 BadMessage~

answer
{"body":{"@type":"CDS","name":"a"},"counter":1,"groups":"g1","name":"a","typeUrl":"CDS","writer":1}
{"typeUrl":"CDS"}
 => 1 line 1: 7 BadMessage~

answer
{"counter":1,"groups":["g1"],"name":"a","typeUrl":"CDS","writer":1}
{"typeUrl":"CDS"}
 => 1 line 1: 7 BadMessage~"#,
    )
}

// rule: star-covers
#[test]
fn secrets_are_answered_by_name(rt: HostRuntime) -> Result<(), Fail> {
    hold_stories::<Run, HostRuntime>(
        &rt,
        r#"answer
{"body":{"@type":"SDS","name":"s"},"counter":1,"name":"s","typeUrl":"SDS","writer":1}
{"resourceNames":["s"],"typeUrl":"SDS"}
 => 0 {"nonce":"1","resources":[{"@type":"SDS","name":"s"}],"typeUrl":"SDS",
    "versionInfo":"1.1.named"}~

answer
{"body":{"@type":"SDS","name":"s"},"counter":1,"name":"s","typeUrl":"SDS","writer":1}
{"typeUrl":"SDS"}
 => 0 "#,
    )
}

#[test]
fn the_first_bad_line_is_told(rt: HostRuntime) -> Result<(), Fail> {
    let alloc = rt.alloc();
    let fault = answer_lines(alloc, 1, b"{\"a\":\"\xff\"}\n").err();
    assert_eq!(rt;
        fault,
        Some(LineFault {
            line: 1,
            refusal: Refusal::NotJson
        })
    );
    hold_stories::<Run, HostRuntime>(
        &rt,
        r#"answer
 => 1 line 1: 1 NotJson~

answer
~
     => 1 line 1: 1 NotJson~

answer
{}
 => 1 line 1: 7 BadMessage~

answer
[] => 1 line 1: 7 BadMessage~

answer
{"counter":0,"name":"b","typeUrl":"CDS","writer":1}
{"typeUrl":"CDS"} => 1 line 1: 7 BadMessage~

answer
{"counter":1,"name":"b","typeUrl":"CDS","writer":1}~
{"typeUrl":"CDS"}
 => 1 line 2: 1 NotJson~

answer
{"counter":1,"name":"b","typeUrl":"CDS","writer":1}
{"typeUrl":"CDS"}~
 => 1 line 2: 7 BadMessage~

answer
{"body":{"@type":"CDS","name":"b"},"counter":1,"name":"a","typeUrl":"CDS","writer":1}
{"typeUrl":"CDS"}
 => 1 line 1: 7 BadMessage~

answer
{"body":{"@type":"CDS","name":"a","x":1.5},"counter":1,"name":"a","typeUrl":"CDS","writer":1}
{"typeUrl":"CDS"}
 => 1 line 1: 7 BadMessage~"#,
    )
}

#[test]
fn right_words_name_the_replica(rt: HostRuntime) -> Result<(), Fail> {
    hold_stories::<Run, HostRuntime>(
        &rt,
        r#"answer --
{"typeUrl":"CDS"}
 => 0 {"nonce":"1","typeUrl":"CDS","versionInfo":"1.0"}~

answer --replica 7
{"typeUrl":"CDS"}
 => 0 {"nonce":"1","typeUrl":"CDS","versionInfo":"7.0"}~

answer --replica 65535
{"typeUrl":"CDS"}
 => 0 {"nonce":"1","typeUrl":"CDS","versionInfo":"65535.0"}~

answer --replica=65535
{"typeUrl":"CDS"}
 => 0 {"nonce":"1","typeUrl":"CDS","versionInfo":"65535.0"}~

answer --replica=+7 --
{"typeUrl":"CDS"}
 => 0 {"nonce":"1","typeUrl":"CDS","versionInfo":"7.0"}~

answer --replica 007 --
{"typeUrl":"CDS"}
 => 0 {"nonce":"1","typeUrl":"CDS","versionInfo":"7.0"}~"#,
    )
}

// Where a run over words and no answer tells something, its status, and how much of the input it
// left.
struct Aside;

impl Outcome for Aside {
    fn of(alloc: Global, given: &str) -> Result<String, Fail> {
        let mut output = Counted::new(Vec::new(alloc));
        let mut errors = Counted::new(Vec::new(alloc));
        let told = told_aside(alloc, given, &mut output, &mut errors);
        drop(output);
        drop(errors);
        told
    }
}

fn told_aside(
    alloc: Global,
    given: &str,
    output: &mut Counted<Vec<u8>>,
    errors: &mut Counted<Vec<u8>>,
) -> Result<String, Fail> {
    let mut input = Counted::new(b"{}".as_slice());
    let end = end_over(alloc, given, &mut input, output, errors)?;
    let output = text(output.inner.as_slice())?;
    let shown = if output.contains("Usage: ") {
        "help"
    } else {
        output
    };
    let told = if errors.inner.is_empty() { "" } else { "fault" };
    let left = input.inner.len();
    Ok(format!(in alloc; "{shown}{told} {end} {left}")?)
}

#[test]
fn other_words_are_told_before_any_input(rt: HostRuntime) -> Result<(), Fail> {
    hold::<Aside, HostRuntime>(
        &rt,
        " => fault 2 2
play extra => fault 2 2
play -- extra => fault 2 2
play --replica 1 => fault 2 2
play -x => fault 2 2
play play => fault 2 2
-- play => fault 2 2
-- answer => fault 2 2
--replica 1 answer => fault 2 2
help nothing => fault 2 2
answer extra => fault 2 2
answer -- extra => fault 2 2
answer -x => fault 2 2
answer --replica => fault 2 2
answer --replica 0 => fault 2 2
answer --replica 65536 => fault 2 2
answer --replica x => fault 2 2
answer --replica= => fault 2 2
answer --replica=0 => fault 2 2
answer --replica=-1 => fault 2 2
answer --replica 1 --replica 2 => fault 2 2
answer --replica=1 --replica => fault 2 2
-h => help 0 2
--help => help 0 2
help => help 0 2
help answer => help 0 2
answer -h => help 0 2
answer --help => help 0 2
play --help => help 0 2
help play => help 0 2
help check => help 0 2
check extra => fault 2 2
play --trace 0 => fault 2 2
serve --help => help 0 2
client --port 1 => fault 2 2
serve --port 65535 => fault 2 2
poll --addr here --type cluster => fault 2 2",
    )
}

// The status of a run over words, and what its help says behind the options: its examples, each by
// its first line with `from` for `<`, and the statuses. A line of more than 80 columns is told too,
// but for the usage that `clap` makes.
struct Helped;

// Adds the status of a line, or the line where it is wide. A line that goes on one before it begins
// with five spaces, and has none.
fn add_status(said: &mut String, line: &str) -> Result<(), Fail> {
    if line.chars().count() > 80 {
        said.push_str(" ")?;
        said.push_str(line)?;
        return Ok(());
    }
    if line.starts_with("     ") {
        return Ok(());
    }
    if let Some(status) = line.split_whitespace().next() {
        said.push_str(" ")?;
        said.push_str(status)?;
    }
    Ok(())
}

impl Outcome for Helped {
    fn of(alloc: Global, given: &str) -> Result<String, Fail> {
        let told = told(alloc, given, b"")?;
        let (end, help) = told.as_str().split_once(' ').ok_or("no end")?;
        let (help, statuses) = help.split_once("Statuses:~").ok_or("no statuses")?;
        let mut said = String::from_str(alloc, end)?;
        for line in help.split('~') {
            let is_wide = line.chars().count() > 80 && !line.starts_with("Usage: ");
            if is_wide || line.starts_with("  ./xds ") {
                said.push_str(" |")?;
                said.push_str(line)?;
            }
        }
        said.push_str(" |")?;
        for line in statuses.split('~') {
            add_status(&mut said, line)?;
        }
        Ok(replaced(alloc, said.as_str(), " < ", " from ")?)
    }
}

#[test]
fn help_has_examples_and_statuses(rt: HostRuntime) -> Result<(), Fail> {
    hold::<Helped, HostRuntime>(
        &rt,
        r"--help => 0 |  ./xds check from examples/mesh_broken.trace | 0 1 2 3
answer --help => 0 |  ./xds answer from examples/clusters.jsonl | 0 1 2
play --help => 0 |  ./xds play from examples/mesh.script
     |  ./xds play --trace 2 from examples/mesh.script > mesh.trace | 0 1 2
check --help => 0 |  ./xds check from examples/mesh_broken.trace | 0 1 2
serve --help => 0 |  ./xds serve from examples/mesh.serve | 0 1 2
client --help => 0 |  ./xds client --addr 127.0.0.1:18001 --variant delta \ | 0 1 2
poll --help => 0 |  ./xds poll --addr 127.0.0.1:18101 --type route shop | 0 1 2
help poll => 0 |  ./xds poll --addr 127.0.0.1:18101 --type route shop | 0 1 2
status --help => 0 |  ./xds status --addr 127.0.0.1:18200 | 0 1 2
get --help => 0 |  ./xds get --addr 127.0.0.1:18200 --type cluster checkout | 0 1 2
put --help => 0 |  ./xds put --addr 127.0.0.1:18200 from examples/mesh.serve | 0 1 2
delete --help => 0 |  ./xds delete --addr 127.0.0.1:18200 --type cluster checkout | 0 1 2
writes --help => 0 |  ./xds writes --store mesh.db | 0 1 2",
    )
}

#[test]
fn tasks_of_a_network_are_handed_on(rt: HostRuntime) -> Result<(), Fail> {
    hold::<Aside, HostRuntime>(
        &rt,
        "serve =>  serve 2
client --addr 127.0.0.1:18000 --variant delta --type route --responses 1 q =>  client 2
poll --addr 127.0.0.1:18100 --type cluster =>  poll 2
get --addr 127.0.0.1:18200 =>  get 2
put --addr 127.0.0.1:18200 =>  put 2
delete --addr 127.0.0.1:18200 --type cluster a =>  delete 2",
    )
}

// A reader that fails, and a writer that takes some bytes, one a call, and then fails.
#[derive(Drop)]
struct Faulty {
    taken: Vec<u8>,
    most: usize,
}

// A writer that takes all and can't flush.
#[derive(Drop)]
struct Stuck;

impl Write for Stuck {
    fn write(&mut self, buf: &[u8]) -> io::Result<usize> {
        Ok(buf.len())
    }

    fn flush(&mut self) -> io::Result<()> {
        Err(io::Error::from(ErrorKind::Other))
    }
}

impl Read for Faulty {
    fn read(&mut self, _buf: &mut [u8]) -> io::Result<usize> {
        Err(io::Error::from(ErrorKind::Other))
    }
}

impl Write for Faulty {
    fn write(&mut self, buf: &[u8]) -> io::Result<usize> {
        if self.taken.len() >= self.most {
            return Err(io::Error::from(ErrorKind::Other));
        }
        match buf.first() {
            Some(byte) => {
                self.taken.push(*byte)?;
                Ok(1)
            }
            None => Ok(0),
        }
    }

    fn flush(&mut self) -> io::Result<()> {
        Ok(())
    }
}

fn failing_after(alloc: Global, most: usize) -> Faulty {
    Faulty {
        taken: Vec::new(alloc),
        most,
    }
}

// A writer that tells what it took, if it kept it.
trait Sink: Write + Drop {
    fn taken(&self) -> &[u8];
}

impl Sink for Vec<u8> {
    fn taken(&self) -> &[u8] {
        self.as_slice()
    }
}

impl Sink for Faulty {
    fn taken(&self) -> &[u8] {
        self.taken.as_slice()
    }
}

impl Sink for Stuck {
    fn taken(&self) -> &[u8] {
        b"".as_slice()
    }
}

// What a run tells over these devices: its end, what was written to the two, and how many calls of
// each failed.
fn told_of<I: Read, O: Sink, E: Sink>(
    alloc: Global,
    input: &mut Counted<I>,
    output: &mut Counted<O>,
    errors: &mut Counted<E>,
) -> Result<String, Fail> {
    let end = end_over(alloc, "answer", input, output, errors)?;
    let (unread, unwritten, untold) = (input.failed, output.failed, errors.failed);
    let output = text(output.inner.taken())?;
    let errors = text(errors.inner.taken())?;
    let told = format!(in alloc; "{end} ({output}) ({errors}) {unread} {unwritten} {untold}")?;
    Ok(replaced(alloc, told.as_str(), "\n", "~")?)
}

// The same, over new ones.
fn told_of_new<I: Read + Drop, O: Sink, E: Sink>(
    alloc: Global,
    input: I,
    output: O,
    errors: E,
) -> Result<String, Fail> {
    let mut input = Counted::new(input);
    let mut output = Counted::new(output);
    let mut errors = Counted::new(errors);
    let told = told_of(alloc, &mut input, &mut output, &mut errors);
    drop(input);
    drop(output);
    drop(errors);
    told
}

const REQUEST: &[u8] = b"{\"typeUrl\":\"type.googleapis.com/envoy.config.cluster.v3.Cluster\"}\n";

// Which device fails: the reader, the output after some bytes, the output where it is flushed, or
// the error output.
struct Failing;

impl Outcome for Failing {
    fn of(alloc: Global, given: &str) -> Result<String, Fail> {
        let kept = Vec::new(alloc);
        match given {
            "reader" => told_of_new(alloc, failing_after(alloc, 0), Vec::new(alloc), kept),
            "writer" => told_of_new(alloc, REQUEST, failing_after(alloc, 8), kept),
            "flush" => told_of_new(alloc, REQUEST, Stuck, kept),
            _ => told_of_new(alloc, b"".as_slice(), kept, failing_after(alloc, 4)),
        }
    }
}

#[test]
fn failing_devices_are_told(rt: HostRuntime) -> Result<(), Fail> {
    hold::<Failing, HostRuntime>(
        &rt,
        r#"reader => 1 () (19 Device~the standard input can't be read~) 1 0 0
writer => 1 ({"nonce") (19 Device~the standard output can't be written~) 0 1 0
flush => 1 () (19 Device~the standard output can't be written~) 0 1 0
errors => 1 () (line) 0 0 2"#,
    )
}

// A writer that takes nothing.
#[derive(Drop)]
struct Full;

impl Write for Full {
    fn write(&mut self, _buf: &[u8]) -> io::Result<usize> {
        Ok(0)
    }

    fn flush(&mut self) -> io::Result<()> {
        Ok(())
    }
}

#[test]
fn a_write_that_takes_nothing_has_failed(rt: HostRuntime) -> Result<(), Fail> {
    let mut writer = Counted::new(Full);
    assert!(rt; writer.write(b"a").is_err());
    assert!(rt; writer.write(b"").is_ok());
    assert!(rt; writer.flush().is_ok());
    assert_eq!(rt; writer.failed, 1);
    Ok(())
}
