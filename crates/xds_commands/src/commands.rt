// A run of the program with a network beside it.
ghost use Rattle.std.specs.Prelude.{◌≡◌, ◌≤◌, option_map, string_bytes};
ghost use Rattle.xds_frames.specs.Devices.{seen};
ghost use Rattle.xds_tools.specs.Ends.{GoesOn};
ghost use Rattle.xds_commands.specs.Servings.{serving_of};

use std::fs::File;
use std::io::{Read, Write};
use std::net::{Net, SocketAddrV4, TcpListener, TcpStream};
use std::rt::Files;
use xds_frames::Counted;
use xds_http::Connects;
use xds_machine::machine::{Machine, Runtime};
use xds_program::run::Ran;
use xds_program::{ServeTask, ServeWords};
use xds_server::{ServeFiles, Serving, serve};
use xds_tools::asking::{delete_names, print_resources, print_status, put_changes};
use xds_tools::drawing::draw;
use xds_tools::polling::poll_once;
use xds_tools::progress::ProgressReader;
use xds_tools::watching::watch;
use xds_tools::writes::print_writes;

/// Runs the program with these words, the first of which is its name, and answers the status. The words are looked
/// at before any input, and before any connection. A server takes the input in a thread of its own, and its threads go
/// on until the process ends. Where there is a terminal, a thread tells there how far a run is that works on its input
/// itself: beside what the run writes on the error output, and until the run is done. Where the error output is given once more, as a
/// teller, a thread of a server tells on it, and no end of the server waits for who reads it.
pub fn run<R, I, O, E, P, T>(
    rt: &R,
    words: &[String],
    input: I,
    output: &mut Counted<O>,
    errors: &mut Counted<E>,
    terminal: Option<P>,
    teller: Option<T>,
) -> u8
where
    R: Runtime + Net<Listener = TcpListener, Stream = TcpStream> + Files<File = File>,
    I: Read + Drop + Send + 'static,
    O: Write,
    E: Write,
    P: Write + Drop + Send + 'static,
    T: Write + Drop + Send + 'static,
{
    let is_terminal = terminal.is_some();
    let mut input = Counted::new(ProgressReader::start(rt, input, terminal));
    let ran = xds_program::run::run(rt.alloc(), words, &mut input, output, errors);
    let input = input.inner.finish();
    go_on(rt, ran, input, output, errors, teller, is_terminal)
}

// Does what is left to do of a run.
fn go_on<R, I, O, E, T>(
    rt: &R,
    ran: Ran,
    input: I,
    output: &mut Counted<O>,
    errors: &mut Counted<E>,
    teller: Option<T>,
    is_terminal: bool,
) -> u8
where
    R: Machine + Files<File = File>,
    I: Read + Drop + Send + 'static,
    O: Write,
    E: Write,
    T: Write + Drop + Send + 'static,
    ensures { GoesOn ran result (seen O.contents output.old output.new) (seen E.contents errors.old errors.new) }
{
    match ran {
        Ran::Done(status) => status,
        Ran::Poll(task) => poll_once(rt, &Connects, task, output, errors),
        Ran::Client(task) => watch(rt, &task, output, errors),
        Ran::Writes(task) => print_writes(rt, &task, output, errors),
        Ran::Status(task) => print_status(rt, &task, output, errors),
        Ran::Get(task) => print_resources(rt, &task, output, errors),
        Ran::Put(task) => put_changes(rt, &task, input, output, errors),
        Ran::Delete(task) => delete_names(rt, &task, output, errors),
        Ran::Drawn(drawing) => draw(rt, rt.alloc(), &drawing, errors),
        Ran::Serve(words) => serve_words(rt, words, input, errors, teller, is_terminal),
    }
}

// A server of these words, until it ends.
fn serve_words<R, I, E, T>(
    rt: &R,
    words: ServeWords,
    input: I,
    errors: &mut Counted<E>,
    teller: Option<T>,
    is_terminal: bool,
) -> u8
where
    R: Machine + Files<File = File>,
    I: Read + Drop + Send + 'static,
    E: Write,
    T: Write + Drop + Send + 'static,
    ensures { result ≤ 1 }
{
    let serving = serving_of(
        words.task,
        words.first_number,
        words.hold,
        words.log_json,
        words.lint,
        words.refuse_beyond_frame,
        is_terminal,
    );
    serve(rt, input, errors, teller, serving, files_in(&words))
}

// The names of a server's files.
fn files_in(words: &ServeWords) -> ServeFiles<'_>
    ensures record { option_map (λ f. f.now) result.record ≡ words.now.folder }
    ensures load { option_map (λ f. f.now) result.load ≡ words.now.load }
    ensures store { option_map (λ f. f.now) result.store ≡ words.now.store }
    ensures writes { option_map (λ f. f.now) result.writes ≡ words.now.writes }
    ensures from { option_map (λ f. f.now) result.from ≡ words.now.from_folder }
    ensures token { option_map (λ f. f.now) result.token ≡ words.now.admin_token }
    ensures checker { result.checker ≡ option_map (λ a. (a, words.now.pass_unvalidated)) words.now.validate }
{
    ServeFiles {
        record: text_in(&words.folder),
        load: text_in(&words.load),
        store: text_in(&words.store),
        writes: text_in(&words.writes),
        from: text_in(&words.from_folder),
        token: text_in(&words.admin_token),
        checker: checker_in(words.validate, words.pass_unvalidated),
    }
}

// The address of a checker, if there is one, and whether resources are taken where it is away.
fn checker_in(addr: Option<SocketAddrV4>, passes: bool) -> Option<(SocketAddrV4, bool)>
    ensures { result ≡ option_map (λ a. (a, passes)) addr }
{
    match addr {
        Some(addr) => Some((addr, passes)),
        None => None,
    }
}

// A text, if there is one.
fn text_in(text: &Option<String>) -> Option<&str>
    ensures { option_map (λ t. t.now) result ≡ option_map string_bytes text.now }
{
    match text {
        Some(text) => Some(text.as_str()),
        None => None,
    }
}

// What the server is asked for. At a terminal it tells refused changes.
fn serving_of(
    task: ServeTask,
    first_number: Option<u16>,
    hold: bool,
    log_json: bool,
    lint: bool,
    refuse_long: bool,
    is_terminal: bool,
) -> Serving
    ensures { result ≡ serving_of task first_number hold log_json lint refuse_long is_terminal }
{
    Serving {
        first_number,
        replicas: task.replicas,
        port: task.port,
        rest_port: task.rest_port,
        streams: task.streams,
        workers: task.workers,
        keep_going: task.keep_going,
        tells: is_terminal,
        logs: task.log || log_json,
        logs_json: log_json,
        max_streams: task.max_streams,
        idle_seconds: task.idle_seconds,
        admin_port: task.admin_port,
        hold,
        lint,
        refuse_long,
    }
}
