// The command line of `xds`, as `clap` is told of it.
ghost use Rattle.std.specs.Prelude.{◌≡◌, false, IfOk, codes};
ghost use Rattle.clap.specs.Words.{App, app_of, new_app, rule_of, with_rule, with_subcommand};
ghost use Rattle.xds_program.specs.CommandLine.{IsCommand, IsLocal, IsOption, answer_command, asking_command, check_command};
ghost use Rattle.xds_program.specs.CommandLine.{client_command, client_start, delete_command, flag_option, get_command, poll_start};
ghost use Rattle.xds_program.specs.CommandLine.{port_option, put_command, rest_port_option, serve_begun, serve_start, serve_told, workers_option};
ghost use Rattle.xds_program.specs.CommandLine.{command_line, first_commands, name_words, number_option, play_command, serving_commands};
ghost use Rattle.xds_program.specs.CommandLine.{poll_command, replicas_option, required, serve_command, text_option};
ghost use Rattle.xds_program.specs.CommandLine.{status_command, with_default, wanting_command, writes_command};

use crate::help;
use clap::{Arg, ArgAction, Command, value_parser};
use std::alloc::{AllocError, Global};
use xds_stats::VERSION;

// What `--addr` of a client says.
const SERVES_AT: &str = "Where a replica serves, as in 127.0.0.1:18000";

// `xds`, with its commands.
pub(crate) fn command_line<'a>(alloc: Global) -> Result<Command<'a>, AllocError>
    ensures { IfOk result (IsCommand command_line) }
{
    let xds = serving_commands(alloc)?;
    let xds = with_command(xds, writes_command(alloc))?;
    let xds = with_command(xds, status_command(alloc))?;
    let xds = with_command(xds, get_command(alloc))?;
    let xds = with_command(xds, put_command(alloc))?;
    with_command(xds, delete_command(alloc))
}

// `xds`, with those commands, and those that serve and that ask a replica.
fn serving_commands<'a>(alloc: Global) -> Result<Command<'a>, AllocError>
    ensures { IfOk result (IsCommand serving_commands) }
{
    let xds = first_commands(alloc)?;
    let xds = with_command(xds, serve_command(alloc))?;
    let xds = with_command(xds, client_command(alloc))?;
    with_command(xds, poll_command(alloc))
}

// `xds`, with the commands that use no device but the program's own.
fn first_commands<'a>(alloc: Global) -> Result<Command<'a>, AllocError>
    ensures { IfOk result (IsCommand first_commands) }
{
    let xds = with_command(wanting_command(alloc), answer_command(alloc))?;
    let xds = with_command(xds, play_command(alloc))?;
    with_command(xds, check_command(alloc))
}

// `xds`, which wants a command.
fn wanting_command<'a>(alloc: Global) -> Command<'a>
    ensures { IsCommand wanting_command result }
{
    Command::new(alloc, "xds")
        .about("A replicated control plane of Envoy's xDS protocol")
        .after_help(help::PROGRAM)
        .version(VERSION)
        .subcommand_required(true)
}

fn answer_command<'a>(alloc: Global) -> Result<Command<'a>, AllocError>
    ensures { IfOk result (IsCommand answer_command) }
{
    let answer = named(
        alloc,
        "answer",
        "Joins stamped writes and answers a discovery request",
        help::ANSWER,
    );
    let help = "The replica that answers, from 1 to 65535";
    let replica = number_option(alloc, "replica", "N", help);
    with_option(answer, with_default(replica, "1"))
}

fn play_command<'a>(alloc: Global) -> Result<Command<'a>, AllocError>
    ensures { IfOk result (IsCommand play_command) }
{
    let about = "Plays a script of replicas and clients, and prints what they show";
    let help = "Prints the trace of replica N, 1 to 65535, instead";
    let play = named(alloc, "play", about, help::PLAY);
    let play = with_option(play, number_option(alloc, "trace", "N", help))?;
    with_option(play, picture_option(alloc))
}

fn check_command<'a>(alloc: Global) -> Result<Command<'a>, AllocError>
    ensures { IfOk result (IsCommand check_command) }
{
    let about = "Checks a trace of a replica, and prints the first rule that is broken";
    let check = named(alloc, "check", about, help::CHECK);
    let help = "Judges a trace that is cut short as far as it is whole";
    let check = with_option(check, flag_option(alloc, "so-far", help))?;
    let help = "Prints why the rule is broken";
    let check = with_option(check, flag_option(alloc, "explain", help))?;
    with_option(check, picture_option(alloc))
}

// `--picture FILE`.
fn picture_option<'a>(alloc: Global) -> Arg<'a>
    ensures { IsOption (text_option (codes "picture")) result }
{
    let help = "Writes a picture of it into this file, as SVG";
    text_option(alloc, "picture", "FILE", help)
}

fn serve_command<'a>(alloc: Global) -> Result<Command<'a>, AllocError>
    ensures { IfOk result (IsCommand serve_command) }
{
    let help = "The operator's port asks for the token in this file";
    let serve = serve_begun(alloc)?;
    let serve = with_option(serve, text_option(alloc, "admin-token", "FILE", help))?;
    let help = "Logs as JSON, an object a line";
    let serve = with_option(serve, flag_option(alloc, "log-json", help))?;
    let help = "Holds the resources of this folder, and no others";
    let serve = with_option(serve, text_option(alloc, "from", "DIR", help))?;
    let help = "Tells references that lead nowhere";
    let serve = with_option(serve, flag_option(alloc, "lint", help))?;
    let help = "Asks a checker there before it takes a resource";
    let serve = with_option(serve, text_option(alloc, "validate", "ADDRESS", help))?;
    let help = "Takes a resource where the checker is away";
    let serve = with_option(serve, flag_option(alloc, "pass-unvalidated", help))?;
    let help = "Refuses puts that make a response too long";
    with_option(serve, flag_option(alloc, "refuse-beyond-frame", help))
}

// `xds serve`, with those options, and those that say what it begins with.
fn serve_begun<'a>(alloc: Global) -> Result<Command<'a>, AllocError>
    ensures { IfOk result (IsCommand serve_begun) }
{
    let help = "The first replica's number, new in each run";
    let serve = serve_told(alloc)?;
    let serve = with_option(serve, number_option(alloc, "first-number", "F", help))?;
    let help = "Makes all lines of this file before it answers";
    let serve = with_option(serve, text_option(alloc, "load", "FILE", help))?;
    let help = "Keeps all writes in this file, from run to run";
    let serve = with_option(serve, text_option(alloc, "store", "FILE", help))?;
    let help = "Begins with the stamped writes of this file";
    let serve = with_option(serve, text_option(alloc, "writes", "FILE", help))?;
    let help = "Answers nobody before a line ready or POST /ready";
    with_option(serve, flag_option(alloc, "hold", help))
}

// `xds serve`, with those options, and those that say what it tells, and to whom.
fn serve_told<'a>(alloc: Global) -> Result<Command<'a>, AllocError>
    ensures { IfOk result (IsCommand serve_told) }
{
    let help = "Tells a line that is refused, and reads on";
    let serve = serve_start(alloc)?;
    let serve = with_option(serve, flag_option(alloc, "keep-going", help))?;
    let help = "Tells what an operator cares for";
    let serve = with_option(serve, flag_option(alloc, "log", help))?;
    let help = "At most this many streams a replica";
    let serve = with_option(serve, number_option(alloc, "max-streams", "N", help))?;
    let help = "Ends a stream without a first frame after this";
    let serve = with_option(serve, number_option(alloc, "idle-seconds", "T", help))?;
    let help = "A port for who operates the server";
    let serve = with_option(serve, number_option(alloc, "admin-port", "A", help))?;
    let help = "Writes each replica's trace into this folder";
    with_option(serve, text_option(alloc, "record", "DIR", help))
}

// `xds serve`, with the options that say what is served where, for how long, and by how many threads.
fn serve_start<'a>(alloc: Global) -> Result<Command<'a>, AllocError>
    ensures { IfOk result (IsCommand serve_start) }
{
    let about = "Serves streams and REST on 127.0.0.1, each replica on its own ports";
    let help = "Ends once this many streams have ended";
    let serve = with_option(
        named(alloc, "serve", about, help::SERVE),
        replicas_option(alloc),
    )?;
    let serve = with_option(serve, port_option(alloc))?;
    let serve = with_option(serve, rest_port_option(alloc))?;
    let serve = with_option(serve, number_option(alloc, "streams", "S", help))?;
    with_option(serve, workers_option(alloc))
}

// `--workers N`.
fn workers_option<'a>(alloc: Global) -> Arg<'a>
    ensures { IsOption workers_option result }
{
    Arg::new(alloc, "workers")
        .long("workers")
        .value_name("N")
        .value_parser(value_parser!(u16).range(1..=256))
        .help("Threads for the streams of a replica, up to 256")
}

// `--replicas N`.
fn replicas_option<'a>(alloc: Global) -> Arg<'a>
    ensures { IsOption replicas_option result }
{
    Arg::new(alloc, "replicas")
        .long("replicas")
        .value_name("N")
        .value_parser(value_parser!(u16).range(1..=16))
        .default_value("2")
        .help("How many replicas serve, from 1 to 16")
}

// `--port P`.
fn port_option<'a>(alloc: Global) -> Arg<'a>
    ensures { IsOption port_option result }
{
    let help = "First stream port, one a replica";
    with_default(number_option(alloc, "port", "P", help), "18000")
}

// `--rest-port Q`.
fn rest_port_option<'a>(alloc: Global) -> Arg<'a>
    ensures { IsOption rest_port_option result }
{
    let help = "First port for REST, one a replica";
    with_default(number_option(alloc, "rest-port", "Q", help), "18100")
}

fn client_command<'a>(alloc: Global) -> Result<Command<'a>, AllocError>
    ensures { IfOk result (IsCommand client_command) }
{
    let client = client_start(alloc)?;
    let client = with_option(client, responses_option(alloc))?;
    let client = with_option(client, seconds_option(alloc))?;
    let client = with_option(client, cluster_option(alloc))?;
    with_option(client, wanted_names(alloc))
}

// `xds client`, with the options that say where it asks, how, and for what.
fn client_start<'a>(alloc: Global) -> Result<Command<'a>, AllocError>
    ensures { IfOk result (IsCommand client_start) }
{
    let about = "Subscribes to resources on a stream, and prints what it is told";
    let client = named(alloc, "client", about, help::CLIENT);
    let client = with_option(client, addr_option(alloc, SERVES_AT))?;
    let client = with_option(client, variant_option(alloc))?;
    with_option(client, type_option(alloc))
}

// `--variant VARIANT`.
fn variant_option<'a>(alloc: Global) -> Arg<'a>
    ensures { IsOption (required (text_option (codes "variant"))) result }
{
    let help = "The variant of the protocol: sotw or delta";
    required(text_option(alloc, "variant", "VARIANT", help))
}

// `--responses N`.
fn responses_option<'a>(alloc: Global) -> Arg<'a>
    ensures { IsOption (required (number_option (codes "responses"))) result }
{
    required(number_option(alloc, "responses", "N", "Ends after this many responses"))
}

// The names, of which there has to be one.
fn wanted_names<'a>(alloc: Global) -> Arg<'a>
    ensures { IsOption (required name_words) result }
{
    required(name_words(alloc, "The names of the resources that it wants"))
}

fn poll_command<'a>(alloc: Global) -> Result<Command<'a>, AllocError>
    ensures { IfOk result (IsCommand poll_command) }
{
    let help = "The version that the client has";
    let poll = poll_start(alloc)?;
    let poll = with_option(poll, text_option(alloc, "version", "V", help))?;
    let poll = with_option(poll, seconds_option(alloc))?;
    let poll = with_option(poll, cluster_option(alloc))?;
    with_option(
        poll,
        name_words(alloc, "The names of the resources that it wants"),
    )
}

// `xds poll`, with the options that say where it asks, and for what.
fn poll_start<'a>(alloc: Global) -> Result<Command<'a>, AllocError>
    ensures { IfOk result (IsCommand poll_start) }
{
    let about = "Polls resources once over REST, and prints the reply's status and body";
    let poll = named(alloc, "poll", about, help::POLL);
    let poll = with_option(poll, addr_option(alloc, SERVES_AT))?;
    with_option(poll, type_option(alloc))
}

fn writes_command<'a>(alloc: Global) -> Result<Command<'a>, AllocError>
    ensures { IfOk result (IsCommand writes_command) }
{
    let about = "Prints the writes that a store has, as lines of xds answer";
    with_option(
        named(alloc, "writes", about, help::WRITES),
        store_option(alloc),
    )
}

fn status_command<'a>(alloc: Global) -> Result<Command<'a>, AllocError>
    ensures { IfOk result (IsCommand status_command) }
{
    let about = "Asks a server's operator's port how its streams stand";
    asking_command(alloc, "status", about, help::STATUS)
}

fn get_command<'a>(alloc: Global) -> Result<Command<'a>, AllocError>
    ensures { IfOk result (IsCommand get_command) }
{
    let about = "Asks a server's operator's port for resources, and prints them";
    let get = asking_command(alloc, "get", about, help::GET)?;
    let help = "Those of replica N (1 to 65535) alone";
    let get = with_option(get, number_option(alloc, "replica", "N", help))?;
    let help = "Those of this type alone";
    let get = with_option(get, text_option(alloc, "type", "TYPE", help))?;
    with_option(
        get,
        name_words(alloc, "The names of the resources, all if left out"),
    )
}

fn put_command<'a>(alloc: Global) -> Result<Command<'a>, AllocError>
    ensures { IfOk result (IsCommand put_command) }
{
    let about = "Gives a server's operator's port the lines of changes of its input";
    let put = asking_command(alloc, "put", about, help::PUT)?;
    let put = with_option(put, dry_run_option(alloc))?;
    let help = "Makes no change where one is refused";
    with_option(put, flag_option(alloc, "all-or-nothing", help))
}

fn delete_command<'a>(alloc: Global) -> Result<Command<'a>, AllocError>
    ensures { IfOk result (IsCommand delete_command) }
{
    let about = "Deletes resources by a server's operator's port";
    let delete = asking_command(alloc, "delete", about, help::DELETE)?;
    let help = "The replica that deletes, 1 to 65535";
    let replica = with_default(number_option(alloc, "replica", "N", help), "1");
    let delete = with_option(delete, replica)?;
    let delete = with_option(delete, type_option(alloc))?;
    let delete = with_option(delete, dry_run_option(alloc))?;
    with_option(
        delete,
        required(name_words(alloc, "The names of the resources")),
    )
}

// `--dry-run`.
fn dry_run_option<'a>(alloc: Global) -> Arg<'a>
    ensures { IsOption (flag_option (codes "dry-run")) result }
{
    flag_option(
        alloc,
        "dry-run",
        "Tells what would be made, and makes nothing",
    )
}

// A command of this name that asks a server's operator's port: what it is about, and what its help says at its end.
fn asking_command<'a>(
    alloc: Global,
    name: &'a str,
    about: &'a str,
    more: &'a str,
) -> Result<Command<'a>, AllocError>
    ensures { IfOk result (IsCommand (asking_command name.entry.now)) }
{
    let command = named(alloc, name, about, more);
    let help = "A server's operator's port, as in 127.0.0.1:18200";
    let command = with_option(command, addr_option(alloc, help))?;
    let help = "Says the token in this file";
    with_option(command, text_option(alloc, "admin-token", "FILE", help))
}

// `--store FILE`, which has to be given.
fn store_option<'a>(alloc: Global) -> Arg<'a>
    ensures { IsOption (required (text_option (codes "store"))) result }
{
    required(text_option(alloc, "store", "FILE", "The file of the store"))
}

// `--addr A`.
fn addr_option<'a>(alloc: Global, help: &'a str) -> Arg<'a>
    ensures { IsOption (required (text_option (codes "addr"))) result }
{
    required(text_option(alloc, "addr", "A", help))
}

// `--type TYPE`.
fn type_option<'a>(alloc: Global) -> Arg<'a>
    ensures { IsOption (required (text_option (codes "type"))) result }
{
    let help = "Type: cluster, endpoint, listener, route or secret";
    required(text_option(alloc, "type", "TYPE", help))
}

// `--seconds T`.
fn seconds_option<'a>(alloc: Global) -> Arg<'a>
    ensures { IsOption (number_option (codes "seconds")) result }
{
    number_option(alloc, "seconds", "T", "Gives up after this many seconds")
}

// `--cluster TEXT`.
fn cluster_option<'a>(alloc: Global) -> Arg<'a>
    ensures { IsOption (text_option (codes "cluster")) result }
{
    text_option(alloc, "cluster", "TEXT", "The cluster of the client's node")
}

// A command of this name, without options yet: what it is about, and what its help says at its end.
fn named<'a>(alloc: Global, name: &'a str, about: &'a str, more: &'a str) -> Command<'a>
    ensures { IsCommand (new_app name.entry.now) result }
{
    Command::new(alloc, name).about(about).after_help(more)
}

// The command with one more option.
fn with_option<'a>(command: Command<'a>, option: Arg<'a>) -> Result<Command<'a>, AllocError>
    requires command { IsLocal command }
    requires option { option.global ≡ false }
    ensures { IfOk result (IsCommand (with_rule (app_of command.entry) (rule_of option.entry))) }
{
    command.arg(option)
}

// `xds` with one more command, which may have found no memory.
fn with_command<'a>(
    xds: Command<'a>,
    command: Result<Command<'a>, AllocError>,
) -> Result<Command<'a>, AllocError>
    requires xds { IsLocal xds }
    requires command { IfOk command IsLocal }
    ensures { IfOk result (λ r. (described : App) → IfOk command.entry (IsCommand described)
        → IsCommand (with_subcommand (app_of xds.entry) described.top) r) }
{
    match command {
        Ok(command) => xds.subcommand(command),
        Err(error) => {
            drop(xds);
            Err(error)
        }
    }
}

// An option whose value is a number from 1 to 65535.
fn number_option<'a>(alloc: Global, name: &'a str, value: &'a str, help: &'a str) -> Arg<'a>
    ensures { IsOption (number_option name.entry.now) result }
{
    Arg::new(alloc, name)
        .long(name)
        .value_name(value)
        .value_parser(value_parser!(u16).range(1..))
        .help(help)
}

// An option whose value is any text.
fn text_option<'a>(alloc: Global, name: &'a str, value: &'a str, help: &'a str) -> Arg<'a>
    ensures { IsOption (text_option name.entry.now) result }
{
    Arg::new(alloc, name)
        .long(name)
        .value_name(value)
        .help(help)
}

// An option without a value.
fn flag_option<'a>(alloc: Global, name: &'a str, help: &'a str) -> Arg<'a>
    ensures { IsOption (flag_option name.entry.now) result }
{
    Arg::new(alloc, name)
        .long(name)
        .action(ArgAction::SetTrue)
        .help(help)
}

// The names of resources, the words that are no options.
fn name_words<'a>(alloc: Global, help: &'a str) -> Arg<'a>
    ensures { IsOption name_words result }
{
    Arg::new(alloc, "name")
        .value_name("NAME")
        .action(ArgAction::Append)
        .help(help)
}

// The option, which has to be given.
fn required<'a>(option: Arg<'a>) -> Arg<'a>
    requires { option.global ≡ false }
    ensures { IsOption (required (rule_of option.entry)) result }
{
    option.required(true)
}

// The option, with the value that it has where it isn't given.
fn with_default<'a>(option: Arg<'a>, value: &'a str) -> Arg<'a>
    requires { option.global ≡ false }
    ensures { IsOption (with_default value.entry.now (rule_of option.entry)) result }
{
    option.default_value(value)
}
