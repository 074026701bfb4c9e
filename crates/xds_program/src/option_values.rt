// The values of a command's options, and the task that they make.
ghost use Rattle.std.specs.Prelude.{◌≡◌, ◌≤◌, ◌+◌, ◌↔◌, IfOk, codes, map, option_map, string_bytes, true};
ghost use Rattle.std.specs.Option.{option_and_then};
ghost use Rattle.clap.specs.Words.{first_of, found_of, rows_of, subcommand_rows_of};
ghost use Rattle.xds_resource.specs.Types.{type_of_word};
ghost use Rattle.xds_program.specs.Tasks.{variant_of_word};
ghost use Rattle.xds_program.specs.Words.{AsksBy, AsksClient, AsksDelete, AsksGet, AsksIn, AsksPoll, AsksServe, AsksServed, Finds};
ghost use Rattle.xds_program.specs.Words.{IsAddress, IsAddressAt, IsAddressGiven, IsNumber};
ghost use Rattle.xds_program.specs.Words.{are_apart, has_numbers, is_alone, is_given, is_outside, names_in, text_in};

use crate::tasks::{
    AskedVariant, CheckTask, ClientTask, DeleteTask, GetTask, PlayTask, PollTask, PutTask,
    ServeTask, ServeWords, StatusTask, Task, WritesTask,
};
use clap::ArgMatches;
use std::alloc::{AllocError, Global};
use std::net::SocketAddrV4;
use xds_resource::TypeName;

// The task that the command which was named asks for. There is none where a value is none of those that it may be.
pub(crate) fn task_in(alloc: Global, matches: &ArgMatches) -> Result<Option<Task>, AllocError>
    ensures { IfOk result (Finds (AsksIn (subcommand_rows_of matches.now))) }
{
    if let Some(given) = matches.subcommand_matches("answer") {
        return Ok(answer_in(given));
    }
    if let Some(given) = matches.subcommand_matches("play") {
        return play_in(alloc, given);
    }
    if let Some(given) = matches.subcommand_matches("check") {
        return check_in(alloc, given);
    }
    if let Some(given) = matches.subcommand_matches("serve") {
        return serve_in(alloc, given);
    }
    if let Some(given) = matches.subcommand_matches("client") {
        return client_in(alloc, given);
    }
    if let Some(given) = matches.subcommand_matches("poll") {
        return poll_in(alloc, given);
    }
    if let Some(given) = matches.subcommand_matches("writes") {
        return writes_in(alloc, given);
    }
    if let Some(given) = matches.subcommand_matches("get") {
        return get_in(alloc, given);
    }
    if let Some(given) = matches.subcommand_matches("put") {
        return put_in(alloc, given);
    }
    if let Some(given) = matches.subcommand_matches("delete") {
        return delete_in(alloc, given);
    }
    match matches.subcommand_matches("status") {
        Some(given) => status_in(alloc, given),
        None => Ok(None),
    }
}

fn answer_in(given: &ArgMatches) -> Option<Task>
    ensures { Finds (AsksBy (codes "answer") (rows_of (found_of given.now))) result }
{
    let replica = number(given, "replica")?;
    Some(Task::Answer { replica })
}

fn play_in(alloc: Global, given: &ArgMatches) -> Result<Option<Task>, AllocError>
    ensures { IfOk result (Finds (AsksBy (codes "play") (rows_of (found_of given.now)))) }
{
    let trace = number(given, "trace");
    let picture = text_given(alloc, given, "picture")?;
    Ok(Some(Task::Play(PlayTask { trace, picture })))
}

fn check_in(alloc: Global, given: &ArgMatches) -> Result<Option<Task>, AllocError>
    ensures { IfOk result (Finds (AsksBy (codes "check") (rows_of (found_of given.now)))) }
{
    let so_far = is_given(given, "so-far");
    let explain = is_given(given, "explain");
    let picture = text_given(alloc, given, "picture")?;
    Ok(Some(Task::Check(CheckTask {
        so_far,
        explain,
        picture,
    })))
}

fn serve_in(alloc: Global, given: &ArgMatches) -> Result<Option<Task>, AllocError>
    ensures { IfOk result (Finds (AsksBy (codes "serve") (rows_of (found_of given.now)))) }
{
    match served(alloc, given)? {
        Some(task) => Ok(Some(Task::Serve(task))),
        None => Ok(None),
    }
}

fn client_in(alloc: Global, given: &ArgMatches) -> Result<Option<Task>, AllocError>
    ensures { IfOk result (Finds (AsksBy (codes "client") (rows_of (found_of given.now)))) }
{
    match watch(alloc, given)? {
        Some(task) => Ok(Some(Task::Client(task))),
        None => Ok(None),
    }
}

fn poll_in(alloc: Global, given: &ArgMatches) -> Result<Option<Task>, AllocError>
    ensures { IfOk result (Finds (AsksBy (codes "poll") (rows_of (found_of given.now)))) }
{
    match look(alloc, given)? {
        Some(task) => Ok(Some(Task::Poll(task))),
        None => Ok(None),
    }
}

fn writes_in(alloc: Global, given: &ArgMatches) -> Result<Option<Task>, AllocError>
    ensures { IfOk result (Finds (AsksBy (codes "writes") (rows_of (found_of given.now)))) }
{
    match text_given(alloc, given, "store")? {
        Some(store) => Ok(Some(Task::Writes(WritesTask { store }))),
        None => Ok(None),
    }
}

fn status_in(alloc: Global, given: &ArgMatches) -> Result<Option<Task>, AllocError>
    ensures { IfOk result (Finds (AsksBy (codes "status") (rows_of (found_of given.now)))) }
{
    match address(given) {
        Some(addr) => {
            let token = text_given(alloc, given, "admin-token")?;
            Ok(Some(Task::Status(StatusTask { addr, token })))
        }
        None => Ok(None),
    }
}

fn get_in(alloc: Global, given: &ArgMatches) -> Result<Option<Task>, AllocError>
    ensures { IfOk result (Finds (AsksBy (codes "get") (rows_of (found_of given.now)))) }
{
    match got(given) {
        Some((addr, kind)) => {
            let replica = number(given, "replica");
            let token = text_given(alloc, given, "admin-token")?;
            let names = names(alloc, given)?;
            Ok(Some(Task::Get(GetTask {
                addr,
                token,
                replica,
                kind,
                names,
            })))
        }
        None => Ok(None),
    }
}

// What `xds get` is asked for beside texts and what may be left out.
fn got(given: &ArgMatches) -> Option<(SocketAddrV4, Option<TypeName>)>
    ensures { Finds (λ p. IsAddress (rows_of (found_of given.now)) p.0
        × (option_map type_of_word (first_of (codes "type") (rows_of (found_of given.now))) ≡ option_map Some p.1)) result }
{
    Some((address(given)?, kind_given(given)?))
}

fn put_in(alloc: Global, given: &ArgMatches) -> Result<Option<Task>, AllocError>
    ensures { IfOk result (Finds (AsksBy (codes "put") (rows_of (found_of given.now)))) }
{
    match address(given) {
        Some(addr) => {
            let dry_run = is_given(given, "dry-run");
            let all_or_nothing = is_given(given, "all-or-nothing");
            let token = text_given(alloc, given, "admin-token")?;
            Ok(Some(Task::Put(PutTask {
                addr,
                token,
                dry_run,
                all_or_nothing,
            })))
        }
        None => Ok(None),
    }
}

fn delete_in(alloc: Global, given: &ArgMatches) -> Result<Option<Task>, AllocError>
    ensures { IfOk result (Finds (AsksBy (codes "delete") (rows_of (found_of given.now)))) }
{
    match deleted(given) {
        Some((addr, replica, kind)) => {
            let dry_run = is_given(given, "dry-run");
            let token = text_given(alloc, given, "admin-token")?;
            let names = names(alloc, given)?;
            Ok(Some(Task::Delete(DeleteTask {
                addr,
                token,
                replica,
                kind,
                dry_run,
                names,
            })))
        }
        None => Ok(None),
    }
}

// What `xds delete` is asked for beside texts.
fn deleted(given: &ArgMatches) -> Option<(SocketAddrV4, u16, TypeName)>
    ensures { Finds (λ p. IsAddress (rows_of (found_of given.now)) p.0
        × IsNumber (rows_of (found_of given.now)) (codes "replica") p.1
        × (option_and_then type_of_word (first_of (codes "type") (rows_of (found_of given.now))) ≡ Some p.2)) result }
{
    Some((address(given)?, number(given, "replica")?, kind(given)?))
}

fn served(alloc: Global, given: &ArgMatches) -> Result<Option<ServeWords>, AllocError>
    ensures { IfOk result (Finds (AsksServed (rows_of (found_of given.now)))) }
{
    match checked(given) {
        Some((task, first_number, validate)) => {
            let (folder, load, store) = three_given(alloc, given, "record", "load", "store")?;
            let (writes, admin_token, from_folder) = three_given(
                alloc,
                given,
                "writes",
                "admin-token",
                "from",
            )?;
            let hold = is_given(given, "hold");
            let log_json = is_given(given, "log-json");
            let lint = is_given(given, "lint");
            let pass_unvalidated = is_given(given, "pass-unvalidated");
            let refuse_beyond_frame = is_given(given, "refuse-beyond-frame");
            Ok(Some(ServeWords {
                task,
                first_number,
                folder,
                load,
                store,
                writes,
                hold,
                admin_token,
                log_json,
                from_folder,
                lint,
                validate,
                pass_unvalidated,
                refuse_beyond_frame,
            }))
        }
        None => Ok(None),
    }
}

// What is served, the number of the first replica, if one is given, and the checker that is asked, if there is one.
fn checked(given: &ArgMatches) -> Option<(ServeTask, Option<u16>, Option<SocketAddrV4>)>
    ensures { Finds (λ p. AsksServe (rows_of (found_of given.now)) p.0
        × Finds (IsNumber (rows_of (found_of given.now)) (codes "first-number")) p.1
        × (has_numbers p.1 p.0.replicas ≡ true)
        × IsAddressGiven (codes "validate") (rows_of (found_of given.now)) p.2) result }
{
    let (task, first_number) = numbered(given)?;
    let validate = address_given(given, "validate")?;
    Some((task, first_number, validate))
}

// What is served, and the number of the first replica, if one is given.
fn numbered(given: &ArgMatches) -> Option<(ServeTask, Option<u16>)>
    ensures { Finds (λ p. AsksServe (rows_of (found_of given.now)) p.0
        × Finds (IsNumber (rows_of (found_of given.now)) (codes "first-number")) p.1
        × (has_numbers p.1 p.0.replicas ≡ true)) result }
{
    let task = serving(given)?;
    let first_number = number(given, "first-number");
    if has_numbers(first_number, task.replicas) {
        Some((task, first_number))
    } else {
        None
    }
}

fn serving(given: &ArgMatches) -> Option<ServeTask>
    ensures { Finds (AsksServe (rows_of (found_of given.now))) result }
{
    let replicas = number(given, "replicas")?;
    let port = number(given, "port")?;
    let rest_port = number(given, "rest-port")?;
    let streams = number(given, "streams");
    let workers = number(given, "workers");
    let keep_going = is_given(given, "keep-going");
    let log = is_given(given, "log");
    let max_streams = number(given, "max-streams");
    let idle_seconds = number(given, "idle-seconds");
    let admin_port = number(given, "admin-port");
    if has_ports(port, replicas)
        && has_ports(rest_port, replicas)
        && are_apart(port, rest_port, replicas)
        && is_alone(admin_port, port, rest_port, replicas)
    {
        Some(ServeTask {
            replicas,
            port,
            rest_port,
            streams,
            workers,
            keep_going,
            log,
            max_streams,
            idle_seconds,
            admin_port,
        })
    } else {
        None
    }
}

// rule: new-numbers
// Whether each replica has a number, where the first has this one.
pub(crate) fn has_numbers(first: Option<u16>, replicas: u16) -> bool
    ensures { result ≡ has_numbers first replicas }
{
    match first {
        Some(first) => u32::from(first) + u32::from(replicas) <= 65536,
        None => true,
    }
}

// Whether each replica has a port, where the first has this one.
pub(crate) fn has_ports(first: u16, replicas: u16) -> bool
    ensures { (result ≡ true) ↔ (first + replicas ≤ 65536) }
{
    u32::from(first) + u32::from(replicas) <= 65536
}

// Whether a port is none of so many that begin at another.
fn is_outside(port: u16, first: u16, replicas: u16) -> bool
    ensures { result ≡ is_outside port first replicas }
{
    port < first || u32::from(first) + u32::from(replicas) <= u32::from(port)
}

// Whether an operator's port, if there is one, is none of those of streams and of REST.
pub(crate) fn is_alone(admin_port: Option<u16>, port: u16, rest_port: u16, replicas: u16) -> bool
    ensures { result ≡ is_alone admin_port port rest_port replicas }
{
    match admin_port {
        Some(admin) => is_outside(admin, port, replicas) && is_outside(admin, rest_port, replicas),
        None => true,
    }
}

// Whether no port of the one is a port of the other, where so many follow each of them, itself among them.
pub(crate) fn are_apart(port: u16, rest_port: u16, replicas: u16) -> bool
    ensures { result ≡ are_apart port rest_port replicas }
{
    u32::from(port) + u32::from(replicas) <= u32::from(rest_port)
        || u32::from(rest_port) + u32::from(replicas) <= u32::from(port)
}

fn watch(alloc: Global, given: &ArgMatches) -> Result<Option<ClientTask>, AllocError>
    ensures { IfOk result (Finds (AsksClient (rows_of (found_of given.now)))) }
{
    match watched(given) {
        Some((addr, variant, kind, responses)) => {
            let seconds = number(given, "seconds");
            let cluster = text(alloc, given, "cluster")?;
            let names = names(alloc, given)?;
            Ok(Some(ClientTask {
                addr,
                variant,
                kind,
                responses,
                seconds,
                cluster,
                names,
            }))
        }
        None => Ok(None),
    }
}

// What a client is asked for beside texts.
fn watched(given: &ArgMatches) -> Option<(SocketAddrV4, AskedVariant, TypeName, u16)>
    ensures { Finds (λ p. IsAddress (rows_of (found_of given.now)) p.0
        × (option_and_then variant_of_word (first_of (codes "variant") (rows_of (found_of given.now))) ≡ Some p.1)
        × (option_and_then type_of_word (first_of (codes "type") (rows_of (found_of given.now))) ≡ Some p.2)
        × IsNumber (rows_of (found_of given.now)) (codes "responses") p.3) result }
{
    Some((
        address(given)?,
        variant(given)?,
        kind(given)?,
        number(given, "responses")?,
    ))
}

fn look(alloc: Global, given: &ArgMatches) -> Result<Option<PollTask>, AllocError>
    ensures { IfOk result (Finds (AsksPoll (rows_of (found_of given.now)))) }
{
    match looked(given) {
        Some((addr, kind)) => {
            let seconds = number(given, "seconds");
            let version = text(alloc, given, "version")?;
            let cluster = text(alloc, given, "cluster")?;
            let names = names(alloc, given)?;
            Ok(Some(PollTask {
                addr,
                kind,
                seconds,
                version,
                cluster,
                names,
            }))
        }
        None => Ok(None),
    }
}

// What a poll is asked for beside texts.
fn looked(given: &ArgMatches) -> Option<(SocketAddrV4, TypeName)>
    ensures { Finds (λ p. IsAddress (rows_of (found_of given.now)) p.0
        × (option_and_then type_of_word (first_of (codes "type") (rows_of (found_of given.now))) ≡ Some p.1)) result }
{
    Some((address(given)?, kind(given)?))
}

pub(crate) fn number(given: &ArgMatches, option: &str) -> Option<u16>
    ensures { Finds (IsNumber (rows_of (found_of given.now)) option.now) result }
{
    given.get_one::<u16>(option)
}

// Whether an option stands among the words that has no value.
fn is_given(given: &ArgMatches, option: &str) -> bool
    ensures { result ≡ is_given option.now (rows_of (found_of given.now)) }
{
    match word(given, option) {
        Some(word) => word == "true",
        None => false,
    }
}

pub(crate) fn address(given: &ArgMatches) -> Option<SocketAddrV4>
    ensures { Finds (IsAddress (rows_of (found_of given.now))) result }
{
    address_at(given, "addr")
}

fn address_at(given: &ArgMatches, option: &str) -> Option<SocketAddrV4>
    ensures { Finds (IsAddressAt option.now (rows_of (found_of given.now))) result }
{
    given.get_one::<SocketAddrV4>(option)
}

// The address that an option gives, if it is given.
pub(crate) fn address_given(given: &ArgMatches, option: &str) -> Option<Option<SocketAddrV4>>
    ensures { Finds (IsAddressGiven option.now (rows_of (found_of given.now))) result }
{
    let Some(_) = word(given, option) else {
        return Some(None);
    };
    match address_at(given, option) {
        Some(addr) => Some(Some(addr)),
        None => None,
    }
}

pub(crate) fn variant(given: &ArgMatches) -> Option<AskedVariant>
    ensures { result ≡ option_and_then variant_of_word (first_of (codes "variant") (rows_of (found_of given.now))) }
{
    match word(given, "variant") {
        Some(word) => AskedVariant::from_word(word),
        None => None,
    }
}

pub(crate) fn kind(given: &ArgMatches) -> Option<TypeName>
    ensures { result ≡ option_and_then type_of_word (first_of (codes "type") (rows_of (found_of given.now))) }
{
    match word(given, "type") {
        Some(word) => TypeName::from_word(word),
        None => None,
    }
}

// The type, if one is given.
fn kind_given(given: &ArgMatches) -> Option<Option<TypeName>>
    ensures { Finds (λ k. option_map type_of_word (first_of (codes "type") (rows_of (found_of given.now))) ≡ option_map Some k) result }
{
    let Some(word) = word(given, "type") else {
        return Some(None);
    };
    match TypeName::from_word(word) {
        Some(kind) => Some(Some(kind)),
        None => None,
    }
}

fn text(alloc: Global, given: &ArgMatches, option: &str) -> Result<String, AllocError>
    ensures { IfOk result (λ t. string_bytes t ≡ text_in option.now (rows_of (found_of given.now))) }
{
    match word(given, option) {
        Some(text) => String::from_str(alloc, text),
        None => Ok(String::new(alloc)),
    }
}

// The value of an option, if it is given.
fn text_given(alloc: Global, given: &ArgMatches, option: &str) -> Result<Option<String>, AllocError>
    ensures { IfOk result (λ t. option_map string_bytes t ≡ first_of option.now (rows_of (found_of given.now))) }
{
    match word(given, option) {
        Some(text) => Ok(Some(String::from_str(alloc, text)?)),
        None => Ok(None),
    }
}

// The values of three options, of each that is given.
fn three_given(
    alloc: Global,
    given: &ArgMatches,
    one: &str,
    other: &str,
    last: &str,
) -> Result<(Option<String>, Option<String>, Option<String>), AllocError>
    ensures { IfOk result (λ t. (option_map string_bytes t.0 ≡ first_of one.now (rows_of (found_of given.now)))
        × (option_map string_bytes t.1 ≡ first_of other.now (rows_of (found_of given.now)))
        × (option_map string_bytes t.2 ≡ first_of last.now (rows_of (found_of given.now)))) }
{
    let one = text_given(alloc, given, one)?;
    let other = text_given(alloc, given, other)?;
    let last = text_given(alloc, given, last)?;
    Ok((one, other, last))
}

fn word<'a>(given: &ArgMatches<'a>, option: &str) -> Option<&'a str>
    ensures { option_map (λ w. w.now) result ≡ first_of option.now (rows_of (found_of given.now)) }
{
    given.get_str(option)
}

fn names(alloc: Global, given: &ArgMatches) -> Result<Vec<String>, AllocError>
    ensures { IfOk result (λ names. map string_bytes names.items ≡ names_in (rows_of (found_of given.now))) }
{
    match given.get_raw("name") {
        Some(words) => copied(alloc, words),
        None => Ok(Vec::new(alloc)),
    }
}

fn copied(alloc: Global, words: &[&str]) -> Result<Vec<String>, AllocError>
    ensures { IfOk result (λ copies. map string_bytes copies.items ≡ map (λ w. w.now) words.now) }
{
    let mut copies = Vec::new(alloc);
    for word in words {
        copies.push(String::from_str(alloc, word)?)?;
    }
    Ok(copies)
}
