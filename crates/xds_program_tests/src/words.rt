// Which words ask for which task: right words and wrong ones.
use crate::program::{told as told_by_run, words};
use std::alloc::Global;
use std::test::Fail;
use xds_cases::cases::{Outcome, hold};
use xds_program::{
    CheckTask, ClientTask, DeleteTask, GetTask, PlayTask, PollTask, PutTask, ServeTask, ServeWords,
    StatusTask, Task, WritesTask, task_of,
};

// What words ask for, told in words; `help`, or `wrong`.
struct Asked;

impl Outcome for Asked {
    fn of(alloc: Global, given: &str) -> Result<String, Fail> {
        let words = words(alloc, given)?;
        match task_of(alloc, words.as_slice()) {
            Ok(task) => {
                let told = told(alloc, &task);
                drop(task);
                told
            }
            Err(error) => {
                let word = if error.use_stderr() { "wrong" } else { "help" };
                drop(error);
                Ok(String::from_str(alloc, word)?)
            }
        }
    }
}

fn told(alloc: Global, task: &Task) -> Result<String, Fail> {
    match task {
        Task::Answer { replica } => told_answer(alloc, *replica),
        Task::Play(play) => told_play(alloc, play),
        Task::Check(check) => told_check(alloc, check),
        Task::Serve(serve) => told_recorded(alloc, serve),
        Task::Client(client) => told_client(alloc, client),
        Task::Poll(poll) => told_poll(alloc, poll),
        Task::Writes(writes) => told_writes(alloc, writes),
        Task::Status(status) => told_status(alloc, status),
        Task::Get(get) => told_get(alloc, get),
        Task::Put(put) => told_put(alloc, put),
        Task::Delete(delete) => told_delete(alloc, delete),
    }
}

// A word and a text, where there is one.
fn tell_given(text: &mut String, word: &str, given: &Option<String>) -> Result<(), Fail> {
    if let Some(given) = given {
        text.push_str(word)?;
        text.push_str(given.as_str())?;
    }
    Ok(())
}

// A word, where it is so.
fn tell_flag(text: &mut String, word: &str, is: bool) -> Result<(), Fail> {
    if is {
        text.push_str(word)?;
    }
    Ok(())
}

fn told_status(alloc: Global, status: &StatusTask) -> Result<String, Fail> {
    let addr = status.addr;
    let mut text = format!(in alloc; "status {addr}")?;
    tell_given(&mut text, " token ", &status.token)?;
    Ok(text)
}

fn told_get(alloc: Global, get: &GetTask) -> Result<String, Fail> {
    let addr = get.addr;
    let replica = get.replica;
    let kind = get.kind;
    let mut text = format!(in alloc; "get {addr} {replica:?} {kind:?}")?;
    tell_given(&mut text, " token ", &get.token)?;
    tell_names(&mut text, &get.names)?;
    Ok(text)
}

fn told_put(alloc: Global, put: &PutTask) -> Result<String, Fail> {
    let addr = put.addr;
    let mut text = format!(in alloc; "put {addr}")?;
    tell_given(&mut text, " token ", &put.token)?;
    tell_flag(&mut text, " dry-run", put.dry_run)?;
    tell_flag(&mut text, " all-or-nothing", put.all_or_nothing)?;
    Ok(text)
}

fn told_delete(alloc: Global, delete: &DeleteTask) -> Result<String, Fail> {
    let addr = delete.addr;
    let replica = delete.replica;
    let kind = delete.kind;
    let mut text = format!(in alloc; "delete {addr} {replica} {kind:?}")?;
    tell_given(&mut text, " token ", &delete.token)?;
    tell_flag(&mut text, " dry-run", delete.dry_run)?;
    tell_names(&mut text, &delete.names)?;
    Ok(text)
}

fn told_check(alloc: Global, check: &CheckTask) -> Result<String, Fail> {
    let mut text = String::from_str(alloc, "check")?;
    tell_flag(&mut text, " so-far", check.so_far)?;
    tell_flag(&mut text, " explain", check.explain)?;
    tell_given(&mut text, " picture ", &check.picture)?;
    Ok(text)
}

fn told_writes(alloc: Global, writes: &WritesTask) -> Result<String, Fail> {
    let store = writes.store.as_str();
    Ok(format!(in alloc; "writes {store}")?)
}

fn told_answer(alloc: Global, replica: u16) -> Result<String, Fail> {
    Ok(format!(in alloc; "answer {replica}")?)
}

fn told_play(alloc: Global, play: &PlayTask) -> Result<String, Fail> {
    let trace = play.trace;
    let mut text = format!(in alloc; "play {trace:?}")?;
    tell_given(&mut text, " picture ", &play.picture)?;
    Ok(text)
}

fn told_recorded(alloc: Global, serve: &ServeWords) -> Result<String, Fail> {
    let mut text = told_serve(alloc, serve.task)?;
    if let Some(folder) = &serve.folder {
        text.push_str(" record ")?;
        text.push_str(folder.as_str())?;
    }
    if let Some(first) = serve.first_number {
        let number = format!(in alloc; " first {first}")?;
        text.push_str(number.as_str())?;
    }
    if let Some(file) = &serve.load {
        text.push_str(" load ")?;
        text.push_str(file.as_str())?;
    }
    if let Some(file) = &serve.store {
        text.push_str(" store ")?;
        text.push_str(file.as_str())?;
    }
    if let Some(file) = &serve.writes {
        text.push_str(" writes ")?;
        text.push_str(file.as_str())?;
    }
    if serve.hold {
        text.push_str(" hold")?;
    }
    if serve.log_json {
        text.push_str(" log-json")?;
    }
    if let Some(file) = &serve.admin_token {
        text.push_str(" token ")?;
        text.push_str(file.as_str())?;
    }
    tell_held(alloc, &mut text, serve)?;
    Ok(text)
}

// What is told of how a server takes resources.
fn tell_held(alloc: Global, text: &mut String, serve: &ServeWords) -> Result<(), Fail> {
    tell_given(text, " from ", &serve.from_folder)?;
    tell_flag(text, " lint", serve.lint)?;
    if let Some(addr) = serve.validate {
        let told = format!(in alloc; " validate {addr}")?;
        text.push_str(told.as_str())?;
    }
    tell_flag(text, " pass-unvalidated", serve.pass_unvalidated)?;
    tell_flag(text, " refuse-beyond-frame", serve.refuse_beyond_frame)
}

fn told_serve(alloc: Global, serve: ServeTask) -> Result<String, Fail> {
    let ServeTask {
        replicas,
        port,
        rest_port,
        streams,
        workers,
        keep_going,
        log,
        max_streams,
        idle_seconds,
        admin_port,
    } = serve;
    let keeps = if keep_going { " keep-going" } else { "" };
    let logs = if log { " log" } else { "" };
    let limits = limits_told(alloc, max_streams, idle_seconds)?;
    let limits = limits.as_str();
    let workers = match workers {
        Some(count) => format!(in alloc; " workers {count}")?,
        None => String::new(alloc),
    };
    let workers = workers.as_str();
    let admin = match admin_port {
        Some(port) => format!(in alloc; " admin {port}")?,
        None => String::new(alloc),
    };
    let admin = admin.as_str();
    Ok(format!(in alloc;
        "serve {replicas} {port} {rest_port} {streams:?}{workers}{keeps}{logs}{limits}{admin}"
    )?)
}

// The limits of streams, where there are some.
fn limits_told(
    alloc: Global,
    max_streams: Option<u16>,
    idle_seconds: Option<u16>,
) -> Result<String, Fail> {
    if max_streams.is_none() && idle_seconds.is_none() {
        return Ok(String::new(alloc));
    }
    Ok(format!(in alloc; " {max_streams:?} {idle_seconds:?}")?)
}

fn told_client(alloc: Global, client: &ClientTask) -> Result<String, Fail> {
    let addr = client.addr;
    let variant = client.variant;
    let kind = client.kind;
    let responses = client.responses;
    let seconds = seconds_told(alloc, client.seconds)?;
    let seconds = seconds.as_str();
    let cluster = client.cluster.as_str();
    let mut text = format!(in alloc;
        "client {addr} {variant:?} {kind:?} {responses}{seconds} ({cluster})"
    )?;
    tell_names(&mut text, &client.names)?;
    Ok(text)
}

fn told_poll(alloc: Global, poll: &PollTask) -> Result<String, Fail> {
    let addr = poll.addr;
    let kind = poll.kind;
    let seconds = seconds_told(alloc, poll.seconds)?;
    let seconds = seconds.as_str();
    let version = poll.version.as_str();
    let cluster = poll.cluster.as_str();
    let mut text = format!(in alloc; "poll {addr} {kind:?}{seconds} ({version}) ({cluster})")?;
    tell_names(&mut text, &poll.names)?;
    Ok(text)
}

// After how many seconds it gives up, if it does.
fn seconds_told(alloc: Global, seconds: Option<u16>) -> Result<String, Fail> {
    match seconds {
        Some(seconds) => Ok(format!(in alloc; " {seconds}s")?),
        None => Ok(String::new(alloc)),
    }
}

fn tell_names(text: &mut String, names: &Vec<String>) -> Result<(), Fail> {
    for name in names {
        text.push_str(" ")?;
        text.push_str(name.as_str())?;
    }
    Ok(())
}

#[test]
fn words_ask_for_programs_over_their_input(rt: HostRuntime) -> Result<(), Fail> {
    hold::<Asked, HostRuntime>(
        &rt,
        "answer => answer 1
answer --replica=+007 -- => answer 7
play => play None
play --trace 1 => play Some(1)
play --trace=65535 -- => play Some(65535)
check => check
check -- => check
check --so-far => check so-far
check --picture a.svg --so-far --explain => check so-far explain picture a.svg
check --explain --picture=a.svg -- => check explain picture a.svg
check --explain --picture - => check explain picture -
check --explain --picture= => check explain picture 
play --picture a.svg => play None picture a.svg
play --picture=--x --trace 3 => play Some(3) picture --x
play --trace=3 --picture a.svg -- => play Some(3) picture a.svg
check --explain --explain => wrong
check --so-far --picture a.svg --so-far => wrong
check --picture => wrong
check --picture -a => wrong
check --picture --explain => wrong
check --picture a.svg --picture b.svg => wrong
check --so-far=true => wrong
check --so-far 1 => wrong
check --explain -- --so-far => wrong
play --picture => wrong
play --picture a.svg b.svg => wrong
play --picture a.svg --trace 0 => wrong
play --so-far => wrong
play --trace => wrong
play --trace 0 => wrong
play --trace 65536 => wrong
play --trace x => wrong
play --trace 1 --trace 1 => wrong
play 1 => wrong
play --replica 1 => wrong
check --trace 1 => wrong
check file => wrong
check -- -- => wrong
help check => help
check --help => help
play -h => help
chec => wrong
Check => wrong",
    )
}

// rule: new-numbers
#[test]
fn words_ask_for_servers(rt: HostRuntime) -> Result<(), Fail> {
    hold::<Asked, HostRuntime>(
        &rt,
        "serve => serve 2 18000 18100 None
serve --replicas 1 => serve 1 18000 18100 None
serve --streams 3 --rest-port 9000 --port 8000 --replicas 16 => serve 16 8000 9000 Some(3)
serve --replicas=2 --port=65534 --rest-port=1 --streams=65535 -- => serve 2 65534 1 Some(65535)
serve --replicas 1 --port 65535 --rest-port 65535 => wrong
serve --replicas 1 --port 65535 --rest-port 65534 => serve 1 65535 65534 None
serve --replicas 2 --port 9000 --rest-port 9001 => wrong
serve --replicas 2 --port 9001 --rest-port 9000 => wrong
serve --replicas 2 --port 9000 --rest-port 9002 => serve 2 9000 9002 None
serve --replicas 2 --port 9002 --rest-port 9000 => serve 2 9002 9000 None
serve --rest-port 18001 => wrong
serve --port 18099 => wrong
serve --port 65535 => wrong
serve --replicas 16 --port 65521 => wrong
serve --replicas 16 --port 65520 => serve 16 65520 18100 None
serve --replicas 3 --rest-port 65534 => wrong
serve --replicas 0 => wrong
serve --replicas 17 => wrong
serve --port 0 => wrong
serve --port 65536 => wrong
serve --rest-port 0 => wrong
serve --streams 0 => wrong
serve --streams 65536 => wrong
serve --streams -1 => wrong
serve --workers 1 => serve 2 18000 18100 None workers 1
serve --log --workers 256 => serve 2 18000 18100 None workers 256 log
serve --workers 0 => wrong
serve --workers 257 => wrong
serve --workers two => wrong
serve --workers 2 --workers 2 => wrong
serve --streams => wrong
serve --port 1 --port 1 => wrong
serve 1 => wrong
serve --trace 1 => wrong
serve --keep-going => serve 2 18000 18100 None keep-going
serve --keep-going --streams 1 --replicas 1 => serve 1 18000 18100 Some(1) keep-going
serve --keep-going --keep-going => wrong
serve --log --keep-going => serve 2 18000 18100 None keep-going log
serve --log --log => wrong
serve --max-streams 5 => serve 2 18000 18100 None Some(5) None
serve --idle-seconds 7 --max-streams 1 => serve 2 18000 18100 None Some(1) Some(7)
serve --admin-port 18200 => serve 2 18000 18100 None admin 18200
serve --admin-port 17999 => serve 2 18000 18100 None admin 17999
serve --admin-port 18001 => wrong
serve --admin-port 18002 => serve 2 18000 18100 None admin 18002
serve --admin-port 18100 => wrong
serve --admin-port 0 => wrong
serve --max-streams 0 => wrong
serve --idle-seconds 0 => wrong
serve --keep-going=true => wrong
serve --keep-going 1 => wrong
serve --record run/1 => serve 2 18000 18100 None record run/1
serve --replicas 1 --record= --log => serve 1 18000 18100 None log record 
serve --record => wrong
serve --record a --record b => wrong
serve --first-number 7 => serve 2 18000 18100 None first 7
serve --first-number 65534 => serve 2 18000 18100 None first 65534
serve --first-number 65535 => wrong
serve --replicas 1 --first-number 65535 => serve 1 18000 18100 None first 65535
serve --replicas 16 --first-number 65521 => wrong
serve --first-number 0 => wrong
serve --load a.changes --first-number 3 => serve 2 18000 18100 None first 3 load a.changes
serve --load a --load b => wrong
serve --store mesh.db --load a => serve 2 18000 18100 None load a store mesh.db
serve --store => wrong
serve --hold --writes old.lines --store new.db => serve 2 18000 18100 None store new.db writes old.lines hold
serve --writes a --writes b => wrong
serve --hold --admin-token it --admin-port 1 => serve 2 18000 18100 None admin 1 hold token it
serve --log-json --hold => serve 2 18000 18100 None hold log-json
serve --log-json yes => wrong
serve --from mesh --lint => serve 2 18000 18100 None from mesh lint
serve --validate 127.0.0.1:18300 => serve 2 18000 18100 None validate 127.0.0.1:18300
serve --pass-unvalidated --validate=10.0.0.1:1 --from=d
     => serve 2 18000 18100 None from d validate 10.0.0.1:1 pass-unvalidated
serve --from => wrong
serve --from a --from b => wrong
serve --lint --lint => wrong
serve --refuse-beyond-frame --hold => serve 2 18000 18100 None hold refuse-beyond-frame
serve --refuse-beyond-frame 1 => wrong
serve --lint yes => wrong
serve --validate localhost:18300 => wrong
serve --validate 127.0.0.1 => wrong
serve --validate => wrong
serve --validate 127.0.0.1:1 --validate 127.0.0.1:1 => wrong
serve --pass-unvalidated=yes => wrong
serve --admin-token => wrong
serve --admin-token a --admin-token b => wrong
status --addr 127.0.0.1:18200 => status 127.0.0.1:18200
status --addr 127.0.0.1:18200 --admin-token it => status 127.0.0.1:18200 token it
status --addr localhost:18200 => wrong
status => wrong
status --addr 127.0.0.1:18200 more => wrong
serve --hold --hold => wrong
serve --hold yes => wrong
writes --store mesh.db => writes mesh.db
writes => wrong
writes --store a b => wrong
writes --store a --store b => wrong
serve --help => help",
    )
}

#[test]
fn words_ask_an_operator_s_port(rt: HostRuntime) -> Result<(), Fail> {
    hold::<Asked, HostRuntime>(
        &rt,
        "get --addr 127.0.0.1:18200 => get 127.0.0.1:18200 None None
get --addr 127.0.0.1:18200 --type cluster b a --replica 2 --admin-token it
     => get 127.0.0.1:18200 Some(2) Some(Cluster) token it b a
get --addr 127.0.0.1:18200 -- --type => get 127.0.0.1:18200 None None --type
get => wrong
get --addr localhost:18200 => wrong
get --addr 127.0.0.1:18200 --type clusters => wrong
get --addr 127.0.0.1:18200 --type => wrong
get --addr 127.0.0.1:18200 --replica 0 => wrong
get --addr 127.0.0.1:18200 --replica 65536 => wrong
get --addr 127.0.0.1:18200 --dry-run => wrong
get --help => help
put --addr 127.0.0.1:18200 => put 127.0.0.1:18200
put --all-or-nothing --dry-run --admin-token it --addr 127.0.0.1:18200
     => put 127.0.0.1:18200 token it dry-run all-or-nothing
put => wrong
put --addr 127.0.0.1:18200 a => wrong
put --addr 127.0.0.1 => wrong
put --addr 127.0.0.1:18200 --dry-run --dry-run => wrong
put --addr 127.0.0.1:18200 --type cluster => wrong
delete --addr 127.0.0.1:18200 --type route a => delete 127.0.0.1:18200 1 Route a
delete --addr 127.0.0.1:18200 --type route --replica 3 --dry-run --admin-token it b a b
     => delete 127.0.0.1:18200 3 Route token it dry-run b a b
delete --addr 127.0.0.1:18200 --type route => wrong
delete --addr 127.0.0.1:18200 a => wrong
delete --type route a => wrong
delete --addr 127.0.0.1:18200 --type routes a => wrong
delete --addr x --type route a => wrong
delete --addr 127.0.0.1:18200 --type route --replica 0 a => wrong
delete --addr 127.0.0.1:18200 --type route --all-or-nothing a => wrong",
    )
}

#[test]
fn words_ask_for_clients(rt: HostRuntime) -> Result<(), Fail> {
    hold::<Asked, HostRuntime>(
        &rt,
        "client --addr 127.0.0.1:18000 --variant sotw --type route --responses 1 q
     => client 127.0.0.1:18000 Sotw Route 1 () q
client --addr=10.0.0.255:1 --variant=delta --type=secret --responses=65535 --cluster=g1 b a b
     => client 10.0.0.255:1 Delta Secret 65535 (g1) b a b
client a --responses 2 --type cluster --addr 0.0.0.0:0 --variant delta * -- --type
     => client 0.0.0.0:0 Delta Cluster 2 () a * --type
client --addr 127.0.0.1:18000 --variant sotw --type listener --responses 1 --cluster g:1 endpoint
     => client 127.0.0.1:18000 Sotw Listener 1 (g:1) endpoint
client --addr 127.0.0.1:18000 --variant sotw --type route --responses 1 => wrong
client --addr 127.0.0.1:18000 --variant sotw --type route q => wrong
client --addr 127.0.0.1:18000 --variant sotw --responses 1 q => wrong
client --addr 127.0.0.1:18000 --type route --responses 1 q => wrong
client --variant sotw --type route --responses 1 q => wrong
client --addr localhost:18000 --variant sotw --type route --responses 1 q => wrong
client --addr 127.0.0.1 --variant sotw --type route --responses 1 q => wrong
client --addr 127.0.0.1:65536 --variant sotw --type route --responses 1 q => wrong
client --addr 127.0.0.01:1 --variant sotw --type route --responses 1 q => wrong
client --addr [::1]:18000 --variant sotw --type route --responses 1 q => wrong
client --addr 127.0.0.1:18000 --variant rest --type route --responses 1 q => wrong
client --addr 127.0.0.1:18000 --variant Sotw --type route --responses 1 q => wrong
client --addr 127.0.0.1:18000 --variant sotw --type routes --responses 1 q => wrong
client --addr 127.0.0.1:18000 --variant sotw --type route --responses 0 q => wrong
client --addr 127.0.0.1:18000 --variant sotw --type route --responses 65536 q => wrong
client --addr 127.0.0.1:18000 --variant sotw --type route --responses 1 --version 1.0 q => wrong
client --addr 127.0.0.1:18000 --addr 127.0.0.1:18000 --variant sotw --type route --responses 1 q
     => wrong
client --addr 127.0.0.1:18000 --variant sotw --type route --responses 1 --seconds 5 q
     => client 127.0.0.1:18000 Sotw Route 1 5s () q
client --addr 127.0.0.1:18000 --variant sotw --type route --responses 1 --seconds 0 q => wrong
client --addr 127.0.0.1:18000 --variant sotw --type route --responses 1 --seconds q => wrong
client --help => help",
    )
}

#[test]
fn words_ask_for_polls(rt: HostRuntime) -> Result<(), Fail> {
    hold::<Asked, HostRuntime>(
        &rt,
        "poll --addr 127.0.0.1:18100 --type cluster => poll 127.0.0.1:18100 Cluster () ()
poll --type endpoint --version 1.1.named --addr 127.0.0.1:18101 --cluster g1 a b
     => poll 127.0.0.1:18101 Endpoint (1.1.named) (g1) a b
poll --addr 127.0.0.1:18100 a --type cluster b => poll 127.0.0.1:18100 Cluster () () a b
poll --addr 127.0.0.1:18100 => wrong
poll --type cluster => wrong
poll --addr 127.0.0.1:x --type cluster => wrong
poll --addr 127.0.0.1:18100 --type x => wrong
poll --addr 127.0.0.1:18100 --type cluster --responses 1 => wrong
poll --addr 127.0.0.1:18100 --type cluster --variant sotw => wrong
poll --addr 127.0.0.1:18100 --type cluster --version 1 --version 1 => wrong
poll --addr 127.0.0.1:18100 --type cluster -x => wrong
poll --addr 127.0.0.1:18100 --type cluster -- -x => poll 127.0.0.1:18100 Cluster () () -x
poll --addr 127.0.0.1:18100 --type cluster --seconds 65535
     => poll 127.0.0.1:18100 Cluster 65535s () ()
poll --addr 127.0.0.1:18100 --type cluster --seconds 65536 => wrong
poll --help => help",
    )
}

// That what words tell holds this part.
fn tells(rt: &HostRuntime, given: &str, part: &str) -> Result<(), Fail> {
    let told = told_by_run(rt.alloc(), given, b"")?;
    if told.as_str().contains(part) {
        return Ok(());
    }
    Err(Fail::new(format_args!("{told} and not {part}")))
}

// rule: new-numbers
#[test]
fn the_option_that_is_wrong_is_named(rt: HostRuntime) -> Result<(), Fail> {
    let addr = "error: --addr: an address of IPv4 and a port, as 127.0.0.1:18000; for localhost \
         write 127.0.0.1~";
    tells(&rt, "poll --addr localhost:18100 --type cluster", addr)?;
    let client = "client --addr 127.0.0.1 --variant x --type y --responses 1 q";
    tells(&rt, client, addr)?;
    let client = "client --addr 127.0.0.1:1 --variant x --type y --responses 1 q";
    tells(&rt, client, "error: --variant: sotw or delta~")?;
    let kind = "error: --type: cluster, endpoint, listener, route or secret~";
    tells(&rt, "poll --addr 127.0.0.1:1 --type y", kind)?;
    tells(
        &rt,
        "serve --first-number 65535",
        "error: --first-number: the number of the last replica is above 65535~",
    )?;
    tells(
        &rt,
        "serve --port 65535",
        "error: --port, --rest-port: the port of the last replica is above 65535~",
    )?;
    tells(
        &rt,
        "serve --port 18101",
        "error: --port, --rest-port: the ports of streams and those of REST meet~",
    )?;
    tells(
        &rt,
        "serve --admin-port 18000",
        "error: --admin-port: it is a port of streams or of REST~",
    )?;
    tells(
        &rt,
        "serve --validate localhost:18300",
        "error: --validate: an address of IPv4 and a port, as 127.0.0.1:18300; for localhost write \
         127.0.0.1~",
    )?;
    tells(&rt, "get --addr localhost:18200", addr)?;
    tells(&rt, "get --addr 127.0.0.1:1 --type y", kind)?;
    tells(&rt, "put --addr localhost:18200", addr)?;
    tells(&rt, "delete --addr x --type y a", addr)?;
    tells(&rt, "delete --addr 127.0.0.1:1 --type y a", kind)
}

#[test]
fn the_version_is_told(rt: HostRuntime) -> Result<(), Fail> {
    tells(&rt, "--version", "0 xds 0.1.0~")?;
    tells(&rt, "-V", "0 xds 0.1.0~")?;
    tells(&rt, "serve --version", "2 ")
}
