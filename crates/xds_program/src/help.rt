// What `--help` says behind the options: an example, what is read and printed, and the statuses.
// No line is wider than 80 columns.

/// At the end of `xds --help`.
pub(crate) const PROGRAM: &str = "Example, in the repository's top folder, and what it prints:
  ./xds check < examples/mesh_broken.trace
  broken 13 P2

A command reads the standard input, prints on the standard output, and tells
refusals on the error output. `xds COMMAND --help` says in which formats;
docs/SERVING.md has all of them, and what to do about each refusal. At a
terminal a long run tells every two seconds how far it is.

Statuses:
  0  done
  1  the input was refused, a rule is broken, or the run could not go on
  2  the words are wrong; nothing was read
  3  of ./xds alone: the program could not be built";

/// At the end of `xds answer --help`.
pub(crate) const ANSWER: &str = "Example:
  ./xds answer < examples/clusters.jsonl

Reads lines of JSON: stamped writes, and a DiscoveryRequest on the last.
Prints the response as a line of JSON, or nothing where there is none to send.
The formats are in docs/FORMATS.md, the refusals in docs/SERVING.md.

Statuses:
  0  done
  1  a line was refused, or the run could not go on
  2  the words are wrong; nothing was read";

/// At the end of `xds play --help`.
pub(crate) const PLAY: &str = "Examples:
  ./xds play < examples/mesh.script
  ./xds play --trace 2 < examples/mesh.script > mesh.trace

Reads a script, a command a line, as in `view 2 cluster`.
Prints what the lines `view` and `content` show, or the trace of a replica.
With --picture FILE it writes into FILE what went between clients and replicas.
The formats are in docs/FORMATS.md, the refusals in docs/SERVING.md.

Statuses:
  0  done
  1  a line was refused, or the run could not go on
  2  the words are wrong; nothing was read";

/// At the end of `xds check --help`.
pub(crate) const CHECK: &str = "Example, and what it prints:
  ./xds check < examples/mesh_broken.trace
  broken 13 P2

Reads a trace, a line an event, as `xds play --trace N` prints it.
Prints `ok`, or `broken LINE RULE`: the first line that breaks a rule, and the
least rule that it breaks. With --explain it prints why, in the lines behind.
With --so-far a trace that is cut short is judged up to its last whole line.
With --picture FILE it writes into FILE what went over the broken stream.
Traces and rules are in docs/FORMATS.md, the refusals in docs/SERVING.md.

Statuses:
  0  ok
  1  a rule is broken, a line was refused, or the run could not go on
  2  the words are wrong; nothing was read";

/// At the end of `xds serve --help`.
pub(crate) const SERVE: &str = "Example:
  ./xds serve < examples/mesh.serve

Reads lines `put`, `putin` and `delete` of scripts, and applies each while it
serves; at the end of the input it goes on, until it is stopped (Ctrl-C).
With --keep-going a line that is refused is told, and the next is read; with
--log what an operator cares for is told, a line an event. At --admin-port it
answers /, /healthz, /ready, /metrics, /status, /resources, /changes and /stop
over HTTP; the last ends it with status 0, the first is a page for a browser.
With --admin-token FILE each request there says the token in FILE.
With --record DIR what replica K does is
written to DIR/replica-K.trace, which `xds check` reads once it has ended.
With --load FILE all lines of the file are made before anybody is answered.
With --store FILE all writes are kept in the file, and are there again in the
next run over it, whose replicas have numbers that none before had. With
--writes FILE it begins with the writes that `xds writes` printed, stamps kept.
With --hold polls have 503, and streams wait, until the input has a line
`ready` or POST /ready comes. With --from DIR it holds what the files in DIR
say, and follows them. With --lint it tells references that lead nowhere. With
--validate ADDRESS a checker there is asked before a resource is taken;
with --pass-unvalidated a resource is taken, too, where the checker is away.
With --refuse-beyond-frame a put is refused that makes the whole response of
its type longer than a frame may be.
The streams of a replica are served by two threads, or by as many as --workers
says, however many streams there are.
Writes are stamped by the numbers of their replicas, F and the next ones with
--first-number F: give each run new ones, so that no version means two bodies.
Prints nothing; the error output has a line a replica, which says what is
served where. docs/SERVING.md has more, and the refusals.

Statuses:
  0  as many streams have ended as --streams says
  1  a line was refused, a port can't be bound, a trace can't be begun, or it
     could not go on
  2  the words are wrong; nothing was read";

/// At the end of `xds client --help`.
pub(crate) const CLIENT: &str = "Example, beside `./xds serve < examples/mesh.serve`:
  ./xds client --addr 127.0.0.1:18001 --variant delta \\
      --type cluster --responses 1 '*'

Reads no input; `*` asks for all clusters or listeners.
With --seconds T it gives up after T seconds, with status 1.
Prints for each response `taken NONCE` or `refused NONCE`, and then what it
shows, a line a resource. The formats are in docs/FORMATS.md, the refusals in
docs/SERVING.md.

Statuses:
  0  so many responses were answered
  1  no server, the stream broke off, or what came is no response to be taken
  2  the words are wrong; nothing was sent";

/// At the end of `xds poll --help`.
pub(crate) const POLL: &str = "Example, beside `./xds serve < examples/mesh.serve`:
  ./xds poll --addr 127.0.0.1:18101 --type route shop

Reads no input; without a NAME it asks for all clusters or listeners.
With --seconds T it gives up after T seconds, with status 1.
Prints the status of the reply, and its body, where it has one, in the next
line. docs/SERVING.md has more, and the refusals.

Statuses:
  0  a reply came, whatever its status is
  1  no reply came
  2  the words are wrong; nothing was sent";

/// At the end of `xds status --help`.
pub(crate) const STATUS: &str = "Example, beside `./xds serve --admin-port 18200`:
  ./xds status --addr 127.0.0.1:18200

Asks the operator's port of a server, with the token in FILE where one is
given. Prints each open stream with its node, and for each type what it was
sent and accepted, and one word: SYNCED, PENDING, REJECTED or NEVER ASKED.
docs/SERVING.md has more.

Statuses:
  0  the server answered
  1  no server, or it refused to answer
  2  the words are wrong; nothing was sent";

/// At the end of `xds writes --help`.
pub(crate) const WRITES: &str = "Example:
  ./xds writes --store mesh.db

Prints all writes that the store has, deletions among them, each as a line of
JSON, those of a type together in the order of their names. No server may use
the store meanwhile. docs/SERVING.md has more.

Statuses:
  0  ok
  1  the file is no store, or it can't be read
  2  the words are wrong; nothing was read";

/// At the end of `xds get --help`.
pub(crate) const GET: &str = "Example, beside `./xds serve --admin-port 18200`:
  ./xds get --addr 127.0.0.1:18200 --type cluster checkout

Asks the operator's port of a server for what its replicas hold, with the token
in FILE where one is given, and prints it. docs/SERVING.md has more.

Statuses:
  0  the server answered
  1  no server, or it refused to answer
  2  the words are wrong; nothing was sent";

/// At the end of `xds put --help`.
pub(crate) const PUT: &str = "Example, beside `./xds serve --admin-port 18200`:
  ./xds put --addr 127.0.0.1:18200 < examples/mesh.serve

Reads lines of changes, as a server takes them on its input, and gives them to
its operator's port, with the token in FILE where one is given. With --dry-run
the server tells what it would make, and makes nothing; with --all-or-nothing it
makes no change where one is refused. docs/SERVING.md has more.

Statuses:
  0  all changes were made
  1  a change was refused, or the server didn't answer
  2  the words are wrong; nothing was read or sent";

/// At the end of `xds delete --help`.
pub(crate) const DELETE: &str = "Example, beside `./xds serve --admin-port 18200`:
  ./xds delete --addr 127.0.0.1:18200 --type cluster checkout

Deletes resources of a type at a replica, by the operator's port of its server,
with the token in FILE where one is given. With --dry-run the server tells what
it would delete, and deletes nothing. docs/SERVING.md has more.

Statuses:
  0  all were deleted
  1  one was refused, or the server didn't answer
  2  the words are wrong; nothing was sent";
