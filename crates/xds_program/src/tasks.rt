// What the program may be asked for.
use std::marker::Model;
use std::net::SocketAddrV4;
use xds_resource::TypeName;

/// What the words ask for.
#[derive(Debug, Drop)]
pub enum Task {
    /// `xds answer`, as the replica of this number, from 1.
    Answer { replica: u16 },
    /// `xds play`.
    Play(PlayTask),
    /// `xds check`.
    Check(CheckTask),
    /// `xds serve`.
    Serve(ServeWords),
    /// `xds client`.
    Client(ClientTask),
    /// `xds poll`.
    Poll(PollTask),
    /// `xds writes`.
    Writes(WritesTask),
    /// `xds status`.
    Status(StatusTask),
    /// `xds get`.
    Get(GetTask),
    /// `xds put`.
    Put(PutTask),
    /// `xds delete`.
    Delete(DeleteTask),
}

/// What `xds play` is asked for.
#[derive(Debug, Drop)]
pub struct PlayTask {
    /// The number of the replica whose trace is printed, from 1; what the script shows is printed, where there is none.
    pub trace: Option<u16>,
    /// The file that a picture of the script is written into; none, where there is none.
    pub picture: Option<String>,
}

impl Model for PlayTask {
    ghost use Rattle.std.specs.Prelude.{option_map, string_bytes};
    ghost use Rattle.xds_program.specs.Tasks.{Plays};

    ghost Value = { Plays };

    ghost view = { λ p. record { trace = p.trace; picture = option_map string_bytes p.picture } };
}

/// What `xds check` is asked for.
#[derive(Debug, Drop)]
pub struct CheckTask {
    /// Whether a trace that is cut short is judged up to where it is whole.
    pub so_far: bool,
    /// Whether it is explained why a rule is broken.
    pub explain: bool,
    /// The file that a picture of the trace is written into; none, where there is none.
    pub picture: Option<String>,
}

impl Model for CheckTask {
    ghost use Rattle.std.specs.Prelude.{option_map, string_bytes};
    ghost use Rattle.xds_program.specs.Tasks.{Checks};

    ghost Value = { Checks };

    ghost view = { λ c. record { so_far = c.so_far; explain = c.explain; picture = option_map string_bytes c.picture } };
}

/// What a server is asked for.
#[derive(Clone, Copy, Debug, PartialEq, Eq)]
pub struct ServeTask {
    /// How many replicas serve, from 1 to 16.
    pub replicas: u16,
    /// The port for streams of replica 1, from 1. Each further replica has the next port.
    pub port: u16,
    /// The port for REST of replica 1, from 1. Each further replica has the next port.
    pub rest_port: u16,
    /// After how many ended streams it ends, from 1; never, where there is none.
    pub streams: Option<u16>,
    /// By how many threads each replica serves its streams, from 1 to 256; by two, where there is none.
    pub workers: Option<u16>,
    /// Whether a line of the input that is refused is told, and the next is read.
    pub keep_going: bool,
    /// Whether what an operator cares for is told.
    pub log: bool,
    /// How many streams a replica has at a time, from 1; any number, where there is none.
    pub max_streams: Option<u16>,
    /// Within how many seconds the first frame of a stream comes, from 1; at any time, where there is none.
    pub idle_seconds: Option<u16>,
    /// An operator's port, from 1; none, where there is none.
    pub admin_port: Option<u16>,
}

/// What the words of `xds serve` ask for.
#[derive(Debug, Drop)]
pub struct ServeWords {
    /// What is served.
    pub task: ServeTask,
    /// The number of the first replica, from 1, by which its writes are stamped; the others have the next ones. 1, where there is none.
    pub first_number: Option<u16>,
    /// The folder that the replicas' traces are recorded into; none, where there is none.
    pub folder: Option<String>,
    /// The file of which all lines are made before anybody is answered; none, where there is none.
    pub load: Option<String>,
    /// The file that writes are stored in, and that they are taken from at the start; none, where there is none.
    pub store: Option<String>,
    /// The file of the stamped writes that it begins with; none, where there is none.
    pub writes: Option<String>,
    /// Whether nobody is answered until it is told to.
    pub hold: bool,
    /// The file of the token that requests at the operator's port say; none, where there is none.
    pub admin_token: Option<String>,
    /// Whether what an operator cares for is told as JSON.
    pub log_json: bool,
    /// The folder whose resources are all that shall be held; none, where there is none.
    pub from_folder: Option<String>,
    /// Whether references that lead nowhere are told.
    pub lint: bool,
    /// Where the checker listens that is asked before a resource is taken; none, where there is none.
    pub validate: Option<SocketAddrV4>,
    /// Whether a resource is taken, and that is told, where the checker is away.
    pub pass_unvalidated: bool,
    /// Whether a put is refused by which the whole response of its type would be too long for a frame.
    pub refuse_beyond_frame: bool,
}

impl Model for ServeWords {
    ghost use Rattle.std.specs.Prelude.{option_map, string_bytes};
    ghost use Rattle.xds_program.specs.Tasks.{Serves};

    ghost Value = { Serves };

    ghost view = { λ s. record {
      task = s.task;
      first_number = s.first_number;
      folder = option_map string_bytes s.folder;
      load = option_map string_bytes s.load;
      store = option_map string_bytes s.store;
      writes = option_map string_bytes s.writes;
      hold = s.hold;
      admin_token = option_map string_bytes s.admin_token;
      log_json = s.log_json;
      from_folder = option_map string_bytes s.from_folder;
      lint = s.lint;
      validate = s.validate;
      pass_unvalidated = s.pass_unvalidated;
      refuse_beyond_frame = s.refuse_beyond_frame;
    } };
}

/// How a client asks on a stream: in which of the protocol's two variants.
#[derive(Clone, Copy, Debug, PartialEq, Eq)]
pub enum AskedVariant {
    /// State of the world.
    Sotw,
    /// Incremental.
    Delta,
}

impl AskedVariant {
    ghost use Rattle.std.specs.Prelude.{◌≡◌};
    ghost use Rattle.xds_program.specs.Tasks.{variant_of_word};

    /// The variant whose word this is, if there is one.
    pub fn from_word(word: &str) -> Option<AskedVariant>
        ensures { result ≡ variant_of_word word.now }
    {
        match word {
            "sotw" => Some(AskedVariant::Sotw),
            "delta" => Some(AskedVariant::Delta),
            _ => None,
        }
    }
}

/// What `xds client` is asked for.
#[derive(Debug)]
pub struct ClientTask {
    /// Where a replica serves streams.
    pub addr: SocketAddrV4,
    /// How it asks.
    pub variant: AskedVariant,
    /// The type of the resources.
    pub kind: TypeName,
    /// After how many responses it ends, from 1.
    pub responses: u16,
    /// After how many seconds it gives up, from 1; never, where there is none.
    pub seconds: Option<u16>,
    /// The cluster of its node, empty where none is given.
    pub cluster: String,
    /// The names of the resources that it wants, in the order of the words.
    pub names: Vec<String>,
}

// Written out: docs/PROVING.md, "Drops".
impl Drop for ClientTask {
    fn drop(self) {
        let ClientTask {
            addr: _,
            variant: _,
            kind: _,
            responses: _,
            seconds: _,
            cluster: _,
            names: _,
        } = self;
    }
}

impl Model for ClientTask {
    ghost use Rattle.std.specs.Prelude.{map, string_bytes};
    ghost use Rattle.xds_program.specs.Tasks.{Watch};

    ghost Value = { Watch };

    ghost view = { λ c. record {
      addr = c.addr;
      variant = c.variant;
      kind = c.kind;
      responses = c.responses;
      seconds = c.seconds;
      cluster = string_bytes c.cluster;
      names = map string_bytes c.names.items;
    } };
}

/// What `xds poll` is asked for.
#[derive(Debug, Drop)]
pub struct PollTask {
    /// Where a replica serves REST.
    pub addr: SocketAddrV4,
    /// The type of the resources.
    pub kind: TypeName,
    /// After how many seconds it gives up, from 1; never, where there is none.
    pub seconds: Option<u16>,
    /// The version that the client has, empty where none is given.
    pub version: String,
    /// The cluster of its node, empty where none is given.
    pub cluster: String,
    /// The names of the resources that it wants, in the order of the words.
    pub names: Vec<String>,
}

impl Model for PollTask {
    ghost use Rattle.std.specs.Prelude.{map, string_bytes};
    ghost use Rattle.xds_program.specs.Tasks.{Look};

    ghost Value = { Look };

    ghost view = { λ p. record {
      addr = p.addr;
      kind = p.kind;
      seconds = p.seconds;
      version = string_bytes p.version;
      cluster = string_bytes p.cluster;
      names = map string_bytes p.names.items;
    } };
}

/// What `xds writes` is asked for.
#[derive(Debug, Drop)]
pub struct WritesTask {
    /// The file of the store whose writes it prints.
    pub store: String,
}

impl Model for WritesTask {
    ghost use Rattle.std.specs.Prelude.{string_bytes};
    ghost use Rattle.xds_program.specs.Tasks.{Reads};

    ghost Value = { Reads };

    ghost view = { λ w. record { store = string_bytes w.store } };
}

/// What `xds status` is asked for.
#[derive(Debug, Drop)]
pub struct StatusTask {
    /// Where a server has its operator's port.
    pub addr: SocketAddrV4,
    /// The file of the token that it says there; none, where there is none.
    pub token: Option<String>,
}

impl Model for StatusTask {
    ghost use Rattle.std.specs.Prelude.{option_map, string_bytes};
    ghost use Rattle.xds_program.specs.Tasks.{Sees};

    ghost Value = { Sees };

    ghost view = { λ s. record { addr = s.addr; token = option_map string_bytes s.token } };
}

/// What `xds get` is asked for.
#[derive(Debug, Drop)]
pub struct GetTask {
    /// Where a server has its operator's port.
    pub addr: SocketAddrV4,
    /// The file of the token that it says there; none, where there is none.
    pub token: Option<String>,
    /// The number of the replica whose resources it gets, from 1; of all, where there is none.
    pub replica: Option<u16>,
    /// The type of the resources; all types, where there is none.
    pub kind: Option<TypeName>,
    /// The names of the resources, in the order of the words; all, where there are none.
    pub names: Vec<String>,
}

impl Model for GetTask {
    ghost use Rattle.std.specs.Prelude.{map, option_map, string_bytes};
    ghost use Rattle.xds_program.specs.Tasks.{Gets};

    ghost Value = { Gets };

    ghost view = { λ g. record {
      addr = g.addr;
      token = option_map string_bytes g.token;
      replica = g.replica;
      kind = g.kind;
      names = map string_bytes g.names.items;
    } };
}

/// What `xds put` is asked for.
#[derive(Debug, Drop)]
pub struct PutTask {
    /// Where a server has its operator's port.
    pub addr: SocketAddrV4,
    /// The file of the token that it says there; none, where there is none.
    pub token: Option<String>,
    /// Whether the changes are only looked at.
    pub dry_run: bool,
    /// Whether no change is made where one is refused.
    pub all_or_nothing: bool,
}

impl Model for PutTask {
    ghost use Rattle.std.specs.Prelude.{option_map, string_bytes};
    ghost use Rattle.xds_program.specs.Tasks.{Puts};

    ghost Value = { Puts };

    ghost view = { λ p. record {
      addr = p.addr;
      token = option_map string_bytes p.token;
      dry_run = p.dry_run;
      all_or_nothing = p.all_or_nothing;
    } };
}

/// What `xds delete` is asked for.
#[derive(Debug, Drop)]
pub struct DeleteTask {
    /// Where a server has its operator's port.
    pub addr: SocketAddrV4,
    /// The file of the token that it says there; none, where there is none.
    pub token: Option<String>,
    /// The number of the replica that deletes, from 1.
    pub replica: u16,
    /// The type of the resources.
    pub kind: TypeName,
    /// Whether the changes are only looked at.
    pub dry_run: bool,
    /// The names of the resources, in the order of the words.
    pub names: Vec<String>,
}

impl Model for DeleteTask {
    ghost use Rattle.std.specs.Prelude.{map, option_map, string_bytes};
    ghost use Rattle.xds_program.specs.Tasks.{Deletes};

    ghost Value = { Deletes };

    ghost view = { λ d. record {
      addr = d.addr;
      token = option_map string_bytes d.token;
      replica = d.replica;
      kind = d.kind;
      dry_run = d.dry_run;
      names = map string_bytes d.names.items;
    } };
}
