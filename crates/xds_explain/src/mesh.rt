// A script of replicas and clients as a ladder in time. Of the crate this module alone knows worlds.
ghost use Rattle.std.specs.Prelude.{◌≡◌, IfOk, string_bytes};
ghost use Rattle.xds_explain.specs.Pictures.{IsSvg};

use crate::sheet::{Class, Lane, MOST_ROWS, Row, Sheet};
use crate::texts::excerpt;
use std::alloc::Global;
use xds_resource::{AnyResource, Groups, Refusal, TypeName};
use xds_script::lines::split_line;
use xds_script::{AnswerFate, ClientKind, Command, Wish, WorldEvent, read_line};

// Where the first lane stands, how far lanes are apart, and how much room the last one has for texts.
const FIRST: u64 = 130;

const STEP: u64 = 190;

const ROOM: u64 = 430;

// As many lanes of replicas as there are, at most, and as many of clients. Further ones share the last.
const MOST_LANES: usize = 12;

// As many characters as a label has, at most.
const MOST_IN_LABEL: usize = 64;

// A command with the number of its line.
#[derive(Drop)]
struct Numbered {
    number: usize,
    command: Command,
}

// Who has a lane, and what becomes of streams and batches: which replica each client is connected to, and which replica made each
// batch.
#[derive(Drop)]
struct Mesh {
    replicas: Vec<u32>,
    clients: Vec<u32>,
    links: Vec<(u32, u32)>,
    batches: Vec<u32>,
}

// What is drawn of a command: an arrow, or a mark where both places are the same, and its label.
#[derive(Drop)]
struct Drawn {
    from: u64,
    to: u64,
    class: Class,
    label: String,
}

/// A picture of a script, as SVG: a lane for each replica and each client, and a row for each command, the first [`MOST_ROWS`]. Lines
/// that say nothing are left out. Refused only by `OutOfMemory`.
pub fn script_picture(alloc: Global, bytes: &[u8]) -> Result<String, Refusal>
    ensures svg { IfOk result (λ t. IsSvg (string_bytes t)) }
{
    let commands = commands_of(alloc, bytes)?;
    let mut mesh = Mesh::of(alloc, commands.as_slice())?;
    let sheet = Sheet {
        title: String::from_str(alloc, "What happens in a script, line by line")?,
        width: mesh.width(),
        lanes: mesh.lanes(alloc, commands.as_slice())?,
        rows: mesh.rows(alloc, commands.as_slice())?,
        note: note_of(alloc, commands.len())?,
    };
    drop(mesh);
    drop(commands);
    let svg = sheet.svg(alloc);
    drop(sheet);
    svg
}

// Takes what a line says, if anything.
fn take_line(
    alloc: Global,
    commands: &mut Vec<Numbered>,
    number: usize,
    line: &[u8],
) -> Result<(), Refusal> {
    match read_line(alloc, line) {
        Ok(Some(command)) => Ok(commands.push(Numbered { number, command })?),
        Ok(None) => Ok(()),
        Err(Refusal::OutOfMemory) => Err(Refusal::OutOfMemory),
        Err(_) => Ok(()),
    }
}

// The commands of a script, with the numbers of their lines, from 1.
fn commands_of(alloc: Global, bytes: &[u8]) -> Result<Vec<Numbered>, Refusal> {
    let mut commands = Vec::new(alloc);
    let mut rest = bytes;
    let mut number = 1usize;
    while let Some((line, following)) = split_line(rest) {
        take_line(alloc, &mut commands, number, line)?;
        rest = following;
        number = number.saturating_add(1);
    }
    take_line(alloc, &mut commands, number, rest)?;
    Ok(commands)
}

fn note_of(alloc: Global, count: usize) -> Result<String, Refusal> {
    if count <= MOST_ROWS {
        return Ok(String::new(alloc));
    }
    let more = count.saturating_sub(MOST_ROWS);
    Ok(format!(in alloc; "the last {more} commands are left out")?)
}

// The replica that an event is about, and so below the client.
fn replica_in(event: &WorldEvent) -> Option<u32> {
    match event {
        WorldEvent::AddReplica(replica)
        | WorldEvent::Put(replica, _, _)
        | WorldEvent::Delete(replica, _, _)
        | WorldEvent::Snapshot(replica)
        | WorldEvent::Merge(replica, _)
        | WorldEvent::Connect(_, replica)
        | WorldEvent::RestPoll(_, replica, _, _) => Some(u32::from(*replica)),
        _ => None,
    }
}

fn client_in(event: &WorldEvent) -> Option<u32> {
    match event {
        WorldEvent::AddClient(client, _, _)
        | WorldEvent::Connect(client, _)
        | WorldEvent::Change(client, _, _)
        | WorldEvent::Up(client)
        | WorldEvent::Poll(client, _)
        | WorldEvent::Down(client)
        | WorldEvent::Lose(client)
        | WorldEvent::RestPoll(client, _, _, _) => Some(*client),
        _ => None,
    }
}

// The replica that a command is about.
fn replica_of(command: &Command) -> Option<u32> {
    match command {
        Command::Event(event) => replica_in(event),
        Command::Content(replica, _) => Some(u32::from(*replica)),
        Command::Settle(_, _) | Command::View(_, _) => None,
    }
}

// The client that a command is about.
fn client_of(command: &Command) -> Option<u32> {
    match command {
        Command::Event(event) => client_in(event),
        Command::Settle(client, _) | Command::View(client, _) => Some(*client),
        Command::Content(_, _) => None,
    }
}

// Adds a number, where there is one, it isn't there and there is room.
fn add(numbers: &mut Vec<u32>, number: Option<u32>) -> Result<(), Refusal> {
    let Some(number) = number else {
        return Ok(());
    };
    for other in numbers.iter() {
        if *other == number {
            return Ok(());
        }
    }
    if numbers.len() < MOST_LANES {
        numbers.push(number)?;
    }
    Ok(())
}

// The place of a number, or the last place.
fn place_of(numbers: &[u32], number: u32) -> usize {
    for (place, other) in numbers.iter().enumerate() {
        if *other == number {
            return place;
        }
    }
    numbers.len().saturating_sub(1)
}

// How far from the left a lane stands.
fn lane_at(place: usize) -> u64 {
    (place as u64).saturating_mul(STEP).saturating_add(FIRST)
}

impl Mesh {
    // The lanes of those that commands are about.
    fn of(alloc: Global, commands: &[Numbered]) -> Result<Mesh, Refusal> {
        let mut replicas = Vec::new(alloc);
        let mut clients = Vec::new(alloc);
        for numbered in commands {
            add(&mut replicas, replica_of(&numbered.command))?;
            add(&mut clients, client_of(&numbered.command))?;
        }
        Ok(Mesh {
            replicas,
            clients,
            links: Vec::new(alloc),
            batches: Vec::new(alloc),
        })
    }

    fn width(&self) -> u64 {
        let count = self.replicas.len().saturating_add(self.clients.len());
        lane_at(count.saturating_sub(1)).saturating_add(ROOM)
    }

    fn replica_at(&self, replica: u16) -> u64 {
        self.number_at(u32::from(replica))
    }

    fn number_at(&self, replica: u32) -> u64 {
        lane_at(place_of(self.replicas.as_slice(), replica))
    }

    fn client_at(&self, client: u32) -> u64 {
        let place = place_of(self.clients.as_slice(), client);
        lane_at(place.saturating_add(self.replicas.len()))
    }

    // Where the replica of a client stands, and the client itself where it has no stream.
    fn server_at(&self, client: u32) -> u64 {
        for (other, replica) in self.links.iter() {
            if *other == client {
                return self.number_at(*replica);
            }
        }
        self.client_at(client)
    }

    // Where the replica stands that made a batch, and another replica itself where there is no such batch.
    fn maker_at(&self, replica: u16, batch: u32) -> u64 {
        let place = (batch as usize).saturating_sub(1);
        match self.batches.as_slice().get(place) {
            Some(maker) => self.number_at(*maker),
            None => self.replica_at(replica),
        }
    }

    // Notes what becomes of streams and batches.
    fn note(&mut self, command: &Command) -> Result<(), Refusal> {
        match command {
            Command::Event(WorldEvent::Snapshot(replica)) => {
                Ok(self.batches.push(u32::from(*replica))?)
            }
            Command::Event(WorldEvent::Connect(client, replica)) => {
                self.connect(*client, u32::from(*replica))
            }
            Command::Event(WorldEvent::Lose(client)) => {
                self.lose(*client);
                Ok(())
            }
            _ => Ok(()),
        }
    }

    fn connect(&mut self, client: u32, replica: u32) -> Result<(), Refusal> {
        for (other, _) in self.links.iter() {
            if *other == client {
                return Ok(());
            }
        }
        Ok(self.links.push((client, replica))?)
    }

    fn lose(&mut self, client: u32) {
        let mut found = None;
        for (place, link) in self.links.iter().enumerate() {
            if link.0 == client {
                found = Some(place);
            }
        }
        if let Some(place) = found {
            if place < self.links.len() {
                self.links.remove(place);
            }
        }
    }

    fn lanes(&self, alloc: Global, commands: &[Numbered]) -> Result<Vec<Lane>, Refusal> {
        let mut lanes = Vec::new(alloc);
        for replica in self.replicas.iter() {
            let name = format!(in alloc; "replica {replica}")?;
            lanes.push(Lane {
                x: self.number_at(*replica),
                name,
            })?;
        }
        for client in self.clients.iter() {
            lanes.push(Lane {
                x: self.client_at(*client),
                name: client_name(alloc, commands, *client)?,
            })?;
        }
        Ok(lanes)
    }

    // The row of a command.
    fn row(&self, alloc: Global, numbered: &Numbered) -> Result<Row, Refusal> {
        let drawn = match &numbered.command {
            Command::Event(event) => self.drawn(alloc, event)?,
            Command::Settle(client, kind) => Drawn {
                from: self.server_at(*client),
                to: self.client_at(*client),
                class: Class::Yes,
                label: typed(alloc, "settle", *kind)?,
            },
            Command::View(client, kind) => {
                let label = typed(alloc, "view", *kind)?;
                mark(self.client_at(*client), Class::Mark, label)
            }
            Command::Content(replica, kind) => {
                let label = typed(alloc, "content", *kind)?;
                mark(self.replica_at(*replica), Class::Mark, label)
            }
        };
        Ok(row_of(alloc, numbered.number, drawn)?)
    }

    // What is drawn of an event at a replica, and of one at a client.
    fn drawn(&self, alloc: Global, event: &WorldEvent) -> Result<Drawn, Refusal> {
        match event {
            WorldEvent::AddReplica(replica) => {
                let label = String::from_str(alloc, "comes")?;
                Ok(mark(self.replica_at(*replica), Class::Mark, label))
            }
            WorldEvent::Put(replica, resource, groups) => {
                let label = put_label(alloc, resource, groups)?;
                Ok(mark(self.replica_at(*replica), Class::Put, label))
            }
            WorldEvent::Delete(replica, kind, name) => {
                let label = named(alloc, "delete", *kind, name.as_str())?;
                Ok(mark(self.replica_at(*replica), Class::Gone, label))
            }
            WorldEvent::Snapshot(replica) => {
                let count = self.batches.len();
                let label = format!(in alloc; "snapshot, batch {count}")?;
                Ok(mark(self.replica_at(*replica), Class::Mark, label))
            }
            WorldEvent::Merge(replica, batch) => self.merged(alloc, *replica, *batch),
            _ => self.drawn_at_client(alloc, event),
        }
    }

    fn merged(&self, alloc: Global, replica: u16, batch: u32) -> Result<Drawn, Refusal> {
        Ok(Drawn {
            from: self.maker_at(replica, batch),
            to: self.replica_at(replica),
            class: Class::Put,
            label: format!(in alloc; "merge batch {batch}")?,
        })
    }

    fn drawn_at_client(&self, alloc: Global, event: &WorldEvent) -> Result<Drawn, Refusal> {
        match event {
            WorldEvent::AddClient(client, _, cluster) => {
                let label = comes_label(alloc, cluster.as_str())?;
                Ok(mark(self.client_at(*client), Class::Mark, label))
            }
            WorldEvent::Change(client, kind, wish) => {
                let label = wish_label(alloc, *kind, wish)?;
                Ok(mark(self.client_at(*client), Class::Ask, label))
            }
            WorldEvent::Connect(client, replica) => {
                let label = String::from_str(alloc, "connect")?;
                Ok(Drawn {
                    from: self.client_at(*client),
                    to: self.replica_at(*replica),
                    class: Class::Mark,
                    label,
                })
            }
            WorldEvent::RestPoll(client, replica, kind, answer) => {
                self.polled(alloc, *client, *replica, *kind, *answer)
            }
            _ => self.drawn_on_stream(alloc, event),
        }
    }

    fn polled(
        &self,
        alloc: Global,
        client: u32,
        replica: u16,
        kind: TypeName,
        answer: AnswerFate,
    ) -> Result<Drawn, Refusal> {
        let verb = match answer {
            AnswerFate::Arrives => "rest",
            AnswerFate::Lost => "restlost",
        };
        Ok(Drawn {
            from: self.replica_at(replica),
            to: self.client_at(client),
            class: if answer == AnswerFate::Lost {
                Class::Gone
            } else {
                Class::Tell
            },
            label: typed(alloc, verb, kind)?,
        })
    }

    fn drawn_on_stream(&self, alloc: Global, event: &WorldEvent) -> Result<Drawn, Refusal> {
        match event {
            WorldEvent::Up(client) => {
                let label = String::from_str(alloc, "up")?;
                Ok(self.along(*client, true, label))
            }
            WorldEvent::Down(client) => {
                let label = String::from_str(alloc, "down")?;
                Ok(self.along(*client, false, label))
            }
            WorldEvent::Poll(client, kind) => {
                let label = poll_label(alloc, *client, *kind)?;
                Ok(mark(self.server_at(*client), Class::Tell, label))
            }
            WorldEvent::Lose(client) => {
                let label = String::from_str(alloc, "lose")?;
                Ok(mark(self.client_at(*client), Class::Gone, label))
            }
            _ => Ok(mark(FIRST, Class::Mark, String::new(alloc))),
        }
    }

    // What goes along a client's stream, up to its replica or down from it.
    fn along(&self, client: u32, is_up: bool, label: String) -> Drawn {
        let here = self.client_at(client);
        let there = self.server_at(client);
        if is_up {
            return Drawn {
                from: here,
                to: there,
                class: Class::Ask,
                label,
            };
        }
        Drawn {
            from: there,
            to: here,
            class: Class::Tell,
            label,
        }
    }

    fn rows(&mut self, alloc: Global, commands: &[Numbered]) -> Result<Vec<Row>, Refusal> {
        let mut rows = Vec::new(alloc);
        for numbered in commands.iter().take(MOST_ROWS) {
            self.note(&numbered.command)?;
            rows.push(self.row(alloc, numbered)?)?;
        }
        Ok(rows)
    }
}

// The name of a client's lane: its number and how it asks.
fn client_name(alloc: Global, commands: &[Numbered], client: u32) -> Result<String, Refusal> {
    for numbered in commands {
        if let Command::Event(WorldEvent::AddClient(number, kind, _)) = &numbered.command {
            if *number == client {
                let word = kind_word(*kind);
                return Ok(format!(in alloc; "client {client}, {word}")?);
            }
        }
    }
    Ok(format!(in alloc; "client {client}")?)
}

fn kind_word(kind: ClientKind) -> &'static str {
    match kind {
        ClientKind::Sotw => "sotw",
        ClientKind::Delta => "delta",
        ClientKind::Rest => "rest",
    }
}

fn mark(x: u64, class: Class, label: String) -> Drawn {
    Drawn {
        from: x,
        to: x,
        class,
        label,
    }
}

// The row of what is drawn, whose label is shortened.
fn row_of(alloc: Global, number: usize, drawn: Drawn) -> Result<Row, Refusal> {
    let Drawn {
        from,
        to,
        class,
        label,
    } = drawn;
    Ok(Row {
        number,
        from,
        to,
        class,
        label: excerpt(alloc, label.as_str(), MOST_IN_LABEL)?,
    })
}

fn typed(alloc: Global, verb: &str, kind: TypeName) -> Result<String, Refusal> {
    let word = kind.word();
    Ok(format!(in alloc; "{verb} {word}")?)
}

fn named(alloc: Global, verb: &str, kind: TypeName, name: &str) -> Result<String, Refusal> {
    let word = kind.word();
    Ok(format!(in alloc; "{verb} {word} {name}")?)
}

fn put_label(alloc: Global, resource: &AnyResource, groups: &Groups) -> Result<String, Refusal> {
    let mut label = named(alloc, "put", resource.type_name(), resource.name())?;
    for (i, group) in groups.texts().iter().enumerate() {
        label.push_str(if i == 0 { " for " } else { "," })?;
        label.push_str(group.as_str())?;
    }
    Ok(label)
}

fn comes_label(alloc: Global, cluster: &str) -> Result<String, Refusal> {
    if cluster.is_empty() {
        return Ok(String::from_str(alloc, "comes")?);
    }
    Ok(format!(in alloc; "comes, cluster {cluster}")?)
}

fn poll_label(alloc: Global, client: u32, kind: Option<TypeName>) -> Result<String, Refusal> {
    match kind {
        Some(kind) => {
            let word = kind.word();
            Ok(format!(in alloc; "poll {word} for client {client}")?)
        }
        None => Ok(format!(in alloc; "poll for client {client}")?),
    }
}

// Appends names, each behind a mark.
fn push_names(label: &mut String, mark: &str, names: &[String]) -> Result<(), Refusal> {
    for name in names {
        label.push_str(" ")?;
        label.push_str(mark)?;
        label.push_str(name.as_str())?;
    }
    Ok(())
}

// What a client wants from now on.
fn wish_label(alloc: Global, kind: TypeName, wish: &Wish) -> Result<String, Refusal> {
    match wish {
        Wish::Names(names) => {
            let mut label = typed(alloc, "names", kind)?;
            push_names(&mut label, "", names)?;
            Ok(label)
        }
        Wish::Edits(subscribe, unsubscribe) => {
            let mut label = typed(alloc, "change", kind)?;
            push_names(&mut label, "+", subscribe)?;
            push_names(&mut label, "-", unsubscribe)?;
            Ok(label)
        }
    }
}
