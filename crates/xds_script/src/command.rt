// Commands of scripts: what a verb says with the words behind it.
ghost use Rattle.std.specs.Prelude.{◌≡◌};
ghost use Rattle.xds_script.specs.Commands.{verb_of};

use crate::event::WorldEvent;
use xds_resource::TypeName;

/// What a line of a script says.
#[derive(Drop)]
pub enum Command {
    /// Something happens.
    Event(WorldEvent),
    /// A client is settled of a type.
    Settle(u32, TypeName),
    /// What a client shows of a type is printed.
    View(u32, TypeName),
    /// What is live of a type at a replica is printed.
    Content(u16, TypeName),
}

/// The first word of a line, which says what kind of command it is.
#[derive(Clone, Copy, Debug, PartialEq, Eq)]
pub enum CommandVerb {
    Replica,
    Client,
    Put,
    PutIn,
    Delete,
    Snapshot,
    Merge,
    Connect,
    Names,
    Change,
    Up,
    Down,
    Lose,
    Poll,
    Rest,
    RestLost,
    Settle,
    View,
    Content,
}

impl CommandVerb {
    /// The verb that is this word, if there is one.
    pub fn from_word(word: &str) -> Option<CommandVerb>
        ensures { result ≡ verb_of word.now }
    {
        match word {
            "replica" => Some(CommandVerb::Replica),
            "client" => Some(CommandVerb::Client),
            "put" => Some(CommandVerb::Put),
            "putin" => Some(CommandVerb::PutIn),
            "delete" => Some(CommandVerb::Delete),
            "snapshot" => Some(CommandVerb::Snapshot),
            "merge" => Some(CommandVerb::Merge),
            "connect" => Some(CommandVerb::Connect),
            "names" => Some(CommandVerb::Names),
            "change" => Some(CommandVerb::Change),
            "up" => Some(CommandVerb::Up),
            "down" => Some(CommandVerb::Down),
            "lose" => Some(CommandVerb::Lose),
            "poll" => Some(CommandVerb::Poll),
            "rest" => Some(CommandVerb::Rest),
            "restlost" => Some(CommandVerb::RestLost),
            "settle" => Some(CommandVerb::Settle),
            "view" => Some(CommandVerb::View),
            "content" => Some(CommandVerb::Content),
            _ => None,
        }
    }
}
