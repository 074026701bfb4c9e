// What the words behind the question mark of a request choose.
ghost use Rattle.std.specs.Prelude.{◌≡◌, ◌||◌, is_some, length, nat_lt};

use crate::wanting::replica_in;
use form_urlencoded::parse;
use std::alloc::Global;
use xds_resource::TypeName;

/// What is chosen of what replicas hold, and how changes are made.
#[derive(Drop)]
pub struct Choice {
    /// One replica, by its place; all, where there is none.
    pub replica: Option<u16>,
    /// One type; all, where there is none.
    pub kind: Option<TypeName>,
    /// Some names; all, where there are none.
    pub names: Vec<String>,
    /// Whether changes are looked at alone.
    pub is_tried: bool,
    /// Whether changes are made where all of them can be, or none is.
    pub is_whole: bool,
}

/// Why the words choose nothing.
#[derive(Clone, Copy, Debug, PartialEq, Eq)]
pub enum Unchosen {
    /// A word is none of those that may stand there.
    UnknownWord,
    /// The value of `replica` is no number from 1 to 65,535.
    NoNumber,
    /// The value of `type` is no type.
    UnknownType,
    /// There was no memory.
    NoMemory,
}

impl Unchosen {
    /// What is told of it.
    pub fn text(self) -> &'static str {
        match self {
            Unchosen::UnknownWord => {
                "unknown word behind the question mark: replica, type and name choose of /resources, dry-run and all-or-nothing of /changes\n"
            }
            Unchosen::NoNumber => "no number of a replica\n",
            Unchosen::UnknownType => "unknown type: cluster, endpoint, listener, route or secret\n",
            Unchosen::NoMemory => "8 OutOfMemory\n",
        }
    }
}

impl Choice {
    /// All is chosen.
    pub fn all(alloc: Global) -> Choice {
        Choice {
            replica: None,
            kind: None,
            names: Vec::new(alloc),
            is_tried: false,
            is_whole: false,
        }
    }

    /// Whether a type is chosen.
    pub fn has_type(&self, kind: TypeName) -> bool {
        match self.kind {
            Some(chosen) => chosen == kind,
            None => true,
        }
    }

    /// Whether a name is chosen.
    pub fn has_name(&self, name: &str) -> bool {
        for chosen in &self.names {
            if chosen.as_str() == name {
                return true;
            }
        }
        self.names.is_empty()
    }

    /// Whether a replica is chosen.
    pub fn has_replica(&self, replica: u16) -> bool {
        match self.replica {
            Some(chosen) => chosen == replica,
            None => true,
        }
    }

    /// Whether something is chosen of what replicas hold.
    pub fn is_of_resources(&self) -> bool
        ensures { result ≡ (is_some self.now.replica || is_some self.now.kind || nat_lt 0 (length self.now.names.items)) }
    {
        self.replica.is_some() || self.kind.is_some() || !self.names.is_empty()
    }

    /// Whether it is said how changes are made.
    pub fn is_of_changes(&self) -> bool
        ensures { result ≡ (self.now.is_tried || self.now.is_whole) }
    {
        self.is_tried || self.is_whole
    }

    // One name more.
    fn add_name(&mut self, alloc: Global, name: &str) -> Result<(), Unchosen> {
        let Ok(name) = String::from_str(alloc, name) else {
            return Err(Unchosen::NoMemory);
        };
        match self.names.push(name) {
            Ok(()) => Ok(()),
            Err(_) => Err(Unchosen::NoMemory),
        }
    }

    // One word more, with its value.
    fn choose(&mut self, alloc: Global, word: &str, value: &str) -> Result<(), Unchosen> {
        match word {
            "replica" => match replica_in(value) {
                Some(replica) => self.replica = Some(replica),
                None => return Err(Unchosen::NoNumber),
            },
            "type" => match TypeName::from_word(value) {
                Some(kind) => self.kind = Some(kind),
                None => return Err(Unchosen::UnknownType),
            },
            "name" => return self.add_name(alloc, value),
            "dry-run" => self.is_tried = true,
            "all-or-nothing" => self.is_whole = true,
            _ => return Err(Unchosen::UnknownWord),
        }
        Ok(())
    }
}

/// What the text behind a question mark chooses.
pub fn choice_in(alloc: Global, query: &str) -> Result<Choice, Unchosen> {
    let mut choice = Choice::all(alloc);
    for pair in parse(alloc, query.as_bytes()) {
        let Ok((word, value)) = pair else {
            return Err(Unchosen::NoMemory);
        };
        choice.choose(alloc, word.as_str(), value.as_str())?;
    }
    Ok(choice)
}
