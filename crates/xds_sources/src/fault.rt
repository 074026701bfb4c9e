// What is wrong in a folder of files.
use std::alloc::Global;
use xds_resource::{Refusal, TypeName};

/// Where in a file something is wrong.
#[derive(Clone, Copy, Debug, PartialEq, Eq)]
pub enum FilePlace {
    /// In the file as a whole.
    Whole,
    /// In a line, from 1.
    Line(u64),
    /// In a resource among those of the file, from 1.
    Resource(u64),
}

/// What is wrong.
#[derive(Drop)]
pub enum Wrong {
    /// It is no text in UTF-8.
    NotUtf8,
    /// It is refused so.
    Refused(Refusal),
    /// The field `@type` is none of the five types' URLs, or there is none.
    NoType,
    /// The field that names a resource of the type is no text.
    NoName(TypeName),
    /// A resource of this type and name stands in the file at this place already.
    Twice(TypeName, String, usize),
    /// All files together have more bytes than they may.
    TooMuch,
}

/// Something wrong in a file, by its place among the files, from 0.
#[derive(Drop)]
pub struct SourceFault {
    pub file: usize,
    pub place: FilePlace,
    pub wrong: Wrong,
}

impl SourceFault {
    /// There is no memory.
    pub(crate) fn memory(file: usize) -> SourceFault {
        SourceFault {
            file,
            place: FilePlace::Whole,
            wrong: Wrong::Refused(Refusal::OutOfMemory),
        }
    }
}

impl FilePlace {
    /// How it is told, before what is wrong there.
    pub fn text(self, alloc: Global) -> Result<String, Refusal> {
        match self {
            FilePlace::Whole => Ok(String::new(alloc)),
            FilePlace::Line(line) => Ok(format!(in alloc; "line {line}: ")?),
            FilePlace::Resource(number) => Ok(format!(in alloc; "resource {number}: ")?),
        }
    }
}

impl Wrong {
    /// How it is told, where this is the name of the file in which the resource stands first.
    pub fn text(&self, alloc: Global, first: &str) -> Result<String, Refusal> {
        match self {
            Wrong::NotUtf8 => Ok(String::from_str(alloc, "not UTF-8")?),
            Wrong::Refused(refusal) => refused_text(alloc, *refusal),
            Wrong::NoType => Ok(String::from_str(
                alloc,
                "4 BadResource: the field @type names none of the five types",
            )?),
            Wrong::NoName(kind) => unnamed_text(alloc, *kind),
            Wrong::Twice(kind, name, _) => twice_text(alloc, *kind, name.as_str(), first),
            Wrong::TooMuch => Ok(String::from_str(
                alloc,
                "6 TooLong: the files of a folder have at most 67108864 bytes together",
            )?),
        }
    }
}

fn refused_text(alloc: Global, refusal: Refusal) -> Result<String, Refusal> {
    let number = refusal.number();
    let name = refusal.name();
    Ok(format!(in alloc; "{number} {name}")?)
}

fn unnamed_text(alloc: Global, kind: TypeName) -> Result<String, Refusal> {
    let field = kind.proto_name_field();
    Ok(format!(in alloc; "4 BadResource: the field {field} is no text")?)
}

fn twice_text(alloc: Global, kind: TypeName, name: &str, first: &str) -> Result<String, Refusal> {
    let word = kind.word();
    Ok(format!(in alloc; "{word} {name} stands in {first} already")?)
}
