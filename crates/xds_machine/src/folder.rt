// The files of a folder that say resources, as they lie there.
use crate::files::FileFault;
use std::alloc::Global;
use std::collections::BTreeSet;
use std::fs;
use std::fs::File;
use std::io::Read;
use std::os::unix::fs::MetadataExt;
use std::rt::HostRuntime;
use xds_resource::Refusal;
use xds_sources::{MAX_SOURCES, SourceFile, is_source};

/// Why a folder, or a file of it, isn't read.
#[derive(Drop)]
pub enum Unread {
    /// The folder can't be read.
    Folder(FileFault),
    /// The file of this name can't be read.
    File(String, FileFault),
    /// With the file of this name its files have more bytes than they may.
    TooMuch(String),
    /// There is no memory.
    NoMemory,
}

/// What reads the folders of a machine.
pub trait ReadsFolders {
    /// The names of the files of a folder that say resources, in ascending order.
    fn names_in(&self, alloc: Global, path: &str) -> Result<BTreeSet<String>, Unread>;

    /// How a file lies in its folder: a line with its name, its size, when it was changed, and its number.
    fn sight_of(&self, alloc: Global, path: &str, name: &str) -> Result<String, Unread>;

    /// The bytes of a file of a folder, which are at most so many.
    fn bytes_of(
        &self,
        alloc: Global,
        path: &str,
        name: &str,
        most: usize,
    ) -> Result<Vec<u8>, Unread>;
}

impl ReadsFolders for HostRuntime {
    fn names_in(&self, alloc: Global, path: &str) -> Result<BTreeSet<String>, Unread> {
        let mut names = BTreeSet::new(alloc);
        let listing = match fs::read_dir(self, path) {
            Ok(listing) => listing,
            Err(error) => return Err(Unread::Folder(FileFault::of(error.kind()))),
        };
        for entry in listing {
            match entry {
                Ok(entry) => add_name(alloc, &mut names, entry.file_name())?,
                Err(error) => return Err(Unread::Folder(FileFault::of(error.kind()))),
            }
        }
        Ok(names)
    }

    fn sight_of(&self, alloc: Global, path: &str, name: &str) -> Result<String, Unread> {
        let whole = path_of(alloc, path, name)?;
        let metadata = match fs::metadata(self, whole.as_str()) {
            Ok(metadata) => metadata,
            Err(error) => return Err(file_unread(alloc, name, FileFault::of(error.kind()))),
        };
        let size = metadata.len();
        let seconds = metadata.mtime();
        let nanos = metadata.mtime_nsec();
        let number = metadata.ino();
        match format!(in alloc; "{name} {size} {seconds} {nanos} {number}\n") {
            Ok(sight) => Ok(sight),
            Err(_) => Err(Unread::NoMemory),
        }
    }

    fn bytes_of(
        &self,
        alloc: Global,
        path: &str,
        name: &str,
        most: usize,
    ) -> Result<Vec<u8>, Unread> {
        let whole = path_of(alloc, path, name)?;
        match fs::metadata(self, whole.as_str()) {
            Ok(metadata) if metadata.len() > most as u64 => return Err(too_much(alloc, name)),
            _ => {}
        }
        let opened = match File::open(self, whole.as_str()) {
            Ok(opened) => opened,
            Err(error) => return Err(file_unread(alloc, name, FileFault::of(error.kind()))),
        };
        let mut bytes = Vec::new(alloc);
        let mut limited = opened.take((most as u64).saturating_add(1));
        match limited.read_to_end(&mut bytes) {
            Ok(_) if bytes.len() <= most => Ok(bytes),
            Ok(_) => Err(too_much(alloc, name)),
            Err(error) => Err(file_unread(alloc, name, FileFault::of(error.kind()))),
        }
    }
}

// Adds the name of a file that says resources.
fn add_name(alloc: Global, names: &mut BTreeSet<String>, name: &str) -> Result<(), Unread> {
    if !is_source(name) {
        return Ok(());
    }
    let Ok(name) = String::from_str(alloc, name) else {
        return Err(Unread::NoMemory);
    };
    match names.insert(name) {
        Ok(_) => Ok(()),
        Err(_) => Err(Unread::NoMemory),
    }
}

fn path_of(alloc: Global, path: &str, name: &str) -> Result<String, Unread> {
    match format!(in alloc; "{path}/{name}") {
        Ok(whole) => Ok(whole),
        Err(_) => Err(Unread::NoMemory),
    }
}

fn file_unread(alloc: Global, name: &str, fault: FileFault) -> Unread {
    match String::from_str(alloc, name) {
        Ok(name) => Unread::File(name, fault),
        Err(_) => Unread::NoMemory,
    }
}

fn too_much(alloc: Global, name: &str) -> Unread {
    match String::from_str(alloc, name) {
        Ok(name) => Unread::TooMuch(name),
        Err(_) => Unread::NoMemory,
    }
}

/// How the files of a folder lie there: a line for each that says resources, in ascending order of their names.
pub fn sight_in<R: ReadsFolders>(rt: &R, alloc: Global, path: &str) -> Result<String, Unread> {
    let names = rt.names_in(alloc, path)?;
    let mut sight = String::new(alloc);
    for name in &names {
        let one = rt.sight_of(alloc, path, name.as_str())?;
        if sight.push_str(one.as_str()).is_err() {
            return Err(Unread::NoMemory);
        }
    }
    Ok(sight)
}

/// The files of a folder that say resources, in ascending order of their names.
pub fn files_in<R: ReadsFolders>(
    rt: &R,
    alloc: Global,
    path: &str,
) -> Result<Vec<SourceFile>, Unread> {
    let names = rt.names_in(alloc, path)?;
    let mut files = Vec::new(alloc);
    let mut most = MAX_SOURCES;
    for name in &names {
        let bytes = rt.bytes_of(alloc, path, name.as_str(), most)?;
        most = most.saturating_sub(bytes.len());
        push_file(alloc, &mut files, name.as_str(), bytes)?;
    }
    Ok(files)
}

fn push_file(
    alloc: Global,
    files: &mut Vec<SourceFile>,
    name: &str,
    bytes: Vec<u8>,
) -> Result<(), Unread> {
    let Ok(name) = String::from_str(alloc, name) else {
        return Err(Unread::NoMemory);
    };
    match files.push(SourceFile { name, bytes }) {
        Ok(()) => Ok(()),
        Err(_) => Err(Unread::NoMemory),
    }
}

impl Unread {
    /// How it is told, of a folder at this path.
    pub fn text(&self, alloc: Global, path: &str) -> Result<String, Refusal> {
        match self {
            Unread::Folder(fault) => {
                let why = folder_fault(*fault);
                Ok(format!(in alloc; "{path}: 19 Device{why}")?)
            }
            Unread::File(name, fault) => {
                let why = fault.text();
                let name = name.as_str();
                Ok(format!(in alloc; "{path}/{name}: 19 Device{why}")?)
            }
            Unread::TooMuch(name) => {
                let name = name.as_str();
                let most = MAX_SOURCES;
                Ok(format!(in alloc;
                    "{path}/{name}: 6 TooLong: the files of a folder have at most {most} bytes together"
                )?)
            }
            Unread::NoMemory => Ok(format!(in alloc; "{path}: 8 OutOfMemory")?),
        }
    }
}

// What is told of a folder that can't be read, behind the refusal.
fn folder_fault(fault: FileFault) -> &'static str {
    match fault {
        FileFault::NoFile => ": no such folder",
        FileFault::Forbidden => ": not allowed",
        FileFault::Unknown => "",
    }
}
