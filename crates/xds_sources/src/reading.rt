// The resources that the files of a folder say.
use crate::fault::{FilePlace, SourceFault, Wrong};
use crate::keys::key_of;
use serde_json::{Category, Value};
use std::alloc::Global;
use std::str;
use xds_resource::{AnyResource, NameMap, Refusal, TypeName};

/// As many bytes as all files of a folder have together, at most.
pub const MAX_SOURCES: usize = 67_108_864;

/// A file of a folder.
#[derive(Drop)]
pub struct SourceFile {
    pub name: String,
    pub bytes: Vec<u8>,
}

/// A resource that a file says.
#[derive(Drop)]
pub struct FileResource {
    pub resource: AnyResource,
    /// The place of the file among the files, from 0.
    pub file: usize,
}

/// Whether a file of this name says resources: its name ends in `.json` or `.jsonl`, and begins with no dot.
pub fn is_source(name: &str) -> bool {
    !name.starts_with('.') && (name.ends_with(".json") || name.ends_with(".jsonl"))
}

/// All resources of some files, each by its type and name. The first thing that is wrong is told, by the order of the files.
pub fn read_sources(
    alloc: Global,
    files: &[SourceFile],
) -> Result<NameMap<FileResource>, SourceFault> {
    let mut wanted = NameMap::new(alloc);
    for (index, file) in files.iter().enumerate() {
        read_file(alloc, &mut wanted, index, file)?;
    }
    Ok(wanted)
}

// Adds the resources of a file: each line's, or those of one text of JSON.
fn read_file(
    alloc: Global,
    wanted: &mut NameMap<FileResource>,
    index: usize,
    file: &SourceFile,
) -> Result<(), SourceFault> {
    let Ok(text) = str::from_utf8(file.bytes.as_slice()) else {
        return Err(SourceFault {
            file: index,
            place: FilePlace::Whole,
            wrong: Wrong::NotUtf8,
        });
    };
    if file.name.as_str().ends_with(".jsonl") {
        read_lines(alloc, wanted, index, text)
    } else {
        read_listed(alloc, wanted, index, text)
    }
}

// Adds the resource of each line that isn't empty.
fn read_lines(
    alloc: Global,
    wanted: &mut NameMap<FileResource>,
    index: usize,
    text: &str,
) -> Result<(), SourceFault> {
    let mut number = 0u64;
    for line in text.split('\n') {
        number = number.saturating_add(1);
        if !line.trim().is_empty() {
            let place = FilePlace::Line(number);
            let value = value_in(alloc, index, Some(number), line)?;
            add_value(alloc, wanted, index, place, value)?;
        }
    }
    Ok(())
}

// Adds the resources that a text of JSON lists, or the one that it is.
fn read_listed(
    alloc: Global,
    wanted: &mut NameMap<FileResource>,
    index: usize,
    text: &str,
) -> Result<(), SourceFault> {
    let value = value_in(alloc, index, None, text)?;
    let listed = match listed_in(alloc, value) {
        Ok(listed) => listed,
        Err(_) => return Err(SourceFault::memory(index)),
    };
    let mut number = 0u64;
    for value in listed {
        number = number.saturating_add(1);
        add_value(alloc, wanted, index, FilePlace::Resource(number), value)?;
    }
    Ok(())
}

// The value of a text of JSON, which is this line of its file, or else all of it.
fn value_in(
    alloc: Global,
    file: usize,
    line: Option<u64>,
    text: &str,
) -> Result<Value, SourceFault> {
    match Value::from_str(alloc, text) {
        Ok(value) => Ok(value),
        Err(error) => {
            let line = match line {
                Some(line) => line,
                None => error.line() as u64,
            };
            let refusal = if error.classify() == Category::Memory {
                Refusal::OutOfMemory
            } else {
                Refusal::NotJson
            };
            Err(SourceFault {
                file,
                place: FilePlace::Line(line),
                wrong: Wrong::Refused(refusal),
            })
        }
    }
}

// The values that a value lists: the items of a list, those of the field `resources` of an object that has no `@type`, or the value alone.
fn listed_in(alloc: Global, value: Value) -> Result<Vec<Value>, Refusal> {
    match value {
        Value::Array(items) => Ok(items),
        Value::Object(_) => listed_at(alloc, value),
        value => alone(alloc, value),
    }
}

fn listed_at(alloc: Global, value: Value) -> Result<Vec<Value>, Refusal> {
    if value.get("@type").is_none() {
        if let Some(items) = value.get("resources").and_then(Value::as_array) {
            let items = items.clone()?;
            drop(value);
            return Ok(items);
        }
    }
    alone(alloc, value)
}

fn alone(alloc: Global, value: Value) -> Result<Vec<Value>, Refusal> {
    let mut items = Vec::new(alloc);
    items.push(value)?;
    Ok(items)
}

// Adds the resource that a value is.
fn add_value(
    alloc: Global,
    wanted: &mut NameMap<FileResource>,
    file: usize,
    place: FilePlace,
    value: Value,
) -> Result<(), SourceFault> {
    let resource = match resource_of(alloc, value) {
        Ok(resource) => resource,
        Err(wrong) => return Err(SourceFault { file, place, wrong }),
    };
    match add(alloc, wanted, file, resource) {
        Ok(()) => Ok(()),
        Err(wrong) => Err(SourceFault { file, place, wrong }),
    }
}

// The resource that a value is, or why it is none.
fn resource_of(alloc: Global, value: Value) -> Result<AnyResource, Wrong> {
    let Some(kind) = type_of(&value) else {
        drop(value);
        return Err(Wrong::NoType);
    };
    let is_named = has_name(&value, kind);
    match AnyResource::from_value(alloc, kind, value) {
        Ok(resource) => Ok(resource),
        Err(Refusal::BadResource) if !is_named => Err(Wrong::NoName(kind)),
        Err(refusal) => Err(Wrong::Refused(refusal)),
    }
}

// The type that the value's `@type` names.
fn type_of(value: &Value) -> Option<TypeName> {
    match value.get("@type") {
        Some(Value::String(url)) => TypeName::from_url(url.as_str()),
        _ => None,
    }
}

// Whether the field that names a resource of the type is a text, where there is one.
fn has_name(value: &Value, kind: TypeName) -> bool {
    let found = match value.get(kind.name_field()) {
        Some(found) => Some(found),
        None => value.get(kind.proto_name_field()),
    };
    match found {
        Some(Value::String(_) | Value::Null) | None => true,
        Some(_) => false,
    }
}

// Adds a resource of a file, unless there is one of its type and name.
fn add(
    alloc: Global,
    wanted: &mut NameMap<FileResource>,
    file: usize,
    resource: AnyResource,
) -> Result<(), Wrong> {
    let kind = resource.type_name();
    let key = match key_of(alloc, kind, resource.name()) {
        Ok(key) => key,
        Err(refusal) => {
            drop(resource);
            return Err(Wrong::Refused(refusal));
        }
    };
    if let Some(other) = wanted.get(key.as_str()) {
        let first = other.file;
        return Err(twice(alloc, kind, resource, first));
    }
    match wanted.insert(key, FileResource { resource, file }) {
        Ok(old) => {
            drop(old);
            Ok(())
        }
        Err(refusal) => Err(Wrong::Refused(refusal)),
    }
}

fn twice(alloc: Global, kind: TypeName, resource: AnyResource, first: usize) -> Wrong {
    let name = String::from_str(alloc, resource.name());
    drop(resource);
    match name {
        Ok(name) => Wrong::Twice(kind, name, first),
        Err(_) => Wrong::Refused(Refusal::OutOfMemory),
    }
}
