// What a replica holds, as lines of the server's input.
ghost use Rattle.std.specs.Prelude.{◌≡◌, ◌++◌, map, string_bytes, IfOk, OnOk};
ghost use Rattle.xds_changes.specs.Contents.{groups_behind, groups_word, put_line};

use crate::choice::Choice;
use std::alloc::Global;
use xds_message::Batch;
use xds_resource::{Groups, Refusal, ResourceType, Write};

/// The line that puts a resource of this body at a replica, for these groups.
pub fn put_line(alloc: Global, replica: u16, groups: &Groups, body: &str) -> Result<String, Refusal>
    ensures { IfOk result (λ t. string_bytes t ≡ put_line replica groups.now body.now) }
{
    let texts = groups.texts();
    let Some((first, behind)) = texts.split_first() else {
        return Ok(format!(in alloc; "put {replica} {body}\n")?);
    };
    let mut word = String::from_str(alloc, first.as_str())?;
    push_behind(&mut word, behind)?;
    let word = word.as_str();
    Ok(format!(in alloc; "putin {replica} {word} {body}\n")?)
}

// Appends groups, each behind a comma.
fn push_behind(word: &mut String, groups: &[String]) -> Result<(), Refusal>
    ensures { OnOk result (string_bytes word.new ≡ string_bytes word.old ++ groups_behind (map string_bytes groups.now)) }
{
    for group in groups {
        word.push_str(",")?;
        word.push_str(group.as_str())?;
    }
    Ok(())
}

/// Appends the lines that put what a replica holds, as far as it is chosen: those of a type in ascending order of names.
pub fn push_content(
    alloc: Global,
    text: &mut String,
    replica: u16,
    held: &Batch,
    choice: &Choice,
) -> Result<(), Refusal> {
    push_type(alloc, text, replica, held.cluster.as_slice(), choice)?;
    push_type(alloc, text, replica, held.endpoint.as_slice(), choice)?;
    push_type(alloc, text, replica, held.listener.as_slice(), choice)?;
    push_type(alloc, text, replica, held.route.as_slice(), choice)?;
    push_type(alloc, text, replica, held.secret.as_slice(), choice)
}

fn push_type<T: ResourceType>(
    alloc: Global,
    text: &mut String,
    replica: u16,
    writes: &[Write<T>],
    choice: &Choice,
) -> Result<(), Refusal> {
    if !choice.has_type(T::TYPE) {
        return Ok(());
    }
    for write in writes {
        push_write(alloc, text, replica, write, choice)?;
    }
    Ok(())
}

fn push_write<T: ResourceType>(
    alloc: Global,
    text: &mut String,
    replica: u16,
    write: &Write<T>,
    choice: &Choice,
) -> Result<(), Refusal> {
    let Some(body) = write.body() else {
        return Ok(());
    };
    if !choice.has_name(write.name()) {
        return Ok(());
    }
    let line = put_line(alloc, replica, write.groups(), body)?;
    text.push_str(line.as_str())?;
    Ok(())
}
