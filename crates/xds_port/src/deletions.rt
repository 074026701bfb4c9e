// Lines that delete.
ghost use Rattle.std.specs.Prelude.{◌≡◌, ◌++◌, map, string_bytes, IfOk, IfErr, OnOk};
ghost use Rattle.std.specs.List.{list_all};
ghost use Rattle.xds_resource.specs.declared.refusal.Refusal.TheVariants.{OutOfMemory};
ghost use Rattle.xds_resource.specs.Refusals.{Gives};
ghost use Rattle.xds_port.specs.Deletions.{are_sayable, delete_line, delete_lines, deletions, is_apart, is_sayable};

use std::alloc::Global;
use xds_resource::{Refusal, TypeName};

/// The lines that delete resources of these names at a replica, in order, as a server takes changes. A name that is empty, or has a space
/// or what ends a line in it, can't be said there: then refused is `BadName`. Else refused is only `OutOfMemory`.
pub fn delete_lines(
    alloc: Global,
    replica: u16,
    kind: TypeName,
    names: &[String],
) -> Result<String, Refusal>
    ensures { Gives string_bytes result (delete_lines replica kind (map string_bytes names.now)) }
{
    if !are_sayable(names) {
        return Err(Refusal::BadName);
    }
    deletions(alloc, replica, kind, names)
}

// Whether each of these names can be said in a line.
fn are_sayable(names: &[String]) -> bool
    ensures { result ≡ are_sayable (map string_bytes names.now) }
{
    for name in names {
        if !is_sayable(name.as_str()) {
            return false;
        }
    }
    true
}

// Whether a name can be said in a line.
fn is_sayable(name: &str) -> bool
    ensures { result ≡ is_sayable name.now }
{
    !name.is_empty() && has_no_end(name.as_bytes())
}

// Whether no byte stands apart from words of a line.
fn has_no_end(bytes: &[u8]) -> bool
    ensures { result ≡ list_all is_apart bytes.now }
{
    for byte in bytes {
        if !is_apart(*byte) {
            return false;
        }
    }
    true
}

// Whether a byte ends no word of a line.
fn is_apart(byte: u8) -> bool
    ensures { result ≡ is_apart byte }
{
    byte != b' ' && byte != b'\n' && byte != b'\r'
}

// The lines that delete resources of these names.
fn deletions(
    alloc: Global,
    replica: u16,
    kind: TypeName,
    names: &[String],
) -> Result<String, Refusal>
    ensures lines { IfOk result (λ t. string_bytes t ≡ deletions replica kind (map string_bytes names.now)) }
    ensures refused { IfErr result (λ e. e ≡ OutOfMemory) }
{
    let mut text = String::new(alloc);
    for name in names {
        push_line(alloc, &mut text, replica, kind, name.as_str())?;
    }
    Ok(text)
}

fn push_line(
    alloc: Global,
    text: &mut String,
    replica: u16,
    kind: TypeName,
    name: &str,
) -> Result<(), Refusal>
    ensures line { OnOk result (string_bytes text.new ≡ string_bytes text.old ++ delete_line replica kind name.now) }
    ensures refused { IfErr result (λ e. e ≡ OutOfMemory) }
{
    let kind = kind.word();
    let line = format!(in alloc; "delete {replica} {kind} {name}\n")?;
    text.push_str(line.as_str())?;
    Ok(())
}
