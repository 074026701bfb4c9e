// Lines of what a client shows and of what a replica holds live.
ghost use Rattle.std.specs.Prelude.{◌≡◌, ◌++◌, IfOk, IfErr, OnOk, List, map, filter, string_bytes, is_some};
ghost use Rattle.std.specs.FinMap as finmap;
ghost use Rattle.xds_resource.specs.declared.refusal.Refusal.TheVariants.{OutOfMemory};
ghost use Rattle.xds_resource.specs.Writes.{StampedWrite};
ghost use Rattle.xds_cache.specs.Shelves as shelves;
ghost use Rattle.xds_catalogue.specs.Content.{is_live};
ghost use Rattle.xds_play.specs.Shown.{holding_line, holding_lines, view_head, view_text, write_line, write_lines, content_head, content_text};

use std::alloc::Global;
use xds_cache::{Cache, Holding};
use xds_resource::{Refusal, ResourceType, TypeName, Write};
use xds_script::ClientKind;

/// Adds a client's view of a type to the text. `state` is the word for how the client stands to the type.
pub fn show_view(
    alloc: Global,
    text: &mut String,
    client: u32,
    kind: TypeName,
    state: &str,
    variant: ClientKind,
    view: &Cache,
) -> Result<(), Refusal>
    ensures shown { OnOk result (string_bytes text.new ≡ string_bytes text.old ++ view_text client kind state.now variant view.now) }
    ensures refused { IfErr result (λ e. e ≡ OutOfMemory) }
{
    let held = held_in(alloc, view)?;
    let head = view_head(alloc, client, kind, state, held.len())?;
    text.push_str(head.as_str())?;
    push_holdings(text, variant, &held)
}

// What a view holds, in the order of names.
fn held_in(alloc: Global, view: &Cache) -> Result<Vec<&Holding>, Refusal>
    ensures ok { IfOk result (λ v. map (λ h. h.now) v.items ≡ finmap.values view.now) }
    ensures refused { IfErr result (λ e. e ≡ OutOfMemory) }
{
    let mut held = Vec::new(alloc);
    for (_name, holding) in view.iter() {
        held.push(holding)?;
    }
    Ok(held)
}

fn view_head(
    alloc: Global,
    client: u32,
    kind: TypeName,
    state: &str,
    count: usize,
) -> Result<String, Refusal>
    ensures head { IfOk result (λ s. string_bytes s ≡ view_head client kind state.now count) }
    ensures refused { IfErr result (λ e. e ≡ OutOfMemory) }
{
    let word = kind.word();
    Ok(format!(in alloc; "view {client} {word} {state} {count}\n")?)
}

// Adds a line for each resource that a client holds.
fn push_holdings(
    text: &mut String,
    variant: ClientKind,
    held: &Vec<&Holding>,
) -> Result<(), Refusal>
    ensures lines { OnOk result (string_bytes text.new ≡ string_bytes text.old ++ holding_lines variant (map (λ h. h.now) held.now.items)) }
    ensures refused { IfErr result (λ e. e ≡ OutOfMemory) }
{
    for holding in held {
        push_holding(text, variant, holding)?;
    }
    Ok(())
}

// Adds a line for a resource that a client holds.
fn push_holding(text: &mut String, variant: ClientKind, holding: &Holding) -> Result<(), Refusal>
    ensures line { OnOk result (string_bytes text.new ≡ string_bytes text.old ++ holding_line variant holding.now) }
    ensures refused { IfErr result (λ e. e ≡ OutOfMemory) }
{
    match variant {
        ClientKind::Sotw | ClientKind::Rest => {}
        ClientKind::Delta => {
            text.push_str(holding.version())?;
            text.push_str(" ")?;
        }
    }
    text.push_str(holding.body())?;
    text.push_str("\n")?;
    Ok(())
}

/// Adds a replica's live content of a type to the text, out of all writes that the replica holds of it.
pub fn show_content<T: ResourceType>(
    alloc: Global,
    text: &mut String,
    replica: u16,
    writes: &Vec<Write<T>>,
) -> Result<(), Refusal>
    ensures shown { OnOk result (string_bytes text.new ≡ string_bytes text.old ++ content_text replica T.TYPE writes.now.items) }
    ensures refused { IfErr result (λ e. e ≡ OutOfMemory) }
{
    let live = live_among(alloc, writes)?;
    let head = content_head(alloc, replica, T::TYPE, live.len())?;
    text.push_str(head.as_str())?;
    push_writes(alloc, text, &live)
}

// rule: tombstones
// The writes that put a resource.
fn live_among<T: ResourceType>(
    alloc: Global,
    writes: &Vec<Write<T>>,
) -> Result<Vec<&Write<T>>, Refusal>
    ensures ok { IfOk result (λ v. map (λ w. w.now) v.items ≡ filter is_live writes.now.items) }
    ensures refused { IfErr result (λ e. e ≡ OutOfMemory) }
{
    let mut live = Vec::new(alloc);
    for write in writes {
        if write.body().is_some() {
            live.push(write)?;
        }
    }
    Ok(live)
}

fn content_head(
    alloc: Global,
    replica: u16,
    kind: TypeName,
    count: usize,
) -> Result<String, Refusal>
    ensures head { IfOk result (λ s. string_bytes s ≡ content_head replica kind count) }
    ensures refused { IfErr result (λ e. e ≡ OutOfMemory) }
{
    let word = kind.word();
    Ok(format!(in alloc; "content {replica} {word} {count}\n")?)
}

// Adds a line for each write, all of which put a resource.
fn push_writes<T: ResourceType>(
    alloc: Global,
    text: &mut String,
    writes: &Vec<&Write<T>>,
) -> Result<(), Refusal>
    ensures lines { OnOk result (string_bytes text.new ≡ string_bytes text.old ++ write_lines (map (λ w. w.now) writes.now.items)) }
    ensures refused { IfErr result (λ e. e ≡ OutOfMemory) }
{
    for write in writes {
        push_write(alloc, text, write)?;
    }
    Ok(())
}

// Adds a line for a write that puts a resource.
fn push_write<T: ResourceType>(
    alloc: Global,
    text: &mut String,
    write: &Write<T>,
) -> Result<(), Refusal>
    ensures line { OnOk result (string_bytes text.new ≡ string_bytes text.old ++ write_line write.now) }
    ensures refused { IfErr result (λ e. e ≡ OutOfMemory) }
{
    let version = write.stamp().version_text(alloc)?;
    text.push_str(version.as_str())?;
    text.push_str(" ")?;
    text.push_str(write.body().unwrap_or(""))?;
    text.push_str("\n")?;
    Ok(())
}
