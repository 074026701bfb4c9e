// The lines that are printed of a response.
ghost use Rattle.std.specs.Prelude.{◌≡◌, ◌++◌, IfOk, IfErr, OnOk, string_bytes};
ghost use Rattle.xds_resource.specs.declared.refusal.Refusal.TheVariants.{OutOfMemory};
ghost use Rattle.xds_client.specs.Lines.{answer_line, holding_line, view_lines};

use crate::subscription::StreamVariant;
use std::alloc::Global;
use xds_cache::{Cache, Holding};
use xds_resource::Refusal;

// Adds a line for a resource that is held.
fn push_holding(text: &mut String, variant: StreamVariant, holding: &Holding) -> Result<(), Refusal>
    ensures line { OnOk result (string_bytes text.new ≡ string_bytes text.old ++ holding_line variant holding.now) }
    ensures refused { IfErr result (λ e. e ≡ OutOfMemory) }
{
    match variant {
        StreamVariant::Sotw => {}
        StreamVariant::Delta => {
            text.push_str(holding.version())?;
            text.push_str(" ")?;
        }
    }
    text.push_str(holding.body())?;
    text.push_str("\n")?;
    Ok(())
}

// Adds a line for each resource that is held, in the order of names.
fn push_view(text: &mut String, variant: StreamVariant, view: &Cache) -> Result<(), Refusal>
    ensures lines { OnOk result (string_bytes text.new ≡ string_bytes text.old ++ view_lines variant view.now) }
    ensures refused { IfErr result (λ e. e ≡ OutOfMemory) }
{
    for (_name, holding) in view.iter() {
        push_holding(text, variant, holding)?;
    }
    Ok(())
}

/// What is printed of a response: whether it was refused, and what is held then.
pub(crate) fn lines_of(
    alloc: Global,
    variant: StreamVariant,
    nonce: &str,
    refused: bool,
    view: &Cache,
) -> Result<String, Refusal>
    ensures lines { IfOk result (λ s. string_bytes s ≡ answer_line refused nonce.now ++ view_lines variant view.now) }
    ensures refused { IfErr result (λ e. e ≡ OutOfMemory) }
{
    let mut text = String::new(alloc);
    text.push_str(if refused { "refused " } else { "taken " })?;
    text.push_str(nonce)?;
    text.push_str("\n")?;
    push_view(&mut text, variant, view)?;
    Ok(text)
}
