// The targets of requests to an operator's port.
ghost use Rattle.std.specs.Prelude.{◌≡◌, [], drop, map, string_bytes, IfOk, OnOk};
ghost use Rattle.xds_port.specs.Requests.{behind_mark, changes_target, resources_form, resources_target, with_names, with_replica, with_type};

use form_urlencoded::Serializer;
use std::alloc::Global;
use xds_resource::{Refusal, TypeName};

/// The target of a request for what replicas hold: of one replica, by its place, of one type, and of some names, as far as these are given.
/// They stand in its query as the text of a form (`application/x-www-form-urlencoded`). Refused only by `OutOfMemory`.
pub fn resources_target(
    alloc: Global,
    replica: Option<u16>,
    kind: Option<TypeName>,
    names: &[String],
) -> Result<String, Refusal>
    ensures { IfOk result (λ t. string_bytes t ≡ resources_target replica kind (map string_bytes names.now)) }
{
    let form = resources_form(alloc, replica, kind, names)?;
    behind_mark(alloc, form.as_str())
}

// The target of what a query's form chooses.
fn behind_mark(alloc: Global, form: &str) -> Result<String, Refusal>
    ensures { IfOk result (λ t. string_bytes t ≡ behind_mark form.now) }
{
    if form.is_empty() {
        return Ok(String::from_str(alloc, "/resources")?);
    }
    Ok(format!(in alloc; "/resources?{form}")?)
}

// The form of a query that chooses of what replicas hold.
fn resources_form(
    alloc: Global,
    replica: Option<u16>,
    kind: Option<TypeName>,
    names: &[String],
) -> Result<String, Refusal>
    ensures { IfOk result (λ t. string_bytes t ≡ resources_form replica kind (map string_bytes names.now)) }
{
    let mut form = Serializer::new(String::new(alloc));
    add_replica(alloc, &mut form, replica)?;
    add_type(&mut form, kind)?;
    add_names(&mut form, names)?;
    Ok(form.finish())
}

fn add_replica(alloc: Global, form: &mut Serializer, replica: Option<u16>) -> Result<(), Refusal>
    ensures { OnOk result (form.new ≡ record form.old { form = with_replica form.old.form replica }) }
{
    let Some(replica) = replica else {
        return Ok(());
    };
    let number = format!(in alloc; "{replica}")?;
    form.append_pair("replica", number.as_str())?;
    Ok(())
}

fn add_type(form: &mut Serializer, kind: Option<TypeName>) -> Result<(), Refusal>
    ensures { OnOk result (form.new ≡ record form.old { form = with_type form.old.form kind }) }
{
    let Some(kind) = kind else {
        return Ok(());
    };
    form.append_pair("type", kind.word())?;
    Ok(())
}

fn add_names(form: &mut Serializer, names: &[String]) -> Result<(), Refusal>
    ensures { OnOk result (form.new ≡ record form.old { form = with_names form.old.form (map string_bytes names.now) }) }
{
    for name in names {
        form.append_pair("name", name.as_str())?;
    }
    Ok(())
}

/// The target of changes, which are looked at alone, or made together, as is said.
pub fn changes_target(is_tried: bool, is_whole: bool) -> &'static str
    ensures { result.now ≡ changes_target is_tried is_whole }
{
    match (is_tried, is_whole) {
        (true, true) => "/changes?dry-run&all-or-nothing",
        (true, false) => "/changes?dry-run",
        (false, true) => "/changes?all-or-nothing",
        (false, false) => "/changes",
    }
}
