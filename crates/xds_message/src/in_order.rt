// Writes whose JSON is in order, as nearly all that machines write is. They are read with no value made of it.
ghost use Rattle.std.specs.Prelude.{◌≡◌, ◌≤◌, suc, true, Some, Ok, codes, IfSome};
ghost use Rattle.json.specs.Tree.{depth as nesting};
ghost use Rattle.json.specs.Value.{value_view};
ghost use Rattle.serde_json.specs.Data.{Data, number, string, unsigned};
ghost use Rattle.serde_json.specs.Find.{get};
ghost use Rattle.xds_json.specs.Ordered.{IsOrdered, meaning};
ghost use Rattle.xds_resource.specs.Any.{write_type, stamped_write};
ghost use Rattle.xds_resource.specs.Fields.{field};
ghost use Rattle.xds_resource.specs.Resources.{max_nesting, from_value, type_text, resource_name, is_valid_name as is_valid};
ghost use Rattle.xds_resource.specs.Types.{row};
ghost use Rattle.xds_json.specs.Spelling.{IsJson};
ghost use Rattle.xds_message.specs.StampedWrites.{AreGroups, SpellsWrite};

use crate::writes::groups_from;
use json::{Scratch, Value};
use std::alloc::Global;
use xds_json::{find_member, read_ordered, text_in, text_of, texts_in, whole_number};
use xds_resource::resource::{MAX_NESTING, MAX_TEXT, is_valid_name};
use xds_resource::stamp::MAX_COUNTER;
use xds_resource::{AnyWrite, Groups, Resource, ResourceType, Stamp, TypeName, Write};

/// The write that the bytes spell, if it puts a resource, and all is in order. None for all that has to be read otherwise.
pub(crate) fn write_in_order(alloc: Global, scratch: &mut Scratch, bytes: &[u8]) -> Option<AnyWrite>
    ensures { IfSome result
        (λ w. (d : Data) × IsJson bytes.now d × SpellsWrite d (write_type w) (stamped_write w)) }
{
    let Ok(text) = simdutf8::compat::from_utf8(bytes) else {
        return None;
    };
    let value = read_ordered(alloc, text, scratch, MAX_NESTING + 1)?;
    any_put_in(alloc, &value, bytes.len())
}

// The write that JSON spells, if it puts a resource. `room` is about how long the resource's text is.
pub(crate) fn any_put_in(alloc: Global, value: &Value<'_>, room: usize) -> Option<AnyWrite>
    requires ordered { IsOrdered (value_view value.now) }
    requires shallow { nesting (value_view value.now) ≤ suc max_nesting }
    ensures { IfSome result (λ w. SpellsWrite (meaning (value_view value.now)) (write_type w) (stamped_write w)) }
{
    match type_in(value)? {
        TypeName::Cluster => Some(AnyWrite::Cluster(put_in(alloc, value, room)?)),
        TypeName::Endpoint => Some(AnyWrite::Endpoint(put_in(alloc, value, room)?)),
        TypeName::Listener => Some(AnyWrite::Listener(put_in(alloc, value, room)?)),
        TypeName::Route => Some(AnyWrite::Route(put_in(alloc, value, room)?)),
        TypeName::Secret => Some(AnyWrite::Secret(put_in(alloc, value, room)?)),
    }
}

fn put_in<T: ResourceType>(alloc: Global, value: &Value<'_>, room: usize) -> Option<Write<T>>
    requires ordered { IsOrdered (value_view value.now) }
    requires shallow { nesting (value_view value.now) ≤ suc max_nesting }
    requires typed { get (codes "typeUrl") (meaning (value_view value.now)) ≡ Some (string (row T.TYPE).url) }
    ensures { IfSome result (λ w. SpellsWrite (meaning (value_view value.now)) T.TYPE w) }
{
    let name = name_in(value)?;
    let stamp = stamp_in(value)?;
    let groups = groups_in(alloc, value)?;
    let body = find_member(value, "body")?;
    let resource = resource_in(alloc, body, name, room)?;
    Some(Write::put(stamp, resource, groups))
}

// The resource of this name that a body is.
fn resource_in<T: ResourceType>(
    alloc: Global,
    body: &Value<'_>,
    name: &str,
    room: usize,
) -> Option<Resource<T>>
    requires ordered { IsOrdered (value_view body.now) }
    requires shallow { nesting (value_view body.now) ≤ max_nesting }
    requires valid { is_valid name.now ≡ true }
    ensures { IfSome result
        (λ r. (r.name ≡ name.now) × (from_value T.TYPE (meaning (value_view body.now)) ≡ Ok r)) }
{
    if !is_resource(body, T::TYPE, name) {
        return None;
    }
    let Ok(text) = text_of(alloc, body, room) else {
        return None;
    };
    if text.as_str().len() > MAX_TEXT {
        return None;
    }
    match Resource::of_text(alloc, name, text) {
        Ok(resource) => Some(resource),
        Err(_) => None,
    }
}

// Whether a body is of the type, and has this name.
fn is_resource(body: &Value<'_>, kind: TypeName, name: &str) -> bool
    requires { IsOrdered (value_view body.now) }
    ensures typed { result ≡ true → type_text (meaning (value_view body.now)) ≡ Some (row kind).url }
    ensures named { result ≡ true → resource_name kind (meaning (value_view body.now)) ≡ Some name.now }
{
    let (Some(url), Some(held)) = (text_at(body, "@type"), name_of_body(body, kind)) else {
        return false;
    };
    url == kind.url() && held == name
}

// The text of the field that names a resource of the type.
fn name_of_body<'a>(body: &Value<'a>, kind: TypeName) -> Option<&'a str>
    requires { IsOrdered (value_view body.now) }
    ensures { IfSome result (λ s.
        field (row kind).name_field (row kind).proto_name_field (meaning (value_view body.now)) ≡ Some (string s.now)) }
{
    match find_member(body, kind.name_field()) {
        Some(held) => text_in(held),
        None => text_at(body, kind.proto_name_field()),
    }
}

// The text that a member is.
fn text_at<'a>(value: &Value<'a>, key: &str) -> Option<&'a str>
    requires { IsOrdered (value_view value.now) }
    ensures { IfSome result (λ s. get key.now (meaning (value_view value.now)) ≡ Some (string s.now)) }
{
    text_in(find_member(value, key)?)
}

// The type of the table whose URL is there.
fn type_in(value: &Value<'_>) -> Option<TypeName>
    requires { IsOrdered (value_view value.now) }
    ensures { IfSome result
        (λ t. get (codes "typeUrl") (meaning (value_view value.now)) ≡ Some (string (row t).url)) }
{
    TypeName::from_url(text_at(value, "typeUrl")?)
}

// The name, if a resource may have it.
fn name_in<'a>(value: &Value<'a>) -> Option<&'a str>
    requires { IsOrdered (value_view value.now) }
    ensures found { IfSome result (λ s. get (codes "name") (meaning (value_view value.now)) ≡ Some (string s.now)) }
    ensures valid { IfSome result (λ s. is_valid s.now ≡ true) }
{
    let name = text_at(value, "name")?;
    if is_valid_name(name) {
        Some(name)
    } else {
        None
    }
}

// The stamp of the counter and the writer, if they are in range.
fn stamp_in(value: &Value<'_>) -> Option<Stamp>
    requires { IsOrdered (value_view value.now) }
    ensures counter { IfSome result (λ s.
        get (codes "counter") (meaning (value_view value.now)) ≡ Some (number (unsigned s.counter))) }
    ensures writer { IfSome result (λ s.
        get (codes "writer") (meaning (value_view value.now)) ≡ Some (number (unsigned s.writer))) }
{
    let counter = number_at(value, "counter")?;
    let writer = u16::try_from(number_at(value, "writer")?).ok()?;
    if counter == 0 || counter > MAX_COUNTER || writer == 0 {
        return None;
    }
    Some(Stamp::new(counter, writer))
}

// The whole number that a member is.
fn number_at(value: &Value<'_>, key: &str) -> Option<u64>
    requires { IsOrdered (value_view value.now) }
    ensures { IfSome result (λ n. get key.now (meaning (value_view value.now)) ≡ Some (number (unsigned n))) }
{
    whole_number(find_member(value, key)?)
}

// rule: groups
// The groups that are there, none where there is no such member.
fn groups_in(alloc: Global, value: &Value<'_>) -> Option<Groups>
    requires { IsOrdered (value_view value.now) }
    ensures { IfSome result (λ g. AreGroups (get (codes "groups") (meaning (value_view value.now))) g) }
{
    let texts = match find_member(value, "groups") {
        Some(list) => texts_in(alloc, list)?,
        None => Vec::new(alloc),
    };
    match groups_from(alloc, texts.as_slice()) {
        Ok(groups) => Some(groups),
        Err(_) => None,
    }
}
